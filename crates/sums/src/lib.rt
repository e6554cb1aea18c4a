#![tactic(auto)]

// The language of every definition: finite sums over the integers, lists by their places, refusals in their order.
// There is no code here: specs/ has the definitions and proofs/ their laws.
