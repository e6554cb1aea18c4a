// The Hadamard transform of 2^n signed numbers, in place.
#![tactic(auto)]

mod passes; // one level of butterflies, and two, in a pass over the numbers
mod small; // the transforms of 2, 8 and 16 numbers
mod recursion; // the transform of 2^n

pub use recursion::transform;
