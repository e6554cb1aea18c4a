// The three demands on one page: laws, and no code.
#![tactic(auto)]
