// The default taps: an entry for each order, and each maximal.
#![tactic(auto)]

pub mod taps;
