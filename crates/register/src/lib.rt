// The shift register: its taps judged, its sequence written.
#![tactic(auto)]

pub mod accepted;
pub mod doubling;
pub mod returning;
pub mod sequence;
pub mod shift;
pub mod taps;

// The orders that document 01 takes.
pub const LEAST_ORDER: u32 = 2;

pub const MOST_ORDER: u32 = 16;
