// A night's samples: one period, or a capture of several behind a run-in.
#![tactic(auto)]

pub mod shape;
pub mod summing;

// The most periods that a night counts.
pub const MOST_PERIODS: u32 = 16;

#[derive(Clone, Copy)]
pub enum Night {
    // One period, and no run-in.
    Period,
    // A run-in of one period, and then so many that count.
    Capture(u32),
}
