// Samples: their range and its rails, buffers cleared, rows copied and added, and lengths that are too short.
#![tactic(auto)]

pub mod clearing;
pub mod lengths;
pub mod range;
pub mod rows;

pub const LOWEST_SAMPLE: i32 = -8388608;

pub const HIGHEST_SAMPLE: i32 = 8388607;
