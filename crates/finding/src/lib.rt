// What a recording is found to be before anything is kept: overloaded, dead or kept.
#![tactic(auto)]

pub mod looking;
pub mod rails;
mod spread;

// The largest spread of a dead recording.
pub const DEAD_SPREAD: i64 = 7;

#[derive(Clone, Copy)]
pub enum Finding {
    // At a rail, first at this place.
    Overloaded(usize),
    // Its largest sample minus its smallest is 7 or less.
    Dead,
    // Neither.
    Kept,
}
