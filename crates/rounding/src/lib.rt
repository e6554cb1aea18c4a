// The rounding of a mean, by an edition of the report rules.
#![tactic(auto)]

pub mod editions;
pub mod means;

// The editions, by where an exact half goes. They are numbers, as a record that is handed in may hold any other.
pub const AWAY_FROM_ZERO: u32 = 1;

pub const TO_EVEN: u32 = 2;

// A number as 2^times times the rest.
#[derive(Clone, Copy)]
pub struct Halved {
    pub times: u32,
    pub rest: u64,
}
