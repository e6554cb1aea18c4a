// A campaign's record, and whether it holds together with the store and the sums that are lent.
#![tactic(auto)]

pub mod filing;
pub mod slots;
mod stored;
pub mod tables;
pub mod together;

// A year's days, and the most slots that a campaign has.
pub const DAYS: usize = 366;

pub const SLOTS: usize = 64;

// The same as the largest numbers that a caller may hand in.
pub const LAST_DAY: u32 = DAYS as u32;

pub const MOST_SLOTS: u32 = SLOTS as u32;

// A day's states.
pub const UNSEEN: u8 = 0;

pub const STANDING: u8 = 1;

pub const OVERLOADED: u8 = 2;

pub const DEAD: u8 = 3;

pub const WITHDRAWN: u8 = 4;

// What a slot holds in a day's place where it is free, and how many periods it then has.
pub const FREE: u16 = 0;

pub const NO_PERIODS: u8 = 0;

// `capacity` is how many slots it has, and `edition` that of the report rules; `days` holds each day's state, `slots` each slot's day, and `periods` how
// many periods that day's night had. Document 01 names the form: number arrays, by value.
#[derive(Clone, Copy)]
pub struct Campaign {
    pub order: u32,
    pub taps: u32,
    pub capacity: u32,
    pub edition: u32,
    pub days: [u8; DAYS],
    pub slots: [u16; SLOTS],
    pub periods: [u8; SLOTS],
}
