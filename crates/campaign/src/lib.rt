// The calls that change a campaign: start, file, enter, withdraw.
#![tactic(auto)]

mod days;
pub mod entering;
mod settling;
pub mod starting;
pub mod withdrawing;

use records::Campaign;
use refusals::Refusal;

// The period where a start is accepted, and the record that it made, or that it was given.
#[derive(Clone, Copy)]
pub struct Started {
    pub answer: Result<u32, Refusal>,
    pub campaign: Campaign,
}

#[derive(Clone, Copy)]
pub enum Verdict {
    // Kept in this slot.
    Kept(usize),
    // At a rail, first at this place after the run-in.
    Overloaded(usize),
    // Its largest sample minus its smallest is 7 or less.
    Dead,
    // The refusal's number, as document 01 names this form.
    Refused(u32),
}

// An entry's answer: the verdict beside the day.
#[derive(Clone, Copy)]
pub struct Entry {
    pub day: u32,
    pub verdict: Verdict,
}

#[derive(Clone, Copy)]
pub struct Entered {
    pub entry: Entry,
    pub campaign: Campaign,
}

#[derive(Clone, Copy)]
pub struct Withdrawn {
    pub answer: Result<(), Refusal>,
    pub campaign: Campaign,
}
