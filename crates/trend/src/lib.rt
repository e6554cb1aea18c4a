// What a campaign says: counts, response, summary.
#![tactic(auto)]

pub mod answering;
pub mod counting;
mod dividing;
mod measuring;
mod rooms;
pub mod summarising;

// The days in each of the five states.
#[derive(Clone, Copy)]
pub struct Tally {
    pub unseen: u32,
    pub standing: u32,
    pub overloaded: u32,
    pub dead: u32,
    pub withdrawn: u32,
}

// The highest r, the lowest r and r at the peak.
#[derive(Clone, Copy)]
pub struct Extremes {
    pub highest: i64,
    pub lowest: i64,
    pub peak: i64,
}

// Each over (P+1)·n, n periods standing.
#[derive(Clone, Copy)]
pub struct Levels {
    pub highest: f64,
    pub lowest: f64,
    pub peak: f64,
}

// Document 01 names this form: nothing, the levels, or a refusal's number.
#[derive(Clone, Copy)]
pub enum Summary {
    Nothing,
    Measured(Levels),
    Refused(u32),
}
