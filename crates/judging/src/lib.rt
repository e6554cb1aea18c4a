// What a night is judged to be, by its samples alone: no record, no day, and nothing is written.
#![tactic(auto)]

pub mod judging;
pub mod listening;
pub mod verdicts;

#[derive(Clone, Copy, Debug, PartialEq, Eq)]
pub enum Judged {
    // Nothing is against it. Which slot it takes is known only when it is filed.
    Kept,
    // At a rail, first at this place after the run-in.
    Overloaded(usize),
    // Its largest sample minus its smallest is 7 or less.
    Dead,
    // The refusal's number, since a caller that files may hand in any.
    Refused(u32),
}

// The verdict, and the steps after which the register first returns to all ones, where it is accepted and where 4 refuses it. At any other refusal the period
// is 0.
#[derive(Clone, Copy)]
pub struct Judgement {
    pub verdict: Judged,
    pub period: u32,
}
