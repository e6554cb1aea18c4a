// The C door: each public call as a function of C, on numbers and slices. The crate meter_c exports them.
#![tactic(auto)]

pub mod campaigns;
pub mod filing;
pub mod judgements;
mod periods;
pub mod recordings;
pub mod registers;
pub mod short_rooms;
mod tables;
mod verdicts;
