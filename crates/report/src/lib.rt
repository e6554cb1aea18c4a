// The lines that a log's items make, as bytes.
#![tactic(auto)]

pub mod printing;

use campaign::Entry;
use refusals::Answer;
use trend::Tally;

// The line that an item makes.
#[derive(Clone, Copy)]
pub enum Line {
    Silent,
    Started(Answer),
    // The answer.
    Edition(u32),
    Entered(Entry),
    // The day and the answer.
    Withdrawn(u32, u32),
    // The answer and the counts.
    Answered(u32, Tally),
}

// Room for the longest line.
pub const LINE_ROOM: usize = 128;

// A line's bytes: the first `length` of them, as there is no heap for a `String`. A `write!` promises its text only where it succeeds, and a line cannot fail.
#[derive(Clone, Copy)]
pub struct Text {
    pub bytes: [u8; LINE_ROOM],
    pub length: usize,
}
