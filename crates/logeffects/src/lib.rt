// What a log's items do: the state between them, and the line that each makes.
#![tactic(auto)]

pub mod applying;

use logitems::Phase;
use records::Campaign;
use report::Line;

// The largest order and the most slots that the program takes.
pub const LOG_ORDER: u32 = 9;

pub const LOG_SLOTS: u32 = 8;

// The most periods, after the run-in, of a night whose samples the program keeps.
pub const LOG_PERIODS: u32 = 4;

// The state between items, beside the memory lent.
#[derive(Clone, Copy)]
pub struct Book {
    pub phase: Phase,
    pub campaign: Campaign,
}

#[derive(Clone, Copy)]
pub struct Applied {
    pub book: Book,
    pub line: Line,
    // How many lines of the response follow.
    pub rows: usize,
}
