// A campaign's log: its items, which document 01 calls records, and what stands at a place of it.
#![tactic(auto)]

pub mod decoding;
pub mod feeding;
pub mod kinds;
pub mod phases;

use nights::Night;

// Where the log stands between items.
#[derive(Clone, Copy)]
pub enum Phase {
    // No item yet.
    Unbegun,
    // Outside a day: whether that is directly after the start.
    Between(bool),
    // In an open day: the day, its night, and how many samples it has so far.
    Open(u32, Night, usize),
    // After a refused start or edition.
    Stopped,
}

// An item of the log.
#[derive(Clone, Copy)]
pub enum Item {
    // Order, taps, capacity.
    Start(u32, u32, u32),
    Open(u32),
    Sample(i32),
    Enter,
    Withdraw(u32),
    Ask,
    // The day, and how many periods count.
    Capture(u32, u32),
    // The edition of the report rules.
    Edition(u32),
}

// What stands at a place of the log.
#[derive(Clone, Copy)]
pub enum Found {
    // A whole item, and how many bytes it takes.
    Whole(Item, usize),
    // What may be the beginning of one: more of the input is needed.
    Short,
    // Nothing that may stand there.
    Bad,
    // The end of the input, where it may be.
    End,
}
