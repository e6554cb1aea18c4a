// The player of a register's sequence, one sign at each sample clock.
#![tactic(auto)]

pub mod clock;

use refusals::Refusal;

// What the sample clock steps: the window's bit 0 goes out next; the count runs modulo 2^32.
#[derive(Clone, Copy)]
pub struct Player {
    pub order: u32,
    pub taps: u32,
    pub window: u32,
    pub count: u32,
}

// The sign that one clock of a player gives, +1 or -1, and the player as it is after it.
#[derive(Clone, Copy)]
pub struct Stepped {
    pub tick: Result<i32, Refusal>,
    pub player: Player,
}

// Whether a block of signs was given, and the player as it is after it.
#[derive(Clone, Copy)]
pub struct Played {
    pub answer: Result<(), Refusal>,
    pub player: Player,
}
