// A year of nights through the proved calls, as docs/YEAR.md has it: a second program prints the same lines.
#![tactic(auto)]

mod calls;
mod memory;
mod plan;
mod recordings;
mod refusing;
mod signals;
mod visits;

use plan::{Opening, Plan};
use records::Campaign;
use visits::campaign_lines;

// How much the calls are lent: more than any of them needs.
pub const STORE: usize = 24600;

pub const PLACES: usize = 600;

pub const TAGS: usize = 1100;

pub const RECORDING: usize = 2600;

// A campaign's record with all else that its calls are lent: the store, the sums, the recording at hand, and the rooms for an answer.
#[derive(Clone, Copy)]
pub struct Held {
    pub campaign: Campaign,
    pub store: [i32; STORE],
    pub sums: [i64; PLACES],
    pub y: [i32; RECORDING],
    pub r: [i64; PLACES],
    pub mean: [i32; PLACES],
    pub room: [i64; PLACES],
    pub tags: [u16; TAGS],
}

fn main(rt: HostRuntime) {
    let small = Plan {
        opening: Opening {
            order: 3,
            taps: 3,
            capacity: 5,
        },
        period: 7,
        lag: 6,
        most: 16,
    };
    let large = Plan {
        opening: Opening {
            order: 9,
            taps: 17,
            capacity: 48,
        },
        period: 511,
        lag: 60,
        most: 4,
    };
    campaign_lines(&rt, small);
    campaign_lines(&rt, large);
}
