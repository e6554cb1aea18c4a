// What the memory holds before a campaign: at place i, i mod 7.
use crate::{Held, PLACES, RECORDING};
use records::Campaign;
use std::array;

fn value_at(i: usize) -> u16 {
    (i % 7) as u16
}

fn narrow(i: usize) -> i32 {
    i32::from(value_at(i))
}

// A record with a filled store, filled sums and rooms, and no recording yet.
pub fn filled(campaign: Campaign) -> Held {
    let wide: [i64; PLACES] = array::from_fn(|i| i64::from(value_at(i)));
    Held {
        campaign,
        store: array::from_fn(narrow),
        sums: wide,
        y: [0; RECORDING],
        r: wide,
        mean: array::from_fn(narrow),
        room: wide,
        tags: array::from_fn(value_at),
    }
}
