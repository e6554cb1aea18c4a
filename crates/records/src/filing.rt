// The record of no days, with a day in another state, and with a slot given to it or taken from it.
ghost use Rattle.std.specs.Prelude.{◌≡◌, ◌≤◌, ◌<◌};
ghost use Rattle.records.specs.Record.{fresh, marked, filed};

use crate::{Campaign, DAYS, FREE, NO_PERIODS, SLOTS, UNSEEN};

// Every day unseen, every slot free.
pub fn blank(order: u32, taps: u32, capacity: u32, edition: u32) -> Campaign
    ensures { result ≡ fresh order taps capacity edition }
{
    Campaign {
        order,
        taps,
        capacity,
        edition,
        days: [UNSEEN; DAYS],
        slots: [FREE; SLOTS],
        periods: [NO_PERIODS; SLOTS],
    }
}

// Day d in the state q.
pub fn mark(c: Campaign, d: u32, q: u8) -> Campaign
    requires { (1 ≤ d) × (d ≤ 366) }
    ensures { result ≡ marked c d q }
{
    let mut r = c;
    r.days[d as usize - 1] = q;
    r
}

// And slot s with the day t, of m periods.
pub fn file(c: Campaign, d: u32, q: u8, s: usize, t: u16, m: u8) -> Campaign
    requires { (1 ≤ d) × (d ≤ 366) × (s < 64) }
    ensures { result ≡ filed c d q s t m }
{
    let mut r = mark(c, d, q);
    r.slots[s] = t;
    r.periods[s] = m;
    r
}
