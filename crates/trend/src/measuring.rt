// The levels of a summary: the extremes of a response read from the transformed room, and the double of each.
ghost use Rattle.std.specs.Prelude.{◌≡◌, cond, ℕ, ◌+◌, ◌-◌, ◌^◌, ◌≤◌, ◌<◌, leb, nat_abs, ◌-ℤ◌, length};
ghost use Rattle.sums.specs.Lists.{at};
ghost use Rattle.register.specs.Register.{P, wave, tag as tag_of};
ghost use Rattle.response.specs.Response.{response};
ghost use Rattle.samples.specs.Samples.{cleared_wide, cleared_tags};
ghost use Rattle.trend.specs.Calls.{extremes_of, level};

use crate::Extremes;
use register::accepted::Register;
use response::gather::reading;
use response::respond::transform_room;
use response::spread::spread_wide;
use samples::clearing::fill_front;

// A whole number over another.
pub fn level_of(z: i64, d: u64) -> f64
    requires { (nat_abs z < 2 ^ 53) × (0 < d) × (d < 2 ^ 53) }
    ensures { result ≡ level z d }
{
    z as f64 / d as f64
}

// The new number where its size is at least the old's. The library's `max` goes by the sign too.
fn larger(old: i64, new: i64) -> i64
    ensures { result ≡ cond (leb (nat_abs old) (nat_abs new)) new old }
{
    if old.unsigned_abs() <= new.unsigned_abs() {
        new
    } else {
        old
    }
}

// The extremes of what stands at the places of the response, read from the last place to the first, so that the first of those that tie is kept.
pub fn read_extremes(register: Register, t: &[i64], period: usize) -> Extremes
    requires period_in_bounds { (period ≡ P register.order) × (period < length t.now) }
    requires by_index { (w : ℕ) → w ≤ period → nat_abs (at t.now w) < 2 ^ 62 }
    ensures { result ≡ extremes_of period (λ k. at t.now (tag_of register.order register.taps (period - k)) -ℤ at t.now 0) }
{
    let mut tag = register.tag_step(1);
    let mut highest = reading(t, tag);
    let mut lowest = highest;
    let mut peak = highest;
    for _ in 1..period {
        tag = register.tag_step(tag);
        let z = reading(t, tag);
        highest = highest.max(z);
        lowest = lowest.min(z);
        peak = larger(peak, z);
    }
    Extremes {
        highest,
        lowest,
        peak,
    }
}

// The extremes of the response of the first P numbers, worked in the room lent, which is cleared.
pub fn measure(register: Register, y: &[i64], room: &mut [i64], tags: &mut [u16]) -> Extremes
    requires y_value { (j : ℕ) → j < P register.order → nat_abs (at y.now j) ≤ 2 ^ 34 }
    requires register_in_bounds { (P register.order ≤ length y.now) × (P register.order < length room.old) × (P register.order ≤ length tags.old) }
    ensures { (result ≡ extremes_of (P register.order) (response (P register.order) (wave register.order register.taps) (at y.now)))
        × (room.new ≡ cleared_wide (P register.order + 1) room.old)
        × (tags.new ≡ cleared_tags (P register.order) tags.old) }
{
    let period = register.period() as usize;
    spread_wide(register, y, room);
    transform_room(register.order, room, period + 1);
    let extremes = read_extremes(register, room, period);
    fill_front(room, period + 1, 0);
    fill_front(tags, period, 0);
    extremes
}
