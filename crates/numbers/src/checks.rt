// The lines of the taps check and of the default taps.
ghost use Rattle.std.specs.Prelude.{◌≤◌};

use defaults::taps::default_taps;
use lines::answers::{number_told, period_told};
use lines::digest::fold;
use register::LEAST_ORDER;
use register::shift::full_period;
use register::taps::check_taps;

// The order and the taps, the answer's number and its period.
fn taps_line(rt: &impl Print, order: u32, taps: u32) {
    let answer = check_taps(order, taps);
    let _ = println!(rt;
        "taps {order} {taps} {} {}",
        number_told(answer),
        period_told(answer)
    );
}

// Orders and taps to be checked: orders out of range, taps that are none, and taps with a short register.
const CHECKED: [(u32, u32); 16] = [
    (1, 3),
    (17, 3),
    (2, 3),
    (2, 1),
    (2, 2),
    (2, 4),
    (4, 15),
    (4, 5),
    (3, 3),
    (3, 5),
    (4, 3),
    (3, 7),
    (5, 3),
    (6, 21),
    (16, 1),
    (16, 65535),
];

pub fn taps_lines(rt: &impl Print) {
    for (order, taps) in CHECKED {
        taps_line(rt, order, taps);
    }
}

// Of larger orders the steps of all short registers take too long.
const MOST_TRIED: u32 = 12;

// Of all taps from 0 to 2^order: how many are accepted, and the digest of every number with its period.
fn all_taps_line(rt: &impl Print, order: u32)
    requires { order ≤ 16 }
{
    let end = full_period(order) + 2;
    let mut count = 0;
    let mut d = 0;
    for taps in 0..end {
        let answer = check_taps(order, taps);
        count += u32::from(answer.is_ok());
        d = fold(
            fold(d, i64::from(number_told(answer))),
            i64::from(period_told(answer)),
        );
    }
    let _ = println!(rt; "all-taps {order} {count} {d}");
}

pub fn all_taps_lines(rt: &impl Print) {
    for order in LEAST_ORDER..=MOST_TRIED {
        all_taps_line(rt, order);
    }
}

fn default_line(rt: &impl Print, order: u32) {
    let _ = match default_taps(order) {
        Ok(taps) => println!(rt; "default {order} 0 {taps}"),
        Err(refusal) => println!(rt; "default {order} {} 0", refusal.number()),
    };
}

pub fn default_lines(rt: &impl Print) {
    for order in 0..19 {
        default_line(rt, order);
    }
}
