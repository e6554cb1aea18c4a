// The lines of recordings that start late: the response to each, and the night that it makes.
ghost use Rattle.std.specs.Prelude.{◌≡◌, ◌+◌, ◌*◌, ◌%◌, ◌≤◌, ◌<◌, length};
ghost use Rattle.sums.specs.Turned.{late};

use crate::large::taps_of;
use crate::late_nights::night_line;
use crate::signals::fill_pattern;
use lines::answers::number_told;
use lines::digest::digest;
use lines::print::{line_end, number};
use nights::Night;
use refusals::Refusal;
use samples::{HIGHEST_SAMPLE, LOWEST_SAMPLE};

// The short recordings are of order 3, which has these two maximal taps.
const SHORT_ORDER: u32 = 3;

const SHORT_PERIOD: usize = 7;

const FIRST_TAPS: u32 = 3;

const SECOND_TAPS: u32 = 5;

// The long ones are of order 9.
const LONG_ORDER: u32 = 9;

const LONG_PERIOD: usize = 511;

// Starts at both ends of the period of order 9, and in its middle.
const STARTS: [usize; 9] = [0, 1, 2, 10, 100, 255, 256, 509, 510];

// Two responses of order 3: in the first two numbers tie for the peak, which is then the one that comes first.
const TIED: [i32; SHORT_PERIOD] = [9, 0, -4, 0, 0, -9, 0];

const PEAKED: [i32; SHORT_PERIOD] = [3, 0, -9, 0, 0, 1, 0];

// A recording of whole periods that starts d places late: place j of each period holds what place j + d held, modulo the period.
fn fill_late(y: &[i32], out: &mut [i32], period: usize, d: usize)
    requires { (d < period) × (period ≤ 65535) × (length y.now % period ≡ 0) × (length out.old ≡ length y.now) }
    ensures { out.new ≡ late period d y.now }
{
    for (j, x) in out.iter_mut().enumerate() {
        *x = y[j / period * period + (j % period + d) % period];
    }
}

// What one recording that starts d places late answers.
fn answer_words(rt: &impl Print, order: u32, taps: u32, d: usize, answer: Result<u32, Refusal>) {
    let _ = print!(rt; "late {order} {taps} {d} {}", number_told(answer));
}

// A recording of order 3, with the numbers of its response.
fn short_line(rt: &impl Print, taps: u32, d: usize, y: &[i32]) {
    let mut r = [0i64; SHORT_PERIOD];
    let mut room = [0i64; SHORT_PERIOD + 1];
    let mut tags = [0u16; SHORT_PERIOD];
    let answer = response::one_recording(SHORT_ORDER, taps, y, &mut r, &mut room, &mut tags);
    answer_words(rt, SHORT_ORDER, taps, d, answer);
    for v in r {
        number(rt, v);
    }
    line_end(rt);
}

// What a response predicts, at each start in the period.
fn short_lines(rt: &impl Print, taps: u32, h: &[i32]) {
    let mut y = [0i32; SHORT_PERIOD];
    let mut out = [0i32; SHORT_PERIOD];
    let _ = prediction::predict(SHORT_ORDER, taps, h, &mut y);
    for d in 0..SHORT_PERIOD {
        fill_late(&y, &mut out, SHORT_PERIOD, d);
        short_line(rt, taps, d, &out);
        night_line(rt, SHORT_ORDER, taps, Night::Period, d, &out);
    }
}

// A night of order 3, at each start in the period.
fn short_nights(rt: &impl Print, night: Night, y: &[i32], out: &mut [i32])
    requires { (length y.now % 7 ≡ 0) × (length out.old ≡ length y.now) }
{
    for d in 0..SHORT_PERIOD {
        fill_late(y, out, SHORT_PERIOD, d);
        night_line(rt, SHORT_ORDER, FIRST_TAPS, night, d, out);
    }
}

// What a response predicts, in the place of period i.
fn fill_period(y: &mut [i32], i: usize, h: &[i32])
    requires { i * 7 + 7 ≤ length y.old }
{
    let from = i * SHORT_PERIOD;
    let to = from + SHORT_PERIOD;
    let _ = prediction::predict(SHORT_ORDER, FIRST_TAPS, h, &mut y[from..to]);
}

// A run-in, and two periods that differ.
fn capture_lines(rt: &impl Print) {
    let mut y = [0i32; 3 * SHORT_PERIOD];
    let mut out = [0i32; 3 * SHORT_PERIOD];
    fill_period(&mut y, 0, &PEAKED);
    fill_period(&mut y, 1, &TIED);
    fill_period(&mut y, 2, &PEAKED);
    short_nights(rt, Night::Capture(2), &y, &mut out);
}

// A night at both rails, and one with the widest spread that is still dead.
fn unkept_lines(rt: &impl Print) {
    let rails = [0, 0, 0, HIGHEST_SAMPLE, 0, 0, LOWEST_SAMPLE];
    let dead = [0, 0, 0, 7, 0, 0, 0];
    let mut out = [0i32; SHORT_PERIOD];
    short_nights(rt, Night::Period, &rails, &mut out);
    short_nights(rt, Night::Period, &dead, &mut out);
}

// A recording of order 9, with the digest of its response. It stands beside `short_line` because one function of the period would lend a room of period + 1,
// and a const argument is not computed.
fn long_line(rt: &impl Print, taps: u32, d: usize, y: &[i32]) {
    let mut r = [0i64; LONG_PERIOD];
    let mut room = [0i64; LONG_PERIOD + 1];
    let mut tags = [0u16; LONG_PERIOD];
    let answer = response::one_recording(LONG_ORDER, taps, y, &mut r, &mut room, &mut tags);
    answer_words(rt, LONG_ORDER, taps, d, answer);
    number(rt, digest(&r));
    line_end(rt);
}

// What a response predicts, at some starts in the period.
fn long_lines(rt: &impl Print, h: &[i32]) {
    let taps = taps_of(LONG_ORDER);
    let mut y = [0i32; LONG_PERIOD];
    let mut out = [0i32; LONG_PERIOD];
    let _ = prediction::predict(LONG_ORDER, taps, h, &mut y);
    for d in STARTS {
        fill_late(&y, &mut out, LONG_PERIOD, d);
        long_line(rt, taps, d, &out);
        night_line(rt, LONG_ORDER, taps, Night::Period, d, &out);
    }
}

// The pattern, in which many numbers tie for the peak, and the same with one number above all others.
fn pattern_lines(rt: &impl Print) {
    let mut h = [0i32; LONG_PERIOD];
    fill_pattern(&mut h);
    long_lines(rt, &h);
    h[100] = 300;
    long_lines(rt, &h);
}

pub fn late_lines(rt: &impl Print) {
    short_lines(rt, FIRST_TAPS, &TIED);
    short_lines(rt, FIRST_TAPS, &PEAKED);
    short_lines(rt, SECOND_TAPS, &TIED);
    short_lines(rt, SECOND_TAPS, &PEAKED);
    capture_lines(rt);
    unkept_lines(rt);
    pattern_lines(rt);
}
