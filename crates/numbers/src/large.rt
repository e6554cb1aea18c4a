// The lines of every order's prediction and of its response, and of the loudest recordings.
ghost use Rattle.std.specs.Prelude.{◌≤◌, length};

use crate::signals::{fill_pattern, fill_turns};
use defaults::taps::default_taps;
use lines::answers::number_told;
use lines::digest::{digest, digest_scaled};
use register::shift::full_period;
use register::{LEAST_ORDER, MOST_ORDER};
use samples::{HIGHEST_SAMPLE, LOWEST_SAMPLE};

// The longest period.
const LONGEST: usize = 65535;

// What the calls are lent, enough for every order: a response, a recording, and the rooms for an answer.
#[derive(Drop)]
struct Lent {
    h: [i32; LONGEST],
    y: [i32; LONGEST],
    out: [i64; LONGEST],
    room: [i64; LONGEST + 1],
    tags: [u16; LONGEST],
}

fn predicted_line(rt: &impl Print, order: u32, taps: u32, h: &[i32], y: &mut [i32]) {
    let answer = prediction::predict(order, taps, h, y);
    let _ = println!(rt; "predict {order} {} {}", number_told(answer), digest(y));
}

fn response_line(
    rt: &impl Print,
    order: u32,
    taps: u32,
    y: &[i32],
    out: &mut [i64],
    room: &mut [i64],
    tags: &mut [u16],
) {
    let answer = response::one_recording(order, taps, y, out, room, tags);
    let _ = println!(rt; "response {order} {} {}", number_told(answer), digest(out));
}

// P + 1 times the response.
fn recovered_line(rt: &impl Print, order: u32, h: &[i32])
    requires { length h.now ≤ 65535 }
{
    let _ = println!(rt; "recovered {order} {}", digest_scaled(h, h.len() + 1));
}

// The default taps, and 0 where the order has none.
pub fn taps_of(order: u32) -> u32 {
    default_taps(order).unwrap_or(0)
}

// A response predicted, and the prediction turned back.
fn order_lines(
    rt: &impl Print,
    order: u32,
    h: &mut [i32],
    y: &mut [i32],
    out: &mut [i64],
    room: &mut [i64],
    tags: &mut [u16],
)
    requires { length h.old ≤ 65535 }
{
    let taps = taps_of(order);
    fill_pattern(h);
    predicted_line(rt, order, taps, h, y);
    response_line(rt, order, taps, y, out, room, tags);
    recovered_line(rt, order, h);
}

// The same in just as much of what is lent as the order needs. Each field is lent whole before it is cut, since the borrow checker covers no cut of two fields at once.
fn lines_within(rt: &impl Print, order: u32, lent: &mut Lent)
    requires { order ≤ 16 }
{
    let period = full_period(order) as usize;
    let wide = period + 1;
    let h = &mut lent.h[..];
    let y = &mut lent.y[..];
    let out = &mut lent.out[..];
    let room = &mut lent.room[..];
    let tags = &mut lent.tags[..];
    order_lines(
        rt,
        order,
        &mut h[..period],
        &mut y[..period],
        &mut out[..period],
        &mut room[..wide],
        &mut tags[..period],
    );
}

// The response to the recording at hand.
fn loud_line(rt: &impl Print, name: &str, lent: &mut Lent) {
    let _ = response::one_recording(
        16,
        taps_of(16),
        &lent.y,
        &mut lent.out,
        &mut lent.room,
        &mut lent.tags,
    );
    let _ = println!(rt; "loud {name} {}", digest(&lent.out));
}

// Every number at the lowest sample, then the lowest and the highest in turn.
fn loud_lines(rt: &impl Print, lent: &mut Lent) {
    fill_turns(&mut lent.y, LOWEST_SAMPLE, LOWEST_SAMPLE);
    loud_line(rt, "lowest", lent);
    fill_turns(&mut lent.y, LOWEST_SAMPLE, HIGHEST_SAMPLE);
    loud_line(rt, "rails", lent);
}

pub fn large_lines(rt: &impl Print) {
    let mut lent = Lent {
        h: [0; LONGEST],
        y: [0; LONGEST],
        out: [0; LONGEST],
        room: [0; LONGEST + 1],
        tags: [0; LONGEST],
    };
    for order in LEAST_ORDER..=MOST_ORDER {
        lines_within(rt, order, &mut lent);
    }
    loud_lines(rt, &mut lent);
}
