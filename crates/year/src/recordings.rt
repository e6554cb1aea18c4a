// The day of a visit, its night and its recording.
ghost use Rattle.std.specs.Prelude.{ℕ, ◌^◌, ◌≤◌, ◌<◌, length};
ghost use Rattle.nights.specs.Nights.{periods_of};
ghost use Rattle.year.specs.Lent.{recording, visits};

use crate::Held;
use crate::plan::Plan;
use nights::Night;
use nights::shape::{night_length, run_in};
use records::DAYS;
use samples::{HIGHEST_SAMPLE, LOWEST_SAMPLE};

pub fn day_of(i: usize) -> u32
    requires { i < visits }
{
    (149 * i % DAYS) as u32 + 1
}

// Two visits of five are captures, of one period and on to the most.
pub fn night_of(i: usize, most: usize) -> Night
    requires { (1 ≤ most) × (most ≤ 16) }
    ensures { (1 ≤ periods_of result) × (periods_of result ≤ most) }
{
    match i % 5 {
        2 | 4 => Night::Capture((i / 5 % most + 1) as u32),
        _ => Night::Period,
    }
}

// The sample that lies so far above the smallest one between the rails, -HIGHEST_SAMPLE.
fn up_by(n: usize) -> i32
    requires { n < 2 ^ 25 }
{
    n as i32 - HIGHEST_SAMPLE
}

// A sample strictly between the rails.
fn sounding(i: usize, j: usize) -> i32
    requires { (i < visits) × (j < recording) }
{
    up_by((7919 * i + 104729 * j + 31 * i * j) % 16777213 + 1)
}

// How far the samples of a quiet visit lie apart.
fn spread(i: usize) -> usize
    ensures { result < 10 }
{
    i / 11 % 10
}

// Its smallest sample, by how far up that is: next to the lower rail, so that the largest is next to the upper one, or near 0.
fn smallest(i: usize) -> usize
    ensures { result < 2 ^ 24 }
{
    match i % 3 {
        0 => 0,
        1 => 16777213 - spread(i),
        _ => 8388507 + i % 200,
    }
}

fn quiet(i: usize, j: usize) -> i32
    requires { (i < visits) × (j < recording) }
{
    up_by(smallest(i) + 31 * i * j % (spread(i) + 1))
}

// The sample of each place.
fn write<F: Fn(usize) -> i32>(y: &mut [i32], sample: F)
    requires { (j : ℕ) → j < length y.old → F.pre sample j }
{
    for (j, x) in y.iter_mut().enumerate() {
        *x = sample(j);
    }
}

fn rail(i: usize) -> i32 {
    if i % 2 == 0 {
        LOWEST_SAMPLE
    } else {
        HIGHEST_SAMPLE
    }
}

fn overload(y: &mut [i32], i: usize)
    requires { 0 < length y.old }
{
    let n = y.len();
    y[i % n] = rail(i);
    y[n - 1] = HIGHEST_SAMPLE;
}

// The smallest and the largest sample of a quiet visit, each at a place.
fn widen(y: &mut [i32], i: usize)
    requires { (i < visits) × (0 < length y.old) }
{
    let n = y.len();
    y[i % n] = up_by(smallest(i));
    y[(i + 3) % n] = up_by(smallest(i) + spread(i));
}

// A run-in has a sample at a rail, which is no overload.
fn mark_run_in(y: &mut [i32], i: usize) {
    let n = y.len();
    if 0 < n {
        y[i % n] = HIGHEST_SAMPLE;
    }
}

fn quieten(y: &mut [i32], i: usize)
    requires { (i < visits) × (0 < length y.old) × (length y.old ≤ recording) }
{
    write(y, |j| quiet(i, j));
    widen(y, i);
}

// What is judged of visit i: as a rule kept, now and then overloaded, dead or nearly dead.
fn disturb(y: &mut [i32], i: usize)
    requires { (i < visits) × (0 < length y.old) × (length y.old ≤ recording) }
{
    match i % 11 {
        3 => overload(y, i),
        7 => quieten(y, i),
        _ => (),
    }
}

// The recording of visit i behind a run-in of so many samples.
fn record_night(y: &mut [i32], from: usize, i: usize)
    requires { (i < visits) × (from < length y.old) × (length y.old ≤ recording) }
{
    write(y, |j| sounding(i, j));
    mark_run_in(&mut y[..from], i);
    disturb(&mut y[from..], i);
}

// How many samples visit i has.
pub fn length_of(plan: Plan, i: usize) -> usize
    ensures { result ≤ recording }
{
    night_length(night_of(i, plan.most), plan.period)
}

// The recording of visit i, at hand from here on.
pub fn record(held: &mut Held, plan: Plan, i: usize)
    requires { i < visits }
{
    let period = plan.period;
    let night = night_of(i, plan.most);
    let length = night_length(night, period);
    record_night(&mut held.y[..length], run_in(night, period), i);
}
