// Each call with its line. A field is lent whole before it is cut, since the borrow checker covers no cut of two fields at once.
ghost use Rattle.std.specs.Prelude.{◌≤◌};
ghost use Rattle.year.specs.Lent.{store_places, places, recording, tag_places, Within};

use crate::plan::Opening;
use crate::{Held, PLACES, TAGS};
use campaign::entering::enter;
use campaign::starting::start;
use campaign::withdrawing::withdraw;
use campaign::{Entry, Verdict};
use lines::answers::number_told;
use lines::digest::digest;
use lines::print::{bits, line_end};
use nights::Night;
use refusals::Refusal;
use rounding::AWAY_FROM_ZERO;
use trend::Summary;
use trend::answering::response;
use trend::counting::counts;
use trend::summarising::summary;

// A start with the front parts of these lengths.
pub fn start_line(rt: &impl Print, held: &mut Held, opening: Opening, samples: usize, wide: usize)
    requires { (samples ≤ store_places) × (wide ≤ places) }
{
    let store = &mut held.store[..];
    let sums = &mut held.sums[..];
    let started = start(
        held.campaign,
        opening.order,
        opening.taps,
        opening.capacity,
        AWAY_FROM_ZERO,
        &mut store[..samples],
        &mut sums[..wide],
    );
    held.campaign = started.campaign;
    let _ = println!(rt; "start {}", number_told(started.answer));
}

fn verdict_words(rt: &impl Print, verdict: Verdict) {
    let _ = match verdict {
        Verdict::Kept(s) => print!(rt; " 0 kept {s}"),
        Verdict::Overloaded(p) => print!(rt; " 0 overload {p}"),
        Verdict::Dead => print!(rt; " 0 dead 0"),
        Verdict::Refused(n) => print!(rt; " {n} - 0"),
    };
}

fn night_words(rt: &impl Print, night: Night, day: u32) {
    let _ = match night {
        Night::Period => print!(rt; "enter {day}"),
        Night::Capture(m) => print!(rt; "capture {day} {m}"),
    };
}

fn entry_words(rt: &impl Print, night: Night, entry: Entry) {
    night_words(rt, night, entry.day);
    verdict_words(rt, entry.verdict);
    line_end(rt);
}

// The first samples of the recording at hand, entered as this night.
pub fn enter_line(rt: &impl Print, held: &mut Held, d: u32, night: Night, samples: usize)
    requires { samples ≤ recording }
{
    let entered = enter(
        held.campaign,
        &mut held.store,
        &mut held.sums,
        d,
        night,
        &held.y[..samples],
    );
    held.campaign = entered.campaign;
    entry_words(rt, night, entered.entry);
}

pub fn withdraw_line(rt: &impl Print, held: &mut Held, d: u32) {
    let withdrawn = withdraw(held.campaign, &mut held.store, &mut held.sums, d);
    held.campaign = withdrawn.campaign;
    let _ = println!(rt; "withdraw {d} {}", number_told(withdrawn.answer));
}

fn counts_line(rt: &impl Print, held: &Held) {
    let _ = match counts(held.campaign, &held.store, &held.sums) {
        Ok(t) => println!(rt;
            "counts 0 {} {} {} {} {}",
            t.unseen, t.standing, t.overloaded, t.dead, t.withdrawn
        ),
        Err(refusal) => println!(rt; "counts {} 0 0 0 0 0", refusal.number()),
    };
}

// The digests that end the line of a response or a summary.
fn rooms(rt: &impl Print, held: &Held) {
    let _ = println!(rt; " {} {}", digest(&held.room), digest(&held.tags));
}

fn response_words(rt: &impl Print, answer: Result<(), Refusal>, held: &Held) {
    let _ = print!(rt;
        "response {} {} {}",
        number_told(answer),
        digest(&held.r),
        digest(&held.mean)
    );
    rooms(rt, held);
}

// A response into the front parts of these lengths.
pub fn response_line(
    rt: &impl Print,
    held: &mut Held,
    values: usize,
    means: usize,
    wide: usize,
    tagged: usize,
)
    requires { Within values means wide tagged }
{
    let r = &mut held.r[..];
    let mean = &mut held.mean[..];
    let room = &mut held.room[..];
    let tags = &mut held.tags[..];
    let answer = response(
        held.campaign,
        &held.store,
        &held.sums,
        &mut r[..values],
        &mut mean[..means],
        &mut room[..wide],
        &mut tags[..tagged],
    );
    response_words(rt, answer, held);
}

fn summary_words(rt: &impl Print, s: Summary) {
    let _ = match s {
        Summary::Nothing => print!(rt; "summary nothing"),
        Summary::Measured(l) => print!(rt;
            "summary 0 {} {} {}",
            bits(l.highest),
            bits(l.lowest),
            bits(l.peak)
        ),
        Summary::Refused(n) => print!(rt; "summary {n} 0 0 0"),
    };
}

// A summary with the front parts of these lengths.
pub fn summary_line(rt: &impl Print, held: &mut Held, wide: usize, tagged: usize)
    requires { (wide ≤ places) × (tagged ≤ tag_places) }
{
    let room = &mut held.room[..];
    let tags = &mut held.tags[..];
    let found = summary(
        held.campaign,
        &held.store,
        &held.sums,
        &mut room[..wide],
        &mut tags[..tagged],
    );
    summary_words(rt, found);
    rooms(rt, held);
}

pub fn memory_line(rt: &impl Print, held: &Held) {
    let _ = println!(rt; "memory {} {}", digest(&held.store), digest(&held.sums));
}

// Counts, a response and a summary, with all the room there is.
pub fn answers(rt: &impl Print, held: &mut Held) {
    counts_line(rt, held);
    response_line(rt, held, PLACES, PLACES, PLACES, TAGS);
    summary_line(rt, held, PLACES, TAGS);
}

pub fn ask(rt: &impl Print, held: &mut Held) {
    answers(rt, held);
    memory_line(rt, held);
}
