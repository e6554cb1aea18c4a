// The line of a night whose recording starts late, entered into a campaign of its own.
use campaign::Verdict;
use campaign::entering::enter;
use campaign::starting::start;
use lines::print::{bits, line_end, word};
use nights::Night;
use nights::shape::periods_of;
use records::Campaign;
use records::filing::blank;
use rounding::AWAY_FROM_ZERO;
use trend::Summary;
use trend::summarising::summary;

// The campaign has one slot, for the one day that is entered.
const CAPACITY: u32 = 1;

const DAY: u32 = 1;

// What is lent is enough for order 9.
const PLACES: usize = 511;

fn refused_words(rt: &impl Print, n: u32) {
    let _ = print!(rt; " refused {n}");
}

fn summary_words(rt: &impl Print, s: Summary) {
    match s {
        Summary::Nothing => word(rt, b" nothing"),
        Summary::Measured(l) => {
            let _ = print!(rt; " {} {} {}", bits(l.highest), bits(l.lowest), bits(l.peak));
        }
        Summary::Refused(n) => refused_words(rt, n),
    }
}

// A kept night, with the levels of the campaign that holds it.
fn kept_words(rt: &impl Print, c: Campaign, store: &[i32], sums: &[i64]) {
    let mut room = [0i64; PLACES + 1];
    let mut tags = [0u16; PLACES];
    word(rt, b" kept");
    summary_words(rt, summary(c, store, sums, &mut room, &mut tags));
}

fn verdict_words(rt: &impl Print, verdict: Verdict, c: Campaign, store: &[i32], sums: &[i64]) {
    match verdict {
        Verdict::Kept(_) => kept_words(rt, c, store, sums),
        Verdict::Overloaded(p) => {
            let _ = print!(rt; " overload {p}");
        }
        Verdict::Dead => word(rt, b" dead"),
        Verdict::Refused(n) => refused_words(rt, n),
    }
}

// A new campaign.
fn started(order: u32, taps: u32, store: &mut [i32], sums: &mut [i64]) -> Campaign {
    let c = blank(order, taps, CAPACITY, AWAY_FROM_ZERO);
    start(c, order, taps, CAPACITY, AWAY_FROM_ZERO, store, sums).campaign
}

// A night whose recording starts d places late: how many of its periods count, and its verdict.
pub fn night_line(rt: &impl Print, order: u32, taps: u32, night: Night, d: usize, y: &[i32]) {
    let mut store = [0i32; PLACES];
    let mut sums = [0i64; PLACES];
    let c = started(order, taps, &mut store, &mut sums);
    let entered = enter(c, &mut store, &mut sums, DAY, night, y);
    let _ = print!(rt; "late-night {order} {taps} {} {d}", periods_of(night));
    verdict_words(rt, entered.entry.verdict, entered.campaign, &store, &sums);
    line_end(rt);
}
