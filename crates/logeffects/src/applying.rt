// What an item does to the state and the memory lent, and the line that it makes.
ghost use Rattle.std.specs.Prelude.{◌≡◌, true};
ghost use Rattle.sums.specs.Refusals.{first};
ghost use Rattle.refusals.specs.Causes.{answer, numbered, said as said_of};
ghost use Rattle.register.specs.Calls.{answer_of};
ghost use Rattle.campaign.specs.Calls.{started_as, withdrawn_as};
ghost use Rattle.logitems.specs.Kinds.{kind_sample};
ghost use Rattle.logitems.specs.Phases.{may_stand};
ghost use Rattle.logitems.specs.Log.{kind_of};
ghost use Rattle.logeffects.specs.Book.{unbegun_book, too_large, log_start_checks, day_length, said, started_by, began_outcome, edition_by, edition_outcome, unheld, kept_sample, took_sample};
ghost use Rattle.logeffects.specs.Book.{log_enter_checks, judged_then_filed, entered_by, entered_outcome, closed_outcome, withdrawn_by, withdrew_outcome, tallied, asked_outcome, memory, applied};

use crate::{Applied, Book, LOG_ORDER, LOG_PERIODS, LOG_SLOTS};
use campaign::entering::file;
use campaign::starting::start;
use campaign::withdrawing::withdraw;
use campaign::{Entered, Entry, Started, Verdict, Withdrawn};
use judging::judging::judge;
use logitems::phases::{
    after_answer, after_enter, after_open, after_other, after_sample, first_phase,
};
use logitems::{Item, Phase};
use nights::shape::periods_of;
use nights::{MOST_PERIODS, Night};
use records::filing::blank;
use records::tables::outside;
use records::{Campaign, LAST_DAY, MOST_SLOTS};
use refusals::{Answer, Refusal, told};
use register::shift::full_period;
use register::taps::check_taps;
use report::Line;
use rounding::AWAY_FROM_ZERO;
use trend::Tally;
use trend::answering::response;
use trend::counting::counts;

// The state before the first item.
pub fn unbegun() -> Book
    ensures { result ≡ unbegun_book }
{
    Book {
        phase: first_phase(),
        campaign: blank(0, 0, 0, 0),
    }
}

// Whether the order or the capacity is above what the program takes.
fn too_large(order: u32, capacity: u32) -> bool
    ensures { result ≡ too_large order capacity }
{
    LOG_ORDER < order || LOG_SLOTS < capacity
}

// The checks 1, 2, 3, 4, 9 and 17 of a start, and the period where none refuses.
fn check_start(order: u32, taps: u32, capacity: u32) -> Result<u32, Refusal>
    ensures { said_of result ≡ answer_of order taps (first (log_start_checks order taps capacity)) }
{
    let period = check_taps(order, taps)?;
    if outside(capacity, MOST_SLOTS) {
        return Err(Refusal::Slots);
    }
    if too_large(order, capacity) {
        return Err(Refusal::Program);
    }
    Ok(period)
}

// A day has P samples, for the orders that the program takes.
pub fn day_length(order: u32) -> usize
    ensures { result ≡ day_length order }
{
    if LOG_ORDER < order {
        return 0;
    }
    full_period(order) as usize
}

// The phase, the campaign and the line, with no lines after it.
fn say(phase: Phase, campaign: Campaign, line: Line) -> Applied
    ensures { result ≡ said phase campaign line }
{
    Applied {
        book: Book { phase, campaign },
        line,
        rows: 0,
    }
}

fn started_by(s: Started) -> Applied
    ensures { result ≡ started_by (started_as s) }
{
    let answer = Answer::from(s.answer);
    say(
        after_answer(true, answer.number),
        s.campaign,
        Line::Started(answer),
    )
}

// A start in edition 1, refusing 1, 2, 3, 4, 9, 17.
fn begin(
    c: Campaign,
    order: u32,
    taps: u32,
    capacity: u32,
    store: &mut [i32],
    sums: &mut [i64],
) -> Applied
    ensures { (result, store.new, sums.new) ≡ began_outcome c order taps capacity store.old sums.old }
{
    let checked = check_start(order, taps, capacity);
    if checked.is_err() {
        return started_by(Started {
            answer: checked,
            campaign: c,
        });
    }
    started_by(start(c, order, taps, capacity, AWAY_FROM_ZERO, store, sums))
}

fn edition_by(s: Started) -> Applied
    ensures { result ≡ edition_by (started_as s) }
{
    let answer = Answer::from(s.answer);
    say(
        after_answer(false, answer.number),
        s.campaign,
        Line::Edition(answer.number),
    )
}

// The same campaign afresh in this edition, refusing 24.
fn restart(c: Campaign, edition: u32, store: &mut [i32], sums: &mut [i64]) -> Applied
    ensures { (result, store.new, sums.new) ≡ edition_outcome c edition store.old sums.old }
{
    edition_by(start(c, c.order, c.taps, c.capacity, edition, store, sums))
}

// Whether the samples of a night of m periods are counted and not kept.
fn not_held(m: u32) -> bool
    ensures { result ≡ unheld m }
{
    outside(m, LOG_PERIODS)
}

// The sample goes to place n of the recording, where a night of m periods is kept.
fn keep_sample(m: u32, n: usize, v: i32, recording: &mut [i32])
    ensures { recording.new ≡ kept_sample m n v recording.old }
{
    if not_held(m) {
        return;
    }
    if n < recording.len() {
        recording[n] = v;
    }
}

// A sample that may stand there is the next of the open day.
fn take_sample(book: Book, v: i32, recording: &mut [i32]) -> Phase
    requires { may_stand book.phase (day_length book.campaign.order) kind_sample ≡ true }
    ensures { (result, recording.new) ≡ took_sample book.phase v recording.old }
{
    let phase = book.phase;
    if let Phase::Open(day, night, n) = phase {
        keep_sample(periods_of(night), n, v, recording);
        return after_sample(day, night, n);
    }
    phase
}

// The checks 10, 18 and 17 of a night, whose samples are kept where none refuses.
fn check_night(day: u32, night: Night) -> Result<(), Refusal>
    ensures { answer result ≡ first (log_enter_checks day night) }
{
    let m = periods_of(night);
    if !not_held(m) {
        return Ok(());
    }
    if outside(day, LAST_DAY) {
        return Err(Refusal::Day);
    }
    if outside(m, MOST_PERIODS) {
        return Err(Refusal::Periods);
    }
    Err(Refusal::Program)
}

fn entered_by(e: Entered) -> Applied
    ensures { result ≡ entered_by e }
{
    say(after_enter(), e.campaign, Line::Entered(e.entry))
}

// The night is judged, and then filed with the verdict that this gave.
fn file_night(
    c: Campaign,
    day: u32,
    night: Night,
    store: &mut [i32],
    sums: &mut [i64],
    y: &[i32],
) -> Entered
    ensures { (result, store.new, sums.new) ≡ judged_then_filed c day night store.old sums.old y.now }
{
    let judgement = judge(c.order, c.taps, night, y);
    file(c, store, sums, day, night, y, judgement.verdict)
}

// The open day's recording is judged and filed, refusing 10, 18, 17 where its samples are not kept, and the day is closed.
fn enter_day(
    c: Campaign,
    day: u32,
    night: Night,
    n: usize,
    store: &mut [i32],
    sums: &mut [i64],
    recording: &[i32],
) -> Applied
    ensures { (result, store.new, sums.new) ≡ entered_outcome c day night n store.old sums.old recording.now }
{
    if let Err(refusal) = check_night(day, night) {
        return entered_by(Entered {
            entry: Entry {
                day,
                verdict: Verdict::Refused(refusal.number()),
            },
            campaign: c,
        });
    }
    let came = n.min(recording.len());
    entered_by(file_night(c, day, night, store, sums, &recording[..came]))
}

fn close(
    phase: Phase,
    c: Campaign,
    store: &mut [i32],
    sums: &mut [i64],
    recording: &[i32],
) -> Applied
    ensures { (result, store.new, sums.new) ≡ closed_outcome phase c store.old sums.old recording.now }
{
    if let Phase::Open(day, night, n) = phase {
        return enter_day(c, day, night, n, store, sums, recording);
    }
    say(phase, c, Line::Silent)
}

fn withdrawn_by(day: u32, w: Withdrawn) -> Applied
    ensures { result ≡ withdrawn_by day (withdrawn_as w) }
{
    say(
        after_other(),
        w.campaign,
        Line::Withdrawn(day, told(w.answer)),
    )
}

fn withdraw_day(c: Campaign, day: u32, store: &mut [i32], sums: &mut [i64]) -> Applied
    ensures { (result, store.new, sums.new) ≡ withdrew_outcome c day store.old sums.old }
{
    withdrawn_by(day, withdraw(c, store, sums, day))
}

fn tally_or_none(counted: Result<Tally, Refusal>) -> Tally
    ensures { result ≡ tallied (numbered counted) }
{
    match counted {
        Ok(tally) => tally,
        Err(_) => Tally {
            unseen: 0,
            standing: 0,
            overloaded: 0,
            dead: 0,
            withdrawn: 0,
        },
    }
}

fn ask(
    c: Campaign,
    store: &[i32],
    sums: &[i64],
    r: &mut [i64],
    mean: &mut [i32],
    room: &mut [i64],
    tags: &mut [u16],
) -> Applied
    ensures { (result, r.new, mean.new, room.new, tags.new)
        ≡ asked_outcome c store.now sums.now r.old mean.old room.old tags.old }
{
    let answer = response(c, store, sums, r, mean, room, tags);
    let tally = tally_or_none(counts(c, store, sums));
    let line = Line::Answered(told(answer), tally);
    let book = Book {
        phase: after_other(),
        campaign: c,
    };
    if answer.is_err() {
        return Applied {
            book,
            line,
            rows: 0,
        };
    }
    Applied {
        book,
        line,
        rows: day_length(c.order),
    }
}

// The work of an item that may stand there, with the line that it makes. The memory is lent piece by piece: of a struct of lent slices the check takes no two that are
// lent at once.
#[tactic(auto, unfolding(crate::specs::Book::applied))]
pub fn apply(
    book: Book,
    item: Item,
    store: &mut [i32],
    sums: &mut [i64],
    recording: &mut [i32],
    r: &mut [i64],
    mean: &mut [i32],
    room: &mut [i64],
    tags: &mut [u16],
) -> Applied
    requires { may_stand book.phase (day_length book.campaign.order) (kind_of item) ≡ true }
    ensures { (result, memory store.new sums.new recording.new r.new mean.new room.new tags.new)
        ≡ applied book item (memory store.old sums.old recording.old r.old mean.old room.old tags.old) }
{
    let c = book.campaign;
    match item {
        Item::Start(order, taps, capacity) => begin(c, order, taps, capacity, store, sums),
        Item::Open(day) => say(after_open(day, Night::Period), c, Line::Silent),
        Item::Sample(v) => say(take_sample(book, v, recording), c, Line::Silent),
        Item::Enter => close(book.phase, c, store, sums, recording),
        Item::Withdraw(day) => withdraw_day(c, day, store, sums),
        Item::Ask => ask(c, store, sums, r, mean, room, tags),
        Item::Capture(day, m) => say(after_open(day, Night::Capture(m)), c, Line::Silent),
        Item::Edition(edition) => restart(c, edition, store, sums),
    }
}
