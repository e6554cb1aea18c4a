// One turn after another, until the program stops: each turn's text is written, and where too few bytes are at hand more are read.
// No contract can say what is read or written, so a function that reads or writes decides nothing: what its answer leads to is a function of
// that answer.
ghost use Rattle.std.specs.Prelude.{◌≡◌, ◌+◌, ◌-◌, ◌^◌, ◌≤◌, ◌<◌, length, Some, None, is_some, unwrap_or, MatchResult};
ghost use Rattle.logeffects.specs.Book.{memory};
ghost use Rattle.logprogram.specs.Program.{first_memory};
ghost use Rattle.meterlog.specs.Buffer.{midway, Inside, stopping, after_write, after_read, Refilled, Stepped, Ended};

use crate::{Failed, Progress};
use logitems::feeding::to_front;
use logprogram::Turned;
use logprogram::turning::{bad, first_mark, stop, take_turn};
use std::io;
use std::io::Read;

// 2^60: a proved loop has to end, and nothing says that the input does.
const MOST_TURNS: u64 = 1152921504606846976;

// Nothing more is read or written.
fn halt(p: Progress, failed: Failed) -> Progress
    ensures { result ≡ stopping p failed }
{
    Progress {
        mark: stop(p.mark),
        failed: Some(failed),
        ..p
    }
}

// After a turn whose text was handed to be written.
fn written(p: Progress, t: Turned, wrote: bool) -> Progress
    requires { p.from + t.used ≤ p.to }
    ensures { result ≡ after_write p t wrote }
{
    let next = Progress {
        mark: t.mark,
        from: p.from + t.used,
        failed: None,
        ..p
    };
    if wrote {
        return next;
    }
    halt(next, Failed::Writing)
}

// After a read, by how many bytes came, where it could be done.
fn received(p: Progress, came: Option<usize>) -> Progress
    requires { (p.from ≤ p.to) × (p.to - p.from + unwrap_or came 0 < 2 ^ 64) }
    ensures { result ≡ after_read p (is_some came) (unwrap_or came 0) }
{
    let n = came.unwrap_or(0);
    let next = Progress {
        from: 0,
        to: p.to - p.from + n,
        ended: n == 0,
        failed: None,
        ..p
    };
    match came {
        Some(_) => next,
        None => halt(next, Failed::Reading),
    }
}

// What a read answered: `Some` of how many bytes came, or `None` where it failed.
fn answered(answer: io::Result<usize>) -> Option<usize>
    ensures { MatchResult answer (λ n. result ≡ Some n) (λ e. result ≡ None) }
{
    answer.ok()
}

fn read_once(rt: &impl Input, bytes: &mut [u8]) -> Option<usize>
    ensures { unwrap_or result 0 ≤ length bytes.new }
{
    answered(rt.reader().read(bytes))
}

// One read: the bytes at hand go to the front of the buffer, and more behind them, where there is room.
fn refill(rt: &impl Input, p: Progress, bytes: &mut [u8]) -> Progress
    requires { Inside p bytes.old × (p.to - p.from < length bytes.old) }
    ensures { Refilled p bytes.old result bytes.new × Inside result bytes.new }
{
    to_front(bytes, p.from, p.to);
    let left = p.to - p.from;
    let came = read_once(rt, &mut bytes[left..]);
    received(p, came)
}

// Where the input cannot be read the log is bad.
fn tell_unread(rt: &impl Print, p: Progress, out: &mut [u8])
    requires { 128 ≤ length out.old }
{
    if let Some(Failed::Reading) = p.failed {
        let t = bad(p.mark, out);
        let _ = rt.write_all(&out[..t.length]);
    }
}

fn read_more(rt: &(impl Input + Print), p: Progress, bytes: &mut [u8], out: &mut [u8]) -> Progress
    requires { Inside p bytes.old × (p.to - p.from < length bytes.old) × (128 ≤ length out.old) }
    ensures { Refilled p bytes.old result bytes.new × Inside result bytes.new }
{
    let next = refill(rt, p, bytes);
    tell_unread(rt, next, out);
    next
}

// A report that is cut must not pass for a whole one.
fn tell_unwritten(rt: &impl Eprint, p: Progress) {
    if let Some(Failed::Writing) = p.failed {
        let _ = eprintln!(rt; "meterlog: the report could not be written whole");
    }
}

// One turn: its text is written, or, where too few bytes are at hand, more are read.
fn step(
    rt: &(impl Input + Print + Eprint),
    p: Progress,
    bytes: &mut [u8],
    out: &mut [u8],
    store: &mut [i32],
    sums: &mut [i64],
    recording: &mut [i32],
    r: &mut [i64],
    mean: &mut [i32],
    room: &mut [i64],
    tags: &mut [u16],
) -> Progress
    requires inside { Inside p bytes.old × (p.mark.offset < 2 ^ 63) × (5 ≤ length bytes.old) }
    requires in_bounds { (511 ≤ length r.old) × (511 ≤ length mean.old) × (65536 ≤ length out.old) }
    ensures stepped { Stepped
        (midway p bytes.old (memory store.old sums.old recording.old r.old mean.old room.old tags.old))
        (midway result bytes.new (memory store.new sums.new recording.new r.new mean.new room.new tags.new))
        result.failed }
    ensures inside_2 { Inside result bytes.new }
{
    let Some(t) = take_turn(
        p.mark,
        &bytes[p.from..p.to],
        p.ended,
        store,
        sums,
        recording,
        r,
        mean,
        room,
        tags,
        out,
    ) else {
        return read_more(rt, p, bytes, out);
    };
    let wrote = rt.write_all(&out[..t.length]).is_ok();
    let next = written(p, t, wrote);
    tell_unwritten(rt, next);
    next
}

// All turns, from the beginning.
pub fn run(
    rt: &(impl Input + Print + Eprint),
    bytes: &mut [u8],
    out: &mut [u8],
    store: &mut [i32],
    sums: &mut [i64],
    recording: &mut [i32],
    r: &mut [i64],
    mean: &mut [i32],
    room: &mut [i64],
    tags: &mut [u16],
) -> Progress
    requires tags_value { memory store.old sums.old recording.old r.old mean.old room.old tags.old ≡ first_memory }
    requires in_bounds { (65536 ≤ length out.old) × (5 ≤ length bytes.old) }
    ensures ended { Ended
        (midway result bytes.new (memory store.new sums.new recording.new r.new mean.new room.new tags.new))
        result.failed }
    ensures inside { Inside result bytes.new }
{
    let mut p = Progress {
        mark: first_mark(),
        from: 0,
        to: 0,
        ended: false,
        failed: None,
    };
    for _turn in 0..MOST_TURNS {
        p = step(
            rt, p, bytes, out, store, sums, recording, r, mean, room, tags,
        );
        if !p.mark.going {
            return p;
        }
    }
    p
}
