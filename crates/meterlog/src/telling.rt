// A word on standard error for a log that is bad and for a refused start, which a refused edition is too, since the program has no exit status to tell them by.
ghost use Rattle.std.specs.Prelude.{◌≡◌, ◌≤◌};
ghost use Rattle.meterlog.specs.Telling.{word_at, word_for};

use crate::{Failed, Progress, Word};
use logitems::Phase;
use logitems::phases::{goes_on, may_end};

// Where the program stopped by itself: the phase there, and how many bytes it read and did not take.
fn word_at(phase: Phase, left: usize) -> Word
    ensures { result ≡ word_at phase left }
{
    if !goes_on(phase) {
        return Word::RefusedStart;
    }
    if left == 0 && may_end(phase) {
        return Word::Silence;
    }
    Word::BadLog
}

// A failed write is told where it happens, and a failed read makes the log bad.
pub fn word_for(p: Progress) -> Word
    requires { p.from ≤ p.to }
    ensures { result ≡ word_for p }
{
    if p.mark.going {
        return Word::Silence;
    }
    match p.failed {
        None => word_at(p.mark.book.phase, p.to - p.from),
        Some(Failed::Writing) => Word::Silence,
        Some(Failed::Reading) => Word::BadLog,
    }
}

pub fn tell(rt: &impl Eprint, word: Word) {
    match word {
        Word::Silence => {}
        Word::BadLog => {
            let _ = eprintln!(rt; "meterlog: the log is bad");
        }
        Word::RefusedStart => {
            let _ = eprintln!(rt; "meterlog: the start was refused");
        }
    }
}
