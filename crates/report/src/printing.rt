// The lines as bytes: each method of a text puts something behind what is in it.
ghost use Rattle.std.specs.Prelude.{◌≡◌, List, [], ◌∷◌, ◌++◌, ◌+◌, ◌≤◌, ◌<◌, length, take, drop};
ghost use Rattle.campaign.specs.Calls.{verdict_number};
ghost use Rattle.report.specs.Lines.{decimal, decimal_z, spaced, answer_text, verdict_word, one_line, start_line, enter_line, withdraw_line, response_line};
ghost use Rattle.report.specs.Lines.{line_bytes, row_bytes, bad_bytes, Wrote, Added, Spells};

use crate::{LINE_ROOM, Line, Text};
use campaign::{Entry, Verdict};
use refusals::Answer;
use trend::Tally;

// The digits of the largest number, and the place of its last one.
const DIGITS: usize = 20;

const LAST_DIGIT: usize = 19;

// A word in a buffer from a place on, and the place past it.
pub fn put_word(word: &[u8], out: &mut [u8], at: usize) -> usize
    requires { at + length word.now ≤ length out.old }
    ensures { Wrote word.now at out.old result out.new }
{
    let next = at + word.len();
    out[at..next].copy_from_slice(word);
    next
}

// A number's digits at the end of a room for them, from the place that is answered.
fn fill_digits(n: u64, room: &mut [u8; DIGITS]) -> usize
    ensures { (drop result room.new ≡ decimal n) × (result < 20) }
{
    let mut i = LAST_DIGIT;
    let mut rest = n;
    // By what is left of the number, and by no range.
    while 10 <= rest {
        room[i] = b'0' + (rest % 10) as u8;
        rest /= 10;
        i -= 1;
    }
    room[i] = b'0' + rest as u8;
    i
}

impl Text {
    fn new() -> Text
        ensures { result.length ≡ 0 }
    {
        Text {
            bytes: [0; LINE_ROOM],
            length: 0,
        }
    }

    fn word(&mut self, word: &[u8])
        requires { self.old.length + length word.now ≤ 128 }
        ensures { Added word.now self.old self.new }
    {
        self.length = put_word(word, &mut self.bytes, self.length);
    }

    fn number(&mut self, n: u64)
        requires { self.old.length + 20 ≤ 128 }
        ensures { Added (decimal n) self.old self.new × (self.new.length ≤ self.old.length + 20) }
    {
        let mut room = [0; DIGITS];
        let from = fill_digits(n, &mut room);
        self.word(&room[from..]);
    }

    // After a space.
    fn spaced(&mut self, n: u64)
        requires { self.old.length + 21 ≤ 128 }
        ensures { Added (spaced n) self.old self.new × (self.new.length ≤ self.old.length + 21) }
    {
        self.word(b" ");
        self.number(n);
    }

    // Two numbers, each after a space.
    fn pair(&mut self, a: u32, b: u32)
        requires { self.old.length + 42 ≤ 128 }
        ensures { Added (spaced a ++ spaced b) self.old self.new × (self.new.length ≤ self.old.length + 42) }
    {
        self.spaced(u64::from(a));
        self.spaced(u64::from(b));
    }

    fn signed(&mut self, z: i64)
        requires { self.old.length + 21 ≤ 128 }
        ensures { Added (decimal_z z) self.old self.new × (self.new.length ≤ self.old.length + 21) }
    {
        if z < 0 {
            self.word(b"-");
        }
        self.number(z.unsigned_abs());
    }

    fn verdict(&mut self, verdict: Verdict)
        requires { self.old.length + 9 ≤ 128 }
        ensures { Added (verdict_word verdict) self.old self.new × (self.new.length ≤ self.old.length + 9) }
    {
        match verdict {
            Verdict::Kept(_) => self.word(b" kept"),
            Verdict::Overloaded(_) => self.word(b" overload"),
            Verdict::Dead => self.word(b" dead"),
            Verdict::Refused(_) => self.word(b" -"),
        }
    }

    // The number, and after 4 the period: a line has the numbers alone.
    fn answer(&mut self, answer: Answer)
        requires { self.old.length + 42 ≤ 128 }
        ensures { Added (answer_text answer) self.old self.new × (self.new.length ≤ self.old.length + 42) }
    {
        if answer.number == 4 {
            self.pair(answer.number, answer.period);
        } else {
            self.spaced(u64::from(answer.number));
        }
    }
}

// The paper's number of a verdict.
fn number_of(verdict: Verdict) -> u32
    ensures { result ≡ verdict_number verdict }
{
    match verdict {
        Verdict::Kept(_) => 0,
        Verdict::Overloaded(_) => 0,
        Verdict::Dead => 0,
        Verdict::Refused(n) => n,
    }
}

// `start answer`, and after 4 the period
fn start_text(answer: Answer) -> Text
    ensures { Spells (start_line answer) result }
{
    let mut text = Text::new();
    text.word(b"start");
    text.answer(answer);
    text.word(b"\n");
    text
}

// `enter day answer verdict`
fn enter_text(entry: Entry) -> Text
    ensures { Spells (enter_line entry) result }
{
    let mut text = Text::new();
    text.word(b"enter");
    text.spaced(u64::from(entry.day));
    text.spaced(u64::from(number_of(entry.verdict)));
    text.verdict(entry.verdict);
    text.word(b"\n");
    text
}

// `withdraw day answer`
fn withdraw_text(day: u32, answer: u32) -> Text
    ensures { Spells (withdraw_line day answer) result }
{
    let mut text = Text::new();
    text.word(b"withdraw");
    text.pair(day, answer);
    text.word(b"\n");
    text
}

// `response answer standing overloaded dead withdrawn`
fn response_text(answer: u32, tally: Tally) -> Text
    ensures { Spells (response_line answer tally) result }
{
    let mut text = Text::new();
    text.word(b"response");
    text.spaced(u64::from(answer));
    text.pair(tally.standing, tally.overloaded);
    text.pair(tally.dead, tally.withdrawn);
    text.word(b"\n");
    text
}

// A word and a number.
fn one_text(word: &[u8], n: u64) -> Text
    requires { length word.now ≤ 16 }
    ensures { Spells (one_line word.now n) result }
{
    let mut text = Text::new();
    text.word(word);
    text.spaced(n);
    text.word(b"\n");
    text
}

// The line that an item makes.
pub fn line_text(line: Line) -> Text
    ensures { (take result.length result.bytes ≡ line_bytes line) × (result.length ≤ 128) }
{
    match line {
        Line::Silent => Text::new(),
        Line::Started(answer) => start_text(answer),
        Line::Edition(answer) => one_text(b"edition", u64::from(answer)),
        Line::Entered(entry) => enter_text(entry),
        Line::Withdrawn(day, answer) => withdraw_text(day, answer),
        Line::Answered(answer, tally) => response_text(answer, tally),
    }
}

// A line of the response: `k r mean`
pub fn row_text(k: u64, r: i64, mean: i64) -> Text
    ensures { (take result.length result.bytes ≡ row_bytes k r mean) × (result.length ≤ 128) }
{
    let mut text = Text::new();
    text.number(k);
    text.word(b" ");
    text.signed(r);
    text.word(b" ");
    text.signed(mean);
    text.word(b"\n");
    text
}

// The last line of a log that is bad at this offset.
pub fn bad_text(offset: u64) -> Text
    ensures { (take result.length result.bytes ≡ bad_bytes offset) × (result.length ≤ 128) }
{
    one_text(b"bad", offset)
}
