// Where a log stands between items: which kinds may stand there, whether the input may end there, and where each item leads.
ghost use Rattle.std.specs.Prelude.{◌≡◌, ◌+◌, ◌^◌, ◌<◌, ltb};
ghost use Rattle.nights.specs.Nights.{night_length};
ghost use Rattle.logitems.specs.Kinds.{byte_of};
ghost use Rattle.logitems.specs.Phases.{stands_outside, stands_inside, may_stand, may_end, goes_on, first_phase, after_other, after_answer, after_open, after_sample, after_enter};

use crate::Phase;
use crate::kinds::Kind;
use nights::Night;
use nights::shape::{lead_of, periods_of};

// Whether an open day that has n samples so far takes one more: by its whole periods, which no product can overflow. In the first period, which
// every night has, it asks for no division.
fn takes_more(night: Night, n: usize, period: usize) -> bool
    ensures { result ≡ ltb n (night_length period night) }
{
    if n < period {
        return true;
    }
    let periods = lead_of(night) as usize + periods_of(night) as usize;
    period != 0 && n / period < periods
}

impl Kind {
    // Kinds that stand only outside a day, an edition only directly after the start.
    fn stands_outside(self, begun: bool) -> bool
        ensures { result ≡ stands_outside begun (byte_of self) }
    {
        match self {
            Kind::Open | Kind::Withdraw | Kind::Ask | Kind::Capture => true,
            Kind::Edition => begun,
            Kind::Start | Kind::Sample | Kind::Enter => false,
        }
    }

    // Kinds that stand only in an open day, which has n samples so far and takes no more than its night's.
    fn stands_inside(self, night: Night, n: usize, period: usize) -> bool
        ensures { result ≡ stands_inside (byte_of self) n (night_length period night) }
    {
        match self {
            Kind::Enter => true,
            Kind::Sample => takes_more(night, n, period),
            _ => false,
        }
    }

    // The first item is a start and no other is.
    pub fn may_stand(self, phase: Phase, period: usize) -> bool
        ensures { result ≡ may_stand phase period (byte_of self) }
    {
        match phase {
            Phase::Unbegun => self == Kind::Start,
            Phase::Between(begun) => self.stands_outside(begun),
            Phase::Open(_, night, n) => self.stands_inside(night, n, period),
            Phase::Stopped => false,
        }
    }
}

// The same of a byte, whatever it is: one that stands for no kind may stand nowhere.
pub fn may_stand(phase: Phase, period: usize, kind: u8) -> bool
    ensures { result ≡ may_stand phase period kind }
{
    match Kind::try_from(kind) {
        Ok(kind) => kind.may_stand(phase, period),
        Err(_) => false,
    }
}

// The input may end outside a day, once begun.
pub fn may_end(phase: Phase) -> bool
    ensures { result ≡ may_end phase }
{
    matches!(phase, Phase::Between(_) | Phase::Stopped)
}

// Only a refused start or edition stops the log.
pub fn goes_on(phase: Phase) -> bool
    ensures { result ≡ goes_on phase }
{
    !matches!(phase, Phase::Stopped)
}

// Before the first item.
pub fn first_phase() -> Phase
    ensures { result ≡ first_phase }
{
    Phase::Unbegun
}

// After a start, and after an edition, by the answer in the number that a line has.
pub fn after_answer(begun: bool, answer: u32) -> Phase
    ensures { result ≡ after_answer begun answer }
{
    if answer != 0 {
        return Phase::Stopped;
    }
    Phase::Between(begun)
}

// Outside a day, and not directly after the start.
pub fn after_other() -> Phase
    ensures { result ≡ after_other }
{
    Phase::Between(false)
}

// A day is opened with no sample.
pub fn after_open(day: u32, night: Night) -> Phase
    ensures { result ≡ after_open day night }
{
    Phase::Open(day, night, 0)
}

// The open day has one sample more.
pub fn after_sample(day: u32, night: Night, n: usize) -> Phase
    requires { n + 1 < 2 ^ 64 }
    ensures { result ≡ after_sample day night n }
{
    Phase::Open(day, night, n + 1)
}

// The open day is closed.
pub fn after_enter() -> Phase
    ensures { result ≡ after_enter }
{
    after_other()
}
