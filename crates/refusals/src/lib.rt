// The causes for which a call refuses, each with its number.
#![tactic(auto)]

ghost use Rattle.std.specs.Prelude.{◌≡◌};
ghost use Rattle.refusals.specs.Causes.{number as number_of, steps as steps_of, answer, said};

#[derive(Clone, Copy, Debug, PartialEq, Eq)]
pub enum Refusal {
    // The order is below 2 or above 16.
    Order,
    // The taps are not below 2^N.
    Taps,
    // Tap 0 is clear.
    TapZero,
    // The register is not maximal: it is back at all ones after so many steps.
    NotMaximal(u32),
    // A recording or a response has not the length that it must have.
    Length,
    // An output or working room is too short.
    Room,
    // A value lies outside the sample range.
    Sample,
    // A predicted sample does.
    Predicted,
    // The slot count is not 1 to 64.
    Slots,
    // The day is not 1 to 366.
    Day,
    // The day stands already.
    Standing,
    // The verdict is kept, and as many days stand as there are slots.
    Full,
    // The day does not stand.
    NotStanding,
    // No day stands.
    NothingStands,
    // The record does not hold together.
    Apart,
    // The player's window is zero or not below 2^N.
    Window,
    // The log program alone: the order is above 9 or the slots are above 8.
    Program,
    // A night counts no period, or more than 16.
    Periods,
    // The verdict that was handed in is not judging's.
    Verdict,
    // There is no such edition of the report rules.
    Edition,
    // No Legendre sequence has this period.
    NotOffered,
}

impl Refusal {
    pub fn number(self) -> u32
        ensures { result ≡ number_of self }
    {
        match self {
            Refusal::Order => 1,
            Refusal::Taps => 2,
            Refusal::TapZero => 3,
            Refusal::NotMaximal(_) => 4,
            Refusal::Length => 5,
            Refusal::Room => 6,
            Refusal::Sample => 7,
            Refusal::Predicted => 8,
            Refusal::Slots => 9,
            Refusal::Day => 10,
            Refusal::Standing => 11,
            Refusal::Full => 12,
            Refusal::NotStanding => 13,
            Refusal::NothingStands => 14,
            Refusal::Apart => 15,
            Refusal::Window => 16,
            Refusal::Program => 17,
            Refusal::Periods => 18,
            Refusal::Verdict => 23,
            Refusal::Edition => 24,
            Refusal::NotOffered => 25,
        }
    }

    // The steps that a register which is not maximal is told with, and 0 of any other cause.
    pub fn steps(self) -> u32
        ensures { result ≡ steps_of self }
    {
        match self {
            Refusal::NotMaximal(steps) => steps,
            _ => 0,
        }
    }
}

// An answer of a call that asks for maximal taps, in numbers: 0 or the refusal's number; and the steps after which the register first returns to all ones, where
// it is accepted and where 4 refuses it. At any other refusal the period is 0.
#[derive(Clone, Copy, Debug, PartialEq, Eq)]
pub struct Answer {
    pub number: u32,
    pub period: u32,
}

impl From<Result<u32, Refusal>> for Answer {
    ghost from_gives = { λ outcome result. result ≡ said outcome };

    fn from(outcome: Result<u32, Refusal>) -> Answer {
        match outcome {
            Ok(period) => Answer { number: 0, period },
            Err(refusal) => Answer {
                number: refusal.number(),
                period: refusal.steps(),
            },
        }
    }
}

// What a caller is told that takes numbers alone: 0 where it is accepted, or the refusal's number.
pub fn told(outcome: Result<(), Refusal>) -> u32
    ensures { result ≡ answer outcome }
{
    match outcome {
        Ok(()) => 0,
        Err(refusal) => refusal.number(),
    }
}
