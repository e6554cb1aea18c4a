// The answer of judge.
ghost use Rattle.std.specs.Prelude.{◌≡◌};
ghost use Rattle.refusals.specs.Causes.{number, steps};
ghost use Rattle.judging.specs.Judging.{judge_outcome};
ghost use Rattle.judging.specs.declared.Judged.TheVariants.{Refused};

use crate::listening::hear;
use crate::verdicts::judged_of;
use crate::{Judged, Judgement};
use nights::Night;
use refusals::Refusal;
use register::taps::check_taps;

fn refused(refusal: Refusal) -> Judgement
    ensures { result ≡ record { verdict = Refused (number refusal); period = steps refusal } }
{
    Judgement {
        verdict: Judged::Refused(refusal.number()),
        period: refusal.steps(),
    }
}

// Overloaded, otherwise dead, otherwise kept, refusing 1, 2, 3, 4, 18, 5, 7.
pub fn judge(order: u32, taps: u32, night: Night, y: &[i32]) -> Judgement
    ensures { result ≡ judge_outcome order taps night y.now }
{
    match check_taps(order, taps) {
        Err(refusal) => refused(refusal),
        Ok(period) => match hear(order, night, y) {
            Err(refusal) => refused(refusal),
            Ok(found) => Judgement {
                verdict: judged_of(found),
                period,
            },
        },
    }
}
