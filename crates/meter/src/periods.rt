// The period of an answer, where C has a number for it.
ghost use Rattle.std.specs.Prelude.{◌≡◌, cond, eqb};
ghost use Rattle.refusals.specs.Causes.{answer as number_of, answer_period};

use refusals::{Answer, Refusal};

// A period that is told, which is never 0, is written; where none is, what was there stays.
pub fn write_period(told: u32, period: &mut u32)
    ensures { period.new ≡ cond (eqb told 0) period.old told }
{
    if told != 0 {
        *period = told;
    }
}

// The answer's number, and its period where it tells one.
pub fn write_answer(answer: Result<u32, Refusal>, period: &mut u32) -> u32
    ensures { (result ≡ number_of answer) × (period.new ≡ cond (eqb (answer_period answer) 0) period.old (answer_period answer)) }
{
    let told = Answer::from(answer);
    write_period(told.period, period);
    told.number
}
