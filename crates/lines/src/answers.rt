// An answer in numbers.
ghost use Rattle.std.specs.Prelude.{◌≡◌};
ghost use Rattle.refusals.specs.Causes.{answer as number_of, answer_period};

use refusals::Refusal;

// 0 where it is accepted, or the refusal's number.
pub fn number_told<T: Copy>(answer: Result<T, Refusal>) -> u32
    ensures { result ≡ number_of answer }
{
    match answer {
        Ok(_) => 0,
        Err(refusal) => refusal.number(),
    }
}

// The period or the steps that it tells, and 0 where it tells none.
pub fn period_told(answer: Result<u32, Refusal>) -> u32
    ensures { result ≡ answer_period answer }
{
    match answer {
        Ok(period) => period,
        Err(refusal) => refusal.steps(),
    }
}
