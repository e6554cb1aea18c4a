// What is asked of a night's samples, whoever asks: the checks, and what they are found to be.
ghost use Rattle.std.specs.Prelude.{◌≡◌, ◌≤◌};
ghost use Rattle.refusals.specs.Causes.{numbered};
ghost use Rattle.judging.specs.Judging.{heard_as};

use finding::Finding;
use finding::looking::{look, look_clear};
use finding::rails::some_loud;
use nights::Night;
use nights::shape::{night_length, periods_out, run_in};
use refusals::Refusal;
use register::shift::full_period;
use samples::range::some_out;

// What a night's samples after the run-in are, refusing 18, 5, 7. One pass over all of them is enough where none is at a rail
// or beyond, which is the most common night.
pub fn hear(order: u32, night: Night, y: &[i32]) -> Result<Finding, Refusal>
    requires { order ≤ 16 }
    ensures { numbered result ≡ heard_as order night y.now }
{
    if periods_out(night) {
        return Err(Refusal::Periods);
    }
    let period = full_period(order) as usize;
    if y.len() != night_length(night, period) {
        return Err(Refusal::Length);
    }
    let from = run_in(night, period);
    if some_loud(y) {
        if some_out(y) {
            return Err(Refusal::Sample);
        }
        return Ok(look(&y[from..]));
    }
    Ok(look_clear(&y[from..]))
}
