// The answer of counts.
ghost use Rattle.std.specs.Prelude.{◌≡◌};
ghost use Rattle.refusals.specs.Causes.{numbered};
ghost use Rattle.trend.specs.Calls.{tally, counts_outcome};

use crate::Tally;
use records::together::holds;
use records::{Campaign, DEAD, OVERLOADED, STANDING, UNSEEN, WITHDRAWN};
use refusals::Refusal;

// The days in each of the five states.
fn tally_of(c: &Campaign) -> Tally
    ensures { result ≡ tally c.now }
{
    Tally {
        unseen: c.days_in(UNSEEN),
        standing: c.days_in(STANDING),
        overloaded: c.days_in(OVERLOADED),
        dead: c.days_in(DEAD),
        withdrawn: c.days_in(WITHDRAWN),
    }
}

// The days in each of the five states, refusing 15.
pub fn counts(c: Campaign, store: &[i32], sums: &[i64]) -> Result<Tally, Refusal>
    ensures { numbered result ≡ counts_outcome c store.now sums.now }
{
    if !holds(&c, store, sums) {
        return Err(Refusal::Apart);
    }
    Ok(tally_of(&c))
}
