// What is asked of the record and the day, whatever is to become of it.
ghost use Rattle.std.specs.Prelude.{◌≡◌};
ghost use Rattle.sums.specs.Refusals.{first};
ghost use Rattle.refusals.specs.Causes.{answer};
ghost use Rattle.campaign.specs.Calls.{day_checks};

use records::tables::outside;
use records::together::holds;
use records::{Campaign, LAST_DAY};
use refusals::Refusal;

// The checks 15 and 10.
pub fn check_day(c: &Campaign, store: &[i32], sums: &[i64], d: u32) -> Result<(), Refusal>
    ensures { answer result ≡ first (day_checks c.now store.now sums.now d) }
{
    if !holds(c, store, sums) {
        return Err(Refusal::Apart);
    }
    if outside(d, LAST_DAY) {
        return Err(Refusal::Day);
    }
    Ok(())
}
