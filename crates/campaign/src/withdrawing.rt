// The answer of withdraw.
ghost use Rattle.std.specs.Prelude.{◌≡◌};
ghost use Rattle.sums.specs.Refusals.{first};
ghost use Rattle.refusals.specs.Causes.{answer};
ghost use Rattle.campaign.specs.Calls.{withdraw_checks, withdrawn_as, withdraw_outcome};

use crate::Withdrawn;
use crate::days::check_day;
use records::filing::file;
use records::slots::empty_slot;
use records::tables::find;
use records::{Campaign, FREE, NO_PERIODS, WITHDRAWN};
use refusals::Refusal;
use register::shift::full_period;

// The checks 15, 10 and 13.
fn check_withdrawal(c: &Campaign, store: &[i32], sums: &[i64], d: u32) -> Result<(), Refusal>
    ensures { answer result ≡ first (withdraw_checks c.now store.now sums.now d) }
{
    check_day(c, store, sums, d)?;
    if !c.day_stands(d) {
        return Err(Refusal::NotStanding);
    }
    Ok(())
}

// A standing day leaves the sums, and its slot is free and holds zeros, refusing 15, 10, 13.
pub fn withdraw(c: Campaign, store: &mut [i32], sums: &mut [i64], d: u32) -> Withdrawn
    ensures { (withdrawn_as result, store.new, sums.new) ≡ withdraw_outcome c store.old sums.old d }
{
    if let Err(refusal) = check_withdrawal(&c, store, sums, d) {
        return Withdrawn {
            answer: Err(refusal),
            campaign: c,
        };
    }
    let s = find(&c.slots, c.capacity as usize, d as u16);
    empty_slot(s, full_period(c.order) as usize, store, sums);
    Withdrawn {
        answer: Ok(()),
        campaign: file(c, d, WITHDRAWN, s, FREE, NO_PERIODS),
    }
}
