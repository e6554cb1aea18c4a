// What becomes of a day whose night has passed the checks.
ghost use Rattle.std.specs.Prelude.{◌≡◌};
ghost use Rattle.sums.specs.Refusals.{first};
ghost use Rattle.refusals.specs.Causes.{number};
ghost use Rattle.nights.specs.Nights.{periods_of};
ghost use Rattle.campaign.specs.Calls.{enter_checks, term_of, stayed_outcome, found_outcome};
ghost use Rattle.campaign.specs.declared.Verdict.TheVariants.{Refused};

use crate::{Entered, Entry, Verdict};
use finding::Finding;
use nights::Night;
use nights::shape::{periods_of, run_in};
use records::filing::{file, mark};
use records::slots::fill_slot;
use records::tables::find;
use records::{Campaign, DEAD, FREE, OVERLOADED, STANDING};
use refusals::Refusal;
use register::shift::full_period;

// The record with the verdict beside the day.
pub fn entered(c: Campaign, d: u32, verdict: Verdict) -> Entered
    ensures { result ≡ record { entry = record { day = d; verdict = verdict }; campaign = c } }
{
    Entered {
        entry: Entry { day: d, verdict },
        campaign: c,
    }
}

// The record as it was, with the refusal's number beside the day.
pub fn refused(c: Campaign, d: u32, refusal: Refusal) -> Entered
    ensures { result ≡ record { entry = record { day = d; verdict = Refused (number refusal) }; campaign = c } }
{
    entered(c, d, Verdict::Refused(refusal.number()))
}

// The periods of a night with no fault, summed, go to the lowest-numbered free slot and are added to the sums, refusing 12.
fn keep(
    c: Campaign,
    store: &mut [i32],
    sums: &mut [i64],
    d: u32,
    night: Night,
    y: &[i32],
) -> Entered
    requires { first (enter_checks c store.old sums.old d night y.now) ≡ 0 }
    ensures { (result, store.new, sums.new) ≡ stayed_outcome c store.old sums.old d (periods_of night) (term_of c night y.now) }
{
    if c.days_in(STANDING) == c.capacity {
        return refused(c, d, Refusal::Full);
    }
    let s = find(&c.slots, c.capacity as usize, FREE);
    let period = full_period(c.order) as usize;
    let from = run_in(night, period);
    let m = periods_of(night) as u8;
    fill_slot(s, period, m, &y[from..], store, sums);
    entered(file(c, d, STANDING, s, d as u16, m), d, Verdict::Kept(s))
}

// What becomes of a day whose night has passed the checks and is found to be this.
pub fn settle(
    c: Campaign,
    store: &mut [i32],
    sums: &mut [i64],
    d: u32,
    night: Night,
    y: &[i32],
    found: Finding,
) -> Entered
    requires { first (enter_checks c store.old sums.old d night y.now) ≡ 0 }
    ensures { (result, store.new, sums.new) ≡ found_outcome found c store.old sums.old d (periods_of night) (term_of c night y.now) }
{
    match found {
        Finding::Overloaded(p) => entered(mark(c, d, OVERLOADED), d, Verdict::Overloaded(p)),
        Finding::Dead => entered(mark(c, d, DEAD), d, Verdict::Dead),
        Finding::Kept => keep(c, store, sums, d, night, y),
    }
}
