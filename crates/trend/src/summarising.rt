// The answer of summary.
ghost use Rattle.std.specs.Prelude.{◌≡◌, [], ◌∷◌, ◌^◌, ◌<◌, nat_abs};
ghost use Rattle.sums.specs.Refusals.{first};
ghost use Rattle.refusals.specs.Causes.{answer};
ghost use Rattle.register.specs.Register.{P};
ghost use Rattle.samples.specs.Samples.{work_short};
ghost use Rattle.records.specs.Record.{apart};
ghost use Rattle.trend.specs.Calls.{level, summary_outcome};

use crate::dividing::divisor_of;
use crate::measuring::{level_of, measure};
use crate::{Extremes, Levels, Summary};
use records::together::holds;
use records::{Campaign, STANDING};
use refusals::Refusal;
use register::accepted::Register;
use register::shift::full_period;
use samples::lengths::work_short;

// Each extreme over the same divisor.
fn levels_of(e: Extremes, d: u64) -> Levels
    requires highest_bound { (nat_abs e.highest < 2 ^ 53) × (nat_abs e.lowest < 2 ^ 53) × (nat_abs e.peak < 2 ^ 53) }
    requires d_nonzero { (0 < d) × (d < 2 ^ 53) }
    ensures { result ≡ record { highest = level e.highest d; lowest = level e.lowest d; peak = level e.peak d } }
{
    Levels {
        highest: level_of(e.highest, d),
        lowest: level_of(e.lowest, d),
        peak: level_of(e.peak, d),
    }
}

// The checks 15 and 6 of a summary with so much room.
fn check_summary(
    c: &Campaign,
    store: &[i32],
    sums: &[i64],
    room: usize,
    tags: usize,
) -> Result<(), Refusal>
    ensures { answer result ≡ first ((15, apart c.now store.now sums.now)
        ∷ (6, work_short (P c.now.order) room tags) ∷ []) }
{
    if !holds(c, store, sums) {
        return Err(Refusal::Apart);
    }
    if work_short(full_period(c.order) as usize, room, tags) {
        return Err(Refusal::Room);
    }
    Ok(())
}

// Nothing where no day stands, else the levels, refusing 15, 6.
pub fn summary(
    c: Campaign,
    store: &[i32],
    sums: &[i64],
    room: &mut [i64],
    tags: &mut [u16],
) -> Summary
    ensures { (result, room.new, tags.new)
        ≡ summary_outcome c store.now sums.now room.old tags.old }
{
    if let Err(refusal) = check_summary(&c, store, sums, room.len(), tags.len()) {
        return Summary::Refused(refusal.number());
    }
    if c.days_in(STANDING) == 0 {
        return Summary::Nothing;
    }
    let divisor = divisor_of(&c);
    let extremes = measure(Register::new(c.order, c.taps), sums, room, tags);
    Summary::Measured(levels_of(extremes, divisor))
}
