// The answer of start.
ghost use Rattle.std.specs.Prelude.{◌≡◌, ◌||◌, [], ◌∷◌, ◌++◌, ◌*◌, ◌≤◌, ltb, Err};
ghost use Rattle.sums.specs.Refusals.{first};
ghost use Rattle.refusals.specs.Causes.{said};
ghost use Rattle.register.specs.Register.{P};
ghost use Rattle.register.specs.Calls.{taps_checks, answer_of};
ghost use Rattle.campaign.specs.Calls.{slots_out, edition_out, started_as, start_outcome};

use crate::Started;
use records::filing::blank;
use records::tables::outside;
use records::{Campaign, MOST_SLOTS};
use refusals::Refusal;
use register::taps::check_taps;
use rounding::editions::is_edition;
use samples::clearing::fill_front;

// Whether the store is short of C·P samples, or the sums of P.
fn memory_short(capacity: usize, period: usize, store: usize, sums: usize) -> bool
    requires { (capacity ≤ 64) × (period ≤ 65535) }
    ensures { result ≡ ltb store (capacity * period) || ltb sums period }
{
    store < capacity * period || sums < period
}

// The checks 1, 2, 3, 4, 9, 24 and 6 of a start with so much memory, and the period where none refuses.
pub fn check_start(
    order: u32,
    taps: u32,
    capacity: u32,
    edition: u32,
    store: usize,
    sums: usize,
) -> Result<u32, Refusal>
    ensures { said result ≡ answer_of order taps (first (taps_checks order taps ++ (9, slots_out capacity) ∷ (24, edition_out edition) ∷ (6, ltb store (capacity * P order) || ltb sums (P order)) ∷ [])) }
{
    let period = check_taps(order, taps)?;
    if outside(capacity, MOST_SLOTS) {
        return Err(Refusal::Slots);
    }
    if !is_edition(edition) {
        return Err(Refusal::Edition);
    }
    if memory_short(capacity as usize, period as usize, store, sums) {
        return Err(Refusal::Room);
    }
    Ok(period)
}

// The record as it was, with what refuses the start.
fn refused(c: Campaign, refusal: Refusal) -> Started
    ensures { result ≡ record { answer = Err refusal; campaign = c } }
{
    Started {
        answer: Err(refusal),
        campaign: c,
    }
}

// Every day unseen, every slot free, zeros in the store and the sums, refusing 1, 2, 3, 4, 9, 24, 6.
pub fn start(
    c: Campaign,
    order: u32,
    taps: u32,
    capacity: u32,
    edition: u32,
    store: &mut [i32],
    sums: &mut [i64],
) -> Started
    ensures { (started_as result, store.new, sums.new) ≡ start_outcome c order taps capacity edition store.old sums.old }
{
    let period = match check_start(order, taps, capacity, edition, store.len(), sums.len()) {
        Err(refusal) => return refused(c, refusal),
        Ok(period) => period,
    };
    fill_front(store, capacity as usize * period as usize, 0);
    fill_front(sums, period as usize, 0);
    Started {
        answer: Ok(period),
        campaign: blank(order, taps, capacity, edition),
    }
}
