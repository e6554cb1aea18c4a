// The answer of response.
ghost use Rattle.std.specs.Prelude.{◌≡◌, [], ◌∷◌, eqb};
ghost use Rattle.sums.specs.Refusals.{first};
ghost use Rattle.refusals.specs.Causes.{answer};
ghost use Rattle.register.specs.Register.{P};
ghost use Rattle.records.specs.Record.{standing, days_in, apart};
ghost use Rattle.trend.specs.Calls.{answer_short, response_outcome};

use crate::dividing::divisor_of;
use crate::rooms::answer_short;
use records::together::holds;
use records::{Campaign, STANDING};
use refusals::Refusal;
use register::accepted::Register;
use register::shift::full_period;
use response::of_sums::turn_sums;
use rounding::means::write_means;

// The checks 15, 6 and 14 of a response into so much room.
fn check_response(
    c: &Campaign,
    store: &[i32],
    sums: &[i64],
    r: usize,
    mean: usize,
    room: usize,
    tags: usize,
) -> Result<(), Refusal>
    ensures { answer result ≡ first ((15, apart c.now store.now sums.now)
        ∷ (6, answer_short (P c.now.order) r mean room tags)
        ∷ (14, eqb (days_in c.now standing) 0) ∷ []) }
{
    if !holds(c, store, sums) {
        return Err(Refusal::Apart);
    }
    if answer_short(full_period(c.order) as usize, r, mean, room, tags) {
        return Err(Refusal::Room);
    }
    if c.days_in(STANDING) == 0 {
        return Err(Refusal::NothingStands);
    }
    Ok(())
}

// The response worked from the sums, and the mean over the periods standing, refusing 15, 6, 14.
pub fn response(
    c: Campaign,
    store: &[i32],
    sums: &[i64],
    r: &mut [i64],
    mean: &mut [i32],
    room: &mut [i64],
    tags: &mut [u16],
) -> Result<(), Refusal>
    ensures { (answer result, r.new, mean.new, room.new, tags.new)
        ≡ response_outcome c store.now sums.now r.old mean.old room.old tags.old }
{
    check_response(&c, store, sums, r.len(), mean.len(), room.len(), tags.len())?;
    let register = Register::new(c.order, c.taps);
    let period = register.period() as usize;
    let divisor = divisor_of(&c);
    turn_sums(register, sums, r, room, tags);
    write_means(c.edition, r, mean, period, divisor);
    Ok(())
}
