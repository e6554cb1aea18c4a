// The checks of what every measuring call is handed: the order, the taps, and a recording or a response.
ghost use Rattle.std.specs.Prelude.{◌≡◌};
ghost use Rattle.sums.specs.Refusals.{first};
ghost use Rattle.refusals.specs.Causes.{said};
ghost use Rattle.register.specs.Calls.{answer_of};
ghost use Rattle.response.specs.Calls.{given_checks};

use refusals::Refusal;
use register::taps::check_taps;

// The period, refusing 1 to 5.
pub fn check_given(order: u32, taps: u32, y: &[i32]) -> Result<u32, Refusal>
    ensures { said result ≡ answer_of order taps (first (given_checks order taps y.now)) }
{
    let period = check_taps(order, taps)?;
    if y.len() != period as usize {
        return Err(Refusal::Length);
    }
    Ok(period)
}
