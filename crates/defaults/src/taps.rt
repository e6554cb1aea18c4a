// The table of document 01.
ghost use Rattle.std.specs.Prelude.{◌≡◌};
ghost use Rattle.refusals.specs.Causes.{numbered};
ghost use Rattle.defaults.specs.Calls.{default_outcome};

use refusals::Refusal;

// The default taps of an order, refusing 1.
#[tactic(auto, unfolding(crate::specs::Calls::default_outcome))]
pub fn default_taps(order: u32) -> Result<u32, Refusal>
    ensures { numbered result ≡ default_outcome order }
{
    match order {
        2 | 3 | 4 | 6 | 7 | 15 => Ok(3),
        5 | 11 => Ok(5),
        8 => Ok(29),
        9 => Ok(17),
        10 => Ok(9),
        12 => Ok(83),
        13 => Ok(27),
        14 => Ok(43),
        16 => Ok(45),
        _ => Err(Refusal::Order),
    }
}
