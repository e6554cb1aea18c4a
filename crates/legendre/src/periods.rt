// The periods offered, and the checks of what a measuring call is handed: a period, and a recording or a response.
ghost use Rattle.std.specs.Prelude.{◌≡◌};
ghost use Rattle.sums.specs.Refusals.{first};
ghost use Rattle.refusals.specs.Causes.{answer};
ghost use Rattle.legendre.specs.Legendre.{offered};
ghost use Rattle.legendre.specs.Calls.{measuring_checks};

use refusals::Refusal;
use samples::range::some_out;

// The longest period rounded up to a multiple of 8, and twice that.
pub const LONGEST: usize = 128;

pub const TWICE_LONGEST: usize = 256;

// Whether a period is offered.
pub fn offers(p: u32) -> bool
    ensures { result ≡ offered p }
{
    matches!(
        p,
        7 | 11 | 19 | 23 | 31 | 43 | 47 | 59 | 67 | 71 | 79 | 83 | 103 | 107 | 127
    )
}

// The checks 25, 5, 6 and 7, with an output of so many places.
pub fn check_measuring(p: u32, y: &[i32], places: usize) -> Result<(), Refusal>
    ensures { answer result ≡ first (measuring_checks p y.now places) }
{
    if !offers(p) {
        return Err(Refusal::NotOffered);
    }
    if y.len() != p as usize {
        return Err(Refusal::Length);
    }
    if places < y.len() {
        return Err(Refusal::Room);
    }
    if some_out(y) {
        return Err(Refusal::Sample);
    }
    Ok(())
}
