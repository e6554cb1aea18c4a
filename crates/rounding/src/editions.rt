// The editions of the report rules, which differ in where an exact half goes.
ghost use Rattle.std.specs.Prelude.{◌≡◌};
ghost use Rattle.rounding.specs.Rounding.{is_edition, settled};

use crate::{AWAY_FROM_ZERO, TO_EVEN};

// Whether there is an edition of this number.
pub fn is_edition(edition: u32) -> bool
    ensures { result ≡ is_edition edition }
{
    edition == AWAY_FROM_ZERO || edition == TO_EVEN
}

// Where a quotient goes that is a half or not, and went up to n if it is one.
pub fn settle(edition: u32, half: bool, n: u64) -> u64
    ensures { result ≡ settled edition half n }
{
    if edition != TO_EVEN {
        return n;
    }
    if half { n - n % 2 } else { n }
}
