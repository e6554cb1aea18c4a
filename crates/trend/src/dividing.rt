// What means and levels are divided by.
ghost use Rattle.std.specs.Prelude.{◌≡◌, ◌^◌, ◌≤◌, ◌<◌};
ghost use Rattle.trend.specs.Calls.{divisor};

use records::Campaign;
use register::shift::full_period;

// P+1 times the periods standing.
pub fn divisor_of(c: &Campaign) -> u64
    requires { (c.now.order ≤ 16) × (c.now.capacity ≤ 64) × (divisor c.now < 2 ^ 53) }
    ensures { result ≡ divisor c.now }
{
    (full_period(c.order) as u64 + 1) * c.periods_standing() as u64
}
