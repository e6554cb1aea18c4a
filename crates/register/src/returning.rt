// How short a period is: the first return of the window, walked step by step.
ghost use Rattle.std.specs.Prelude.{◌≡◌};
ghost use Rattle.register.specs.Register.{period as period_of, Shaped};

use crate::shift::{full_period, step};

// The number of steps after which the register first returns to all ones. The tags would not do: those of a register that is not maximal may return later.
pub fn first_return(order: u32, taps: u32) -> u32
    requires { Shaped order taps }
    ensures { result ≡ period_of order taps }
{
    let ones = full_period(order);
    let mut window = step(order, taps, ones);
    for k in 1..ones {
        if window == ones {
            return k;
        }
        window = step(order, taps, window);
    }
    ones
}
