// How far apart the samples of a recording lie.
ghost use Rattle.std.specs.Prelude.{◌≡◌, pos, ◌-ℤ◌};
ghost use Rattle.std.specs.Int.Signed.{le_z};
ghost use Rattle.finding.specs.Finding.{dead_spread, still};

use crate::DEAD_SPREAD;

// A sequence has no run longer than its order, 16 at most, so a recording with a signal is known by so many samples.
const FRONT: usize = 17;

// Whether the one minus the other is 7 or less.
fn near(most: i32, least: i32) -> bool
    ensures { result ≡ le_z (most -ℤ least) (pos dead_spread) }
{
    let apart = most as i64 - least as i64;
    apart <= DEAD_SPREAD
}

// Whether the largest sample minus the smallest is 7 or less. Every sample is looked at, so that the compiler looks at many at a time.
fn all_near(y: &[i32]) -> bool
    ensures { result ≡ still y.now }
{
    if y.is_empty() {
        return true;
    }
    let mut most = y[0];
    let mut least = most;
    for &x in y {
        most = most.max(x);
        least = least.min(x);
    }
    near(most, least)
}

// The same, asked of the front first, so that a recording with a signal is not gone through.
pub fn is_still(y: &[i32]) -> bool
    ensures { result ≡ still y.now }
{
    if FRONT < y.len() {
        if !all_near(&y[..FRONT]) {
            return false;
        }
    }
    all_near(y)
}
