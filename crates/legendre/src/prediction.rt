// A recording predicted from a response.
ghost use Rattle.std.specs.Prelude.{◌≡◌, ℕ, ◌^◌, ◌≤◌, ◌<◌, pos, nat_abs, ◌-ℤ◌, ◌*ℤ◌, length};
ghost use Rattle.sums.specs.Sum.{sum};
ghost use Rattle.sums.specs.Lists.{at, table, put};
ghost use Rattle.refusals.specs.Causes.{answer};
ghost use Rattle.legendre.specs.Calls.{eighth_outcome, prediction_outcome};
ghost use Rattle.legendre.specs.Working.{Passed};

use crate::meeting::meet;
use crate::periods::{LONGEST, check_measuring};
use refusals::Refusal;
use samples::range::some_out;
use samples::rows::copy_in;

// The sum of a response.
fn sum_all(h: &[i32]) -> i32
    requires { Passed h.now }
    ensures { result ≡ sum (length h.now) (at h.now) }
{
    let mut whole = 0;
    for &x in h {
        whole += x;
    }
    whole
}

// At each place the whole less twice what the ones meet.
fn hear(sums: &mut [i32], whole: i32, p: usize)
    requires p_in_bounds { p ≤ length sums.old }
    requires by_index { ((j : ℕ) → j < p → nat_abs (at sums.old j) < 2 ^ 30) × ((j : ℕ) → j < p → nat_abs (whole -ℤ pos 2 *ℤ at sums.old j) < 2 ^ 31) }
    ensures { sums.new ≡ put (table p (λ j. whole -ℤ pos 2 *ℤ at sums.old j)) sums.old }
{
    for j in 0..p {
        sums[j] = whole - 2 * sums[j];
    }
}

// The samples, in a room of their own until they are seen to be in the range, or 8 with the output left as it was.
fn predict_all(h: &[i32], out: &mut [i32]) -> Result<(), Refusal>
    requires { Passed h.now × (length h.now ≤ length out.old) }
    ensures { (answer result, out.new) ≡ eighth_outcome (length h.now) h.now out.old }
{
    let p = h.len();
    let mut heard: [i32; LONGEST] = [0; LONGEST];
    meet(h, &mut heard, false);
    hear(&mut heard, sum_all(h), p);
    if some_out(&heard[..p]) {
        return Err(Refusal::Predicted);
    }
    copy_in(&heard[..p], out);
    Ok(())
}

// y(j) at every place, refusing 25, 5, 6, 7 and 8.
pub fn predict(p: u32, h: &[i32], out: &mut [i32]) -> Result<(), Refusal>
    ensures { (answer result, out.new) ≡ prediction_outcome p h.now out.old }
{
    check_measuring(p, h, out.len())?;
    predict_all(h, out)
}
