// One recording turned into its response.
ghost use Rattle.std.specs.Prelude.{◌≡◌, ◌≤◌, pos, neg_ℤ, ◌*ℤ◌, length};
ghost use Rattle.sums.specs.Lists.{at, table, put};
ghost use Rattle.refusals.specs.Causes.{answer};
ghost use Rattle.legendre.specs.Calls.{turned, recording_outcome};
ghost use Rattle.legendre.specs.Working.{Passed};

use crate::meeting::meet;
use crate::periods::{LONGEST, check_measuring};
use refusals::Refusal;

// At each place -2 times what the ones meet.
fn write_response(sums: &[i32], out: &mut [i64], p: usize)
    requires { (p ≤ length sums.now) × (p ≤ length out.old) }
    ensures { out.new ≡ put (table p (λ k. neg_ℤ (pos 2 *ℤ at sums.now k))) out.old }
{
    for k in 0..p {
        out[k] = 0 - 2 * sums[k] as i64;
    }
}

// r(k) at every place, of a recording that has passed the checks.
fn turn(y: &[i32], out: &mut [i64])
    requires { Passed y.now × (length y.now ≤ length out.old) }
    ensures { out.new ≡ put (turned (length y.now) y.now) out.old }
{
    let mut sums: [i32; LONGEST] = [0; LONGEST];
    meet(y, &mut sums, true);
    write_response(&sums, out, y.len());
}

// r(k) at every place, refusing 25, 5, 6 and 7.
pub fn one_recording(p: u32, y: &[i32], out: &mut [i64]) -> Result<(), Refusal>
    ensures { (answer result, out.new) ≡ recording_outcome p y.now out.old }
{
    check_measuring(p, y, out.len())?;
    turn(y, out);
    Ok(())
}
