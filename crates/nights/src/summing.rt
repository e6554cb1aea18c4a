// The periods of a night summed place by place.
ghost use Rattle.std.specs.Prelude.{◌≡◌, ℕ, ◌*◌, ◌≤◌, ◌<◌, nat_abs, length};
ghost use Rattle.sums.specs.Lists.{at};
ghost use Rattle.nights.specs.Nights.{term};

use samples::rows::{add_in, copy_in};

// The sum of m periods, one at least, in the place of a row.
pub fn sum_periods(z: &[i32], m: usize, row: &mut [i32])
    requires le_m { (1 ≤ m) × (m ≤ 16) × (length row.old ≤ 65535) × (length z.now ≡ m * length row.old) }
    requires by_index { (j : ℕ) → j < length z.now → nat_abs (at z.now j) ≤ 8388608 }
    ensures { row.new ≡ term (length row.old) m z.now }
{
    let period = row.len();
    copy_in(&z[..period], row);
    for i in 1..m {
        let from = i * period;
        let to = from + period;
        add_in(&z[from..to], row);
    }
}
