// One slot of the store filled or emptied, and the sums with it.
ghost use Rattle.std.specs.Prelude.{◌≡◌, ℕ, ◌+◌, ◌*◌, ◌^◌, ◌≤◌, ◌<◌, pos, nat_abs, ◌+ℤ◌, ◌-ℤ◌, length};
ghost use Rattle.sums.specs.Lists.{at, table, put, put_at};
ghost use Rattle.nights.specs.Nights.{term};

use crate::stored::add_row;
use nights::summing::sum_periods;
use samples::clearing::fill_front;
use samples::range::{least_of, most_of};

// A row's samples leave the sums.
fn take_out(row: &[i32], sums: &mut [i64])
    requires { (length row.now ≤ length sums.old) × ((j : ℕ) → j < length row.now → nat_abs (at sums.old j) ≤ 2 ^ 40) }
    ensures { sums.new ≡ put (table (length row.now) (λ j. at sums.old j -ℤ at row.now j)) sums.old }
{
    for j in 0..row.len() {
        sums[j] -= row[j] as i64;
    }
}

// The sum of a night's m periods goes to slot s, and is added to the sums.
pub fn fill_slot(s: usize, period: usize, m: u8, z: &[i32], store: &mut [i32], sums: &mut [i64])
    requires s_bound { (s < 64) × (period ≤ 65535) × (s * period + period ≤ length store.old) }
    requires le_m { (1 ≤ m) × (m ≤ 16) × (length z.now ≡ m * period) × ((j : ℕ) → j < length z.now → nat_abs (at z.now j) ≤ 8388608) }
    requires period_in_bounds { (period ≤ length sums.old) × ((j : ℕ) → j < period → nat_abs (at sums.old j) ≤ 2 ^ 40) }
    ensures { (store.new ≡ put_at (s * period) (term period m z.now) store.old)
        × (sums.new ≡ put (table period (λ j. at sums.old j +ℤ at (term period m z.now) j)) sums.old) }
{
    let from = s * period;
    let to = from + period;
    sum_periods(z, m as usize, &mut store[from..to]);
    add_row(&store[from..to], least_of(m), most_of(m), sums);
}

// The samples of slot s leave the sums, and it holds zeros.
pub fn empty_slot(s: usize, period: usize, store: &mut [i32], sums: &mut [i64])
    requires s_bound { (s < 64) × (period ≤ 65535) × (s * period + period ≤ length store.old) }
    requires period_in_bounds { (period ≤ length sums.old) × ((j : ℕ) → j < period → nat_abs (at sums.old j) ≤ 2 ^ 40) }
    ensures { (store.new ≡ put_at (s * period) (table period (λ _. pos 0)) store.old)
        × (sums.new ≡ put (table period (λ j. at sums.old j -ℤ at store.old (s * period + j))) sums.old) }
{
    let from = s * period;
    let to = from + period;
    take_out(&store[from..to], sums);
    fill_front(&mut store[from..to], period, 0);
}
