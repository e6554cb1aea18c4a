// What the ones of a sequence meet. Of x = 1 - 2·s only they count, and they stand where the squares do, counted back from the end of the period: so samples
// are added and not multiplied, one square after the other.
ghost use Rattle.std.specs.Prelude.{◌≡◌, ℕ, ◌+◌, ◌*◌, ◌/◌, ◌%◌, ◌^◌, ◌≤◌, ◌<◌, pos, nat_abs, length};
ghost use Rattle.sums.specs.Sum.{sum};
ghost use Rattle.sums.specs.Lists.{at, table, put};
ghost use Rattle.legendre.specs.Working.{Passed, twice_over, half as half_of, away_by, met};

use crate::periods::TWICE_LONGEST;
use samples::rows::{add_in, copy_in};

// How many numbers are added in a row: a period's and some more, a multiple of 8, because the compiler adds eight at a time.
fn row_length(p: usize) -> usize
    requires { p ≤ 127 }
    ensures { result ≡ p / 8 * 8 + 8 }
{
    p / 8 * 8 + 8
}

// The square of i + 1, modulo p, from that of i.
fn next_square(square: usize, i: usize, p: usize) -> usize
    requires { (p ≤ 127) × (2 * i < p) × (square ≡ i * i % p) }
    ensures { result ≡ (i + 1) * (i + 1) % p }
{
    let next = square + 2 * i + 1;
    if next < p { next } else { next - p }
}

// d places on in a period of p, or d back. Which of the two is a truth value here because it is one in the definition `met`.
fn away(back: bool, p: usize, d: usize) -> usize
    requires { d ≤ p }
    ensures { result ≡ away_by back p d }
{
    if back { p - d } else { d }
}

// Numbers twice over, so that a whole period of them is read in a row from any place on.
fn lay_twice(z: &[i32], twice: &mut [i32])
    requires { (length z.now ≤ 127) × (2 * length z.now ≤ length twice.old) }
    ensures { twice.new ≡ twice_over z.now twice.old }
{
    let p = z.len();
    let end = p + p;
    copy_in(z, twice);
    copy_in(z, &mut twice[p..end]);
}

// At each of the first places the sum of the numbers that are a square on, or back, in the place of zeros.
fn add_met(twice: &[i32], sums: &mut [i32], p: usize, count: usize, back: bool)
    requires p_nonzero { (0 < p) × (p ≤ 127) × (count ≤ 128) × (p + count ≤ length twice.now) × (count ≤ length sums.old) }
    requires by_index { ((k : ℕ) → k < count → at sums.old k ≡ pos 0) × ((k : ℕ) → nat_abs (at twice.now k) ≤ 2 ^ 23) }
    ensures { sums.new ≡ put (table count (λ k. sum (half_of p) (λ i. at twice.now (away_by back p (i * i % p) + k)))) sums.old }
{
    let half = (p + 1) / 2;
    let mut square = 0;
    for i in 0..half {
        let from = away(back, p, square);
        let to = from + count;
        add_in(&twice[from..to], sums);
        square = next_square(square, i, p);
    }
}

// The same of a recording or a response, at each place of its period.
pub fn meet(z: &[i32], sums: &mut [i32], back: bool)
    requires { Passed z.now × (128 ≤ length sums.old) × ((k : ℕ) → at sums.old k ≡ pos 0) }
    ensures { (length sums.new ≡ length sums.old)
        × ((k : ℕ) → k < length z.now → at sums.new k ≡ met (length z.now) back (at z.now) k) }
{
    let p = z.len();
    let mut twice: [i32; TWICE_LONGEST] = [0; TWICE_LONGEST];
    lay_twice(z, &mut twice);
    add_met(&twice, sums, p, row_length(p), back);
}
