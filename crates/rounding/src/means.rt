// A quotient rounded to nearest, a half where the edition has it: the sizes are divided and the sign is put back, or all quotients are raised above zero.
ghost use Rattle.std.specs.Prelude.{◌≡◌, true, false, ◌&&◌, ℕ, ◌+◌, ◌*◌, ◌/◌, ◌≤◌, ◌<◌, ◌^◌, eqb, leb, ℤ, pos, nat_abs, length};
ghost use Rattle.std.specs.Int.Signed.{non_neg};
ghost use Rattle.sums.specs.Lists.{at, table, put};
ghost use Rattle.samples.specs.Samples.{sample_out};
ghost use Rattle.rounding.specs.Rounding.{to_even, nearest, settled, nearest_in, rounded};
ghost use Rattle.rounding.specs.Halving.{Split, Exact, reciprocal as reciprocal_of, with_sign, raised_by};

use crate::editions::settle;
use crate::{Halved, TO_EVEN};

// How often a divisor is halved at most, and the most that may be left of it for a reciprocal to be exact enough: of a size, and of a quotient that is raised.
const MOST_HALVINGS: u32 = 26;

const MOST_LEFT: u64 = 362;

const MOST_RAISED: u64 = 255;

// A reciprocal is a whole number over 2^40.
const PLACES: u64 = 40;

const UNIT: u64 = 1099511627776;

// What a quotient is raised by, an even number so that it stays even or odd; and twice that, and one for the half, in divisors.
const RAISED: i64 = 8388608;

const RAISED_TWICE: u64 = 16777217;

// a / d to the nearest.
fn near(edition: u32, a: u64, d: u64) -> u64
    requires { 0 < d }
    ensures { result ≡ nearest_in edition a d }
{
    let q = a / d;
    let m = a % d;
    if m < d - m {
        return q;
    }
    settle(edition, m == d - m, q + 1)
}

// How often 2 goes into a number, up to a limit, and what is left of it.
fn halve(d: u64) -> Halved
    ensures { (result.rest * 2 ^ result.times ≡ d) × (result.times ≤ 26) }
{
    let times = d.trailing_zeros().min(MOST_HALVINGS);
    Halved {
        times,
        rest: d >> times,
    }
}

// x / 2·d, its rest left out, by a shift and a product. No rest is a half that went up, and goes where the edition has it.
fn quotient_by(edition: u32, x: u64, d: u64, shift: u32, m: u64) -> u64
    requires { Exact x d shift m }
    ensures { result ≡ settled edition (eqb (x / (2 * d) * (2 * d)) x) (x / (2 * d)) }
{
    let q = ((x >> shift) * m) >> PLACES;
    settle(edition, q * (2 * d) == x, q)
}

// a / d to the nearest, by such a product.
fn near_by(edition: u32, a: u64, d: u64, shift: u32, m: u64) -> u64
    requires { (Split 362 d shift m) × (nearest a d ≤ 2 ^ 23 + 1) }
    ensures { result ≡ nearest_in edition a d }
{
    quotient_by(edition, 2 * a + d, d, shift, m)
}

// n with the sign of z.
fn with_sign(z: i64, n: u64) -> i64
    requires { n < 2 ^ 63 }
    ensures { result ≡ with_sign z n }
{
    let b = n as i64;
    if z < 0 { -b } else { b }
}

// 2·r and a half of 2·d, which is what a quotient by 2·d is taken of, raised.
fn raise(r: i64, d: u64) -> u64
    requires { (d < 2 ^ 35) × (nat_abs r < 2 ^ 60) × (non_neg (raised_by r d) ≡ true) }
    ensures { pos result ≡ raised_by r d }
{
    (2 * r + (RAISED_TWICE * d) as i64) as u64
}

// r / d to the nearest even at a half, where it is a sample. Raised, no quotient is below zero, and so none needs its sign put back.
fn mean_raised(r: i64, d: u64, shift: u32, m: u64) -> i32
    requires { (Split 255 d shift m) × (sample_out (rounded to_even r d) ≡ false) }
    ensures { result ≡ rounded to_even r d }
{
    let x = raise(r, d);
    (quotient_by(TO_EVEN, x, d, shift, m) as i64 - RAISED) as i32
}

// r / d to the nearest, where it is a sample, by a product.
fn mean_by_product(edition: u32, r: i64, d: u64, shift: u32, m: u64) -> i32
    requires { (Split 362 d shift m) × (sample_out (rounded edition r d) ≡ false) }
    ensures { result ≡ rounded edition r d }
{
    with_sign(r, near_by(edition, r.unsigned_abs(), d, shift, m)) as i32
}

// The same, by division.
fn mean_by_division(edition: u32, r: i64, d: u64) -> i32
    requires { (0 < d) × (sample_out (rounded edition r d) ≡ false) }
    ensures { result ≡ rounded edition r d }
{
    with_sign(r, near(edition, r.unsigned_abs(), d)) as i32
}

// What is made of each of the first `period`, at its place.
fn write_each<F: Fn(i64) -> i32>(r: &[i64], out: &mut [i32], period: usize, mean: F)
    requires within { (period ≤ length r.now) × (period ≤ length out.old) }
    requires by_index { (k : ℕ) → k < period → F.pre mean (at r.now k) }
    ensures { (f : ℕ → ℤ) → ((k : ℕ) (z : ℤ) → k < period → F.post mean (at r.now k) z → z ≡ f k) → out.new ≡ put (table period f) out.old }
{
    for k in 0..period {
        out[k] = mean(r[k]);
    }
}

// What a quotient by this many, 362 at most, is a product by, over 2^40.
fn reciprocal(rest: u64) -> u64
    requires { (0 < rest) × (rest ≤ 362) }
    ensures { result ≡ reciprocal_of rest }
{
    UNIT / rest + 1
}

// Whether the quotients in an edition, by a divisor of which so many are left, are raised.
fn may_raise(edition: u32, rest: u64) -> bool
    ensures { result ≡ eqb edition to_even && leb rest 255 }
{
    edition == TO_EVEN && rest <= MOST_RAISED
}

// The mean of each of the first `period`, at its place. A divisor that is few times a power of two, as (P+1)·n is, needs no division.
pub fn write_means(edition: u32, r: &[i64], out: &mut [i32], period: usize, divisor: u64)
    requires period_in_bounds { (period ≤ length r.now) × (period ≤ length out.old) × (0 < divisor) }
    requires by_index { (k : ℕ) → k < period → sample_out (rounded edition (at r.now k) divisor) ≡ false }
    ensures { out.new ≡ put (table period (λ k. rounded edition (at r.now k) divisor)) out.old }
{
    let Halved { times, rest } = halve(divisor);
    if MOST_LEFT < rest {
        write_each(r, out, period, |z| mean_by_division(edition, z, divisor));
        return;
    }
    let shift = times + 1;
    let m = reciprocal(rest);
    if may_raise(edition, rest) {
        write_each(r, out, period, |z| mean_raised(z, divisor, shift, m));
        return;
    }
    write_each(
        r,
        out,
        period,
        |z| mean_by_product(edition, z, divisor, shift, m),
    );
}
