// Taps: judged by the first return of the tags, which comes after the full period where the register's does, and is looked for at the period over its
// primes alone.
ghost use Rattle.std.specs.Prelude.{◌≡◌, ◌&&◌, ◌^◌, ◌≤◌, ◌<◌, eqb};
ghost use Rattle.sums.specs.Refusals.{first};
ghost use Rattle.refusals.specs.Causes.{answer, said};
ghost use Rattle.register.specs.Register.{P, tag as tag_of, period, Tapped, Shaped};
ghost use Rattle.register.specs.Doubling.{prime as prime_of, root_bound as root_bound_of, returns_at, returns_early};
ghost use Rattle.register.specs.Calls.{answer_of, shape_checks, taps_answer};

use crate::doubling::tag_at;
use crate::returning::first_return;
use crate::shift::full_period;
use refusals::Refusal;

// Whether the tags return after m steps, where that is asked.
fn home(order: u32, taps: u32, m: u32, asked: bool) -> bool
    requires { (order ≤ 16) × Tapped order taps × (m < 2 ^ order) }
    ensures { result ≡ asked && eqb (tag_of order taps m) 1 }
{
    asked && tag_at(order, taps, m) == 1
}

// Whether no number but 1 and q divides it: above its root none needs to be tried.
fn prime(q: u32) -> bool
    requires { q < 65536 }
    ensures { result ≡ prime_of q }
{
    if q < 2 {
        return false;
    }
    let mut e = 2;
    // The bound is on the square, which no range says.
    while e * e <= q {
        if q % e == 0 {
            return false;
        }
        e += 1;
    }
    true
}

// Whether d divides P and the tags return after d steps or after P/d, each asked where P is a prime times as many.
fn returns_at(order: u32, taps: u32, whole: u32, d: u32) -> bool
    requires { (order ≤ 16) × Tapped order taps × (whole ≡ P order) × (0 < d) × (d < 2 ^ order) }
    ensures { result ≡ returns_at order taps d }
{
    if whole % d != 0 {
        return false;
    }
    let e = whole / d;
    home(order, taps, d, prime(e)) || home(order, taps, e, prime(d))
}

// Of two divisors that go together one is below this.
fn root_bound(order: u32) -> u32
    requires { order ≤ 16 }
    ensures { result ≡ root_bound_of order }
{
    1 << ((order + 1) / 2)
}

// Whether the tags return after P over some prime: of the divisors that go together, the smaller is gone through.
fn returns_early(order: u32, taps: u32) -> bool
    requires { (order ≤ 16) × Tapped order taps }
    ensures { result ≡ returns_early order taps }
{
    let whole = full_period(order);
    let end = root_bound(order);
    for d in 1..end {
        if returns_at(order, taps, whole, d) {
            return true;
        }
    }
    false
}

// The checks 1, 2 and 3.
pub fn check_shape(order: u32, taps: u32) -> Result<(), Refusal>
    ensures { answer result ≡ first (shape_checks order taps) }
{
    if order < crate::LEAST_ORDER || crate::MOST_ORDER < order {
        return Err(Refusal::Order);
    }
    if full_period(order) < taps {
        return Err(Refusal::Taps);
    }
    if taps % 2 == 0 {
        return Err(Refusal::TapZero);
    }
    Ok(())
}

// Whether the register first returns to all ones after 2^order - 1 steps.
fn is_maximal(order: u32, taps: u32) -> bool
    requires { Shaped order taps }
    ensures { result ≡ eqb (period order taps) (P order) }
{
    tag_at(order, taps, full_period(order)) == 1 && !returns_early(order, taps)
}

// Whether the taps check accepts, for those who need not know how short a period is.
pub fn accepts(order: u32, taps: u32) -> bool
    ensures { result ≡ eqb (taps_answer order taps) 0 }
{
    check_shape(order, taps).is_ok() && is_maximal(order, taps)
}

// Taps check: the steps after which the register first returns to all ones, refusing 1, 2, 3, 4. Only a refusal with 4 walks: an accepted register is known to
// return after P steps.
pub fn check_taps(order: u32, taps: u32) -> Result<u32, Refusal>
    ensures { said result ≡ answer_of order taps (taps_answer order taps) }
{
    check_shape(order, taps)?;
    if is_maximal(order, taps) {
        return Ok(full_period(order));
    }
    Err(Refusal::NotMaximal(first_return(order, taps)))
}
