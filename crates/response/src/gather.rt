// The last step of the fast route: the transform read at the places of a walk.
ghost use Rattle.std.specs.Prelude.{◌≡◌, ℕ, ◌-◌, ◌^◌, ◌≤◌, ◌<◌, nat_abs, ◌-ℤ◌, length};
ghost use Rattle.sums.specs.Lists.{at, table, put};
ghost use Rattle.register.specs.Register.{P, tag as tag_of};

use register::accepted::Register;

// What t has at a tag, less what it has at 0.
pub fn reading(t: &[i64], tag: u32) -> i64
    requires { (tag < length t.now) × (nat_abs (at t.now tag) < 2 ^ 62) × (nat_abs (at t.now 0) < 2 ^ 62) }
    ensures { result ≡ at t.now tag -ℤ at t.now 0 }
{
    let sum = t[0];
    t[tag as usize] - sum
}

// At place k, what t has at the tag of the delay P - k, less what it has at 0.
pub fn gather(register: Register, t: &[i64], out: &mut [i64], period: usize)
    requires period_value { period ≡ P register.order }
    requires period_in_bounds { (period < length t.now) × (period ≤ length out.old) }
    requires by_index { (w : ℕ) → w ≤ period → nat_abs (at t.now w) < 2 ^ 62 }
    ensures { out.new ≡ put (table period (λ k. at t.now (tag_of register.order register.taps (period - k)) -ℤ at t.now 0)) out.old }
{
    let half = period / 2;
    let mut first = 1;
    let mut second = register.tag_at(half as u32);
    for k in (1..=half).rev() {
        first = register.tag_step(first);
        second = register.tag_step(second);
        out[half + k] = reading(t, first);
        out[k] = reading(t, second);
    }
    out[0] = reading(t, register.tag_step(second));
}
