// The sample range, and its two ends, the rails.
ghost use Rattle.std.specs.Prelude.{◌≡◌, ◌&&◌, ◌||◌, ◌≤◌, length};
ghost use Rattle.std.specs.Int.Signed.{lt_z, le_z};
ghost use Rattle.sums.specs.Lists.{at, some};
ghost use Rattle.samples.specs.Samples.{sample_out, some_out, rail, least_of, most_of};

// Whether a number lies outside the sample range.
pub fn sample_out(x: i64) -> bool
    ensures { result ≡ sample_out x }
{
    x < crate::LOWEST_SAMPLE as i64 || x > crate::HIGHEST_SAMPLE as i64
}

// Whether a sample is at a rail.
pub fn at_rail(x: i32) -> bool
    ensures { result ≡ rail x }
{
    x == crate::LOWEST_SAMPLE || x == crate::HIGHEST_SAMPLE
}

// The least that m samples strictly between the rails may add up to.
pub fn least_of(m: u8) -> i32
    requires { m ≤ 16 }
    ensures { result ≡ least_of m }
{
    let most = crate::HIGHEST_SAMPLE as u32 * m as u32;
    0 - most as i32
}

// And the most.
pub fn most_of(m: u8) -> i32
    requires { m ≤ 16 }
    ensures { result ≡ most_of m }
{
    let most = (crate::HIGHEST_SAMPLE - 1) as u32 * m as u32;
    most as i32
}

// Whether a number lies between two, or is one of them.
pub fn between(low: i32, high: i32, x: i32) -> bool
    ensures { result ≡ le_z low x && le_z x high }
{
    low <= x && x <= high
}

// Both are known before the call, so no branch stands between two values.
fn either(a: bool, b: bool) -> bool
    ensures { result ≡ a || b }
{
    a || b
}

// Whether a number lies below the one bound or above the other.
fn beyond(low: i32, high: i32, x: i32) -> bool
    ensures { result ≡ lt_z x low || lt_z high x }
{
    x < low || high < x
}

// Whether some value does. Every value is looked at, so that the compiler looks at many at a time.
pub fn some_beyond(low: i32, high: i32, y: &[i32]) -> bool
    ensures { result ≡ some (length y.now) (λ j. lt_z (at y.now j) low || lt_z high (at y.now j)) }
{
    let mut out = false;
    for &x in y {
        out = either(out, beyond(low, high, x));
    }
    out
}

// Whether some value lies outside the sample range.
pub fn some_out(y: &[i32]) -> bool
    ensures { result ≡ some_out (length y.now) (at y.now) }
{
    some_beyond(crate::LOWEST_SAMPLE, crate::HIGHEST_SAMPLE, y)
}
