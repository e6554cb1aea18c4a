// The digest of a list of numbers.
ghost use Rattle.std.specs.Prelude.{◌≡◌, ℕ, ◌+◌, ◌*◌, ◌%◌, ◌≤◌, ◌<◌, ℤ, pos, ◌*ℤ◌, length, get_or};
ghost use Rattle.sums.specs.Lists.{at};
ghost use Rattle.lines.specs.Digest.{residue as residue_of, digest as digest_of, Turned};

const MODULUS: u64 = 1000003;

// A number modulo 1,000,003, from 0 up.
fn residue(v: i64) -> u64
    ensures { (result ≡ residue_of v) × (result < 1000003) }
{
    v.rem_euclid(MODULUS as i64) as u64
}

// The digest with one number more.
pub fn fold(d: u64, v: i64) -> u64
    requires { d < 1000003 }
    ensures { (result ≡ (d * 131 + residue_of v) % 1000003) × (result < 1000003) }
{
    (d * 131 + residue(v)) % MODULUS
}

// The digest of what a list's values are turned into.
fn digest_by<T: Copy, F: Fn(T) -> i64>(v: &[T], number: F) -> u64
    requires { (j : ℕ) (x : T) → j < length v.now → F.pre number (get_or v.now j x) }
    ensures { (f : ℕ → ℤ) → Turned (F.post number) v.now f → result ≡ digest_of (length v.now) f }
{
    let mut d = 0;
    for &x in v {
        d = fold(d, number(x));
    }
    d
}

// The digest of a list of numbers, of any type that goes into 64 bits.
pub fn digest<T: Copy + Into<i64>>(v: &[T]) -> u64
    ensures { (f : ℕ → ℤ) → Turned T.converts v.now f → result ≡ digest_of (length v.now) f }
{
    digest_by(v, |x| x.into())
}

// The digest of the samples times a number.
pub fn digest_scaled(y: &[i32], scale: usize) -> u64
    requires { scale ≤ 65536 }
    ensures { result ≡ digest_of (length y.now) (λ j. at y.now j *ℤ pos scale) }
{
    digest_by(
        y,
        |x|
            requires { scale ≤ 65536 }
            ensures { result ≡ x *ℤ pos scale }
        { i64::from(x) * scale as i64 },
    )
}
