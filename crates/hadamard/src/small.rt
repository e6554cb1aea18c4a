// The transforms of 2, 8 and 16 numbers. The compiler writes each out as straight code, with no loop and no call: one function of the size, as `transform` is,
// stays a call that calls itself.
ghost use Rattle.std.specs.Prelude.{◌≡◌, ◌^◌, ◌<◌, length};
ghost use Rattle.sums.specs.Lists.{table};
ghost use Rattle.hadamard.specs.Transform.{transformed, loudness};
ghost use Rattle.hadamard.specs.Butterflies.{each_half};

use crate::passes::{butterflies, quads};

fn two(v: &mut [i64])
    requires { (length v.old ≡ 2 ^ 1) × (loudness v.old < 2 ^ 63) }
    ensures { v.new ≡ table (2 ^ 1) (transformed 1 v.old) }
{
    butterflies(v, 1);
}

// The transform of each half, of 2 numbers.
fn twos(v: &mut [i64])
    requires { (length v.old ≡ 2 ^ 2) × (loudness v.old < 2 ^ 63) }
    ensures { v.new ≡ each_half 1 v.old }
{
    two(&mut v[..2]);
    two(&mut v[2..]);
}

fn eight(v: &mut [i64])
    requires { (length v.old ≡ 2 ^ 3) × (loudness v.old < 2 ^ 63) }
    ensures { v.new ≡ table (2 ^ 3) (transformed 3 v.old) }
{
    twos(&mut v[..4]);
    twos(&mut v[4..]);
    quads(v, 2);
}

pub fn sixteen(v: &mut [i64])
    requires { (length v.old ≡ 2 ^ 4) × (loudness v.old < 2 ^ 63) }
    ensures { v.new ≡ table (2 ^ 4) (transformed 4 v.old) }
{
    eight(&mut v[..8]);
    eight(&mut v[8..]);
    butterflies(v, 8);
}
