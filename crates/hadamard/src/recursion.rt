// The transform of 2^n numbers: each block of them first, and then the levels that join the blocks, so that a block is done while it is in the cache.
ghost use Rattle.std.specs.Prelude.{◌≡◌, suc, ◌^◌, ◌<◌, length};
ghost use Rattle.sums.specs.Lists.{table};
ghost use Rattle.hadamard.specs.Transform.{transformed, loudness};
ghost use Rattle.hadamard.specs.Butterflies.{each_half};

use crate::passes::{butterflies, quads};
use crate::small::sixteen;

// The transform of one block, of 2^n numbers. Sixteen, as most blocks have, take no call that calls itself.
#[cycle(block_halves_transform)]
fn block(v: &mut [i64], n: usize)
    requires { (length v.old ≡ 2 ^ n) × (loudness v.old < 2 ^ 63) }
    ensures { v.new ≡ table (2 ^ n) (transformed n v.old) }
{
    if n == 4 {
        sixteen(v);
        return;
    }
    transform(v, n);
}

// The transform of each half, of 2^n numbers.
#[cycle(block_halves_transform)]
fn halves(v: &mut [i64], n: usize)
    requires { (length v.old ≡ 2 ^ suc n) × (loudness v.old < 2 ^ 63) }
    ensures { v.new ≡ each_half n v.old }
{
    let half = v.len() / 2;
    block(&mut v[..half], n);
    block(&mut v[half..], n);
}

// The transform of 2^n numbers whose sizes come to less than 2^63.
#[cycle(block_halves_transform)]
pub fn transform(v: &mut [i64], n: usize)
    requires { (length v.old ≡ 2 ^ n) × (loudness v.old < 2 ^ 63) }
    ensures { v.new ≡ table (2 ^ n) (transformed n v.old) }
{
    if n == 0 {
        return;
    }
    if n == 4 {
        sixteen(v);
        return;
    }
    let half = v.len() / 2;
    if n < 6 {
        halves(v, n - 1);
        butterflies(v, half);
        return;
    }
    halves(&mut v[..half], n - 2);
    halves(&mut v[half..], n - 2);
    quads(v, half / 2);
}
