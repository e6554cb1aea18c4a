// A pass over the numbers: one level of butterflies, or two.
ghost use Rattle.std.specs.Prelude.{◌≡◌, ◌+◌, length};
ghost use Rattle.hadamard.specs.Butterflies.{level, two_levels, PairsFit, FoursFit};

// The sums of the two halves' numbers in the first half, the differences in the second.
pub fn butterflies(v: &mut [i64], half: usize)
    requires { (length v.old ≡ half + half) × PairsFit half v.old }
    ensures { v.new ≡ level half v.old }
{
    for i in 0..half {
        let a = v[i];
        let c = v[i + half];
        v[i] = a + c;
        v[i + half] = a - c;
    }
}

// Two levels, whose quarters are `q` long: that of each half, and then that of the whole.
pub fn quads(v: &mut [i64], q: usize)
    requires { (length v.old ≡ (q + q) + (q + q)) × FoursFit q v.old }
    ensures { v.new ≡ two_levels q v.old }
{
    let half = q + q;
    let last = half + q;
    for i in 0..q {
        let a = v[i];
        let b = v[i + q];
        let c = v[i + half];
        let d = v[i + last];
        let p = a + b;
        let s = c + d;
        let r = a - b;
        let t = c - d;
        v[i] = p + s;
        v[i + q] = r + t;
        v[i + half] = p - s;
        v[i + last] = r - t;
    }
}
