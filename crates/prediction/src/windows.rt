// The last step of a prediction: the transform read at the windows, in two strands.
ghost use Rattle.std.specs.Prelude.{◌≡◌, false, ◌≤◌, ◌<◌, length};
ghost use Rattle.sums.specs.Lists.{at, table, put};
ghost use Rattle.register.specs.Register.{P, window as window_of};
ghost use Rattle.samples.specs.Samples.{sample_out, some_out};

use register::accepted::Register;
use samples::range::sample_out;

// Whether the sample at a window lies outside the sample range.
fn sample_out_at(t: &[i64], window: u32) -> bool
    requires { window < length t.now }
    ensures { result ≡ sample_out (at t.now window) }
{
    sample_out(t[window as usize])
}

// Whether some of the samples lies outside the sample range.
pub fn some_sample_out(register: Register, t: &[i64], period: usize) -> bool
    requires { (period ≡ P register.order) × (period < length t.now) }
    ensures { result ≡ some_out period (λ j. at t.now (window_of register.order register.taps j)) }
{
    let half = period / 2;
    let mut first = register.period();
    let mut second = register.window_at(half as u32);
    for _j in 0..half {
        if sample_out_at(t, first) {
            return true;
        }
        if sample_out_at(t, second) {
            return true;
        }
        first = register.step(first);
        second = register.step(second);
    }
    sample_out_at(t, second)
}

// The sample at a window, which lies in the sample range.
fn sample_at(t: &[i64], window: u32) -> i32
    requires { (window < length t.now) × (sample_out (at t.now window) ≡ false) }
    ensures { result ≡ at t.now window }
{
    t[window as usize] as i32
}

// Each sample at its place.
pub fn write_samples(register: Register, t: &[i64], out: &mut [i32], period: usize)
    requires period_in_bounds { (period ≡ P register.order) × (period < length t.now) × (period ≤ length out.old) }
    requires j_value { some_out period (λ j. at t.now (window_of register.order register.taps j)) ≡ false }
    ensures { out.new ≡ put (table period (λ j. at t.now (window_of register.order register.taps j))) out.old }
{
    let half = period / 2;
    let mut first = register.period();
    let mut second = register.window_at(half as u32);
    for j in 0..half {
        out[j] = sample_at(t, first);
        out[half + j] = sample_at(t, second);
        first = register.step(first);
        second = register.step(second);
    }
    out[half + half] = sample_at(t, second);
}
