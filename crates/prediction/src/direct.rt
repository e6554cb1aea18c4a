// A prediction worked out with no room, place by place: the sum as it stands, of P terms at each of P places.
ghost use Rattle.std.specs.Prelude.{◌≡◌, true, false, ℕ, ◌%◌, ◌^◌, ◌≤◌, ◌<◌, pos, nat_abs, ◌*ℤ◌, length};
ghost use Rattle.sums.specs.Sum.{sign, total};
ghost use Rattle.sums.specs.Lists.{at};
ghost use Rattle.register.specs.Register.{P, window as window_of};
ghost use Rattle.samples.specs.Samples.{sample_out, some_out};
ghost use Rattle.prediction.specs.Calls.{predicted};

use register::accepted::Register;
use response::spread::widened;
use samples::HIGHEST_SAMPLE;
use samples::range::sample_out;

// Whether some of the first numbers is not 0.
fn some_used(room: &[i64], count: usize) -> bool
    requires { count ≤ length room.now }
    ensures { result ≡ false → (i : ℕ) → i < count → at room.now i ≡ pos 0 }
{
    for i in 0..count {
        if room[i] != 0 {
            return true;
        }
    }
    false
}

// Whether the values' sizes add up to more than the highest sample: where they do not, no predicted sample lies outside the range.
fn may_be_loud(h: &[i32]) -> bool
    requires { (length h.now ≤ 65535) × (some_out (length h.now) (at h.now) ≡ false) }
    ensures { result ≡ false → total (length h.now) (λ i. nat_abs (at h.now i)) ≤ 8388607 }
{
    let mut sum: u64 = 0;
    for i in 0..h.len() {
        sum += widened(h, i).unsigned_abs();
    }
    sum > HIGHEST_SAMPLE as u64
}

// A number with the sign of a window's bit 0.
fn signed(window: u32, x: i64) -> i64
    requires { nat_abs x ≤ 2 ^ 23 }
    ensures { result ≡ x *ℤ sign (window % 2) }
{
    if window % 2 == 0 { x } else { -x }
}

// Whether y(j), of the window at j, lies outside the sample range.
fn predicted_out(register: Register, h: &[i32], window: u32) -> bool
    requires h_len { (length h.now ≡ P register.order) × (window < 2 ^ register.order) }
    requires h_value { some_out (length h.now) (at h.now) ≡ false }
    ensures { (j : ℕ) → window ≡ window_of register.order register.taps j → result ≡ sample_out (predicted register.order register.taps h.now j) }
{
    let mut y: i64 = 0;
    let mut w = window;
    for i in (0..h.len()).rev() {
        w = register.step(w);
        y += signed(w, widened(h, i));
    }
    sample_out(y)
}

// Whether some predicted sample lies outside the sample range.
fn some_predicted_out(register: Register, h: &[i32]) -> bool
    requires h_len { length h.now ≡ P register.order }
    requires h_value { some_out (length h.now) (at h.now) ≡ false }
    ensures { result ≡ some_out (P register.order) (predicted register.order register.taps h.now) }
{
    let mut w = register.period();
    for _j in 0..h.len() {
        if predicted_out(register, h, w) {
            return true;
        }
        w = register.step(w);
    }
    false
}

// Whether 8 is known with the room untouched. It is worked out only where the room does not hold zeros and the response is large enough.
pub fn known_loud(register: Register, h: &[i32], room: &[i64]) -> bool
    requires h_len { (length h.now ≡ P register.order) × (P register.order < length room.now) }
    requires h_value { some_out (length h.now) (at h.now) ≡ false }
    ensures loud { result ≡ true → some_out (P register.order) (predicted register.order register.taps h.now) ≡ true }
    ensures zeros { result ≡ false → some_out (P register.order) (predicted register.order register.taps h.now) ≡ true
        → (i : ℕ) → i ≤ P register.order → at room.now i ≡ pos 0 }
{
    if !some_used(room, h.len() + 1) {
        return false;
    }
    if !may_be_loud(h) {
        return false;
    }
    some_predicted_out(register, h)
}
