// The first step of the fast route: numbers laid out in a room of P+1 by the places of a walk that meets each place but 0 once. A walk goes in two
// strands side by side, from its start and from its middle, and its last place is left for the end.
ghost use Rattle.std.specs.Prelude.{◌≡◌, ℕ, ◌-◌, ◌≤◌, ◌<◌, ℤ, length, set};
ghost use Rattle.sums.specs.Lists.{at};
ghost use Rattle.register.specs.Register.{P, window as window_of, tag as tag_of};
ghost use Rattle.response.specs.Route.{Laid};

use register::accepted::Register;

// Two numbers, each at its place.
fn lay_two(room: &mut [i64], p: u32, a: i64, q: u32, b: i64)
    requires { (p < length room.old) × (q < length room.old) }
    ensures { room.new ≡ set (set room.old p a) q b }
{
    room[p as usize] = a;
    room[q as usize] = b;
}

// The number at a place, widened.
pub fn widened(y: &[i32], j: usize) -> i64
    requires { j < length y.now }
    ensures { result ≡ at y.now j }
{
    y[j] as i64
}

// A number for each place, whatever it is, at that of the window there.
fn lay<F: Fn(usize) -> i64>(register: Register, room: &mut [i64], number: F)
    requires room { P register.order < length room.old }
    requires by_index { (j : ℕ) → j < P register.order → F.pre number j }
    ensures { (y : ℕ → ℤ) → ((j : ℕ) (z : ℤ) → j < P register.order → F.post number j z → z ≡ y j)
        → Laid (P register.order) (window_of register.order register.taps) y room.old room.new }
{
    let mut first = register.period();
    let half = first as usize / 2;
    let mut second = register.window_at(half as u32);
    for j in 0..half {
        lay_two(room, first, number(j), second, number(half + j));
        first = register.step(first);
        second = register.step(second);
    }
    lay_two(room, second, number(half + half), 0, 0);
}

// Sample j at the place of the window at j.
pub fn spread(register: Register, y: &[i32], room: &mut [i64])
    requires { (length y.now ≡ P register.order) × (P register.order < length room.old) }
    ensures { Laid (P register.order) (window_of register.order register.taps) (at y.now) room.old room.new }
{
    lay(
        register,
        room,
        |j|
            requires { j < length y.now }
            ensures { result ≡ at y.entry.now j }
        { widened(y, j) },
    );
}

// The same of wide numbers, of which the first P are taken.
pub fn spread_wide(register: Register, y: &[i64], room: &mut [i64])
    requires { (P register.order ≤ length y.now) × (P register.order < length room.old) }
    ensures { Laid (P register.order) (window_of register.order register.taps) (at y.now) room.old room.new }
{
    lay(
        register,
        room,
        |j|
            requires { j < length y.now }
            ensures { result ≡ at y.entry.now j }
        { y[j] },
    );
}

// Response value i at the place of the tag of the delay P - i.
pub fn spread_back(register: Register, h: &[i32], room: &mut [i64])
    requires { (length h.now ≡ P register.order) × (P register.order < length room.old) }
    ensures { Laid (P register.order) (λ i. tag_of register.order register.taps (P register.order - i)) (at h.now) room.old room.new }
{
    let half = h.len() / 2;
    let mut first = 1;
    let mut second = register.tag_at(half as u32);
    for i in (1..=half).rev() {
        first = register.tag_step(first);
        second = register.tag_step(second);
        lay_two(room, first, widened(h, half + i), second, widened(h, i));
    }
    lay_two(room, register.tag_step(second), widened(h, 0), 0, 0);
}
