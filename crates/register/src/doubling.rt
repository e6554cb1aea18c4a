// The tag and the window of any place, reached without the walk there: the tag by doubling, and the window's bits by the tags.
ghost use Rattle.std.specs.Prelude.{◌≡◌, ◌^◌, ◌≤◌, ◌<◌};
ghost use Rattle.register.specs.Register.{window as window_of, tag as tag_of, Tapped};
ghost use Rattle.register.specs.Doubling.{moved, joined};

use crate::shift::tag_step;

// Of the tags of two delays, the tag of both.
fn join(order: u32, taps: u32, l: u32, m: u32) -> u32
    requires { (order ≤ 16) × Tapped order taps × (m < 2 ^ order) }
    ensures { result ≡ joined order taps l m order }
{
    let mut sum = 0;
    let mut tag = m;
    for i in 0..order {
        sum ^= (l >> i) % 2 * tag;
        tag = tag_step(order, taps, tag);
    }
    sum
}

// A tag, one step on where the bit is set.
fn step_by(order: u32, taps: u32, tag: u32, bit: u32) -> u32
    requires { (order ≤ 16) × (taps < 2 ^ order) × (tag < 2 ^ order) × (bit < 2) }
    ensures { result ≡ moved order taps bit tag }
{
    if bit == 0 {
        tag
    } else {
        tag_step(order, taps, tag)
    }
}

// The tag of a delay, which is doubled bit by bit from the top.
pub fn tag_at(order: u32, taps: u32, m: u32) -> u32
    requires { (order ≤ 16) × Tapped order taps × (m < 2 ^ order) }
    ensures { result ≡ tag_of order taps m }
{
    let mut tag = 1;
    for k in (0..order).rev() {
        tag = step_by(order, taps, join(order, taps, tag, tag), (m >> k) % 2);
    }
    tag
}

// The window of a place: each of its bits is a bit of the sequence, which the tag of that delay reads off all ones.
pub fn window_at(order: u32, taps: u32, m: u32) -> u32
    requires { (order ≤ 16) × Tapped order taps × (m < 2 ^ order) }
    ensures { result ≡ window_of order taps m }
{
    let mut window = 0;
    let mut tag = tag_at(order, taps, m);
    for i in 0..order {
        window += tag.count_ones() % 2 << i;
        tag = tag_step(order, taps, tag);
    }
    window
}
