// The fast route from a laid room: transformed where it lies, and read.
ghost use Rattle.std.specs.Prelude.{◌≡◌, ℕ, ◌+◌, ◌^◌, ◌≤◌, ◌<◌, List, ℤ, length, take};
ghost use Rattle.hadamard.specs.Transform.{loudness};
ghost use Rattle.register.specs.Register.{P, window as window_of, wave};
ghost use Rattle.response.specs.Response.{response};
ghost use Rattle.samples.specs.Samples.{cleared_wide, cleared_tags};
ghost use Rattle.response.specs.Route.{Laid, spectrum, read};
ghost use Rattle.sums.specs.Lists.{table, put};

use crate::gather::gather;
use hadamard::transform;
use register::accepted::Register;
use samples::clearing::fill_front;

// The transform of the room's first P+1, in their place.
pub fn transform_room(order: u32, room: &mut [i64], count: usize)
    requires { (order ≤ 16) × (count ≡ 2 ^ order) × (count ≤ length room.old) × (loudness (take (2 ^ order) room.old) < 2 ^ 62) }
    ensures { room.new ≡ put (table (2 ^ order) (spectrum order room.old)) room.old }
{
    transform(&mut room[..count], order as usize);
}

// A room laid out by the windows turned into the response.
pub fn respond(register: Register, room: &mut [i64], out: &mut [i64], period: usize)
    requires period_in_bounds { (period ≡ P register.order) × (period < length room.old) × (period ≤ length out.old) }
    requires room_bound { loudness (take (2 ^ register.order) room.old) < 2 ^ 62 }
    ensures { (out.new ≡ put (table period (read register.order register.taps room.old)) out.old)
        × (room.new ≡ put (table (2 ^ register.order) (spectrum register.order room.old)) room.old) }
{
    transform_room(register.order, room, period + 1);
    gather(register, room, out, period);
}

// The same, and the room cleared: of whatever numbers are laid out in it, their response.
pub fn finish(
    register: Register,
    room: &mut [i64],
    out: &mut [i64],
    tags: &mut [u16],
    period: usize,
)
    requires period_in_bounds { (period ≡ P register.order) × (period < length room.old) × (period ≤ length out.old) × (period ≤ length tags.old) }
    requires room_bound { loudness (take (2 ^ register.order) room.old) < 2 ^ 62 }
    ensures { (y : ℕ → ℤ) (was : List ℤ) → Laid (P register.order) (window_of register.order register.taps) y was room.old
        → (out.new ≡ put (table (P register.order) (response (P register.order) (wave register.order register.taps) y)) out.old)
        × (room.new ≡ cleared_wide (P register.order + 1) was)
        × (tags.new ≡ cleared_tags (P register.order) tags.old) }
{
    respond(register, room, out, period);
    fill_front(room, period + 1, 0);
    fill_front(tags, period, 0);
}
