// Wide numbers, as the sums of a campaign, turned into their response.
ghost use Rattle.std.specs.Prelude.{◌≡◌, ℕ, ◌+◌, ◌^◌, ◌≤◌, ◌<◌, nat_abs, length};
ghost use Rattle.sums.specs.Lists.{at, table, put};
ghost use Rattle.register.specs.Register.{P, wave};
ghost use Rattle.response.specs.Response.{response};
ghost use Rattle.samples.specs.Samples.{cleared_wide, cleared_tags};

use crate::respond::finish;
use crate::spread::spread_wide;
use register::accepted::Register;

// The response of the first P numbers: into the output, and the room cleared.
pub fn turn_sums(register: Register, y: &[i64], out: &mut [i64], room: &mut [i64], tags: &mut [u16])
    requires y_value { (j : ℕ) → j < P register.order → nat_abs (at y.now j) ≤ 2 ^ 34 }
    requires register_in_bounds { (P register.order ≤ length y.now) × (P register.order ≤ length out.old) × (P register.order < length room.old) × (P register.order ≤ length tags.old) }
    ensures { (out.new ≡ put (table (P register.order) (response (P register.order) (wave register.order register.taps) (at y.now))) out.old)
        × (room.new ≡ cleared_wide (P register.order + 1) room.old)
        × (tags.new ≡ cleared_tags (P register.order) tags.old) }
{
    let period = register.period() as usize;
    spread_wide(register, y, room);
    finish(register, room, out, tags, period);
}
