// One recording turned into its response, by the fast route in lent room.
ghost use Rattle.std.specs.Prelude.{◌≡◌, false, ◌+◌, ◌≤◌, ◌<◌, length};
ghost use Rattle.sums.specs.Lists.{at, table, put};
ghost use Rattle.refusals.specs.Causes.{answer, answer_period};
ghost use Rattle.register.specs.Register.{P, wave};
ghost use Rattle.register.specs.Calls.{told};
ghost use Rattle.response.specs.Response.{response};
ghost use Rattle.samples.specs.Samples.{some_out, cleared_wide, cleared_tags};
ghost use Rattle.response.specs.Calls.{recording_outcome};

use crate::given::check_given;
use crate::respond::finish;
use crate::spread::spread;
use refusals::Refusal;
use register::accepted::Register;
use samples::lengths::room_short;
use samples::range::some_out;

// The response of a recording that has passed the checks: into the output, and the room cleared.
fn turn(register: Register, y: &[i32], out: &mut [i64], room: &mut [i64], tags: &mut [u16])
    requires y_value { (length y.now ≡ P register.order) × (some_out (length y.now) (at y.now) ≡ false) }
    requires register_in_bounds { (P register.order ≤ length out.old) × (P register.order < length room.old) × (P register.order ≤ length tags.old) }
    ensures { (out.new ≡ put (table (P register.order) (response (P register.order) (wave register.order register.taps) (at y.now))) out.old)
        × (room.new ≡ cleared_wide (P register.order + 1) room.old)
        × (tags.new ≡ cleared_tags (P register.order) tags.old) }
{
    spread(register, y, room);
    finish(register, room, out, tags, y.len());
}

// r(k) at every place, and the period, refusing 1 to 7. The room that was used holds zeros after it.
pub fn one_recording(
    order: u32,
    taps: u32,
    y: &[i32],
    out: &mut [i64],
    room: &mut [i64],
    tags: &mut [u16],
) -> Result<u32, Refusal>
    ensures { ((answer result, out.new, room.new, tags.new)
        ≡ recording_outcome order taps y.now out.old room.old tags.old) × (answer_period result ≡ told order taps (answer result) 0) }
{
    let period = check_given(order, taps, y)?;
    if room_short(y.len(), out.len(), room.len(), tags.len()) {
        return Err(Refusal::Room);
    }
    if some_out(y) {
        return Err(Refusal::Sample);
    }
    turn(Register::new(order, taps), y, out, room, tags);
    Ok(period)
}
