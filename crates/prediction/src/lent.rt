// A recording predicted from a response, in a room that is lent.
ghost use Rattle.std.specs.Prelude.{◌≡◌, false, ◌≤◌, ◌<◌, length};
ghost use Rattle.sums.specs.Lists.{at};
ghost use Rattle.refusals.specs.Causes.{answer, answer_period};
ghost use Rattle.register.specs.Register.{P};
ghost use Rattle.register.specs.Calls.{told};
ghost use Rattle.samples.specs.Samples.{some_out};
ghost use Rattle.prediction.specs.Calls.{eighth_in_room, roomed_outcome};

use crate::alone::predict_in;
use crate::direct::known_loud;
use refusals::Refusal;
use register::accepted::Register;
use response::given::check_given;
use samples::clearing::fill_front;
use samples::lengths::lent_short;
use samples::range::some_out;

// The samples in a lent room, which holds zeros after it, or 8 with the output and the room left as they were. A room of zeros is cleared again, which
// leaves it as it was; of any other 8 is known beforehand.
fn predict_lent(
    register: Register,
    h: &[i32],
    out: &mut [i32],
    room: &mut [i64],
) -> Result<(), Refusal>
    requires h_len { (length h.now ≡ P register.order) × (P register.order ≤ length out.old) × (P register.order < length room.old) }
    requires h_value { some_out (length h.now) (at h.now) ≡ false }
    ensures { (answer result, out.new, room.new) ≡ eighth_in_room register.order register.taps h.now out.old room.old }
{
    if known_loud(register, h, room) {
        return Err(Refusal::Predicted);
    }
    let predicted = predict_in(register, h, out, room);
    fill_front(room, h.len() + 1, 0);
    predicted
}

// y(j) at every place, worked in a lent room, and the period, refusing 1 to 8. The room that was used holds zeros after it.
pub fn predict_in_room(
    order: u32,
    taps: u32,
    h: &[i32],
    out: &mut [i32],
    room: &mut [i64],
) -> Result<u32, Refusal>
    ensures { ((answer result, out.new, room.new) ≡ roomed_outcome order taps h.now out.old room.old)
        × (answer_period result ≡ told order taps (answer result) 0) }
{
    let period = check_given(order, taps, h)?;
    if lent_short(h.len(), out.len(), room.len()) {
        return Err(Refusal::Room);
    }
    if some_out(h) {
        return Err(Refusal::Sample);
    }
    predict_lent(Register::new(order, taps), h, out, room)?;
    Ok(period)
}
