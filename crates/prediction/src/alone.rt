// A recording predicted from a response, by the same route the other way round, in a room of its own.
ghost use Rattle.std.specs.Prelude.{◌≡◌, false, ◌+◌, ◌≤◌, ◌<◌, length};
ghost use Rattle.sums.specs.Lists.{at};
ghost use Rattle.refusals.specs.Causes.{answer, answer_period};
ghost use Rattle.register.specs.Register.{P};
ghost use Rattle.register.specs.Calls.{told};
ghost use Rattle.samples.specs.Samples.{some_out, cleared_wide};
ghost use Rattle.prediction.specs.Calls.{eighth_outcome, prediction_outcome};

use crate::windows::{some_sample_out, write_samples};
use refusals::Refusal;
use register::accepted::Register;
use response::given::check_given;
use response::respond::transform_room;
use response::spread::spread_back;
use samples::range::some_out;

// The largest order that the shorter room serves, and how many wide numbers the two rooms have.
const SHORT_ORDER: u32 = 12;

const SHORT_ROOM: usize = 4096;

const LONG_ROOM: usize = 65536;

// The samples, worked in a room, or 8 with the output left as it was. Past its first P+1 numbers the room is as it was.
pub fn predict_in(
    register: Register,
    h: &[i32],
    out: &mut [i32],
    room: &mut [i64],
) -> Result<(), Refusal>
    requires h_len { (length h.now ≡ P register.order) × (P register.order ≤ length out.old) × (P register.order < length room.old) }
    requires h_value { some_out (length h.now) (at h.now) ≡ false }
    ensures { ((answer result, out.new) ≡ eighth_outcome register.order register.taps h.now out.old)
        × (cleared_wide (P register.order + 1) room.new ≡ cleared_wide (P register.order + 1) room.old) }
{
    let period = h.len();
    spread_back(register, h, room);
    transform_room(register.order, room, period + 1);
    if some_sample_out(register, room, period) {
        return Err(Refusal::Predicted);
    }
    write_samples(register, room, out, period);
    Ok(())
}

// In a room of its own with so many wide numbers: clearing one for every order takes longer than a short period does.
fn predict_within<const ROOM: usize>(
    register: Register,
    h: &[i32],
    out: &mut [i32],
) -> Result<(), Refusal>
    requires room { (P register.order < ROOM) × (ROOM ≤ 65536) }
    requires h_len { (length h.now ≡ P register.order) × (P register.order ≤ length out.old) }
    requires h_value { some_out (length h.now) (at h.now) ≡ false }
    ensures { (answer result, out.new) ≡ eighth_outcome register.order register.taps h.now out.old }
{
    let mut room: [i64; ROOM] = [0; ROOM];
    predict_in(register, h, out, &mut room)
}

// In a room of its own, for orders up to `most`. It calls itself, and not last, because the compiler then keeps the frames of the two rooms out of this
// function and this function out of its callers: a call takes the stack that its order needs, and a refused one none of it.
fn predict_alone(register: Register, h: &[i32], out: &mut [i32], most: u32) -> Result<(), Refusal>
    requires h_len { (length h.now ≡ P register.order) × (P register.order ≤ length out.old) }
    requires h_value { some_out (length h.now) (at h.now) ≡ false }
    ensures { (answer result, out.new) ≡ eighth_outcome register.order register.taps h.now out.old }
{
    if most < register.order {
        if predict_alone(register, h, out, most + 1).is_ok() {
            return Ok(());
        }
        return Err(Refusal::Predicted);
    }
    if most <= SHORT_ORDER {
        return predict_within::<SHORT_ROOM>(register, h, out);
    }
    predict_within::<LONG_ROOM>(register, h, out)
}

// y(j) at every place, and the period, refusing 1 to 8.
pub fn predict(order: u32, taps: u32, h: &[i32], out: &mut [i32]) -> Result<u32, Refusal>
    ensures { ((answer result, out.new) ≡ prediction_outcome order taps h.now out.old) × (answer_period result ≡ told order taps (answer result) 0) }
{
    let period = check_given(order, taps, h)?;
    if out.len() < h.len() {
        return Err(Refusal::Room);
    }
    if some_out(h) {
        return Err(Refusal::Sample);
    }
    predict_alone(Register::new(order, taps), h, out, SHORT_ORDER)?;
    Ok(period)
}
