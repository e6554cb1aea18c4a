// The doors of one recording and of a prediction, with a room of its own and with one that is lent.
ghost use Rattle.std.specs.Prelude.{◌≡◌};
ghost use Rattle.register.specs.Calls.{told};
ghost use Rattle.response.specs.Calls.{recording_outcome};
ghost use Rattle.prediction.specs.Calls.{prediction_outcome, roomed_outcome};

use crate::periods::write_answer;
use prediction::{predict, predict_in_room};
use response::one_recording;

pub fn meter_recording(
    order: u32,
    taps: u32,
    y: &[i32],
    out: &mut [i64],
    room: &mut [i64],
    tags: &mut [u16],
    period: &mut u32,
) -> u32
    ensures { ((result, out.new, room.new, tags.new)
        ≡ recording_outcome order taps y.now out.old room.old tags.old)
        × (period.new ≡ told order taps result period.old) }
{
    write_answer(one_recording(order, taps, y, out, room, tags), period)
}

pub fn meter_predict(order: u32, taps: u32, h: &[i32], out: &mut [i32], period: &mut u32) -> u32
    ensures { ((result, out.new) ≡ prediction_outcome order taps h.now out.old)
        × (period.new ≡ told order taps result period.old) }
{
    write_answer(predict(order, taps, h, out), period)
}

pub fn meter_predict_in_room(
    order: u32,
    taps: u32,
    h: &[i32],
    out: &mut [i32],
    room: &mut [i64],
    period: &mut u32,
) -> u32
    ensures { ((result, out.new, room.new) ≡ roomed_outcome order taps h.now out.old room.old)
        × (period.new ≡ told order taps result period.old) }
{
    write_answer(predict_in_room(order, taps, h, out, room), period)
}
