// The doors of Legendre sequences, for short rooms.
ghost use Rattle.std.specs.Prelude.{◌≡◌};
ghost use Rattle.legendre.specs.Calls.{sequence_outcome, recording_outcome, prediction_outcome};

use legendre::sequence::sequence;
use legendre::{one_recording, predict};
use refusals::told;

pub fn meter_legendre_sequence(p: u32, out: &mut [u8]) -> u32
    ensures { (result, out.new) ≡ sequence_outcome p out.old }
{
    told(sequence(p, out))
}

pub fn meter_legendre_recording(p: u32, y: &[i32], out: &mut [i64]) -> u32
    ensures { (result, out.new) ≡ recording_outcome p y.now out.old }
{
    told(one_recording(p, y, out))
}

pub fn meter_legendre_predict(p: u32, h: &[i32], out: &mut [i32]) -> u32
    ensures { (result, out.new) ≡ prediction_outcome p h.now out.old }
{
    told(predict(p, h, out))
}
