// The doors of Legendre sequences, for short rooms.
ghost use Rattle.std.specs.Prelude.{◌≡◌};
ghost use Rattle.legendre.specs.Calls.{sequence_outcome, recording_outcome, prediction_outcome};

use meter::short_rooms;

#[unsafe(no_mangle)]
pub extern "C" fn meter_legendre_sequence(p: u32, out: &mut [u8]) -> u32
    ensures { (result, out.new) ≡ sequence_outcome p out.old }
{
    short_rooms::meter_legendre_sequence(p, out)
}

#[unsafe(no_mangle)]
pub extern "C" fn meter_legendre_recording(p: u32, y: &[i32], out: &mut [i64]) -> u32
    ensures { (result, out.new) ≡ recording_outcome p y.now out.old }
{
    short_rooms::meter_legendre_recording(p, y, out)
}

#[unsafe(no_mangle)]
pub extern "C" fn meter_legendre_predict(p: u32, h: &[i32], out: &mut [i32]) -> u32
    ensures { (result, out.new) ≡ prediction_outcome p h.now out.old }
{
    short_rooms::meter_legendre_predict(p, h, out)
}
