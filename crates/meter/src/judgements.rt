// The doors of judging, which are lent no record.
ghost use Rattle.std.specs.Prelude.{◌≡◌};
ghost use Rattle.register.specs.Calls.{told};
ghost use Rattle.nights.specs.Nights.{period as one_period, capture};
ghost use Rattle.meter.specs.Doors.{judge_door};

use crate::periods::write_period;
use crate::verdicts::write_judged;
use judging::judging::judge;
use nights::Night;

// Either kind of night.
fn judge_night(
    order: u32,
    taps: u32,
    night: Night,
    y: &[i32],
    state: &mut u32,
    value: &mut usize,
    period: &mut u32,
) -> u32
    ensures { ((result, state.new, value.new) ≡ judge_door order taps night y.now state.old value.old)
        × (period.new ≡ told order taps result period.old) }
{
    let judgement = judge(order, taps, night, y);
    write_period(judgement.period, period);
    write_judged(judgement.verdict, state, value)
}

pub fn meter_judge(
    order: u32,
    taps: u32,
    y: &[i32],
    state: &mut u32,
    value: &mut usize,
    period: &mut u32,
) -> u32
    ensures { ((result, state.new, value.new) ≡ judge_door order taps one_period y.now state.old value.old)
        × (period.new ≡ told order taps result period.old) }
{
    judge_night(order, taps, Night::Period, y, state, value, period)
}

pub fn meter_judge_capture(
    order: u32,
    taps: u32,
    m: u32,
    y: &[i32],
    state: &mut u32,
    value: &mut usize,
    period: &mut u32,
) -> u32
    ensures { ((result, state.new, value.new) ≡ judge_door order taps (capture m) y.now state.old value.old)
        × (period.new ≡ told order taps result period.old) }
{
    judge_night(order, taps, Night::Capture(m), y, state, value, period)
}
