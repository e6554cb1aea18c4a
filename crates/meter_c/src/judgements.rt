// The doors of judging, which are lent no record.
ghost use Rattle.std.specs.Prelude.{◌≡◌};
ghost use Rattle.register.specs.Calls.{told};
ghost use Rattle.nights.specs.Nights.{period as one_period, capture};
ghost use Rattle.meter.specs.Doors.{judge_door};

use meter::judgements;

#[unsafe(no_mangle)]
pub extern "C" fn meter_judge(
    order: u32,
    taps: u32,
    y: &[i32],
    state: &mut u32,
    value: &mut usize,
    period: &mut u32,
) -> u32
    ensures { ((result, state.new, value.new) ≡ judge_door order taps one_period y.now state.old value.old)
        × (period.new ≡ told order taps result period.old) }
{
    judgements::meter_judge(order, taps, y, state, value, period)
}

#[unsafe(no_mangle)]
pub extern "C" fn meter_judge_capture(
    order: u32,
    taps: u32,
    m: u32,
    y: &[i32],
    state: &mut u32,
    value: &mut usize,
    period: &mut u32,
) -> u32
    ensures { ((result, state.new, value.new) ≡ judge_door order taps (capture m) y.now state.old value.old)
        × (period.new ≡ told order taps result period.old) }
{
    judgements::meter_judge_capture(order, taps, m, y, state, value, period)
}
