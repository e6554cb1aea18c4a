// The doors that file a night, of one period or a capture, with judging's own verdict or with one that is handed in as its state and its value.
ghost use Rattle.std.specs.Prelude.{◌≡◌};
ghost use Rattle.nights.specs.Nights.{period, capture};
ghost use Rattle.campaign.specs.Calls.{own, handed};
ghost use Rattle.meter.specs.Doors.{pair_says, file_door};

use meter::filing;

#[unsafe(no_mangle)]
pub extern "C" fn meter_enter(
    order: u32,
    taps: u32,
    capacity: u32,
    edition: u32,
    days: &mut [u8],
    slots: &mut [u16],
    periods: &mut [u8],
    store: &mut [i32],
    sums: &mut [i64],
    day: u32,
    y: &[i32],
    state: &mut u32,
    value: &mut usize,
) -> u32
    ensures { (result, days.new, slots.new, periods.new, store.new, sums.new, state.new, value.new)
        ≡ file_door order taps capacity edition days.old slots.old periods.old store.old sums.old day period y.now
        own state.old value.old }
{
    filing::meter_enter(
        order, taps, capacity, edition, days, slots, periods, store, sums, day, y, state, value,
    )
}

#[unsafe(no_mangle)]
pub extern "C" fn meter_capture(
    order: u32,
    taps: u32,
    capacity: u32,
    edition: u32,
    days: &mut [u8],
    slots: &mut [u16],
    periods: &mut [u8],
    store: &mut [i32],
    sums: &mut [i64],
    day: u32,
    m: u32,
    y: &[i32],
    state: &mut u32,
    value: &mut usize,
) -> u32
    ensures { (result, days.new, slots.new, periods.new, store.new, sums.new, state.new, value.new)
        ≡ file_door order taps capacity edition days.old slots.old periods.old store.old sums.old day (capture m) y.now
        own state.old value.old }
{
    filing::meter_capture(
        order, taps, capacity, edition, days, slots, periods, store, sums, day, m, y, state, value,
    )
}

#[unsafe(no_mangle)]
pub extern "C" fn meter_file(
    order: u32,
    taps: u32,
    capacity: u32,
    edition: u32,
    days: &mut [u8],
    slots: &mut [u16],
    periods: &mut [u8],
    store: &mut [i32],
    sums: &mut [i64],
    day: u32,
    y: &[i32],
    shown: u32,
    place: usize,
    state: &mut u32,
    value: &mut usize,
) -> u32
    ensures { (result, days.new, slots.new, periods.new, store.new, sums.new, state.new, value.new)
        ≡ file_door order taps capacity edition days.old slots.old periods.old store.old sums.old day period y.now
        (handed (pair_says shown place)) state.old value.old }
{
    filing::meter_file(
        order, taps, capacity, edition, days, slots, periods, store, sums, day, y, shown, place,
        state, value,
    )
}

#[unsafe(no_mangle)]
pub extern "C" fn meter_file_capture(
    order: u32,
    taps: u32,
    capacity: u32,
    edition: u32,
    days: &mut [u8],
    slots: &mut [u16],
    periods: &mut [u8],
    store: &mut [i32],
    sums: &mut [i64],
    day: u32,
    m: u32,
    y: &[i32],
    shown: u32,
    place: usize,
    state: &mut u32,
    value: &mut usize,
) -> u32
    ensures { (result, days.new, slots.new, periods.new, store.new, sums.new, state.new, value.new)
        ≡ file_door order taps capacity edition days.old slots.old periods.old store.old sums.old day (capture m) y.now
        (handed (pair_says shown place)) state.old value.old }
{
    filing::meter_file_capture(
        order, taps, capacity, edition, days, slots, periods, store, sums, day, m, y, shown, place,
        state, value,
    )
}
