// The doors that file a night, of one period or a capture, with judging's own verdict or with one that is handed in as its state and its value.
ghost use Rattle.std.specs.Prelude.{◌≡◌};
ghost use Rattle.nights.specs.Nights.{period, capture};
ghost use Rattle.campaign.specs.Calls.{own, handed};
ghost use Rattle.meter.specs.Doors.{pair_says, file_door};

use crate::tables::{read_record, tables_short, write_record};
use crate::verdicts::{verdict_said, write_verdict};
use campaign::entering::file_shown;
use judging::Judged;
use nights::Night;
use refusals::Refusal;

// Either kind of night, by what was shown of it.
fn file_night(
    order: u32,
    taps: u32,
    capacity: u32,
    edition: u32,
    days: &mut [u8],
    slots: &mut [u16],
    periods: &mut [u8],
    store: &mut [i32],
    sums: &mut [i64],
    day: u32,
    night: Night,
    y: &[i32],
    shown: Option<Judged>,
    state: &mut u32,
    value: &mut usize,
) -> u32
    ensures { (result, days.new, slots.new, periods.new, store.new, sums.new, state.new, value.new)
        ≡ file_door order taps capacity edition days.old slots.old periods.old store.old sums.old day night y.now
        shown state.old value.old }
{
    if tables_short(days.len(), slots.len(), periods.len()) {
        return Refusal::Apart.number();
    }
    let c = read_record(order, taps, capacity, edition, days, slots, periods);
    let entered = file_shown(c, store, sums, day, night, y, shown);
    write_record(entered.campaign, days, slots, periods);
    write_verdict(entered.entry.verdict, state, value)
}

// The same with the verdict that a state and a value say.
fn file_said(
    order: u32,
    taps: u32,
    capacity: u32,
    edition: u32,
    days: &mut [u8],
    slots: &mut [u16],
    periods: &mut [u8],
    store: &mut [i32],
    sums: &mut [i64],
    day: u32,
    night: Night,
    y: &[i32],
    shown: u32,
    place: usize,
    state: &mut u32,
    value: &mut usize,
) -> u32
    ensures { (result, days.new, slots.new, periods.new, store.new, sums.new, state.new, value.new)
        ≡ file_door order taps capacity edition days.old slots.old periods.old store.old sums.old day night y.now
        (handed (pair_says shown place)) state.old value.old }
{
    file_night(
        order,
        taps,
        capacity,
        edition,
        days,
        slots,
        periods,
        store,
        sums,
        day,
        night,
        y,
        Some(verdict_said(shown, place)),
        state,
        value,
    )
}

pub fn meter_enter(
    order: u32,
    taps: u32,
    capacity: u32,
    edition: u32,
    days: &mut [u8],
    slots: &mut [u16],
    periods: &mut [u8],
    store: &mut [i32],
    sums: &mut [i64],
    day: u32,
    y: &[i32],
    state: &mut u32,
    value: &mut usize,
) -> u32
    ensures { (result, days.new, slots.new, periods.new, store.new, sums.new, state.new, value.new)
        ≡ file_door order taps capacity edition days.old slots.old periods.old store.old sums.old day period y.now
        own state.old value.old }
{
    file_night(
        order,
        taps,
        capacity,
        edition,
        days,
        slots,
        periods,
        store,
        sums,
        day,
        Night::Period,
        y,
        None,
        state,
        value,
    )
}

pub fn meter_capture(
    order: u32,
    taps: u32,
    capacity: u32,
    edition: u32,
    days: &mut [u8],
    slots: &mut [u16],
    periods: &mut [u8],
    store: &mut [i32],
    sums: &mut [i64],
    day: u32,
    m: u32,
    y: &[i32],
    state: &mut u32,
    value: &mut usize,
) -> u32
    ensures { (result, days.new, slots.new, periods.new, store.new, sums.new, state.new, value.new)
        ≡ file_door order taps capacity edition days.old slots.old periods.old store.old sums.old day (capture m) y.now
        own state.old value.old }
{
    file_night(
        order,
        taps,
        capacity,
        edition,
        days,
        slots,
        periods,
        store,
        sums,
        day,
        Night::Capture(m),
        y,
        None,
        state,
        value,
    )
}

pub fn meter_file(
    order: u32,
    taps: u32,
    capacity: u32,
    edition: u32,
    days: &mut [u8],
    slots: &mut [u16],
    periods: &mut [u8],
    store: &mut [i32],
    sums: &mut [i64],
    day: u32,
    y: &[i32],
    shown: u32,
    place: usize,
    state: &mut u32,
    value: &mut usize,
) -> u32
    ensures { (result, days.new, slots.new, periods.new, store.new, sums.new, state.new, value.new)
        ≡ file_door order taps capacity edition days.old slots.old periods.old store.old sums.old day period y.now
        (handed (pair_says shown place)) state.old value.old }
{
    file_said(
        order,
        taps,
        capacity,
        edition,
        days,
        slots,
        periods,
        store,
        sums,
        day,
        Night::Period,
        y,
        shown,
        place,
        state,
        value,
    )
}

pub fn meter_file_capture(
    order: u32,
    taps: u32,
    capacity: u32,
    edition: u32,
    days: &mut [u8],
    slots: &mut [u16],
    periods: &mut [u8],
    store: &mut [i32],
    sums: &mut [i64],
    day: u32,
    m: u32,
    y: &[i32],
    shown: u32,
    place: usize,
    state: &mut u32,
    value: &mut usize,
) -> u32
    ensures { (result, days.new, slots.new, periods.new, store.new, sums.new, state.new, value.new)
        ≡ file_door order taps capacity edition days.old slots.old periods.old store.old sums.old day (capture m) y.now
        (handed (pair_says shown place)) state.old value.old }
{
    file_said(
        order,
        taps,
        capacity,
        edition,
        days,
        slots,
        periods,
        store,
        sums,
        day,
        Night::Capture(m),
        y,
        shown,
        place,
        state,
        value,
    )
}
