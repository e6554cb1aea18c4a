// The doors of a campaign's calls but those that file a night: the record crosses as four numbers and three lent tables.
ghost use Rattle.std.specs.Prelude.{◌≡◌};
ghost use Rattle.register.specs.Calls.{told as told_of};
ghost use Rattle.meter.specs.Doors.{start_door, withdraw_door, counts_door, response_door, summary_door};

use crate::periods::write_answer;
use crate::tables::{read_record, tables_short, write_record};
use crate::verdicts::{write_counts, write_summary};
use campaign::starting::{check_start, start};
use campaign::withdrawing::withdraw;
use refusals::{Refusal, told};
use trend::answering::response;
use trend::counting::counts;
use trend::summarising::summary;

// A short table is room too short, so the start is refused as one that is lent no memory.
pub fn meter_start(
    order: u32,
    taps: u32,
    capacity: u32,
    edition: u32,
    days: &mut [u8],
    slots: &mut [u16],
    periods: &mut [u8],
    store: &mut [i32],
    sums: &mut [i64],
    period: &mut u32,
) -> u32
    ensures { ((result, days.new, slots.new, periods.new, store.new, sums.new)
        ≡ start_door order taps capacity edition days.old slots.old periods.old store.old sums.old)
        × (period.new ≡ told_of order taps result period.old) }
{
    if tables_short(days.len(), slots.len(), periods.len()) {
        return write_answer(check_start(order, taps, capacity, edition, 0, 0), period);
    }
    let c = read_record(order, taps, capacity, edition, days, slots, periods);
    let started = start(c, order, taps, capacity, edition, store, sums);
    write_record(started.campaign, days, slots, periods);
    write_answer(started.answer, period)
}

pub fn meter_withdraw(
    order: u32,
    taps: u32,
    capacity: u32,
    edition: u32,
    days: &mut [u8],
    slots: &mut [u16],
    periods: &mut [u8],
    store: &mut [i32],
    sums: &mut [i64],
    day: u32,
) -> u32
    ensures { (result, days.new, slots.new, periods.new, store.new, sums.new)
        ≡ withdraw_door order taps capacity edition days.old slots.old periods.old store.old sums.old day }
{
    if tables_short(days.len(), slots.len(), periods.len()) {
        return Refusal::Apart.number();
    }
    let c = read_record(order, taps, capacity, edition, days, slots, periods);
    let withdrawn = withdraw(c, store, sums, day);
    write_record(withdrawn.campaign, days, slots, periods);
    told(withdrawn.answer)
}

pub fn meter_response(
    order: u32,
    taps: u32,
    capacity: u32,
    edition: u32,
    days: &[u8],
    slots: &[u16],
    periods: &[u8],
    store: &[i32],
    sums: &[i64],
    r: &mut [i64],
    mean: &mut [i32],
    room: &mut [i64],
    tags: &mut [u16],
) -> u32
    ensures { (result, r.new, mean.new, room.new, tags.new)
        ≡ response_door order taps capacity edition days.now slots.now periods.now store.now sums.now
        r.old mean.old room.old tags.old }
{
    if tables_short(days.len(), slots.len(), periods.len()) {
        return Refusal::Apart.number();
    }
    let c = read_record(order, taps, capacity, edition, days, slots, periods);
    told(response(c, store, sums, r, mean, room, tags))
}

pub fn meter_counts(
    order: u32,
    taps: u32,
    capacity: u32,
    edition: u32,
    days: &[u8],
    slots: &[u16],
    periods: &[u8],
    store: &[i32],
    sums: &[i64],
    unseen: &mut u32,
    standing: &mut u32,
    overloaded: &mut u32,
    dead: &mut u32,
    withdrawn: &mut u32,
) -> u32
    ensures { (result, record { unseen = unseen.new; standing = standing.new; overloaded = overloaded.new; dead = dead.new; withdrawn = withdrawn.new })
        ≡ counts_door order taps capacity edition days.now slots.now periods.now store.now sums.now
        (record { unseen = unseen.old; standing = standing.old; overloaded = overloaded.old; dead = dead.old; withdrawn = withdrawn.old }) }
{
    if tables_short(days.len(), slots.len(), periods.len()) {
        return Refusal::Apart.number();
    }
    let c = read_record(order, taps, capacity, edition, days, slots, periods);
    let counted = counts(c, store, sums);
    write_counts(counted, unseen, standing, overloaded, dead, withdrawn)
}

pub fn meter_summary(
    order: u32,
    taps: u32,
    capacity: u32,
    edition: u32,
    days: &[u8],
    slots: &[u16],
    periods: &[u8],
    store: &[i32],
    sums: &[i64],
    room: &mut [i64],
    tags: &mut [u16],
    stands: &mut u32,
    highest: &mut f64,
    lowest: &mut f64,
    peak: &mut f64,
) -> u32
    ensures { (result, room.new, tags.new, stands.new, record { highest = highest.new; lowest = lowest.new; peak = peak.new })
        ≡ summary_door order taps capacity edition days.now slots.now periods.now store.now sums.now
        room.old tags.old stands.old
        (record { highest = highest.old; lowest = lowest.old; peak = peak.old }) }
{
    if tables_short(days.len(), slots.len(), periods.len()) {
        return Refusal::Apart.number();
    }
    let c = read_record(order, taps, capacity, edition, days, slots, periods);
    let found = summary(c, store, sums, room, tags);
    write_summary(found, stands, highest, lowest, peak)
}
