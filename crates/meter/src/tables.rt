// The record's three tables, read from lent memory and written back to it.
ghost use Rattle.std.specs.Prelude.{◌≡◌, ◌||◌, ◌≤◌, ltb, length};
ghost use Rattle.sums.specs.Lists.{put};
ghost use Rattle.meter.specs.Doors.{record_of};

use records::filing::blank;
use records::{Campaign, DAYS, SLOTS};

// Whether a table is short of 366 days or 64 slots.
pub fn tables_short(days: usize, slots: usize, periods: usize) -> bool
    ensures { result ≡ ltb days 366 || (ltb slots 64 || ltb periods 64) }
{
    days < DAYS || (slots < SLOTS || periods < SLOTS)
}

// The record of four numbers and three tables.
pub fn read_record(
    order: u32,
    taps: u32,
    capacity: u32,
    edition: u32,
    days: &[u8],
    slots: &[u16],
    periods: &[u8],
) -> Campaign
    requires { (366 ≤ length days.now) × (64 ≤ length slots.now) × (64 ≤ length periods.now) }
    ensures { result ≡ record_of order taps capacity edition days.now slots.now periods.now }
{
    let mut c = blank(order, taps, capacity, edition);
    c.days.copy_from_slice(&days[..DAYS]);
    c.slots.copy_from_slice(&slots[..SLOTS]);
    c.periods.copy_from_slice(&periods[..SLOTS]);
    c
}

// The record's tables in the place of the lent ones.
pub fn write_record(c: Campaign, days: &mut [u8], slots: &mut [u16], periods: &mut [u8])
    requires { (366 ≤ length days.old) × (64 ≤ length slots.old) × (64 ≤ length periods.old) }
    ensures { (days.new ≡ put c.days days.old) × (slots.new ≡ put c.slots slots.old)
        × (periods.new ≡ put c.periods periods.old) }
{
    days[..DAYS].copy_from_slice(&c.days);
    slots[..SLOTS].copy_from_slice(&c.slots);
    periods[..SLOTS].copy_from_slice(&c.periods);
}
