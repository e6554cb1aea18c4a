// The store and the sums against the slots: read once, in blocks of places, slot by slot.
ghost use Rattle.std.specs.Prelude.{◌≡◌, ℕ, ◌+◌, ◌*◌, ◌^◌, ◌≤◌, ◌<◌, true, cond, ◌&&◌, eqb, ℤ, pos, nat_abs, ◌+ℤ◌, length};
ghost use Rattle.std.specs.Int.Signed.{le_z};
ghost use Rattle.sums.specs.Lists.{at, every};
ghost use Rattle.samples.specs.Samples.{within};
ghost use Rattle.sums.specs.Equal.{eq_z};
ghost use Rattle.records.specs.Record.{periods};
ghost use Rattle.records.specs.Blocks.{Block};

use crate::{Campaign, FREE};
use samples::clearing::fill_front;
use samples::range::{between, least_of, most_of};

// How many places a block has: its sums stay in the processor's nearest memory.
const BLOCK: usize = 1024;

// What the slot of a night of one recording has.
const ONE_PERIOD: u8 = 1;

// A used slot's samples at some places, added to their sums: whether all lie between the bounds. Both are done in one pass, with no branch between two
// samples, so that the compiler takes many at a time.
pub fn add_row(row: &[i32], low: i32, high: i32, sums: &mut [i64]) -> bool
    requires { (length row.now ≤ length sums.old) × ((j : ℕ) → j < length row.now → nat_abs (at sums.old j) ≤ 2 ^ 40) }
    ensures { (result ≡ every (length row.now) (λ j. le_z low (at row.now j) && le_z (at row.now j) high))
        × ((j : ℕ) → at sums.new j ≡ at sums.old j +ℤ at row.now j) }
{
    let mut good = true;
    for j in 0..row.len() {
        let x = row[j];
        good = good & between(low, high, x);
        sums[j] += x as i64;
    }
    good
}

// Whether a free slot's samples at some places are zeros. No chain's contract says that its items are in a sample's range, so a proof of `all` does not close.
fn zero_row(row: &[i32]) -> bool
    ensures { result ≡ every (length row.now) (λ j. eq_z (at row.now j) (pos 0)) }
{
    for &x in row {
        if x != 0 {
            return false;
        }
    }
    true
}

// A slot's samples at some places: zeros where no day has it, else what its m periods may add up to, and added to their sums.
fn take_row(day: u16, m: u8, row: &[i32], sums: &mut [i64]) -> bool
    requires m_bound { m ≤ 16 }
    requires row_in_bounds { (length row.now ≤ length sums.old) × ((j : ℕ) → j < length row.now → nat_abs (at sums.old j) ≤ 2 ^ 40) }
    ensures { (result ≡ cond (eqb day 0) (every (length row.now) (λ j. eq_z (at row.now j) (pos 0)))
        (every (length row.now) (λ j. within m (at row.now j))))
        × ((j : ℕ) → at sums.new j ≡ at sums.old j +ℤ cond (eqb day 0) (pos 0) (at row.now j)) }
{
    if day == FREE {
        return zero_row(row);
    }
    // The compiler knows the bounds of one period, and tests for such faster.
    if m == ONE_PERIOD {
        return add_row(row, least_of(ONE_PERIOD), most_of(ONE_PERIOD), sums);
    }
    add_row(row, least_of(m), most_of(m), sums)
}

// Whether the places from `from` on hold together, their sums worked out in the room lent.
fn block_holds(
    c: &Campaign,
    period: usize,
    store: &[i32],
    sums: &[i64],
    from: usize,
    count: usize,
    found: &mut [i64],
) -> bool
    requires capacity_bound { (c.now.capacity ≤ 64) × (c.now.capacity * period ≤ length store.now) × (period ≤ length sums.now) }
    requires by_index { (s : ℕ) → s < c.now.capacity → periods c.now s ≤ 16 }
    requires count_bound { (from + count ≤ period) × (count ≤ length found.old) }
    ensures { (result ≡ true → Block c.now.slots c.now.periods c.now.capacity period store.now sums.now from count)
        × (Block c.now.slots c.now.periods c.now.capacity period store.now sums.now from count → result ≡ true) }
{
    fill_front(found, count, 0);
    for s in 0..c.capacity as usize {
        let at = s * period + from;
        let end = at + count;
        if !take_row(c.slots[s], c.periods[s], &store[at..end], found) {
            return false;
        }
    }
    let to = from + count;
    sums[from..to] == found[..count]
}

// Whether all places hold together, block after block.
pub fn store_holds(c: &Campaign, period: usize, store: &[i32], sums: &[i64]) -> bool
    requires capacity_bound { (c.now.capacity ≤ 64) × (c.now.capacity * period ≤ length store.now) × (period ≤ length sums.now) }
    requires by_index { (s : ℕ) → s < c.now.capacity → periods c.now s ≤ 16 }
    ensures { (result ≡ true → Block c.now.slots c.now.periods c.now.capacity period store.now sums.now 0 period)
        × (Block c.now.slots c.now.periods c.now.capacity period store.now sums.now 0 period → result ≡ true) }
{
    let mut found = [0i64; BLOCK];
    for from in (0..period).step_by(BLOCK) {
        let count = BLOCK.min(period - from);
        if !block_holds(c, period, store, sums, from, count, &mut found) {
            return false;
        }
    }
    true
}
