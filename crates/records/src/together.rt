// The record, the store and the sums read again, at every call.
ghost use Rattle.std.specs.Prelude.{◌≡◌};
ghost use Rattle.records.specs.Record.{together};

use crate::Campaign;
use crate::stored::store_holds;
use register::shift::full_period;
use register::taps::accepts;
use rounding::editions::is_edition;

// Whether the record holds together with the store and the sums.
pub fn holds(c: &Campaign, store: &[i32], sums: &[i64]) -> bool
    ensures { result ≡ together c.now store.now sums.now }
{
    if !accepts(c.order, c.taps) {
        return false;
    }
    if !is_edition(c.edition) {
        return false;
    }
    if !c.filed_holds() {
        return false;
    }
    let capacity = c.capacity as usize;
    let period = full_period(c.order) as usize;
    if store.len() < capacity * period {
        return false;
    }
    if sums.len() < period {
        return false;
    }
    store_holds(c, period, store, sums)
}
