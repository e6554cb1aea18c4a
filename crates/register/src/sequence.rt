// The sequence, into a lent slice.
ghost use Rattle.std.specs.Prelude.{◌≡◌, ◌≤◌, length};
ghost use Rattle.sums.specs.Lists.{table, put};
ghost use Rattle.refusals.specs.Causes.{answer, answer_period};
ghost use Rattle.register.specs.Register.{bit};
ghost use Rattle.register.specs.Calls.{told, sequence_outcome};

use crate::shift::{full_period, step};
use crate::taps::check_taps;
use refusals::Refusal;

// The first bits of the sequence, one after the other.
fn write_bits(order: u32, taps: u32, out: &mut [u8], count: usize)
    requires order_bound { order ≤ 16 }
    requires count_in_bounds { count ≤ length out.old }
    ensures { out.new ≡ put (table count (bit order taps)) out.old }
{
    let mut window = full_period(order);
    for bit in &mut out[..count] {
        *bit = (window % 2) as u8;
        window = step(order, taps, window);
    }
}

// The bits s(0) to s(P-1), and the period, refusing 1, 2, 3, 4, 6.
pub fn sequence(order: u32, taps: u32, out: &mut [u8]) -> Result<u32, Refusal>
    ensures { ((answer result, out.new) ≡ sequence_outcome order taps out.old) × (answer_period result ≡ told order taps (answer result) 0) }
{
    let period = check_taps(order, taps)?;
    let count = period as usize;
    if out.len() < count {
        return Err(Refusal::Room);
    }
    write_bits(order, taps, out, count);
    Ok(period)
}
