// The sequence, into a lent slice.
ghost use Rattle.std.specs.Prelude.{◌≡◌, ◌≤◌, ◌<◌, length};
ghost use Rattle.sums.specs.Lists.{table, put};
ghost use Rattle.refusals.specs.Causes.{answer};
ghost use Rattle.legendre.specs.Legendre.{bit};
ghost use Rattle.legendre.specs.Calls.{sequence_outcome};
ghost use Rattle.legendre.specs.Working.{Marked};

use crate::periods::offers;
use refusals::Refusal;
use samples::clearing::fill_front;

// 0 at each square.
fn mark_squares(out: &mut [u8], p: usize)
    requires { (p ≤ 127) × (p ≤ length out.old) }
    ensures { Marked p p out.old out.new }
{
    for i in 0..p {
        out[i * i % p] = 0;
    }
}

// The bits of the sequence: 0 at the squares alone, but for place 0.
pub fn write_bits(out: &mut [u8], p: usize)
    requires { (0 < p) × (p ≤ 127) × (p ≤ length out.old) }
    ensures { out.new ≡ put (table p (bit p)) out.old }
{
    fill_front(out, p, 1);
    mark_squares(out, p);
    out[0] = 1;
}

// The bits s(0) to s(p-1), refusing 25 and 6.
pub fn sequence(p: u32, out: &mut [u8]) -> Result<(), Refusal>
    ensures { (answer result, out.new) ≡ sequence_outcome p out.old }
{
    if !offers(p) {
        return Err(Refusal::NotOffered);
    }
    let count = p as usize;
    if out.len() < count {
        return Err(Refusal::Room);
    }
    write_bits(out, count);
    Ok(())
}
