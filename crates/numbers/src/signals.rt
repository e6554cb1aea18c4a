// The response that is predicted and recovered, and the loudest recordings.
ghost use Rattle.std.specs.Prelude.{◌≡◌, ◌≤◌, length};
ghost use Rattle.sums.specs.Lists.{table};
ghost use Rattle.numbers.specs.Signals.{pattern, turns};

// ((i * 37) mod 23) - 11 at each place i.
pub fn fill_pattern(h: &mut [i32])
    requires { length h.old ≤ 65535 }
    ensures { h.new ≡ table (length h.old) pattern }
{
    for (i, x) in h.iter_mut().enumerate() {
        *x = (i * 37 % 23) as i32 - 11;
    }
}

// One number at the even places, another at the odd.
fn turn(i: usize, even: i32, odd: i32) -> i32
    ensures { result ≡ turns even odd i }
{
    if i % 2 == 0 { even } else { odd }
}

pub fn fill_turns(y: &mut [i32], even: i32, odd: i32)
    ensures { y.new ≡ table (length y.old) (turns even odd) }
{
    for (i, x) in y.iter_mut().enumerate() {
        *x = turn(i, even, odd);
    }
}
