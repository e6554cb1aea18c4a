// Whether what is lent for a response is too short, by its lengths.
ghost use Rattle.std.specs.Prelude.{◌≡◌, ◌≤◌};
ghost use Rattle.trend.specs.Calls.{answer_short};

use samples::lengths::room_short;

// Whether r or the mean is short of P places, or the working room is short.
pub fn answer_short(period: usize, r: usize, mean: usize, room: usize, tags: usize) -> bool
    requires { period ≤ 65535 }
    ensures { result ≡ answer_short period r mean room tags }
{
    r < period || room_short(period, mean, room, tags)
}
