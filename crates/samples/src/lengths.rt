// Whether the room lent is too short, by its lengths.
ghost use Rattle.std.specs.Prelude.{◌≡◌, ◌≤◌};
ghost use Rattle.samples.specs.Samples.{work_short, room_short, lent_short};

// Whether the working room is short of P+1 wide numbers or P tags.
pub fn work_short(period: usize, room: usize, tags: usize) -> bool
    requires { period ≤ 65535 }
    ensures { result ≡ work_short period room tags }
{
    room < period + 1 || tags < period
}

// Whether an output is short of P, or the working room is short.
pub fn room_short(period: usize, out: usize, room: usize, tags: usize) -> bool
    requires { period ≤ 65535 }
    ensures { result ≡ room_short period out room tags }
{
    out < period || work_short(period, room, tags)
}

// Whether an output is short of P, or a prediction's room of P+1.
pub fn lent_short(period: usize, out: usize, room: usize) -> bool
    requires { period ≤ 65535 }
    ensures { result ≡ lent_short period out room }
{
    out < period || room < period + 1
}
