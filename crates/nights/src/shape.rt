// How many periods a night has, and how many samples.
ghost use Rattle.std.specs.Prelude.{◌≡◌, ◌*◌, ◌≤◌};
ghost use Rattle.nights.specs.Nights.{lead, periods_of, periods_out, night_length};

use crate::{MOST_PERIODS, Night};

// How many periods of run-in it has.
pub fn lead_of(night: Night) -> u32
    ensures { result ≡ lead night }
{
    match night {
        Night::Period => 0,
        Night::Capture(_m) => 1,
    }
}

// How many count.
pub fn periods_of(night: Night) -> u32
    ensures { result ≡ periods_of night }
{
    match night {
        Night::Period => 1,
        Night::Capture(m) => m,
    }
}

// Whether so many may not count.
pub fn periods_out(night: Night) -> bool
    ensures { result ≡ periods_out night }
{
    let m = periods_of(night);
    m < 1 || MOST_PERIODS < m
}

// How many samples its run-in has.
pub fn run_in(night: Night, period: usize) -> usize
    requires { period ≤ 65535 }
    ensures { result ≡ lead night * period }
{
    lead_of(night) as usize * period
}

// How many samples it has.
pub fn night_length(night: Night, period: usize) -> usize
    requires { (period ≤ 65535) × (periods_of night ≤ 255) }
    ensures { result ≡ night_length period night }
{
    let periods = lead_of(night) + periods_of(night);
    periods as usize * period
}
