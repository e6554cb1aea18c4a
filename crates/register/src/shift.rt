// The register's step, and its transpose, the step of a tag.
ghost use Rattle.std.specs.Prelude.{◌≡◌, ◌≤◌, ◌<◌, ◌^◌};
ghost use Rattle.register.specs.Register.{step as step_of, tag-step as tag_step_of, P as period_of};

// The full period of an order: 2^order - 1.
pub fn full_period(order: u32) -> u32
    requires { order ≤ 16 }
    ensures { result ≡ period_of order }
{
    (1 << order) - 1
}

// The window one step on.
pub fn step(order: u32, taps: u32, window: u32) -> u32
    requires order_bound { order ≤ 16 }
    requires window_bound { window < 2 ^ order }
    ensures { result ≡ step_of order taps window }
{
    let fresh = (taps & window).count_ones() % 2;
    (window + (fresh << order)) / 2
}

// The tag of a delay one step longer.
pub fn tag_step(order: u32, taps: u32, tag: u32) -> u32
    requires order_bound { order ≤ 16 }
    requires taps_bound { taps < 2 ^ order }
    requires tag_bound { tag < 2 ^ order }
    ensures { result ≡ tag_step_of order taps tag }
{
    let up = tag * 2;
    let out = up >> order;
    (up & full_period(order)) ^ (out * taps)
}
