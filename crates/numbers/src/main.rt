// The numbers to hold the meter to, from the proved calls: a second program prints the same lines.
#![tactic(auto)]

mod checks;
mod large;
mod late;
mod late_nights;
mod recordings;
mod signals;

fn main(rt: HostRuntime) {
    checks::taps_lines(&rt);
    checks::all_taps_lines(&rt);
    checks::default_lines(&rt);
    recordings::recording_lines(&rt);
    recordings::sample_lines(&rt);
    recordings::mean_lines(&rt);
    recordings::refused_line(&rt);
    large::large_lines(&rt);
    late::late_lines(&rt);
}
