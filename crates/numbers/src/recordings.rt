// The lines of short recordings, of means, and of a prediction that is refused.
use lines::answers::number_told;
use refusals::Refusal;
use rounding::means::write_means;
use rounding::{AWAY_FROM_ZERO, TO_EVEN};

// What one recording answers at order 3, taps 3, with room enough.
fn answer(y: &[i32]) -> Result<u32, Refusal> {
    let mut out = [0i64; 7];
    let mut room = [0i64; 8];
    let mut tags = [0u16; 7];
    response::one_recording(3, 3, y, &mut out, &mut room, &mut tags)
}

fn recording_line(rt: &impl Print, y: &[i32]) {
    let _ = println!(rt; "recording 3 3 {} {}", y.len(), number_told(answer(y)));
}

pub fn recording_lines(rt: &impl Print) {
    recording_line(rt, &[0i32; 6]);
    recording_line(rt, &[0i32; 7]);
    recording_line(rt, &[0i32; 8]);
}

pub fn sample_lines(rt: &impl Print) {
    for v in [8388606, 8388607, 8388608, -8388608, -8388609] {
        let y = [v, 0, 0, 0, 0, 0, 0];
        let _ = println!(rt; "sample {v} {}", number_told(answer(&y)));
    }
}

// The means over 8 in an edition, by the call that works out a response's means.
fn edition_means(rt: &impl Print, edition: u32) {
    let r = [4i64, -4, -10, 12, -12, 3, -3, 0];
    let mut means = [0i32; 8];
    write_means(edition, &r, &mut means, 8, 8);
    for (n, mean) in r.iter().zip(&means) {
        let _ = println!(rt; "mean {edition} {n} 8 {mean}");
    }
}

pub fn mean_lines(rt: &impl Print) {
    edition_means(rt, AWAY_FROM_ZERO);
    edition_means(rt, TO_EVEN);
}

pub fn refused_line(rt: &impl Print) {
    let h = [8388607, 8388607, 0, 0, 0, 0, 0];
    let mut y = [0i32; 7];
    let answer = prediction::predict(3, 3, &h, &mut y);
    let _ = println!(rt; "predict-refused {}", number_told(answer));
}
