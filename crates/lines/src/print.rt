// Parts of a line on the standard output that a program hands in, each number after a space. A write that fails is passed over:
// a line that is cut shows in the comparison of what was printed.
use std::fmt::Display;

pub fn word(rt: &impl Print, text: &[u8]) {
    let _ = rt.write_all(text);
}

pub fn number<T: Display + Copy>(rt: &impl Print, n: T) {
    let _ = print!(rt; " {n}");
}

pub fn line_end(rt: &impl Print) {
    let _ = println!(rt);
}

// The bits of a double as a number, and 0 for one that is no number.
pub fn bits(x: f64) -> u64 {
    if x.is_nan() { 0 } else { x.to_bits() }
}
