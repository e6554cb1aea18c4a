// Signs and refusals on standard output.
use lines::print::word;
use refusals::Refusal;

// - for -1, + for +1.
pub fn mark(rt: &impl Print, sign: i32) {
    word(rt, if sign < 0 { b"-" } else { b"+" });
}

pub fn marks(rt: &impl Print, signs: &[i8]) {
    for &sign in signs {
        mark(rt, i32::from(sign));
    }
}

pub fn refused(rt: &impl Print, refusal: Refusal) {
    let _ = print!(rt; "refused {}", refusal.number());
}
