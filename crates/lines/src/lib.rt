// The lines that a program prints: words, numbers, and one number for a long list.
#![tactic(auto)]

pub mod answers;
pub mod digest;
pub mod print;
