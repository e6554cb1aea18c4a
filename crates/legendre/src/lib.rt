// Legendre sequences: the sequence, one recording and a prediction at fifteen periods between the powers of two, worked directly and with no room lent.
#![tactic(auto)]

mod meeting;
mod periods;
mod prediction;
mod recording;
pub mod sequence;

pub use prediction::predict;
pub use recording::one_recording;
