// One recording, or the sums of many, turned into a response.
#![tactic(auto)]

pub mod gather;
pub mod given;
pub mod of_sums;
mod recording;
pub mod respond;
pub mod spread;

pub use recording::one_recording;
