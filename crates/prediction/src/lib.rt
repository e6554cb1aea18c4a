// A recording predicted from a response.
#![tactic(auto)]

mod alone;
mod direct;
mod lent;
mod windows;

pub use alone::predict;
pub use lent::predict_in_room;
