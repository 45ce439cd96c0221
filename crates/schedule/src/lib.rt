#![tactic(auto)]

mod cycle;
mod latency;
mod least;
mod round;
mod rows;
mod settle;
mod unrealisable;

pub use self::least::least_offsets;
pub use self::unrealisable::Unrealisable;
