#![tactic(auto)]

mod carries;
mod errors;
mod forest;
mod known;
mod link;
mod lowest;
mod net;
mod offsets;
mod path;
mod rows;
mod steps;
mod verdict;

pub use self::errors::{Contradiction, Torn, Unknown};
pub use self::known::{grounded_offsets, offset_between};
pub use self::link::Link;
pub use self::net::Network;
pub use self::verdict::link_verdict;
