#![tactic(auto)]

mod book;
mod check;
mod issue;
mod link;
mod offset;
mod offsets;
mod realise;
mod size;
mod standing;
mod store;
mod strike;
mod trip;
mod walk;

pub use self::book::Book;
pub use self::store::Refused;
pub use search::Link;
