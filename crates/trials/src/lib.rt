#![tactic(auto)]

mod all;
mod chain;
mod outcome;
mod perform;
mod round_trip;
#[cfg(test)]
mod tests;

pub use self::all::{Trials, all_trials};
pub use self::outcome::{Outcome, ShownRefusal};
