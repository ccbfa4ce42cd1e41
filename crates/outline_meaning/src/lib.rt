//! What each command line means, over what loading its files brings: definitions, laws about them, and the statuses that a run ends
//! with. Stands on `model`, on `outline_words` for the orders that words give, and on the crates whose faults a status tells.
#![tactic(auto)]

pub mod laws;
mod status;

pub use status::{Status, number_of, status_line};
