//! Changes that wait for the changes that they know: what receiving makes of those that are offered, and which of those
//! that wait comes next (causal delivery: Birman and Joseph, "Reliable communication in the presence of failures", ACM
//! Transactions on Computer Systems, 1987). Stands on `lazy_blocks` and `version_vector`.
#![tactic(auto)]

mod inbox;
mod index;
pub mod laws;
mod names;
mod pool;
mod ready;

pub use inbox::{Inbox, Offered};
pub use names::FullNames;

#[cfg(test)]
mod tests;
