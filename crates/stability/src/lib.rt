//! What the members of a document have made known: of each, how many of its changes are held, when it made the last of
//! them, and what it knew by then. So which changes all members are known to know, and how far a ledger may be trimmed.
//! Stands on `op_grammar` for heads of changes, and on `version_vector`.
#![tactic(auto)]

mod fronts;
mod horizon;
mod laws;

pub use fronts::{Fronts, MemberRow};
pub use horizon::Horizon;
pub use laws::{added_makes_row, heads_make_rows, next_makes_row};

#[cfg(test)]
mod tests;
