//! The places of nodes in a tree below root or trash, moves that make no cycle, and their undoing. Stands on the model.
#![tactic(auto)]

pub mod laws;
mod parents;
mod places;

pub use parents::Parents;
pub use places::{NodeRow, Place, Undo};
