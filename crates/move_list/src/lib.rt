//! Lists of nodes: elements that are added, shifted, set and dropped, in whatever order that comes.
#![tactic(auto)]

mod item;
mod list;
mod lists;

pub use fugue_tree::PlaceRow;
pub use lists::{ElementRow, Lists};
pub use op_grammar::{OwnValue, Value};

#[cfg(test)]
mod tests;
