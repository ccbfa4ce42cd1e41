//! The insertion tree: rows below a head, the order in which they are read, and where a new row goes. Of one owner, or of many
//! in one table.
#![tactic(auto)]

pub mod children;
mod owned;
mod tree;
mod trees;
pub mod walking;

pub use tree::{PlaceRow, Tree};
pub use trees::Trees;

#[cfg(test)]
mod tests;
