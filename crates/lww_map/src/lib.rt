//! Registers of nodes by key, of which the write with the greatest id is kept, in whatever order the writes come. Keys and values
//! are borrowed.
#![tactic(auto)]

mod keys;
pub mod laws;
mod prefix_key;
mod registers;

pub use op_grammar::Value;
pub use registers::{RegisterRow, Registers};

#[cfg(test)]
mod tests;
