//! Changes as they stand in a file: a block borrows the bytes that spell it, and decodes no operation until one is
//! asked for. Stands on `op_grammar`.
#![tactic(auto)]

mod block;
mod ops;
mod shelf;

pub use block::Block;
pub use ops::Ops;
pub use shelf::Shelf;

#[cfg(test)]
mod tests;
