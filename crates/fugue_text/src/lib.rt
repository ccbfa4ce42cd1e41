//! Texts of nodes: insertion trees of characters, kept in runs.
#![tactic(auto)]

mod node_text;
mod pieces;
mod run;
mod texts;

pub use texts::{TextRow, Texts};

#[cfg(test)]
mod tests;
