//! The words of a command line, and the command that they give. Stands on `op_grammar` for values,
//! on `op_ids` for the words of ids and numbers, on `version_vector` for those of vectors, on `hex`
//! for those of documents, and on `model` for what they mean.
#![tactic(auto)]

mod command;
mod forms;
pub mod laws;
mod reading;
mod rest;
#[cfg(test)]
mod tests;
mod words;

pub use command::{Command, WordFault, WordValue};
pub use words::{Words, read_words};
