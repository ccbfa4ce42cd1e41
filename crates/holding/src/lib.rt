//! What is held of a document: its base with the changes kept behind it, as the document that they make, what they make known of
//! each member, and when each was made. So whether a change may join, and why not. Stands on `doc_store` for the document and on
//! `stability` for the members.
#![tactic(auto)]

mod holding;
pub mod laws;
mod times;

pub use holding::{Holding, JoinFault};
