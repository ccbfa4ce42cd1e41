//! A member's replica: the parts of its file with what they hold, and what edits, acknowledgements and deliveries make of it.
//! Stands on `holding` for what is held, on `causal_inbox` for the changes that wait, and on `replica` for files.
#![tactic(auto)]

mod acks;
mod built;
mod edit;
mod ledger;
mod made;
mod receive;
mod report;
mod settle;
mod waiting;

pub use acks::ack;
pub use built::{BuildFault, Replica};
pub use made::{Made, MadeNote, MakeFault};
pub use receive::Received;
pub use report::{Refusal, Report};
