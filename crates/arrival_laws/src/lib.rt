//! Laws of changes that join a ledger, in whatever order they come. Each is the contract of a function with nothing to do.
#![tactic(auto)]

mod document;
mod joining;
mod reading;

pub use document::{changes_come_in_turn, file_is_document, ledger_is_document};
pub use joining::{changes_arrive, ledger_stays_sound, stability_never_falls};
pub use reading::both_readings_agree;
