//! The places of nodes after moves that may come in any order. Stands on tree_move.
//!
//! A log keeps the moves by their ids, each with the place that its child had before it. A late move has the later ones undone,
//! is done, and has them done again. An open log takes moves in and does them all at once later.
#![tactic(auto)]

pub mod laws;
mod log;
mod merge;
mod moves;
mod open;

pub use log::TreeLog;
pub use moves::TreeMove;
pub use open::OpenLog;
