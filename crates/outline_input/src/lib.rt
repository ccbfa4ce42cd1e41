//! The files that a command reads: one is loaded in pieces, to its end or past the limit; and a name that has to be new. Stands on
//! `outside` for the keeper, and on `outline_meaning` for the statuses of loads and for what they mean.
#![tactic(auto)]

mod input;

pub use input::{FILE_LIMIT, Named, check_unused, load_input};
