//! Operations and changes as they stand in files: their types, their reads and their writers. Stands on `model`
//! for what they mean and on `file_laws` for its laws, on `cbor_det` for their spelling, on `op_ids` and
//! `version_vector`, and on `outside` for the tally.
#![tactic(auto)]

mod change;
mod check;
mod fields;
mod head;
mod kinds;
mod operation;
mod parts;
mod reading;
mod rule;
mod source;
mod spelling;
mod value;
mod writing;

pub use change::{WriteFault, write_change};
pub use check::{TakenChange, check_change, read_change, take_change};
pub use fields::{read_id, read_side, read_value};
pub use head::{Head, read_head};
pub use op_ids::Side;
pub use operation::{OpPlan, OpRef, width_of};
pub use reading::{OpFault, read_op};
pub use rule::Rule;
pub use source::OpSource;
pub use value::{OwnValue, Value};
pub use writing::{put_id, put_side, put_value};

#[cfg(test)]
mod tests;
