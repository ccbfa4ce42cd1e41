//! Files of documents: read item by item, held as parts that borrow the bytes, and written again. Stands on
//! `lazy_blocks` for the changes, on `op_grammar` and `cbor_det` for their spelling, and on `model` for what files are.
#![tactic(auto)]

mod base;
mod changes;
mod fault;
mod fields;
mod head;
mod header;
mod laws;
mod members;
mod opening;
mod parts;
mod scan;
mod write;

pub use fault::{BadFile, MemberFault, Misfit, ScanFault};
pub use head::{BUNDLE, DocRef, FileHead, MEMBER_FILE, SNAPSHOT};
pub use laws::one_scan;
pub use members::Members;
pub use parts::FileParts;
pub use scan::scan_file;
pub use write::{found, write_parts};

#[cfg(test)]
mod tests;
