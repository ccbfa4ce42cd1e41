//! The outside of the program: where files are kept, where text is printed, and a tally of the work done.
//! Keeper and sink are traits with contracts, each with an implementation in memory and one on the host. Stands on std alone.
#![tactic(auto)]

mod host_keeper;
mod host_sink;
mod keeper;
mod mem_keeper;
mod mem_sink;
mod plan;
mod sink;
mod tally;

pub use host_keeper::HostKeeper;
pub use host_sink::HostSink;
pub use keeper::{Keeper, KeeperFault, Load};
pub use mem_keeper::MemKeeper;
pub use mem_sink::MemSink;
pub use sink::{Sink, SinkFailed};
pub use tally::Tally;

#[cfg(test)]
mod tests;
