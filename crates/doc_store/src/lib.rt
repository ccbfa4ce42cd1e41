//! The document: its tables and the log of its moves, the draft that operations come to, and what is planned and shown.
#![tactic(auto)]

mod children;
mod doc;
mod draft;
mod edit;
mod kept_rows;
mod keys;
pub mod laws;
mod made;
mod naming;
mod plan;
mod plan_list;
mod plan_text;
mod plan_tree;
mod references;
mod tables;
mod view;

pub use doc::Doc;
pub use draft::Draft;
pub use edit::{Edit, EditFault, PlanFault};
pub use fugue_text::TextRow;
pub use fugue_tree::PlaceRow;
pub use keys::{ItemList, KeyList, KeyValue};
pub use lww_map::RegisterRow;
pub use move_list::ElementRow;
pub use references::{BadRef, TakeFault};
pub use tables::{ElementRows, NodeRows, PlaceRows, RegisterRows, Tables, TextRows};
pub use tree_move::NodeRow;
pub use view::{View, ViewNode};

#[cfg(test)]
mod tests;
