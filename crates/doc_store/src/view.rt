//! What a document shows.

ghost use Rattle.std.specs.Prelude.{◌≡◌, map};
ghost use Rattle.doc_store.specs.Shown.{node_seen};

use crate::keys::{ItemList, KeyList};
use cbor_det::OwnText;
use op_ids::OpId;
use std::marker::Model;

/// A node, how many nodes are above it, and what it shows.
#[derive(Drop)]
pub struct ViewNode<'a> {
    pub depth: u32,
    pub id: OpId,
    pub keys: KeyList<'a>,
    pub text: OwnText,
    pub items: ItemList,
}

/// The nodes from the root down, each before those below it.
#[derive(Drop)]
pub struct View<'a> {
    nodes: Vec<ViewNode<'a>>,
}

impl<'a> Model for View<'a> {
    ghost use Rattle.std.specs.Prelude.{List, map};
    ghost use Rattle.model.specs.View.{ViewNode as Shown};
    ghost use Rattle.doc_store.specs.Shown.{nodes_code, node_seen};

    ghost Value = { List Shown };

    ghost coded = { nodes_code };

    ghost view = { λ v. map node_seen v.nodes.items };
}

impl<'a> View<'a> {
    /// These nodes.
    pub(crate) fn of(nodes: Vec<ViewNode<'a>>) -> View<'a>
        ensures { result ≡ map node_seen nodes.entry.items }
    {
        View { nodes }
    }

    /// The nodes.
    pub fn as_slice(&self) -> &[ViewNode<'a>]
        ensures { map node_seen result.now ≡ self.now }
    {
        self.nodes.as_slice()
    }
}
