//! The rows of a tree by what they hang on.
ghost use Rattle.std.specs.Prelude.{◌≡◌, ◌↔◌, IsTrue};
ghost use Rattle.fugue_tree.specs.Tree.{right_side, IsFirstAt};

use op_ids::{OpId, ROOT, Side};
use std::collections::BTreeSet;

/// A row, behind its anchor and its side. In this order the rows at each side of each anchor stand by their ids.
#[derive(Clone, Copy, PartialEq, Eq, PartialOrd, Ord)]
pub struct Child {
    pub anchor: OpId,
    pub is_right: bool,
    pub id: OpId,
}

impl Child {
    /// Whether the row hangs there.
    pub fn hangs(&self, anchor: OpId, is_right: bool) -> bool
        ensures { IsTrue result ↔ (self.now.anchor ≡ anchor) × (self.now.is_right ≡ is_right) }
    {
        self.anchor == anchor && self.is_right == is_right
    }
}

/// The row as a child of its anchor.
pub fn child_at(anchor: OpId, side: Side, id: OpId) -> Child
    ensures { result ≡ record { anchor = anchor; is_right = right_side side; id = id } }
{
    Child {
        anchor,
        is_right: matches!(side, Side::Right),
        id,
    }
}

/// The least row that hangs there.
pub fn first_child(children: &BTreeSet<Child>, anchor: OpId, side: Side) -> Option<OpId>
    ensures { IsFirstAt children.now anchor side result }
{
    let least = child_at(anchor, side, ROOT);
    match children.range(least..).next() {
        Some(child) => {
            if child.hangs(anchor, least.is_right) {
                Some(child.id)
            } else {
                None
            }
        }
        None => None,
    }
}
