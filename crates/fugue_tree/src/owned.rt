// The rows of many owners by what they hang on.
ghost use Rattle.std.specs.Prelude.{◌≡◌, ◌++◌, ◌↔◌, IsTrue, OnOk, map};
ghost use Rattle.std.specs.BTreeSet as sets;
ghost use Rattle.fugue_tree.specs.Tree.{IsFirstAt, children_at};
ghost use Rattle.fugue_tree.specs.Trees.{children_of, owned_at, owned_cmp};
ghost use Rattle.fugue_tree.specs.declared.walking.Task.TheVariants.{Visit};

use crate::children::{Child, child_at};
use crate::walking::Task;
use op_ids::{OpId, ROOT, Side};
use std::alloc::AllocError;
use std::collections::BTreeSet;

// A row, behind its owner. In this order the rows of each owner stand together, and among them those that hang on one side of
// an anchor.
#[derive(Clone, Copy, PartialEq, Eq, PartialOrd, Ord)]
pub struct OwnedChild {
    pub owner: OpId,
    pub child: Child,
}

impl OwnedChild {
    // Whether the row is of the owner and hangs there.
    pub fn hangs(&self, owner: OpId, anchor: OpId, is_right: bool) -> bool
        ensures { IsTrue result ↔ (self.now.owner ≡ owner) × (self.now.child.anchor ≡ anchor)
            × (self.now.child.is_right ≡ is_right) }
    {
        self.owner == owner && self.child.hangs(anchor, is_right)
    }
}

// The row of the owner as a child of its anchor.
pub fn owned_at(owner: OpId, anchor: OpId, side: Side, id: OpId) -> OwnedChild
    ensures { result ≡ owned_at owner anchor side id }
{
    OwnedChild {
        owner,
        child: child_at(anchor, side, id),
    }
}

// The least row of the owner that hangs there.
pub fn first_owned(
    children: &BTreeSet<OwnedChild>,
    owner: OpId,
    anchor: OpId,
    side: Side,
) -> Option<OpId>
    ensures { IsFirstAt (children_of children.now owner) anchor side result }
{
    let least = owned_at(owner, anchor, side, ROOT);
    match children.range(least..).next() {
        Some(child) => {
            if child.hangs(owner, anchor, least.child.is_right) {
                Some(child.child.id)
            } else {
                None
            }
        }
        None => None,
    }
}

// Adds the visits of the rows of the owner that hang there, by rising ids.
pub fn push_owned(
    children: &BTreeSet<OwnedChild>,
    owner: OpId,
    anchor: OpId,
    side: Side,
    stack: &mut Vec<Task>,
) -> Result<(), AllocError>
    ensures ok { OnOk result (stack.new.items
        ≡ stack.old.items ++ map Visit (children_at (children_of children.now owner) anchor side)) }
    ensures ordered { sets.IsOrdered owned_cmp children.now }
{
    let least = owned_at(owner, anchor, side, ROOT);
    for child in children.range(least..) {
        if !child.hangs(owner, anchor, least.child.is_right) {
            break;
        }
        stack.push(Task::Visit(child.child.id))?;
    }
    Ok(())
}
