//! What is left of a walk, as a stack of tasks.
ghost use Rattle.std.specs.Prelude.{◌≡◌, ◌++◌, OnOk, map};
ghost use Rattle.std.specs.BTreeSet as sets;
ghost use Rattle.fugue_tree.specs.Tree.{child_cmp, children_at};
ghost use Rattle.fugue_tree.specs.declared.walking.Task.TheVariants.{Visit};

use crate::children::{Child, child_at};
use op_ids::{OpId, ROOT, Side};
use std::alloc::AllocError;
use std::collections::BTreeSet;

/// To walk a row with those below it, or to give out a row alone.
#[derive(Clone, Copy)]
pub enum Task {
    Visit(OpId),
    Give(OpId),
}

/// Adds the visits of the rows that hang there, by rising ids.
pub fn push_visits(
    children: &BTreeSet<Child>,
    anchor: OpId,
    side: Side,
    stack: &mut Vec<Task>,
) -> Result<(), AllocError>
    ensures ok { OnOk result (stack.new.items
        ≡ stack.old.items ++ map Visit (children_at children.now anchor side)) }
    ensures ordered { sets.IsOrdered child_cmp children.now }
{
    let least = child_at(anchor, side, ROOT);
    for child in children.range(least..) {
        if !child.hangs(anchor, least.is_right) {
            break;
        }
        stack.push(Task::Visit(child.id))?;
    }
    Ok(())
}
