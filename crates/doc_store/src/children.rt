// The nodes by their parents and positions.
ghost use Rattle.std.specs.Prelude.{◌≡◌, ◌+◌, ◌++◌, map, filter_map, reverse, IfOk, OnOk};
ghost use Rattle.tree_move.specs.Parents.{entry_of};
ghost use Rattle.doc_store.specs.Views.{Finds, child_found, pending_at};

use op_ids::OpId;
use std::alloc::{AllocError, Global};
use std::collections::BTreeMap;
use tree_move::NodeRow;

// The nodes by their parents and positions. Of several at one position the one with the least id.
#[derive(Drop)]
pub struct ChildIndex {
    pub children: BTreeMap<(OpId, OpId), OpId>,
}

impl ChildIndex {
    // The nodes of these rows, which stand by rising ids.
    pub fn of(alloc: Global, rows: &[NodeRow]) -> Result<ChildIndex, AllocError>
        ensures { IfOk result (λ c. Finds c (map entry_of rows.now)) }
    {
        let mut children = BTreeMap::new(alloc);
        let mut left = rows.len();
        while left > 0 {
            left -= 1;
            let row = rows[left];
            children.insert((row.parent, row.position), row.id)?;
        }
        Ok(ChildIndex { children })
    }

    // The nodes at these positions of a parent.
    pub fn at_positions(
        &self,
        alloc: Global,
        parent: OpId,
        positions: &[OpId],
    ) -> Result<Vec<OpId>, AllocError>
        ensures { IfOk result (λ v.
            v.items ≡ filter_map (child_found self.now parent) positions.now) }
    {
        let mut found = Vec::new(alloc);
        for position in positions {
            if let Some(child) = self.children.get(&(parent, *position)) {
                found.push(*child)?;
            }
        }
        Ok(found)
    }
}

// A node that is still to be shown, and how many are above it.
#[derive(Clone, Copy)]
pub struct Pending {
    pub depth: u32,
    pub id: OpId,
}

// Adds these nodes, which have one node more above them than another has, the first of them last.
pub fn open_all(above: u32, ids: &[OpId], stack: &mut Vec<Pending>) -> Result<(), AllocError>
    ensures { OnOk result (stack.new.items
        ≡ stack.old.items ++ reverse (map (pending_at (above + 1)) ids.now)) }
{
    let Some(depth) = above.checked_add(1) else {
        return Err(AllocError);
    };
    let mut left = ids.len();
    while left > 0 {
        left -= 1;
        stack.push(Pending {
            depth,
            id: ids[left],
        })?;
    }
    Ok(())
}
