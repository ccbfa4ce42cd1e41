// Rows that operations make.
ghost use Rattle.std.specs.Prelude.{◌+◌, ◌≤◌, ◌^◌, IfSome, OnOk};
ghost use Rattle.op_grammar.specs.Operations.{operation_of};
ghost use Rattle.doc_store.specs.Documents.{IsFormed};
ghost use Rattle.doc_store.specs.References.{AddsLast, HasRun, MakesNone, MakesRows};

use op_grammar::{OpRef, width_of};
use op_ids::OpId;
use std::alloc::{AllocError, Global};
use std::collections::BTreeSet;

// The rows that operations made, by their ids, those of a table of a node's own behind the node.
#[derive(Drop)]
pub struct Made {
    pub nodes: BTreeSet<OpId>,
    pub positions: BTreeSet<(OpId, OpId)>,
    pub characters: BTreeSet<(OpId, OpId)>,
    pub list_positions: BTreeSet<(OpId, OpId)>,
    pub elements: BTreeSet<(OpId, OpId)>,
}

impl Made {
    // None yet.
    pub fn new(alloc: Global) -> Made
        ensures { MakesNone result }
    {
        Made {
            nodes: BTreeSet::new(alloc),
            positions: BTreeSet::new(alloc),
            characters: BTreeSet::new(alloc),
            list_positions: BTreeSet::new(alloc),
            elements: BTreeSet::new(alloc),
        }
    }

    // Adds the rows that the operation makes, if there is one. After a refusal some may be missing.
    pub fn add_last(&mut self, last: Option<(OpId, OpRef<'_>)>) -> Result<(), AllocError>
        requires { IfSome last (λ p. IsFormed (record { id = p.0; operation = operation_of p.1 })) }
        ensures { OnOk result (AddsLast self.old last.entry self.new) }
    {
        match last {
            Some((id, op)) => self.add(id, op),
            None => Ok(()),
        }
    }

    // Adds the rows that an operation makes. After a refusal some may be missing.
    fn add(&mut self, id: OpId, op: OpRef<'_>) -> Result<(), AllocError>
        requires { IsFormed (record { id = id; operation = operation_of op }) }
        ensures { OnOk result (MakesRows self.old id (operation_of op.entry) self.new) }
    {
        match op {
            OpRef::NewNode { parent, .. } => {
                self.nodes.insert(id)?;
                self.positions.insert((parent, id))?;
                Ok(())
            }
            OpRef::MoveNode { parent, .. } => {
                self.positions.insert((parent, id))?;
                Ok(())
            }
            OpRef::TypeText { node, .. } => {
                add_run(&mut self.characters, node, id, width_of(&op))
            }
            OpRef::AddItem { node, .. } => {
                self.list_positions.insert((node, id))?;
                self.elements.insert((node, id))?;
                Ok(())
            }
            OpRef::ShiftItem { node, .. } => {
                self.list_positions.insert((node, id))?;
                Ok(())
            }
            _ => Ok(()),
        }
    }
}

// Adds so many rows of a node whose ids follow one another. After a refusal some may be missing.
fn add_run(
    rows: &mut BTreeSet<(OpId, OpId)>,
    node: OpId,
    first: OpId,
    count: u32,
) -> Result<(), AllocError>
    requires { first.index + count ≤ 2 ^ 32 }
    ensures { OnOk result (HasRun rows.old node first count rows.new) }
{
    for k in 0..count {
        rows.insert((node, first.plus(k)))?;
    }
    Ok(())
}
