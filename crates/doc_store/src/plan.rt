// Plans of edits.
ghost use Rattle.std.specs.Prelude.{◌≡◌, not};
ghost use Rattle.model.specs.State.{State, is_above};
ghost use Rattle.op_ids.specs.Order.{id_eq};
ghost use Rattle.model.specs.Edit as model;
ghost use Rattle.model.specs.Edit.{hidden, others};
ghost use Rattle.doc_store.specs.Edits.{Checks, Plans, PlansOne, edit_of};
ghost use Rattle.doc_store.specs.Kept.{state_of};

use crate::doc::Doc;
use crate::edit::{Edit, EditFault, PlanFault, refuse_if};
use op_grammar::{OpPlan, OpRef};
use op_ids::{OpId, ROOT};
use std::alloc::Global;

impl<'a> Doc<'a> {
    /// The operations that an edit means in the document, or its first fault.
    pub fn plan<'w>(&self, edit: &Edit<'w>) -> Result<OpPlan<'w>, PlanFault>
        ensures { Plans (state_of self.now) (edit_of edit.now) result }
    {
        match *edit {
            Edit::New { parent, at } => of_one(self.alloc, self.plan_new(parent, at)),
            Edit::Move { child, parent, at } => {
                of_one(self.alloc, self.plan_move(child, parent, at))
            }
            Edit::Trash { child } => of_one(self.alloc, self.plan_trash(child)),
            Edit::Put { node, key, value } => of_one(self.alloc, self.plan_put(node, key, value)),
            Edit::Unset { node, key } => of_one(self.alloc, self.plan_unset(node, key)),
            Edit::TypeText { node, at, text } => {
                of_one(self.alloc, self.plan_typing(node, at, text))
            }
            Edit::Erase { node, at, count } => self.plan_erasure(node, at, count),
            Edit::Add { node, at, value } => of_one(self.alloc, self.plan_add(node, at, value)),
            Edit::Shift { node, from, to } => of_one(self.alloc, self.plan_shift(node, from, to)),
            Edit::Set { node, at, value } => of_one(self.alloc, self.plan_set(node, at, value)),
            Edit::Drop { node, at } => of_one(self.alloc, self.plan_drop(node, at)),
        }
    }

    // Refuses a node that isn't shown.
    pub(crate) fn check_in_view(&self, node: OpId, word: u32) -> Result<(), PlanFault>
        ensures { Checks (hidden (state_of self.now) node word) result }
    {
        refuse_if(!self.is_above(ROOT, node), EditFault::NoNode, word)
    }

    // Whether a is b or above it.
    pub(crate) fn is_above(&self, a: OpId, b: OpId) -> bool
        ensures { result ≡ is_above (state_of self.now).nodes a b }
    {
        self.log.parents().is_above(a, b)
    }
}

// The plan of one operation.
fn of_one<'w>(alloc: Global, op: Result<OpRef<'w>, PlanFault>) -> Result<OpPlan<'w>, PlanFault>
    ensures { (s : State) (e : model.Edit) → PlansOne s e op.entry → Plans s e result }
{
    let op = op?;
    let mut plan = OpPlan::new(alloc);
    plan.push(op)?;
    Ok(plan)
}

// The ids but this one.
pub fn others_of(child: OpId, ids: Vec<OpId>) -> Vec<OpId>
    ensures { result.items ≡ others child ids.items }
{
    let mut ids = ids;
    ids.retain(|id| is_other(*id, child));
    ids
}

fn is_other(id: OpId, child: OpId) -> bool
    ensures { result ≡ not (id_eq id child) }
{
    id != child
}
