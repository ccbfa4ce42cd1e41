// Plans of nodes and keys.
ghost use Rattle.std.specs.Prelude.{◌≡◌, ◌≤◌, IfOk, length, is_some, true, []};
ghost use Rattle.std.specs.FinMap as fin;
ghost use Rattle.std.specs.List.{AllByRecursion};
ghost use Rattle.op_ids.specs.Order.{trash_id};
ghost use Rattle.model.specs.Edit as model;
ghost use Rattle.model.specs.Edit.{child_place, faults, others, position_of};
ghost use Rattle.model.specs.View.{children};
ghost use Rattle.model.specs.Walk.{rows_of};
ghost use Rattle.op_grammar.specs.Operations.{anchor_of};
ghost use Rattle.op_grammar.specs.Values.{value_of};
ghost use Rattle.walk_laws.specs.Insertion.{is_row};
ghost use Rattle.doc_store.specs.Edits.{Places, PlansOne};
ghost use Rattle.doc_store.specs.Kept.{state_of};

use crate::doc::Doc;
use crate::edit::{EditFault, PlanFault, check_key, check_value, refuse_if};
use crate::plan::others_of;
use op_grammar::{OpRef, Value};
use op_ids::{OpId, ROOT, Side, TRASH};
use std::alloc::AllocError;

impl<'a> Doc<'a> {
    // A new child.
    pub(crate) fn plan_new<'w>(&self, parent: OpId, at: u32) -> Result<OpRef<'w>, PlanFault>
        ensures { PlansOne (state_of self.now) (model.new_child parent at) result }
    {
        let (anchor, side) = self.place_new(parent, at)?;
        Ok(OpRef::NewNode {
            parent,
            anchor,
            side,
        })
    }

    // A child that is moved.
    pub(crate) fn plan_move<'w>(
        &self,
        child: OpId,
        parent: OpId,
        at: u32,
    ) -> Result<OpRef<'w>, PlanFault>
        ensures { PlansOne (state_of self.now) (model.move_child child parent at) result }
    {
        let (anchor, side) = self.place_moved(child, parent, at)?;
        Ok(OpRef::MoveNode {
            child,
            parent,
            anchor,
            side,
        })
    }

    // A child that goes into the trash.
    pub(crate) fn plan_trash<'w>(&self, child: OpId) -> Result<OpRef<'w>, PlanFault>
        ensures { PlansOne (state_of self.now) (model.trash_child child) result }
    {
        let (anchor, side) = self.place_trashed(child)?;
        Ok(OpRef::MoveNode {
            child,
            parent: TRASH,
            anchor,
            side,
        })
    }

    // A value under a key.
    pub(crate) fn plan_put<'w>(
        &self,
        node: OpId,
        key: &'w str,
        value: Value<'w>,
    ) -> Result<OpRef<'w>, PlanFault>
        ensures { PlansOne (state_of self.now) (model.put_value node key.now (value_of value.entry)) result }
    {
        self.check_in_view(node, 2)?;
        check_key(key)?;
        check_value(value)?;
        Ok(OpRef::PutKey { node, key, value })
    }

    // No value under a key.
    pub(crate) fn plan_unset<'w>(&self, node: OpId, key: &'w str) -> Result<OpRef<'w>, PlanFault>
        ensures { PlansOne (state_of self.now) (model.unset_key node key.now) result }
    {
        self.check_in_view(node, 2)?;
        check_key(key)?;
        Ok(OpRef::PutKey {
            node,
            key,
            value: Value::Null,
        })
    }

    // Where a new child hangs.
    fn place_new(&self, parent: OpId, at: u32) -> Result<(OpId, Side), PlanFault>
        ensures { let s = state_of self.now in Places (faults s (model.new_child parent at))
            (child_place s parent (children s parent) at) result }
    {
        self.check_in_view(parent, 2)?;
        let children = self.children(parent)?;
        refuse_if(at as usize > children.len(), EditFault::NoIndex, 3)?;
        Ok(self.place_among(parent, &children, at as usize))
    }

    // Where a child hangs that is moved.
    fn place_moved(&self, child: OpId, parent: OpId, at: u32) -> Result<(OpId, Side), PlanFault>
        ensures { let s = state_of self.now in Places (faults s (model.move_child child parent at))
            (child_place s parent (others child (children s parent)) at) result }
    {
        refuse_if(child == ROOT || child == TRASH, EditFault::Fixed, 2)?;
        refuse_if(!self.has_place(child), EditFault::NoNode, 2)?;
        self.check_in_view(parent, 3)?;
        refuse_if(self.is_above(child, parent), EditFault::Cycle, 3)?;
        let others = others_of(child, self.children(parent)?);
        refuse_if(at as usize > others.len(), EditFault::NoIndex, 4)?;
        Ok(self.place_among(parent, &others, at as usize))
    }

    // Where a child hangs in the trash.
    fn place_trashed(&self, child: OpId) -> Result<(OpId, Side), PlanFault>
        ensures { let s = state_of self.now in Places (faults s (model.trash_child child))
            (child_place s trash_id [] 0) result }
    {
        refuse_if(child == ROOT || child == TRASH, EditFault::Fixed, 2)?;
        self.check_in_view(child, 2)?;
        Ok(self.rows.positions.place_after(TRASH, ROOT))
    }

    // Whether it is a node, root and trash apart.
    fn has_place(&self, id: OpId) -> bool
        ensures { result ≡ is_some (fin.get (state_of self.now).nodes id) }
    {
        self.log.parents().parent_of(id).is_some()
    }

    // The children of a node, in their order.
    fn children(&self, parent: OpId) -> Result<Vec<OpId>, AllocError>
        ensures { IfOk result (λ v. v.items ≡ children (state_of self.now) parent) }
    {
        let (index, _) = self.child_index()?;
        self.rows.children(&index, parent)
    }

    // Where a child hangs that comes to a place among these children of the parent.
    fn place_among(&self, parent: OpId, among: &[OpId], at: usize) -> (OpId, Side)
        requires within { at ≤ length among.now }
        requires there { AllByRecursion (λ c.
            is_row (rows_of (λ p. p) (state_of self.now).positions parent) (position_of (state_of self.now) c) ≡ true) among.now }
        ensures { anchor_of result ≡ child_place (state_of self.now) parent among.now at }
    {
        let left = if at == 0 {
            ROOT
        } else {
            self.position_of(among[at - 1])
        };
        self.rows.positions.place_after(parent, left)
    }

    // The position of a child.
    fn position_of(&self, child: OpId) -> OpId
        ensures { result ≡ position_of (state_of self.now) child }
    {
        match self.log.parents().parent_of(child) {
            Some(place) => place.position,
            None => ROOT,
        }
    }
}
