// Plans of lists.
ghost use Rattle.std.specs.Prelude.{◌≡◌, IfOk, length, map, nat_le, slice_get, true, unwrap_or};
ghost use Rattle.op_ids.specs.Order.{root_id};
ghost use Rattle.model.specs.Edit as model;
ghost use Rattle.model.specs.Edit.{element_place, element_position, faulty, no_index, origin_at};
ghost use Rattle.model.specs.State.{has_anchor};
ghost use Rattle.model.specs.View.{live_elements};
ghost use Rattle.op_grammar.specs.Operations.{anchor_of};
ghost use Rattle.op_grammar.specs.Values.{value_of};
ghost use Rattle.doc_store.specs.Edits.{Finds, PlansOne};
ghost use Rattle.doc_store.specs.Kept.{state_of};

use crate::doc::Doc;
use crate::edit::{EditFault, PlanFault, check_value, refuse_if};
use crate::plan::others_of;
use op_grammar::{OpRef, Value};
use op_ids::{OpId, ROOT, Side};
use std::alloc::AllocError;

impl<'a> Doc<'a> {
    // An element that is added.
    pub(crate) fn plan_add<'w>(
        &self,
        node: OpId,
        at: u32,
        value: Value<'w>,
    ) -> Result<OpRef<'w>, PlanFault>
        ensures { PlansOne (state_of self.now) (model.add_at node at (value_of value.entry)) result }
    {
        self.check_in_view(node, 2)?;
        let elements = self.elements(node)?;
        refuse_if(at as usize > elements.len(), EditFault::NoIndex, 3)?;
        check_value(value)?;
        let (anchor, side) = self.place_element(node, &elements, at as usize);
        Ok(OpRef::AddItem {
            node,
            anchor,
            side,
            value,
        })
    }

    // An element that is moved.
    pub(crate) fn plan_shift<'w>(
        &self,
        node: OpId,
        from: u32,
        to: u32,
    ) -> Result<OpRef<'w>, PlanFault>
        ensures { PlansOne (state_of self.now) (model.shift_to node from to) result }
    {
        self.check_in_view(node, 2)?;
        let elements = self.elements(node)?;
        let element = element_in(&elements, from)?;
        refuse_if(to as usize >= elements.len(), EditFault::NoIndex, 4)?;
        let others = others_of(element, elements);
        let (anchor, side) = self.place_element(node, &others, to as usize);
        Ok(OpRef::ShiftItem {
            node,
            element,
            anchor,
            side,
        })
    }

    // An element whose value is set.
    pub(crate) fn plan_set<'w>(
        &self,
        node: OpId,
        at: u32,
        value: Value<'w>,
    ) -> Result<OpRef<'w>, PlanFault>
        ensures { PlansOne (state_of self.now) (model.set_at node at (value_of value.entry)) result }
    {
        self.check_in_view(node, 2)?;
        let element = element_in(&self.elements(node)?, at)?;
        check_value(value)?;
        Ok(OpRef::SetItem {
            node,
            element,
            value,
        })
    }

    // An element that is dropped.
    pub(crate) fn plan_drop<'w>(&self, node: OpId, at: u32) -> Result<OpRef<'w>, PlanFault>
        ensures { PlansOne (state_of self.now) (model.drop_at node at) result }
    {
        self.check_in_view(node, 2)?;
        let element = element_in(&self.elements(node)?, at)?;
        Ok(OpRef::DropItem { node, element })
    }

    // The elements that are shown, in their order.
    fn elements(&self, node: OpId) -> Result<Vec<OpId>, AllocError>
        ensures { IfOk result (λ v. v.items ≡ live_elements (state_of self.now) node) }
    {
        self.rows.lists.element_ids(node)
    }

    // Where an element hangs that comes to a place among these elements of the list.
    fn place_element(&self, node: OpId, among: &[OpId], at: usize) -> (OpId, Side)
        ensures { anchor_of result ≡ element_place (state_of self.now) node among.now at }
    {
        let left = self.position_before(node, among, at);
        self.rows.lists.place_after(node, left)
    }

    // The position of the element before a place among these, or the head.
    fn position_before(&self, node: OpId, among: &[OpId], at: usize) -> OpId
        ensures position { result ≡ origin_at (map (element_position (state_of self.now) node) among.now) at }
        ensures there { has_anchor (state_of self.now).list_positions node result ≡ true }
    {
        if at == 0 {
            return ROOT;
        }
        match among.get(at - 1) {
            Some(element) => self.rows.lists.position_of(node, *element),
            None => ROOT,
        }
    }
}

// The element at a place, if there is one.
fn element_in(elements: &[OpId], at: u32) -> Result<OpId, PlanFault>
    ensures { Finds (faulty (nat_le (length elements.now) at) no_index 3)
        (unwrap_or (slice_get elements.now at) root_id) result }
{
    match elements.get(at as usize) {
        Some(element) => Ok(*element),
        None => Err(PlanFault::Edit {
            fault: EditFault::NoIndex,
            word: 3,
        }),
    }
}
