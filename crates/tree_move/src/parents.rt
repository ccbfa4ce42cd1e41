// The places of all nodes.
ghost use Rattle.std.specs.Prelude.{◌≡◌, OnOk, OnErr, IfOk, map, filter_map, true, false, None};
ghost use Rattle.std.specs.List.Sorted.{IsPermutation, IsSorted, IsStrictlySortedBy};
ghost use Rattle.std.specs.BTreeMap as tree;
ghost use Rattle.std.specs.FinMap as fin;
ghost use Rattle.std.specs.FinSet as set;
ghost use Rattle.outside.specs.Faults.{raised};
ghost use Rattle.op_ids.specs.Order.{id_cmp};
ghost use Rattle.model.specs.State.{is_fixed, is_above, moved, row_cmp};
ghost use Rattle.model_laws.specs.Tree.{IsTree};
ghost use Rattle.tree_move.specs.Parents.{IsTreeOfAdmitted, nodes_of, is_node, with_place, place_of, place_if, entry_of, row_of, child_of, slot_row, slot_child};

use crate::places::{NodeRow, Place, Undo};
use op_ids::OpId;
use outside::Tally;
use std::alloc::{AllocError, Global};
use std::collections::BTreeMap;
use std::marker::Model;

#[cfg(test)]
mod tests;

/// The places of nodes: a tree below root or trash.
///
/// A node is admitted before it gets a place, so that a move takes no memory. A look-up costs a logarithm of the number of
/// admitted nodes.
#[derive(Drop)]
pub struct Parents {
    alloc: Global,
    // the admitted nodes
    slots: BTreeMap<OpId, Option<Place>>,
}

impl Model for Parents {
    ghost use Rattle.tree_move.specs.Parents.{Nodes, nodes_code, nodes_of, IsTreeOfAdmitted};

    ghost Value = { Nodes };

    ghost coded = { nodes_code };

    ghost view = { λ p. nodes_of p.slots.entries };

    ghost invariant = { λ p. IsTreeOfAdmitted (nodes_of p.slots.entries) };
}

impl Parents {
    /// No node is admitted.
    pub fn new(alloc: Global) -> Parents
        ensures places { result.places ≡ fin.empty }
        ensures admitted { result.admitted ≡ set.empty }
        ensures tree { IsTreeOfAdmitted result }
    {
        Parents {
            alloc,
            slots: BTreeMap::new(alloc),
        }
    }

    /// The places of these nodes, each of which is admitted.
    ///
    /// The ids of the rows rise strictly, none of them is root or trash, and the parents lead to root or trash.
    pub fn from_rows(alloc: Global, rows: &[NodeRow]) -> Result<Parents, AllocError>
        requires rising { IsStrictlySortedBy id_cmp (map (λ r. r.id) rows.now) }
        requires tree { IsTree (fin.from_entries (map entry_of rows.now)) }
        ensures places { IfOk result (λ p. p.places ≡ fin.from_entries (map entry_of rows.now)) }
        ensures admitted { IfOk result (λ p.
            p.admitted ≡ set.from_list (map (λ r. r.id) rows.now)) }
        ensures tree { IfOk result IsTreeOfAdmitted }
    {
        let slots = slots_of(alloc, rows)?;
        Ok(Parents { alloc, slots })
    }

    /// The nodes with a place, by their ids.
    pub fn rows(&self) -> Result<Vec<NodeRow>, AllocError>
        ensures { IfOk result (λ v. v.items ≡ map row_of (fin.entries self.now.places)) }
    {
        rows_in(self.alloc, &self.slots)
    }

    /// The place of a node, or `None` exactly where it has none.
    pub fn parent_of(&self, node: OpId) -> Option<Place>
        ensures place { place_if result ≡ fin.get self.now.places node }
        ensures tree { IsTreeOfAdmitted self.now }
    {
        match self.slots.get(&node) {
            Some(place) => *place,
            None => None,
        }
    }

    /// Whether `a` is `b` or an ancestor of `b`. Costs a look-up for each node from `b` up to `a`, or to the top.
    pub fn is_above(&self, a: OpId, b: OpId) -> bool
        ensures { result ≡ is_above self.now.places a b }
    {
        let mut at = b;
        while at != a {
            match self.parent_of(at) {
                Some(place) => at = place.parent,
                None => return false,
            }
        }
        true
    }

    /// The children of a node, each behind its position, by position. Goes through all nodes.
    pub fn children(&self, parent: OpId) -> Result<Vec<(OpId, OpId)>, AllocError>
        ensures found { IfOk result (λ v.
            IsPermutation (filter_map (child_of parent) (fin.entries self.now.places)) v.items) }
        ensures sorted { IfOk result (λ v. IsSorted row_cmp v.items) }
    {
        let mut found = children_in(self.alloc, &self.slots, parent)?;
        found.sort_unstable();
        Ok(found)
    }

    /// Lets a node have a place from now on. It still has none; nothing changes where it was admitted before, or after a
    /// refusal.
    ///
    /// The node has no place, and is neither root nor trash.
    pub fn admit(&mut self, node: OpId) -> Result<(), AllocError>
        requires placeless { fin.get self.old.places node ≡ None }
        requires below { is_fixed node ≡ false }
        ensures places { self.new.places ≡ self.old.places }
        ensures ok { OnOk result (self.new.admitted ≡ set.insert self.old.admitted node) }
        ensures err { OnErr result (self.new.admitted ≡ self.old.admitted) }
        ensures tree { IsTreeOfAdmitted self.new }
    {
        self.slots.insert(node, None)?;
        Ok(())
    }

    /// Moves a node, unless it is the new parent or above it. Answers what undoes this, and takes no memory.
    ///
    /// The child is admitted, and the new parent is root, trash or a node with a place.
    pub fn do_move(&mut self, child: OpId, to: Place, tally: &mut Tally) -> Undo
        requires admitted { set.contains self.old.admitted child ≡ true }
        requires parent { is_node self.old.places to.parent ≡ true }
        ensures places { self.new.places ≡ moved self.old.places child (place_of to) }
        ensures admitted { self.new.admitted ≡ self.old.admitted }
        ensures tree { IsTreeOfAdmitted self.new }
        ensures child { result.child ≡ child }
        ensures before { place_if result.before ≡ fin.get self.old.places child }
        ensures tally { tally.new ≡ record tally.old { moves = raised tally.old.moves } }
    {
        tally.tick_move();
        let before = self.parent_of(child);
        if !self.makes_cycle(child, before, to.parent) {
            self.put(child, Some(to));
        }
        Undo { child, before }
    }

    /// Gives a node the place that it had before a move, or none. Takes no memory.
    ///
    /// The child is admitted, and with this change the places are a tree below root or trash. What the last `do_move`
    /// answered that isn't undone yet meets this, since it gives back the places before it.
    pub fn undo(&mut self, step: Undo, tally: &mut Tally)
        requires admitted { set.contains self.old.admitted step.child ≡ true }
        requires tree { IsTree (with_place self.old.places step.child (place_if step.before)) }
        ensures places { self.new.places
            ≡ with_place self.old.places step.child (place_if step.before) }
        ensures admitted { self.new.admitted ≡ self.old.admitted }
        ensures tree { IsTreeOfAdmitted self.new }
        ensures tally { tally.new ≡ record tally.old { moves = raised tally.old.moves } }
    {
        tally.tick_move();
        self.put(step.child, step.before);
    }

    /// Whether the child, which has the place `before`, is the parent or above it. One without a place is above no node,
    /// so it needs no walk.
    fn makes_cycle(&self, child: OpId, before: Option<Place>, parent: OpId) -> bool
        requires before { place_if before ≡ fin.get self.now.places child }
        requires below { is_fixed child ≡ false }
        requires parent { is_node self.now.places parent ≡ true }
        requires tree { IsTree self.now.places }
        ensures { result ≡ is_above self.now.places child parent }
    {
        before.is_some() && self.is_above(child, parent)
    }

    /// Gives a node the place, or none.
    fn put(&mut self, node: OpId, place: Option<Place>)
        requires admitted { set.contains self.old.admitted node ≡ true }
        requires tree { IsTree (with_place self.old.places node (place_if place)) }
        ensures places { self.new.places ≡ with_place self.old.places node (place_if place) }
        ensures admitted { self.new.admitted ≡ self.old.admitted }
        ensures tree { IsTreeOfAdmitted self.new }
    {
        if let Some(slot) = self.slots.get_mut(&node) {
            *slot = place;
        }
    }
}

/// The slots of these nodes, each with its place.
fn slots_of(alloc: Global, rows: &[NodeRow]) -> Result<BTreeMap<OpId, Option<Place>>, AllocError>
    requires rising { IsStrictlySortedBy id_cmp (map (λ r. r.id) rows.now) }
    ensures places { IfOk result (λ slots.
        (nodes_of slots.entries).places ≡ fin.from_entries (map entry_of rows.now)) }
    ensures admitted { IfOk result (λ slots.
        (nodes_of slots.entries).admitted ≡ set.from_list (map (λ r. r.id) rows.now)) }
{
    let mut slots = BTreeMap::new(alloc);
    for row in rows {
        slots.insert(row.id, Some(row.place()))?;
    }
    Ok(slots)
}

/// The rows of the slots that have a place.
fn rows_in(alloc: Global, slots: &BTreeMap<OpId, Option<Place>>) -> Result<Vec<NodeRow>, AllocError>
    ensures rows { IfOk result (λ v. v.items ≡ filter_map slot_row slots.now.entries) }
    ensures ordered { tree.IsOrdered id_cmp slots.now }
{
    let mut rows = Vec::with_capacity(alloc, slots.len())?;
    for (id, slot) in slots {
        if let Some(place) = slot {
            rows.push(NodeRow {
                id: *id,
                parent: place.parent,
                position: place.position,
            })?;
        }
    }
    Ok(rows)
}

/// The children of a node, each behind its position, by their ids.
fn children_in(
    alloc: Global,
    slots: &BTreeMap<OpId, Option<Place>>,
    parent: OpId,
) -> Result<Vec<(OpId, OpId)>, AllocError>
    ensures found { IfOk result (λ v. v.items ≡ filter_map (slot_child parent) slots.now.entries) }
    ensures ordered { tree.IsOrdered id_cmp slots.now }
{
    let mut found = Vec::new(alloc);
    // A read of the map tells the proof that its keys rise.
    let _ = slots.len();
    for (child, slot) in slots {
        if let Some(place) = slot {
            if place.parent == parent {
                found.push((place.position, *child))?;
            }
        }
    }
    Ok(found)
}
