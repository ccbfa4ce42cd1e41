// All lists.
ghost use Rattle.std.specs.Prelude.{◌≡◌, ◌≢◌, ◌++◌, false, true, None, OnOk, OnErr, IfOk, is_some, map, slice_get};
ghost use Rattle.std.specs.List.Sorted.{IsStrictlySortedBy};
ghost use Rattle.std.specs.FinMap as fin;
ghost use Rattle.std.specs.BTreeMap as tables;
ghost use Rattle.op_ids.specs.Order.{id_cmp, id_lt, root_id};
ghost use Rattle.model.specs.BaseItem.{keys};
ghost use Rattle.model.specs.Edit.{element_position};
ghost use Rattle.model.specs.Operation.{add_item, drop_item, set_item, shift_item};
ghost use Rattle.model.specs.State.{has_anchor, row_cmp};
ghost use Rattle.model.specs.View.{elements_of, live_elements};
ghost use Rattle.model.specs.Walk.{place_after, rows_of};
ghost use Rattle.walk_laws.specs.Insertion.{PlacedAfter};
ghost use Rattle.op_grammar.specs.Values.{value_of};
ghost use Rattle.move_list.specs.Items.{seen};
ghost use Rattle.move_list.specs.Kept.{AreListsOf, all_rows, items_in, places_in};
ghost use Rattle.move_list.specs.Lists.{AreLists, HangsIn, document_of, element_entries, element_entry, ids_of, lists_after, place_entries, tables_of_rows, values_of};

use crate::item::Item;
use crate::list::NodeList;
use fugue_tree::PlaceRow;
use op_grammar::{OwnValue, Value};
use op_ids::{OpId, ROOT, Side};
use std::alloc::{AllocError, Global};
use std::collections::BTreeMap;
use std::marker::Model;

/// An element of a node's list: at which of the list's positions it is, its value and who wrote it last, and whether it was
/// dropped.
#[derive(Drop)]
pub struct ElementRow {
    pub node: OpId,
    pub id: OpId,
    pub position: OpId,
    pub writer: OpId,
    pub value: OwnValue,
    pub dropped: bool,
}

/// The lists of all nodes: their positions, and the elements that stand at these. An element keeps the position and the value
/// with the greatest ids, and a dropped one stays dropped, in whatever order that comes.
#[derive(Drop)]
pub struct Lists {
    alloc: Global,
    nodes: BTreeMap<OpId, NodeList>,
}

impl Model for Lists {
    ghost use Rattle.move_list.specs.Lists.{ListTables, tables_code};
    ghost use Rattle.move_list.specs.Kept.{AreListsOf, tables_of};

    ghost Value = { ListTables };

    ghost coded = { tables_code };

    ghost view = { λ l. tables_of l.nodes.entries };

    ghost invariant = { λ l. AreListsOf l.nodes.entries };
}

impl Lists {
    /// No list has an element.
    pub fn new(alloc: Global) -> Lists
        ensures positions { result.positions ≡ fin.empty }
        ensures elements { result.elements ≡ fin.empty }
    {
        Lists {
            alloc,
            nodes: BTreeMap::new(alloc),
        }
    }

    /// A new element of the node, at a new position of its list, both with this id.
    pub fn add(
        &mut self,
        node: OpId,
        id: OpId,
        anchor: OpId,
        side: Side,
        value: Value<'_>,
    ) -> Result<(), AllocError>
        requires new_position { fin.get self.old.positions (node, id) ≡ None }
        requires new_element { fin.get self.old.elements (node, id) ≡ None }
        requires no_head { id ≢ root_id }
        requires hangs { HangsIn self.old.positions node id (record { on = anchor; side = side }) }
        ensures ok { OnOk result (self.new ≡ lists_after self.old id
            (add_item node (record { on = anchor; side = side }) (value_of value.entry))) }
        ensures err { OnErr result (self.new ≡ self.old) }
        ensures lists { AreLists self.new }
    {
        if let Some(list) = self.nodes.get_mut(&node) {
            return list.add(self.alloc, id, anchor, side, value);
        }
        let mut list = NodeList::new(self.alloc, node);
        list.add(self.alloc, id, anchor, side, value)?;
        self.nodes.insert(node, list)?;
        Ok(())
    }

    /// Moves an element to a new position of its list, with this id. If the element was moved by a greater id already, it stays.
    pub fn shift(
        &mut self,
        node: OpId,
        element: OpId,
        id: OpId,
        anchor: OpId,
        side: Side,
    ) -> Result<(), AllocError>
        requires element { is_some (fin.get self.old.elements (node, element)) ≡ true }
        requires new_position { fin.get self.old.positions (node, id) ≡ None }
        requires no_head { id ≢ root_id }
        requires hangs { HangsIn self.old.positions node id (record { on = anchor; side = side }) }
        ensures ok { OnOk result (self.new ≡ lists_after self.old id
            (shift_item node element (record { on = anchor; side = side }))) }
        ensures err { OnErr result (self.new ≡ self.old) }
        ensures lists { AreLists self.new }
    {
        if let Some(list) = self.nodes.get_mut(&node) {
            return list.shift(element, id, anchor, side);
        }
        Ok(())
    }

    /// Gives an element a value. If its value was written by a greater id already, it stays.
    pub fn set(
        &mut self,
        node: OpId,
        element: OpId,
        id: OpId,
        value: Value<'_>,
    ) -> Result<(), AllocError>
        requires { is_some (fin.get self.old.elements (node, element)) ≡ true }
        ensures ok { OnOk result (self.new ≡ lists_after self.old id
            (set_item node element (value_of value.entry))) }
        ensures err { OnErr result (self.new ≡ self.old) }
        ensures lists { AreLists self.new }
    {
        if let Some(list) = self.nodes.get_mut(&node) {
            return list.set(self.alloc, element, id, value);
        }
        Ok(())
    }

    /// Drops an element for good. Takes no memory.
    pub fn drop_item(&mut self, node: OpId, element: OpId)
        requires { is_some (fin.get self.old.elements (node, element)) ≡ true }
        ensures now { (id : OpId) → self.new ≡ lists_after self.old id (drop_item node element) }
        ensures lists { AreLists self.new }
    {
        if let Some(list) = self.nodes.get_mut(&node) {
            list.drop_item(element);
        }
    }

    /// Whether the node's list has this position, taken by an element or not.
    pub fn has_position(&self, node: OpId, id: OpId) -> bool
        ensures { result ≡ is_some (fin.get self.now.positions (node, id)) }
    {
        let _ = self.nodes.len();
        match self.nodes.get(&node) {
            Some(list) => list.has_position(id),
            None => false,
        }
    }

    /// Whether the node has this element, dropped or not.
    pub fn has_element(&self, node: OpId, element: OpId) -> bool
        ensures { result ≡ is_some (fin.get self.now.elements (node, element)) }
    {
        let _ = self.nodes.len();
        match self.nodes.get(&node) {
            Some(list) => list.has_element(element),
            None => false,
        }
    }

    /// The node's elements that aren't dropped, with their values, in the order of the walk of their positions.
    pub fn elements(&self, node: OpId) -> Result<Vec<(OpId, OwnValue)>, AllocError>
        ensures ids { IfOk result (λ v. ids_of v.items ≡ live_elements (document_of self.now) node) }
        ensures values { IfOk result (λ v. values_of v.items ≡ elements_of (document_of self.now) node) }
    {
        let _ = self.nodes.len();
        match self.nodes.get(&node) {
            Some(list) => list.elements(self.alloc),
            None => Ok(Vec::new(self.alloc)),
        }
    }

    /// The ids of the node's elements that aren't dropped, in the order of the walk of their positions.
    pub fn element_ids(&self, node: OpId) -> Result<Vec<OpId>, AllocError>
        ensures { IfOk result (λ v. v.items ≡ live_elements (document_of self.now) node) }
    {
        let _ = self.nodes.len();
        match self.nodes.get(&node) {
            Some(list) => list.shown(self.alloc),
            None => Ok(Vec::new(self.alloc)),
        }
    }

    /// The id of the i-th of the node's elements that aren't dropped, from 0, or `None` exactly where there are no more than i.
    pub fn element_at(&self, node: OpId, i: u32) -> Result<Option<OpId>, AllocError>
        ensures { IfOk result (λ id. id ≡ slice_get (live_elements (document_of self.now) node) i) }
    {
        let ids = self.element_ids(node)?;
        Ok(ids.get(i as usize).copied())
    }

    /// The position at which the element is, dropped or not, or the head (`ROOT`) where the node has no such element. Takes no
    /// memory.
    pub fn position_of(&self, node: OpId, element: OpId) -> OpId
        ensures position { result ≡ element_position (document_of self.now) node element }
        ensures there { has_anchor self.now.positions node result ≡ true }
    {
        let _ = self.nodes.len();
        match self.nodes.get(&node) {
            Some(list) => list.position_of(element),
            None => ROOT,
        }
    }

    /// Where a position of the node's list hangs that is to stand directly after `left`, which is the head (`ROOT`) or a position:
    /// right of it if nothing hangs there, else left of the one that follows it. Takes no memory. A new position that is put
    /// there stands directly after `left`.
    pub fn place_after(&self, node: OpId, left: OpId) -> (OpId, Side)
        requires { has_anchor self.now.positions node left ≡ true }
        ensures place { let place = place_after (rows_of (λ at. at) self.now.positions node) left in
            result ≡ (place.on, place.side) }
        ensures after { (row : OpId) → fin.get self.now.positions (node, row) ≡ None
            → id_lt result.0 row ≡ true
            → PlacedAfter (rows_of (λ at. at) self.now.positions node) left row }
        ensures lists { AreLists self.now }
    {
        let _ = self.nodes.len();
        match self.nodes.get(&node) {
            Some(list) => list.place_after(left),
            None => (left, Side::Right),
        }
    }

    /// The lists of these rows.
    pub fn from_rows(
        alloc: Global,
        positions: &[PlaceRow],
        elements: &[ElementRow],
    ) -> Result<Lists, AllocError>
        requires positions_rise { IsStrictlySortedBy row_cmp (keys (place_entries positions.now)) }
        requires elements_rise { IsStrictlySortedBy row_cmp (keys (element_entries elements.now)) }
        requires lists { AreLists (tables_of_rows positions.now elements.now) }
        ensures { IfOk result (λ l. l ≡ tables_of_rows positions.now elements.now) }
    {
        let mut lists = Lists::new(alloc);
        for row in positions {
            lists.hang(row)?;
        }
        for row in elements {
            lists.put(row)?;
        }
        Ok(lists)
    }

    /// The positions of all lists, by node and id.
    pub fn position_rows(&self) -> Result<Vec<PlaceRow>, AllocError>
        ensures rows { IfOk result (λ v. place_entries v.items ≡ fin.entries self.now.positions) }
        ensures lists { AreLists self.now }
    {
        places_of(self.alloc, &self.nodes)
    }

    /// The elements of all lists, dropped ones too, by node and id.
    pub fn element_rows(&self) -> Result<Vec<ElementRow>, AllocError>
        ensures rows { IfOk result (λ v. element_entries v.items ≡ fin.entries self.now.elements) }
        ensures lists { AreLists self.now }
    {
        elements_in(self.alloc, &self.nodes)
    }

    // A new position, which no element takes.
    fn hang(&mut self, row: &PlaceRow) -> Result<(), AllocError>
        requires new_position { fin.get self.old.positions (row.now.owner, row.now.id) ≡ None }
        requires no_head { row.now.id ≢ root_id }
        requires hangs { HangsIn self.old.positions row.now.owner row.now.id (record { on = row.now.anchor; side = row.now.side }) }
        ensures { OnOk result (self.new ≡ record self.old {
          positions = fin.insert self.old.positions (row.now.owner, row.now.id) (record { on = row.now.anchor; side = row.now.side });
        }) }
    {
        if let Some(list) = self.nodes.get_mut(&row.owner) {
            return list.hang(row.id, row.anchor, row.side);
        }
        let mut list = NodeList::new(self.alloc, row.owner);
        list.hang(row.id, row.anchor, row.side)?;
        self.nodes.insert(row.owner, list)?;
        Ok(())
    }

    // A new element at a position of its own.
    fn put(&mut self, row: &ElementRow) -> Result<(), AllocError>
        requires new_element { fin.get self.old.elements (row.now.node, row.now.id) ≡ None }
        requires lists { AreLists (record self.old {
          elements = fin.insert self.old.elements (row.now.node, row.now.id) (element_entry row.now).1;
        }) }
        ensures { OnOk result (self.new ≡ record self.old {
          elements = fin.insert self.old.elements (row.now.node, row.now.id) (element_entry row.now).1;
        }) }
    {
        let item = Item {
            position: row.position,
            writer: row.writer,
            value: OwnValue::of(self.alloc, row.value.as_value())?,
            dropped: row.dropped,
        };
        if let Some(list) = self.nodes.get_mut(&row.node) {
            return list.put(row.id, item);
        }
        Ok(())
    }
}

// The positions of each node in turn.
fn places_of(alloc: Global, nodes: &BTreeMap<OpId, NodeList>) -> Result<Vec<PlaceRow>, AllocError>
    requires { AreListsOf nodes.now.entries }
    ensures rows { IfOk result (λ v. place_entries v.items ≡ all_rows places_in nodes.now.entries) }
    ensures ordered { tables.IsOrdered id_cmp nodes.now }
{
    let mut rows = Vec::new(alloc);
    let _ = nodes.len();
    for (_, list) in nodes {
        list.push_places(&mut rows)?;
    }
    Ok(rows)
}

// The elements of each node in turn.
fn elements_in(
    alloc: Global,
    nodes: &BTreeMap<OpId, NodeList>,
) -> Result<Vec<ElementRow>, AllocError>
    ensures rows { IfOk result (λ v. element_entries v.items ≡ all_rows items_in nodes.now.entries) }
    ensures ordered { tables.IsOrdered id_cmp nodes.now }
{
    let mut rows = Vec::new(alloc);
    let _ = nodes.len();
    for (node, list) in nodes {
        list.push_elements(alloc, *node, &mut rows)?;
    }
    Ok(rows)
}
