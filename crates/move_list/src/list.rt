// The list of one node.
ghost use Rattle.std.specs.Prelude.{◌≡◌, ◌≢◌, ◌++◌, [], false, true, None, OnOk, OnErr, IfOk, is_some, map, filter_map};
ghost use Rattle.std.specs.FinMap as fin;
ghost use Rattle.std.specs.Option.{option_map_or};
ghost use Rattle.std.specs.BTreeMap as tables;
ghost use Rattle.op_ids.specs.Order.{id_cmp, id_lt, root_id};
ghost use Rattle.model.specs.Walk.{place_after};
ghost use Rattle.model_laws.specs.Arrival.{set_late, shifted_late};
ghost use Rattle.walk_laws.specs.Insertion.{HangsWell, HeadOrRow, IsInsertionTree, PlacedAfter, is_row, with_row};
ghost use Rattle.op_grammar.specs.Values.{value_of};
ghost use Rattle.move_list.specs.Items.{added, dropped_of, edited, items_of, kept_entry, seen};
ghost use Rattle.move_list.specs.Kept.{AreAt, IsList, OwnPositions, item_at, shown, shown_at, tagged};
ghost use Rattle.move_list.specs.Lists.{element_entries, handed, place_entries};

use crate::item::{self, Item};
use crate::lists::ElementRow;
use fugue_tree::{PlaceRow, Tree};
use op_grammar::{OwnValue, Value};
use op_ids::{OpId, ROOT, Side};
use std::alloc::{AllocError, Global};
use std::collections::BTreeMap;
use std::marker::Model;

// The positions of a node's list, and its elements by their ids.
#[derive(Drop)]
pub struct NodeList {
    positions: Tree,
    items: BTreeMap<OpId, Item>,
}

impl Model for NodeList {
    ghost use Rattle.move_list.specs.Kept.{IsList, NodeRows, node_code, node_rows};

    ghost Value = { NodeRows };

    ghost coded = { node_code };

    ghost view = { λ l. node_rows l.positions l.items.entries };

    ghost invariant = { λ l. IsList (node_rows l.positions l.items.entries) };
}

impl NodeList {
    // A list without elements.
    pub fn new(alloc: Global, node: OpId) -> NodeList
        ensures owner { result.owner ≡ node }
        ensures positions { result.positions ≡ [] }
        ensures elements { result.elements ≡ fin.empty }
    {
        NodeList {
            positions: Tree::new(alloc, node),
            items: BTreeMap::new(alloc),
        }
    }

    // A new element at a new position, both with this id.
    pub fn add(
        &mut self,
        alloc: Global,
        id: OpId,
        anchor: OpId,
        side: Side,
        value: Value<'_>,
    ) -> Result<(), AllocError>
        requires new_position { is_row self.old.positions id ≡ false }
        requires new_element { fin.get self.old.elements id ≡ None }
        requires no_head { id ≢ root_id }
        requires hangs { HangsWell self.old.positions id (record { on = anchor; side = side }) }
        ensures ok { OnOk result (self.new ≡ record self.old {
          positions = with_row self.old.positions id (record { on = anchor; side = side });
          elements = fin.insert self.old.elements id (added id (value_of value.entry));
        }) }
        ensures err { OnErr result (self.new ≡ self.old) }
        ensures list { OnOk result (IsList self.new) }
    {
        let new = Item::new(alloc, id, value)?;
        item::put(&mut self.items, id, new)?;
        let placed = self.positions.add(id, anchor, side);
        if placed.is_err() {
            item::take(&mut self.items, id);
        }
        placed
    }

    // A new position with this id, which the element takes unless it took one with a greater id before.
    pub fn shift(
        &mut self,
        element: OpId,
        id: OpId,
        anchor: OpId,
        side: Side,
    ) -> Result<(), AllocError>
        requires new_position { is_row self.old.positions id ≡ false }
        requires no_head { id ≢ root_id }
        requires hangs { HangsWell self.old.positions id (record { on = anchor; side = side }) }
        ensures ok { OnOk result (self.new ≡ record self.old {
          positions = with_row self.old.positions id (record { on = anchor; side = side });
          elements = edited self.old.elements element (shifted_late id);
        }) }
        ensures err { OnErr result (self.new ≡ self.old) }
        ensures list { OnOk result (IsList self.new) }
    {
        self.positions.add(id, anchor, side)?;
        item::shift(&mut self.items, element, id);
        Ok(())
    }

    // Gives the element a value, unless one with a greater id was written before.
    pub fn set(
        &mut self,
        alloc: Global,
        element: OpId,
        id: OpId,
        value: Value<'_>,
    ) -> Result<(), AllocError>
        ensures ok { OnOk result (self.new ≡ record self.old {
          elements = edited self.old.elements element (set_late id (value_of value.entry));
        }) }
        ensures err { OnErr result (self.new ≡ self.old) }
        ensures list { OnOk result (IsList self.new) }
    {
        item::set(alloc, &mut self.items, element, id, value)
    }

    // Drops the element for good.
    pub fn drop_item(&mut self, element: OpId)
        ensures now { self.new ≡ record self.old {
          elements = edited self.old.elements element dropped_of;
        } }
        ensures list { IsList self.new }
    {
        item::discard(&mut self.items, element);
    }

    // Whether the list has this position.
    pub fn has_position(&self, id: OpId) -> bool
        ensures { result ≡ is_row self.now.positions id }
    {
        self.positions.has(id)
    }

    // Whether the list has this element, dropped or not.
    pub fn has_element(&self, element: OpId) -> bool
        ensures { result ≡ is_some (fin.get self.now.elements element) }
    {
        self.items.contains_key(&element)
    }

    // A new position, which no element takes.
    pub fn hang(&mut self, id: OpId, anchor: OpId, side: Side) -> Result<(), AllocError>
        requires new_position { is_row self.old.positions id ≡ false }
        requires no_head { id ≢ root_id }
        requires hangs { HangsWell self.old.positions id (record { on = anchor; side = side }) }
        ensures ok { OnOk result (self.new ≡ record self.old {
          positions = with_row self.old.positions id (record { on = anchor; side = side });
        }) }
        ensures err { OnErr result (self.new ≡ self.old) }
        ensures list { OnOk result (IsList self.new) }
    {
        self.positions.add(id, anchor, side)
    }

    // A new element at a position of its own.
    pub fn put(&mut self, id: OpId, new: Item) -> Result<(), AllocError>
        requires new_element { fin.get self.old.elements id ≡ None }
        requires items { AreAt self.old.positions (fin.insert self.old.elements id (seen new)) }
        ensures ok { OnOk result (self.new ≡ record self.old {
          elements = fin.insert self.old.elements id (seen new);
        }) }
        ensures err { OnErr result (self.new ≡ self.old) }
        ensures list { OnOk result (IsList self.new) }
    {
        item::put(&mut self.items, id, new)
    }

    // Where a position hangs that is to stand directly after `left`.
    pub fn place_after(&self, left: OpId) -> (OpId, Side)
        requires { HeadOrRow self.now.positions left }
        ensures place { let place = place_after self.now.positions left in
            result ≡ (place.on, place.side) }
        ensures after { (row : OpId) → is_row self.now.positions row ≡ false
            → id_lt result.0 row ≡ true → PlacedAfter self.now.positions left row }
    {
        self.positions.place_after(left)
    }

    // The position at which the element is, or the head where there is no such element.
    pub fn position_of(&self, element: OpId) -> OpId
        ensures { result ≡ option_map_or (λ e. e.position) (fin.get self.now.elements element) root_id }
    {
        match self.items.get(&element) {
            Some(item) => item.position,
            None => ROOT,
        }
    }

    // The ids of the elements that aren't dropped, in the order of the walk.
    pub fn shown(&self, alloc: Global) -> Result<Vec<OpId>, AllocError>
        ensures { IfOk result (λ v. v.items ≡ shown self.now) }
    {
        let _ = self.items.len();
        let by_position = shown_by_position(alloc, &self.items)?;
        let walk = self.positions.walk()?;
        ids_at(alloc, &by_position, walk.as_slice())
    }

    // The elements that aren't dropped, in the order of the walk.
    pub fn elements(&self, alloc: Global) -> Result<Vec<(OpId, OwnValue)>, AllocError>
        ensures { IfOk result (λ v. handed v.items
            ≡ filter_map (item_at self.now.elements) (shown self.now)) }
    {
        let ids = self.shown(alloc)?;
        items_at(alloc, &self.items, ids.as_slice())
    }

    // Adds the rows of the positions behind the others.
    pub fn push_places(&self, rows: &mut Vec<PlaceRow>) -> Result<(), AllocError>
        ensures { OnOk result (place_entries rows.new.items
            ≡ place_entries rows.old.items ++ tagged self.now.owner self.now.positions) }
    {
        let places = self.positions.rows()?;
        rows.extend_from_slice(places.as_slice())?;
        Ok(())
    }

    // Adds the rows of the elements behind the others.
    pub fn push_elements(
        &self,
        alloc: Global,
        node: OpId,
        rows: &mut Vec<ElementRow>,
    ) -> Result<(), AllocError>
        ensures { OnOk result (element_entries rows.new.items
            ≡ element_entries rows.old.items ++ tagged node (fin.entries self.now.elements)) }
    {
        push_all(alloc, &self.items, node, rows)
    }
}

// The elements that aren't dropped, by their positions.
fn shown_by_position(
    alloc: Global,
    items: &BTreeMap<OpId, Item>,
) -> Result<BTreeMap<OpId, OpId>, AllocError>
    requires { OwnPositions (map kept_entry items.now.entries) }
    ensures { IfOk result (λ by_position. (position : OpId)
        → tables.get id_cmp by_position position ≡ shown_at (map kept_entry items.now.entries) position) }
{
    let mut by_position = BTreeMap::new(alloc);
    for (id, item) in items {
        if !item.dropped {
            by_position.insert(item.position, *id)?;
        }
    }
    Ok(by_position)
}

// What is found at each of the positions.
fn ids_at(
    alloc: Global,
    by_position: &BTreeMap<OpId, OpId>,
    positions: &[OpId],
) -> Result<Vec<OpId>, AllocError>
    ensures { IfOk result (λ v. v.items
        ≡ filter_map (tables.get id_cmp by_position.now) positions.now) }
{
    let mut ids = Vec::new(alloc);
    for position in positions {
        if let Some(id) = by_position.get(position) {
            ids.push(*id)?;
        }
    }
    Ok(ids)
}

// Each of these elements that is there, with its value.
fn items_at(
    alloc: Global,
    items: &BTreeMap<OpId, Item>,
    ids: &[OpId],
) -> Result<Vec<(OpId, OwnValue)>, AllocError>
    ensures { IfOk result (λ v. handed v.items
        ≡ filter_map (item_at (items_of items.now.entries)) ids.now) }
{
    let mut list = Vec::new(alloc);
    for id in ids {
        if let Some(item) = items.get(id) {
            list.push((*id, OwnValue::of(alloc, item.value.as_value())?))?;
        }
    }
    Ok(list)
}

// Adds the rows of these elements behind the others.
fn push_all(
    alloc: Global,
    items: &BTreeMap<OpId, Item>,
    node: OpId,
    rows: &mut Vec<ElementRow>,
) -> Result<(), AllocError>
    ensures pushed { OnOk result (element_entries rows.new.items
        ≡ element_entries rows.old.items ++ tagged node (map kept_entry items.now.entries)) }
    ensures ordered { tables.IsOrdered id_cmp items.now }
{
    let _ = items.len();
    for (id, item) in items {
        rows.push(ElementRow {
            node,
            id: *id,
            position: item.position,
            writer: item.writer,
            value: OwnValue::of(alloc, item.value.as_value())?,
            dropped: item.dropped,
        })?;
    }
    Ok(())
}
