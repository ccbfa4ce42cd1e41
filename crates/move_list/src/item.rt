// Elements of a list.
ghost use Rattle.std.specs.Prelude.{◌≡◌, false, true, OnOk, OnErr, IfOk};
ghost use Rattle.std.specs.FinMap as fin;
ghost use Rattle.std.specs.BTreeMap as tables;
ghost use Rattle.op_ids.specs.Order.{id_cmp};
ghost use Rattle.model_laws.specs.Arrival.{set_late, shifted_late};
ghost use Rattle.op_grammar.specs.Values.{value_of};
ghost use Rattle.move_list.specs.Items.{added, dropped_of, edited, items_of, seen};

use op_grammar::{OwnValue, Value};
use op_ids::OpId;
use std::alloc::{AllocError, Global};
use std::collections::BTreeMap;

// Where an element is, who wrote its value last, and whether it was dropped.
#[derive(Drop)]
pub struct Item {
    pub position: OpId,
    pub writer: OpId,
    pub value: OwnValue,
    pub dropped: bool,
}

impl Item {
    // A new element, at the position with its own id.
    pub fn new(alloc: Global, id: OpId, value: Value<'_>) -> Result<Item, AllocError>
        ensures { IfOk result (λ item. seen item ≡ added id (value_of value.entry)) }
    {
        Ok(Item {
            position: id,
            writer: id,
            value: OwnValue::of(alloc, value)?,
            dropped: false,
        })
    }

    // Takes the position, unless one with a greater id was taken before.
    fn shift(&mut self, id: OpId)
        ensures { seen self.new ≡ shifted_late id (seen self.old) }
    {
        if self.position.is_before(id) {
            self.position = id;
        }
    }

    // Keeps the write, unless one with a greater id came before it.
    fn set(&mut self, alloc: Global, id: OpId, value: Value<'_>) -> Result<(), AllocError>
        ensures ok { OnOk result (seen self.new ≡ set_late id (value_of value.entry) (seen self.old)) }
        ensures err { OnErr result (seen self.new ≡ seen self.old) }
    {
        if self.writer.is_before(id) {
            self.value = OwnValue::of(alloc, value)?;
            self.writer = id;
        }
        Ok(())
    }

    // Drops it for good.
    fn discard(&mut self)
        ensures { seen self.new ≡ dropped_of (seen self.old) }
    {
        self.dropped = true;
    }
}

// Puts an element there.
pub fn put(items: &mut BTreeMap<OpId, Item>, id: OpId, item: Item) -> Result<(), AllocError>
    ensures ok { OnOk result (items_of items.new.entries
        ≡ fin.insert (items_of items.old.entries) id (seen item)) }
    ensures err { OnErr result (items.new.entries ≡ items.old.entries) }
{
    items.insert(id, item)?;
    Ok(())
}

// Takes an element away.
pub fn take(items: &mut BTreeMap<OpId, Item>, id: OpId)
    ensures { items_of items.new.entries ≡ fin.remove (items_of items.old.entries) id }
{
    items.remove(&id);
}

// Shifts the element, if it is there.
pub fn shift(items: &mut BTreeMap<OpId, Item>, element: OpId, id: OpId)
    ensures { items_of items.new.entries
        ≡ edited (items_of items.old.entries) element (shifted_late id) }
{
    if let Some(item) = items.get_mut(&element) {
        item.shift(id);
    }
}

// Writes the element's value, if it is there.
pub fn set(
    alloc: Global,
    items: &mut BTreeMap<OpId, Item>,
    element: OpId,
    id: OpId,
    value: Value<'_>,
) -> Result<(), AllocError>
    ensures ok { OnOk result (items_of items.new.entries
        ≡ edited (items_of items.old.entries) element (set_late id (value_of value.entry))) }
    ensures err { OnErr result (items_of items.new.entries ≡ items_of items.old.entries) }
{
    match items.get_mut(&element) {
        Some(item) => item.set(alloc, id, value),
        None => Ok(()),
    }
}

// Drops the element, if it is there.
pub fn discard(items: &mut BTreeMap<OpId, Item>, element: OpId)
    ensures { items_of items.new.entries
        ≡ edited (items_of items.old.entries) element dropped_of }
{
    if let Some(item) = items.get_mut(&element) {
        item.discard();
    }
}
