//! What a node shows beside its text.

ghost use Rattle.std.specs.Prelude.{◌≡◌, map, filter_map, IfOk};
ghost use Rattle.std.specs.FinMap as fin;
ghost use Rattle.op_grammar.specs.Values.{own_value_of};
ghost use Rattle.model.specs.View.{elements_of, entry_of};
ghost use Rattle.move_list.specs.Lists.{document_of};
ghost use Rattle.doc_store.specs.Keys.{entry_seen, kept_key};

use lww_map::{RegisterRow, Registers};
use move_list::Lists;
use op_grammar::{OwnValue, Value};
use op_ids::OpId;
use std::alloc::{AllocError, Global};
use std::marker::Model;

/// A key and its value.
#[derive(Clone, Copy)]
pub struct KeyValue<'a> {
    pub key: &'a str,
    pub value: Value<'a>,
}

/// The keys of a node whose value isn't null, by their bytes, each with its value.
#[derive(Drop)]
pub struct KeyList<'a> {
    keys: Vec<KeyValue<'a>>,
}

impl<'a> Model for KeyList<'a> {
    ghost use Rattle.std.specs.Prelude.{List, map};
    ghost use Rattle.model.specs.View.{Entry};
    ghost use Rattle.doc_store.specs.Keys.{entries_code, entry_seen};

    ghost Value = { List Entry };

    ghost coded = { entries_code };

    ghost view = { λ k. map entry_seen k.keys.items };
}

impl<'a> KeyList<'a> {
    /// The keys, each with its value.
    pub fn as_slice(&self) -> &[KeyValue<'a>]
        ensures { map entry_seen result.now ≡ self.now }
    {
        self.keys.as_slice()
    }
}

/// The elements of a node that aren't dropped, in their order.
#[derive(Drop)]
pub struct ItemList {
    items: Vec<OwnValue>,
}

impl Model for ItemList {
    ghost use Rattle.std.specs.Prelude.{List, map};
    ghost use Rattle.model.specs.Value.{Value as Shown};
    ghost use Rattle.op_grammar.specs.Values.{own_value_of};
    ghost use Rattle.doc_store.specs.Keys.{values_code};

    ghost Value = { List Shown };

    ghost coded = { values_code };

    ghost view = { λ l. map own_value_of l.items.items };
}

impl ItemList {
    /// The elements.
    pub fn as_slice(&self) -> &[OwnValue]
        ensures { map own_value_of result.now ≡ self.now }
    {
        self.items.as_slice()
    }
}

// The key of a register whose value isn't null, with the value.
fn shown_key<'a>(row: RegisterRow<'a>) -> Option<KeyValue<'a>>
    ensures { result ≡ kept_key row.entry }
{
    match row.value {
        Value::Null => None,
        value => Some(KeyValue {
            key: row.key,
            value,
        }),
    }
}

// The keys of the registers whose values aren't null, with the values.
fn shown_keys<'a>(
    alloc: Global,
    rows: Vec<RegisterRow<'a>>,
) -> Result<Vec<KeyValue<'a>>, AllocError>
    ensures { IfOk result (λ v. v.items ≡ filter_map kept_key rows.entry.items) }
{
    rows.into_iter().filter_map(shown_key).collect(alloc)
}

// What a node has under its keys.
pub fn keys_of<'a>(
    alloc: Global,
    registers: &Registers<'a>,
    node: OpId,
) -> Result<KeyList<'a>, AllocError>
    ensures { IfOk result (λ k. k ≡ filter_map (entry_of node) (fin.entries registers.now)) }
{
    let keys = shown_keys(alloc, registers.entries(node)?)?;
    Ok(KeyList { keys })
}

// The value of an element.
fn value_of(item: (OpId, OwnValue)) -> OwnValue
    ensures { result ≡ item.1 }
{
    item.1
}

// The values of elements.
fn values_of(alloc: Global, items: Vec<(OpId, OwnValue)>) -> Result<Vec<OwnValue>, AllocError>
    ensures { IfOk result (λ v. v.items ≡ map (λ item. item.1) items.items) }
{
    items.into_iter().map(value_of).collect(alloc)
}

// The elements of a node that aren't dropped, in their order.
pub fn items_of(alloc: Global, lists: &Lists, node: OpId) -> Result<ItemList, AllocError>
    ensures { IfOk result (λ l. l ≡ elements_of (document_of lists.now) node) }
{
    let items = values_of(alloc, lists.elements(node)?)?;
    Ok(ItemList { items })
}
