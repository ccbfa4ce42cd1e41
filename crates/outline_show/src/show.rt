//! Views in print. After a refusal for want of memory a part of what is appended may stand.

ghost use Rattle.std.specs.Prelude.{◌≡◌, ◌++◌, flat_map, string_bytes, IfOk, OnOk};
ghost use Rattle.std.specs.Str.{chars};
ghost use Rattle.model.specs.Text as printed;
ghost use Rattle.op_grammar.specs.Values.{own_value_of};
ghost use Rattle.doc_store.specs.Keys.{entry_seen};
ghost use Rattle.doc_store.specs.Shown.{node_seen};

use crate::value::push_value;
use cbor_det::{OwnText, push_quoted};
use doc_store::{ItemList, KeyList, KeyValue, View, ViewNode};
use op_grammar::OwnValue;
use std::alloc::{AllocError, Global};

/// The view in printed lines: one for each node, with its depth and its id, and behind it one for each of its keys, one for
/// its text, if that isn't empty, and one for each of its elements. Fails only where memory runs out.
pub fn show_text(alloc: Global, view: &View<'_>) -> Result<OwnText, AllocError>
    ensures { IfOk result (λ text. text ≡ printed.show_text view.now) }
{
    let mut text = String::new(alloc);
    for node in view.as_slice() {
        push_node(alloc, &mut text, node)?;
    }
    Ok(OwnText::from_string(text))
}

/// Appends the lines of a node.
fn push_node(alloc: Global, text: &mut String, node: &ViewNode<'_>) -> Result<(), AllocError>
    ensures { OnOk result (string_bytes text.new ≡ string_bytes text.old
        ++ printed.shown_node (node_seen node.now)) }
{
    writeln!(text, "node {} {}", node.depth, node.id)?;
    push_keys(alloc, text, &node.keys)?;
    push_content(alloc, text, node.text.text())?;
    push_items(alloc, text, &node.items)
}

/// Appends a line for each key.
fn push_keys(alloc: Global, text: &mut String, keys: &KeyList<'_>) -> Result<(), AllocError>
    ensures { OnOk result (string_bytes text.new ≡ string_bytes text.old
        ++ flat_map printed.entry_line keys.now) }
{
    for key in keys.as_slice() {
        push_key(alloc, text, key)?;
    }
    Ok(())
}

/// Appends the line of a key with its value.
fn push_key(alloc: Global, text: &mut String, key: &KeyValue<'_>) -> Result<(), AllocError>
    ensures { OnOk result (string_bytes text.new ≡ string_bytes text.old
        ++ printed.entry_line (entry_seen key.now)) }
{
    text.push_str("key ")?;
    push_quoted(alloc, text, key.key)?;
    text.push(' ')?;
    push_value(alloc, text, key.value)?;
    text.push('\n')
}

/// Appends the line of a node's text. An empty text has none.
fn push_content(alloc: Global, text: &mut String, content: &str) -> Result<(), AllocError>
    ensures { OnOk result (string_bytes text.new ≡ string_bytes text.old
        ++ printed.text_line (chars content.now)) }
{
    if content.is_empty() {
        return Ok(());
    }
    text.push_str("text ")?;
    push_quoted(alloc, text, content)?;
    text.push('\n')
}

/// Appends a line for each element.
fn push_items(alloc: Global, text: &mut String, items: &ItemList) -> Result<(), AllocError>
    ensures { OnOk result (string_bytes text.new ≡ string_bytes text.old
        ++ flat_map printed.item_line items.now) }
{
    for item in items.as_slice() {
        push_item(alloc, text, item)?;
    }
    Ok(())
}

/// Appends the line of an element.
fn push_item(alloc: Global, text: &mut String, item: &OwnValue) -> Result<(), AllocError>
    ensures { OnOk result (string_bytes text.new ≡ string_bytes text.old
        ++ printed.item_line (own_value_of item.now)) }
{
    text.push_str("item ")?;
    push_value(alloc, text, item.as_value())?;
    text.push('\n')
}
