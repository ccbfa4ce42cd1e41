//! Operations and changes, spelled. After a refusal for want of memory a part of the spelling may stand.

ghost use Rattle.std.specs.Prelude.{◌≡◌, ◌++◌, OnOk, IfOk, [], ◌∷◌};
ghost use Rattle.std.specs.List.{AllByRecursion};
ghost use Rattle.std.specs.Str.{chars};
ghost use Rattle.cbor_det.specs.Item.{spell, unsigned};
ghost use Rattle.cbor_det.specs.Head.{head as cbor_head};
ghost use Rattle.cbor_det.proofs.PlainLaws.{Plain};
ghost use Rattle.model.specs.Value.{row, id_item, numbers_item};
ghost use Rattle.model.specs.Operation.{operation_item, new_node, put_key, type_text, erase_text, add_item, set_item, drop_item, side_item};
ghost use Rattle.model.specs.Change.{parts_item, body as body_of};
ghost use Rattle.op_grammar.specs.Values.{value_of};
ghost use Rattle.op_grammar.specs.Operations.{anchor_of, operation_of, operations_of};
ghost use Rattle.op_grammar.specs.Changes.{parts_by};

use crate::head::Head;
use crate::operation::OpRef;
use crate::value::Value;
use crate::writing::{
    spell_characters, spell_id, spell_key, spell_number, spell_side, spell_value,
};
use cbor_det::{put_array, put_bytes, put_uint};
use op_ids::{OpId, Side};
use std::alloc::{AllocError, Global};
use version_vector::Vector;

/// The change with this head and this body.
pub(crate) fn spell_change(alloc: Global, head: &Head, body: &[u8]) -> Result<Vec<u8>, AllocError>
    ensures spelled { IfOk result (λ change. change.items ≡ spell (parts_item (parts_by head.now body.now))) }
    ensures plain { OnOk result (Plain (parts_item (parts_by head.now body.now)) 2) }
{
    let mut change = Vec::new(alloc);
    put_array(&mut change, 7)?;
    spell_number(&mut change, u64::from(head.member))?;
    spell_number(&mut change, u64::from(head.number))?;
    spell_number(&mut change, head.time)?;
    spell_causes(&mut change, &head.causes)?;
    spell_number(&mut change, u64::from(head.count))?;
    spell_number(&mut change, u64::from(head.width))?;
    put_bytes(&mut change, body)?;
    Ok(change)
}

/// Appends the causes.
fn spell_causes(out: &mut Vec<u8>, causes: &Vector) -> Result<(), AllocError>
    ensures ok { OnOk result (out.new.items ≡ out.old.items ++ spell (numbers_item causes.now)) }
    ensures plain { OnOk result (Plain (numbers_item causes.now) 1) }
{
    put_array(out, u64::from(causes.len()))?;
    for member in 0..causes.len() {
        spell_number(out, u64::from(causes.get(member)))?;
    }
    Ok(())
}

/// The body of a change with these operations.
pub(crate) fn spell_body(alloc: Global, ops: &[OpRef<'_>]) -> Result<Vec<u8>, AllocError>
    ensures spelled { IfOk result (λ body. body.items ≡ body_of (operations_of ops.now)) }
    ensures plain { OnOk result (AllByRecursion (λ o. Plain (operation_item o) 2) (operations_of ops.now)) }
{
    let mut body = Vec::new(alloc);
    for op in ops {
        spell_operation(&mut body, *op)?;
    }
    Ok(body)
}

/// Appends an operation.
fn spell_operation(out: &mut Vec<u8>, op: OpRef<'_>) -> Result<(), AllocError>
    ensures ok { OnOk result (out.new.items ≡ out.old.items ++ spell (operation_item (operation_of op.entry))) }
    ensures plain { OnOk result (Plain (operation_item (operation_of op.entry)) 2) }
{
    match op {
        OpRef::NewNode {
            parent,
            anchor,
            side,
        } => spell_new_node(out, parent, (anchor, side)),
        OpRef::MoveNode {
            child,
            parent,
            anchor,
            side,
        } => spell_two_at(out, 1, (child, parent), (anchor, side)),
        OpRef::PutKey { node, key, value } => spell_put_key(out, node, key, value),
        OpRef::TypeText {
            node,
            anchor,
            side,
            text,
        } => spell_type_text(out, node, (anchor, side), text),
        OpRef::EraseText { node, first, count } => spell_erase_text(out, (node, first), count),
        OpRef::AddItem {
            node,
            anchor,
            side,
            value,
        } => spell_add_item(out, node, (anchor, side), value),
        OpRef::ShiftItem {
            node,
            element,
            anchor,
            side,
        } => spell_two_at(out, 6, (node, element), (anchor, side)),
        OpRef::SetItem {
            node,
            element,
            value,
        } => spell_set_item(out, (node, element), value),
        OpRef::DropItem { node, element } => spell_drop_item(out, (node, element)),
    }
}

/// Appends the head of a row and the kind that stands first in it.
fn spell_kind(out: &mut Vec<u8>, fields: u64, kind: u64) -> Result<(), AllocError>
    ensures { OnOk result (out.new.items ≡ out.old.items ++ (cbor_head 4 fields ++ cbor_head 0 kind)) }
{
    put_array(out, fields)?;
    put_uint(out, kind)
}

/// Appends where something hangs.
fn spell_anchor(out: &mut Vec<u8>, at: (OpId, Side)) -> Result<(), AllocError>
    ensures ok { OnOk result (out.new.items ≡ out.old.items ++ (spell (id_item at.0) ++ spell (side_item at.1))) }
    ensures plain { OnOk result (Plain (id_item at.0) 1 × Plain (side_item at.1) 1) }
{
    spell_id(out, at.0)?;
    spell_side(out, at.1)
}

/// Appends two ids.
fn spell_ids(out: &mut Vec<u8>, ids: (OpId, OpId)) -> Result<(), AllocError>
    ensures ok { OnOk result (out.new.items ≡ out.old.items ++ (spell (id_item ids.0) ++ spell (id_item ids.1))) }
    ensures plain { OnOk result (Plain (id_item ids.0) 1 × Plain (id_item ids.1) 1) }
{
    spell_id(out, ids.0)?;
    spell_id(out, ids.1)
}

fn spell_new_node(out: &mut Vec<u8>, parent: OpId, at: (OpId, Side)) -> Result<(), AllocError>
    ensures ok { OnOk result (out.new.items ≡ out.old.items ++ spell (operation_item (new_node parent (anchor_of at)))) }
    ensures plain { OnOk result (Plain (operation_item (new_node parent (anchor_of at))) 2) }
{
    spell_kind(out, 4, 0)?;
    spell_id(out, parent)?;
    spell_anchor(out, at)
}

/// Appends a move of a node, of kind 1, or of an element, of kind 6: two ids, and where the place hangs.
fn spell_two_at(
    out: &mut Vec<u8>,
    kind: u64,
    ids: (OpId, OpId),
    at: (OpId, Side),
) -> Result<(), AllocError>
    ensures ok { OnOk result (out.new.items ≡ out.old.items ++ spell (row (unsigned kind ∷ id_item ids.0 ∷ id_item ids.1 ∷ id_item at.0 ∷ side_item at.1 ∷ []))) }
    ensures plain { OnOk result (Plain (row (unsigned kind ∷ id_item ids.0 ∷ id_item ids.1 ∷ id_item at.0 ∷ side_item at.1 ∷ [])) 2) }
{
    spell_kind(out, 5, kind)?;
    spell_ids(out, ids)?;
    spell_anchor(out, at)
}

fn spell_put_key(
    out: &mut Vec<u8>,
    node: OpId,
    key: &str,
    value: Value<'_>,
) -> Result<(), AllocError>
    ensures ok { OnOk result (out.new.items ≡ out.old.items ++ spell (operation_item (put_key node key.now (value_of value.entry)))) }
    ensures plain { OnOk result (Plain (operation_item (put_key node key.now (value_of value.entry))) 2) }
{
    spell_kind(out, 4, 2)?;
    spell_id(out, node)?;
    spell_key(out, key)?;
    spell_value(out, value)
}

fn spell_type_text(
    out: &mut Vec<u8>,
    node: OpId,
    at: (OpId, Side),
    text: &str,
) -> Result<(), AllocError>
    ensures ok { OnOk result (out.new.items ≡ out.old.items ++ spell (operation_item (type_text node (anchor_of at) (chars text.now)))) }
    ensures plain { OnOk result (Plain (operation_item (type_text node (anchor_of at) (chars text.now))) 2) }
{
    spell_kind(out, 5, 3)?;
    spell_id(out, node)?;
    spell_anchor(out, at)?;
    spell_characters(out, text)
}

fn spell_erase_text(out: &mut Vec<u8>, ids: (OpId, OpId), count: u32) -> Result<(), AllocError>
    ensures ok { OnOk result (out.new.items ≡ out.old.items ++ spell (operation_item (erase_text ids.0 ids.1 count))) }
    ensures plain { OnOk result (Plain (operation_item (erase_text ids.0 ids.1 count)) 2) }
{
    spell_kind(out, 4, 4)?;
    spell_ids(out, ids)?;
    spell_number(out, u64::from(count))
}

fn spell_add_item(
    out: &mut Vec<u8>,
    node: OpId,
    at: (OpId, Side),
    value: Value<'_>,
) -> Result<(), AllocError>
    ensures ok { OnOk result (out.new.items ≡ out.old.items ++ spell (operation_item (add_item node (anchor_of at) (value_of value.entry)))) }
    ensures plain { OnOk result (Plain (operation_item (add_item node (anchor_of at) (value_of value.entry))) 2) }
{
    spell_kind(out, 5, 5)?;
    spell_id(out, node)?;
    spell_anchor(out, at)?;
    spell_value(out, value)
}

fn spell_set_item(out: &mut Vec<u8>, ids: (OpId, OpId), value: Value<'_>) -> Result<(), AllocError>
    ensures ok { OnOk result (out.new.items ≡ out.old.items ++ spell (operation_item (set_item ids.0 ids.1 (value_of value.entry)))) }
    ensures plain { OnOk result (Plain (operation_item (set_item ids.0 ids.1 (value_of value.entry))) 2) }
{
    spell_kind(out, 4, 7)?;
    spell_ids(out, ids)?;
    spell_value(out, value)
}

fn spell_drop_item(out: &mut Vec<u8>, ids: (OpId, OpId)) -> Result<(), AllocError>
    ensures ok { OnOk result (out.new.items ≡ out.old.items ++ spell (operation_item (drop_item ids.0 ids.1))) }
    ensures plain { OnOk result (Plain (operation_item (drop_item ids.0 ids.1)) 2) }
{
    spell_kind(out, 3, 8)?;
    spell_ids(out, ids)
}
