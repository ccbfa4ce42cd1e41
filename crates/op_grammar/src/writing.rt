//! Fields of operations, written.

ghost use Rattle.std.specs.Prelude.{◌≡◌, ◌++◌, length, take, OnOk, OnErr};
ghost use Rattle.std.specs.Str.{chars};
ghost use Rattle.cbor_det.specs.Item.{spell};
ghost use Rattle.cbor_det.specs.Item as cbor;
ghost use Rattle.cbor_det.proofs.PlainLaws.{Plain};
ghost use Rattle.model.specs.Value.{id_item, value_item};
ghost use Rattle.model.specs.Operation.{side_item, utf8};
ghost use Rattle.op_grammar.specs.Values.{value_of};

use crate::value::Value;
use cbor_det::{Simple, put_array, put_bytes, put_int, put_simple, put_text, put_uint};
use op_ids::{OpId, Side};
use std::alloc::AllocError;

/// Appends an id, as the array of its time, its member and its index, or nothing where memory is refused.
pub fn put_id(out: &mut Vec<u8>, id: OpId) -> Result<(), AllocError>
    ensures ok { OnOk result (out.new.items ≡ out.old.items ++ spell (id_item id)) }
    ensures err { OnErr result (out.new.items ≡ out.old.items) }
{
    let len = out.len();
    match spell_id(out, id) {
        Ok(()) => Ok(()),
        Err(fault) => {
            out.truncate(len);
            Err(fault)
        }
    }
}

/// Appends a side, 0 for left and 1 for right, or nothing where memory is refused.
pub fn put_side(out: &mut Vec<u8>, side: Side) -> Result<(), AllocError>
    ensures ok { OnOk result (out.new.items ≡ out.old.items ++ spell (side_item side)) }
    ensures err { OnErr result (out.new.items ≡ out.old.items) }
{
    match side {
        Side::Left => put_uint(out, 0),
        Side::Right => put_uint(out, 1),
    }
}

/// Appends a value, or nothing where memory is refused.
pub fn put_value(out: &mut Vec<u8>, value: &Value<'_>) -> Result<(), AllocError>
    ensures ok { OnOk result (out.new.items ≡ out.old.items ++ spell (value_item (value_of value.now))) }
    ensures err { OnErr result (out.new.items ≡ out.old.items) }
{
    match *value {
        Value::Null => put_simple(out, Simple::Null),
        Value::Bool(false) => put_simple(out, Simple::False),
        Value::Bool(true) => put_simple(out, Simple::True),
        Value::Int(n) => put_int(out, i128::from(n)),
        Value::Text(text) => put_text(out, text),
        Value::Bytes(bytes) => put_bytes(out, bytes),
    }
}

/// Appends an id. After a refusal for want of memory some of it may stand.
pub(crate) fn spell_id(out: &mut Vec<u8>, id: OpId) -> Result<(), AllocError>
    ensures ok { OnOk result (out.new.items ≡ out.old.items ++ spell (id_item id)) }
    ensures front { take (length out.old.items) out.new.items ≡ out.old.items }
    ensures plain { Plain (id_item id) 1 }
{
    put_array(out, 3)?;
    put_uint(out, id.time)?;
    put_uint(out, u64::from(id.member))?;
    put_uint(out, u64::from(id.index))
}

/// Appends a number.
pub(crate) fn spell_number(out: &mut Vec<u8>, number: u64) -> Result<(), AllocError>
    ensures ok { OnOk result (out.new.items ≡ out.old.items ++ spell (cbor.unsigned number)) }
    ensures plain { Plain (cbor.unsigned number) 1 }
{
    put_uint(out, number)
}

/// Appends a side.
pub(crate) fn spell_side(out: &mut Vec<u8>, side: Side) -> Result<(), AllocError>
    ensures ok { OnOk result (out.new.items ≡ out.old.items ++ spell (side_item side)) }
    ensures plain { Plain (side_item side) 1 }
{
    put_side(out, side)
}

/// Appends a value.
pub(crate) fn spell_value(out: &mut Vec<u8>, value: Value<'_>) -> Result<(), AllocError>
    ensures ok { OnOk result (out.new.items ≡ out.old.items ++ spell (value_item (value_of value.entry))) }
    ensures plain { Plain (value_item (value_of value.entry)) 1 }
{
    put_value(out, &value)
}

/// Appends a key.
pub(crate) fn spell_key(out: &mut Vec<u8>, key: &str) -> Result<(), AllocError>
    ensures ok { OnOk result (out.new.items ≡ out.old.items ++ spell (cbor.text key.now)) }
    ensures plain { Plain (cbor.text key.now) 1 }
{
    put_text(out, key)
}

/// Appends characters.
pub(crate) fn spell_characters(out: &mut Vec<u8>, text: &str) -> Result<(), AllocError>
    ensures ok { OnOk result (out.new.items ≡ out.old.items ++ spell (cbor.text (utf8 (chars text.now)))) }
    ensures plain { Plain (cbor.text (utf8 (chars text.now))) 1 }
{
    put_text(out, text)
}
