//! Fields of operations, read.

ghost use Rattle.std.specs.Prelude.{◌≡◌, ◌↔◌, ◌≤◌, ℕ, List, [], ◌∷◌, ◌++◌, length, None, IfSome, IsSomeAnd, IsTrue, IsUtf8};
ghost use Rattle.cbor_det.specs.Head.{IsBytes, head};
ghost use Rattle.op_ids.specs.declared.OpId.{OpId as Id};
ghost use Rattle.op_ids.specs.declared.Side.{Side as ASide};
ghost use Rattle.cbor_det.specs.Item.{Item, spell, unsigned};
ghost use Rattle.cbor_det.specs.Unread.{unread, Took};
ghost use Rattle.model.specs.Value.{row, id_item, IsOpId, value_item, IsValue, integer};
ghost use Rattle.model.specs.Value as model;
ghost use Rattle.model.specs.Operation.{side_item, IsAnchor, IsKey, IsTyped, utf8};
ghost use Rattle.std.specs.Str.{chars};
ghost use Rattle.cbor_det.specs.Rows.{ReadsField, ReadsFields, ReadsRow};
ghost use Rattle.op_grammar.specs.Values.{value_of, IsSaid};
ghost use Rattle.op_grammar.specs.Operations.{anchor_of, anchor_items, two_ids, AreTwoIds, id_anchor_of, id_and_anchor, AreIdAndAnchor, IsChild, id_and_count, AreRun, key_value_of, key_and_value, AreKeyAndValue};

use crate::operation::char_count;
use crate::value::Value;
use cbor_det::{Cursor, Simple};
use op_ids::{MAX_TIME, OpId, ROOT, Side, TRASH};

/// The greatest index of an id.
const MAX_INDEX: u64 = 65_535;

/// How many bytes a key has at most.
const MAX_KEY_LEN: usize = 256;

/// How many bytes a text or a byte string has at most, as a value.
const MAX_VALUE_LEN: usize = 65_536;

/// How many characters are typed or erased at most.
const MAX_RUN: u64 = 4_096;

/// A number, where one stands.
#[inline(always)]
pub(crate) fn read_number(cursor: &mut Cursor<'_>) -> Option<u64>
    ensures item { ReadsField (λ n. n) unsigned (λ n. Unit {0}) (unread cursor.old) (unread cursor.new) result }
    ensures took { IfSome result (λ n.
        Took (spell (unsigned n)) (unread cursor.old) (unread cursor.new)) }
    ensures len { (unread cursor.new).len ≡ (unread cursor.old).len }
    ensures kept { result ≡ None → unread cursor.new ≡ unread cursor.old }
{
    match cursor.uint() {
        Ok(number) => Some(number),
        Err(_) => None,
    }
}

/// How many items the row has that stands there.
#[inline(always)]
pub(crate) fn read_row(cursor: &mut Cursor<'_>) -> Option<u64>
    ensures item { ReadsRow (unread cursor.old) (unread cursor.new) result }
    ensures took { IfSome result (λ n. Took (head 4 n) (unread cursor.old) (unread cursor.new)) }
    ensures len { (unread cursor.new).len ≡ (unread cursor.old).len }
{
    match cursor.array() {
        Ok(count) => Some(count),
        Err(_) => None,
    }
}

/// Two numbers that stand first in a row.
#[inline(always)]
fn read_two_numbers(cursor: &mut Cursor<'_>) -> Option<(u64, u64)>
    ensures item { ReadsFields 2 (λ p. p) (λ p. unsigned p.0 ∷ unsigned p.1 ∷ []) (λ p. Unit {0} × Unit {0}) (unread cursor.old) (unread cursor.new) result }
    ensures took { IfSome result (λ p. Took (spell (unsigned p.0) ++ spell (unsigned p.1))
        (unread cursor.old) (unread cursor.new)) }
    ensures len { (unread cursor.new).len ≡ (unread cursor.old).len }
{
    let first = read_number(cursor)?;
    let second = read_number(cursor)?;
    Some((first, second))
}

/// Three numbers that stand first in a row.
#[inline(always)]
pub(crate) fn read_numbers(cursor: &mut Cursor<'_>) -> Option<(u64, (u64, u64))>
    ensures item { ReadsFields 3 (λ p. p) (λ p. unsigned p.0 ∷ unsigned p.1.0 ∷ unsigned p.1.1 ∷ []) (λ p. Unit {0} × (Unit {0} × Unit {0})) (unread cursor.old) (unread cursor.new) result }
    ensures took { IfSome result (λ p.
        Took (spell (unsigned p.0) ++ (spell (unsigned p.1.0) ++ spell (unsigned p.1.1)))
        (unread cursor.old) (unread cursor.new)) }
    ensures len { (unread cursor.new).len ≡ (unread cursor.old).len }
{
    let time = read_number(cursor)?;
    let rest = read_two_numbers(cursor)?;
    Some((time, rest))
}

/// A row of three numbers, where one stands.
#[inline(always)]
fn read_three(cursor: &mut Cursor<'_>) -> Option<(u64, (u64, u64))>
    ensures item { ReadsField (λ p. p) (λ p. row (unsigned p.0 ∷ unsigned p.1.0 ∷ unsigned p.1.1 ∷ [])) (λ p. Unit {0} × (Unit {0} × Unit {0})) (unread cursor.old) (unread cursor.new) result }
    ensures took { IfSome result (λ p.
        Took (spell (row (unsigned p.0 ∷ unsigned p.1.0 ∷ unsigned p.1.1 ∷ [])))
        (unread cursor.old) (unread cursor.new)) }
    ensures len { (unread cursor.new).len ≡ (unread cursor.old).len }
{
    let count = read_row(cursor)?;
    if count != 3 {
        return None;
    }
    read_numbers(cursor)
}

/// An id of a document of so many members, where one stands. Else the cursor stays.
#[inline(always)]
pub fn read_id(cursor: &mut Cursor<'_>, n: u8) -> Option<OpId>
    ensures item { ReadsField (λ id. id) id_item (IsOpId n) (unread cursor.old) (unread cursor.new) result }
    // An id that is read is spelled so, and one that is spelled here is read; likewise below.
    ensures found { IfSome result (λ id. IsOpId n id
        × Took (spell (id_item id)) (unread cursor.old) (unread cursor.new)) }
    ensures only { (id : Id) (more : List ℕ) → IsOpId n id
        → (unread cursor.old).rest ≡ spell (id_item id) ++ more
        → IsSomeAnd result (λ i. i ≡ id) × ((unread cursor.new).rest ≡ more) }
    ensures len { (unread cursor.new).len ≡ (unread cursor.old).len }
    ensures kept { result ≡ None → unread cursor.new ≡ unread cursor.old }
{
    let mut ahead = *cursor;
    let (time, (member, index)) = read_three(&mut ahead)?;
    if time > MAX_TIME || member >= u64::from(n) || index > MAX_INDEX {
        return None;
    }
    let id = OpId {
        time,
        member: member as u8,
        index: index as u32,
    };
    if time == 0 && id != ROOT && id != TRASH {
        return None;
    }
    *cursor = ahead;
    Some(id)
}

/// A side, where one stands. Else the cursor stays.
#[inline(always)]
pub fn read_side(cursor: &mut Cursor<'_>) -> Option<Side>
    ensures item { ReadsField (λ s. s) side_item (λ s. Unit {0}) (unread cursor.old) (unread cursor.new) result }
    ensures found { IfSome result (λ s.
        Took (spell (side_item s)) (unread cursor.old) (unread cursor.new)) }
    ensures only { (side : ASide) (more : List ℕ)
        → (unread cursor.old).rest ≡ spell (side_item side) ++ more
        → IsSomeAnd result (λ s. s ≡ side) × ((unread cursor.new).rest ≡ more) }
    ensures len { (unread cursor.new).len ≡ (unread cursor.old).len }
    ensures kept { result ≡ None → unread cursor.new ≡ unread cursor.old }
{
    let mut ahead = *cursor;
    let number = read_number(&mut ahead)?;
    let side = match number {
        0 => Side::Left,
        1 => Side::Right,
        _ => return None,
    };
    *cursor = ahead;
    Some(side)
}

/// An id and a side that stand first in a row.
#[inline(always)]
fn read_id_and_side(cursor: &mut Cursor<'_>, n: u8) -> Option<(OpId, Side)>
    ensures { ReadsFields 2 (λ p. p) (λ p. id_item p.0 ∷ side_item p.1 ∷ []) (λ p. IsOpId n p.0 × Unit {0}) (unread cursor.old) (unread cursor.new) result }
{
    let id = read_id(cursor, n)?;
    let side = read_side(cursor)?;
    Some((id, side))
}

/// Where something hangs, by the id and the side that stand first in a row.
#[inline(always)]
pub(crate) fn read_anchor(cursor: &mut Cursor<'_>, n: u8) -> Option<(OpId, Side)>
    ensures { ReadsFields 2 anchor_of anchor_items (IsAnchor n) (unread cursor.old) (unread cursor.new) result }
{
    let (on, side) = read_id_and_side(cursor, n)?;
    if on == ROOT && side == Side::Left {
        return None;
    }
    Some((on, side))
}

/// Two ids that stand first in a row.
#[inline(always)]
pub(crate) fn read_ids(cursor: &mut Cursor<'_>, n: u8) -> Option<(OpId, OpId)>
    ensures { ReadsFields 2 (λ p. p) two_ids (AreTwoIds n) (unread cursor.old) (unread cursor.new) result }
{
    let node = read_id(cursor, n)?;
    let other = read_id(cursor, n)?;
    Some((node, other))
}

/// An id, and where something hangs, that stand first in a row.
#[inline(always)]
pub(crate) fn read_id_and_anchor(cursor: &mut Cursor<'_>, n: u8) -> Option<(OpId, (OpId, Side))>
    ensures { ReadsFields 3 id_anchor_of id_and_anchor (AreIdAndAnchor n) (unread cursor.old) (unread cursor.new) result }
{
    let node = read_id(cursor, n)?;
    let anchor = read_anchor(cursor, n)?;
    Some((node, anchor))
}

/// A child that can be moved, where one stands.
#[inline(always)]
pub(crate) fn read_child(cursor: &mut Cursor<'_>, n: u8) -> Option<OpId>
    ensures item { ReadsField (λ id. id) id_item (IsChild n) (unread cursor.old) (unread cursor.new) result }
    ensures found { IfSome result (λ id. IsChild n id
        × Took (spell (id_item id)) (unread cursor.old) (unread cursor.new)) }
{
    let id = read_id(cursor, n)?;
    if id == ROOT || id == TRASH {
        return None;
    }
    Some(id)
}

/// An id and a number that stand first in a row.
#[inline(always)]
fn read_id_and_number(cursor: &mut Cursor<'_>, n: u8) -> Option<(OpId, u64)>
    ensures { ReadsFields 2 (λ p. p) (λ p. id_item p.0 ∷ unsigned p.1 ∷ []) (λ p. IsOpId n p.0 × Unit {0}) (unread cursor.old) (unread cursor.new) result }
{
    let id = read_id(cursor, n)?;
    let number = read_number(cursor)?;
    Some((id, number))
}

/// A row of ids of one change, by the first and how many they are.
#[inline(always)]
pub(crate) fn read_run(cursor: &mut Cursor<'_>, n: u8) -> Option<(OpId, u32)>
    ensures { ReadsFields 2 (λ p. p) id_and_count (AreRun n) (unread cursor.old) (unread cursor.new) result }
{
    let (first, count) = read_id_and_number(cursor, n)?;
    if count == 0 || count > MAX_RUN || u64::from(first.index) + count > MAX_INDEX + 1 {
        return None;
    }
    Some((first, count as u32))
}

/// A key, where one stands.
#[inline(always)]
pub(crate) fn read_key<'a>(cursor: &mut Cursor<'a>) -> Option<&'a str>
    ensures item { ReadsField (λ t. t.now) Item.text IsKey (unread cursor.old) (unread cursor.new) result }
    ensures found { IfSome result (λ t. IsKey t.now
        × Took (spell (Item.text t.now)) (unread cursor.old) (unread cursor.new)) }
{
    match cursor.text() {
        Ok(key) if !key.is_empty() && key.len() <= MAX_KEY_LEN => Some(key),
        _ => None,
    }
}

/// A value, where one stands. Else the cursor stays.
#[inline(always)]
pub fn read_value<'a>(cursor: &mut Cursor<'a>) -> Option<Value<'a>>
    ensures item { ReadsField value_of value_item IsValue (unread cursor.old) (unread cursor.new) result }
    ensures found { IfSome result (λ v. IsValue (value_of v)
        × Took (spell (value_item (value_of v))) (unread cursor.old) (unread cursor.new)) }
    ensures only { (value : model.Value) (more : List ℕ) → IsValue value
        → (unread cursor.old).rest ≡ spell (value_item value) ++ more
        → IsSomeAnd result (λ v. value_of v ≡ value) × ((unread cursor.new).rest ≡ more) }
    ensures len { (unread cursor.new).len ≡ (unread cursor.old).len }
    ensures kept { result ≡ None → unread cursor.new ≡ unread cursor.old }
{
    let mut ahead = *cursor;
    let value = read_said(&mut ahead)?;
    if !is_value(value) {
        return None;
    }
    *cursor = ahead;
    Some(value)
}

/// Whether a text or bytes are short enough for a value.
#[inline(always)]
fn is_value(value: Value<'_>) -> bool
    ensures { IsTrue result ↔ IsValue (value_of value.entry) }
{
    match value {
        Value::Null | Value::Bool(_) | Value::Int(_) => true,
        Value::Text(text) => is_short_text(text),
        Value::Bytes(bytes) => is_short(bytes),
    }
}

/// Whether a text is short enough for a value.
#[inline(always)]
fn is_short_text(text: &str) -> bool
    ensures { IsTrue result ↔ (IsUtf8 text.now × (length text.now ≤ 65536)) }
{
    text.len() <= MAX_VALUE_LEN
}

/// Whether bytes are few enough for a value.
#[inline(always)]
fn is_short(bytes: &[u8]) -> bool
    ensures { IsTrue result ↔ (IsBytes bytes.now × (length bytes.now ≤ 65536)) }
{
    bytes.len() <= MAX_VALUE_LEN
}

/// What an item says as a value, whatever its length.
#[inline(always)]
fn read_said<'a>(cursor: &mut Cursor<'a>) -> Option<Value<'a>>
    ensures item { ReadsField value_of value_item IsSaid (unread cursor.old) (unread cursor.new) result }
    ensures took { IfSome result (λ v.
        Took (spell (value_item (value_of v))) (unread cursor.old) (unread cursor.new)) }
    ensures len { (unread cursor.new).len ≡ (unread cursor.old).len }
{
    match cursor.simple() {
        Ok(simple) => return Some(of_simple(simple)),
        Err(_) => {}
    }
    match cursor.int() {
        Ok(number) => return of_number(number),
        Err(_) => {}
    }
    match cursor.text() {
        Ok(text) => return Some(Value::Text(text)),
        Err(_) => {}
    }
    match cursor.bytes() {
        Ok(bytes) => Some(of_bytes(bytes)),
        Err(_) => None,
    }
}

/// The value of false, true or null.
#[inline(always)]
fn of_simple<'a>(simple: Simple) -> Value<'a>
    ensures { value_item (value_of result) ≡ Item.simple simple }
{
    match simple {
        Simple::False => Value::Bool(false),
        Simple::True => Value::Bool(true),
        Simple::Null => Value::Null,
    }
}

/// The value of bytes.
#[inline(always)]
fn of_bytes<'a>(bytes: &'a [u8]) -> Value<'a>
    ensures value { value_of result ≡ model.bytes bytes.now }
    ensures fits { IsBytes bytes.now }
{
    Value::Bytes(bytes)
}

/// The value of a number, if it has 64 bits with its sign.
#[inline(always)]
fn of_number<'a>(number: i128) -> Option<Value<'a>>
    ensures some { IfSome result (λ v. value_of v ≡ integer number) }
    ensures none { result ≡ None → IsValue (integer number) → ⊥ }
{
    match i64::try_from(number) {
        Ok(number) => Some(Value::Int(number)),
        Err(_) => None,
    }
}

/// A key and a value that stand first in a row.
#[inline(always)]
pub(crate) fn read_key_and_value<'a>(cursor: &mut Cursor<'a>) -> Option<(&'a str, Value<'a>)>
    ensures { ReadsFields 2 key_value_of key_and_value AreKeyAndValue (unread cursor.old) (unread cursor.new) result }
{
    let key = read_key(cursor)?;
    let value = read_value(cursor)?;
    Some((key, value))
}

/// Characters to type, where they stand.
#[inline(always)]
pub(crate) fn read_typed<'a>(cursor: &mut Cursor<'a>) -> Option<&'a str>
    ensures item { ReadsField (λ t. chars t.now) (λ cs. Item.text (utf8 cs)) IsTyped (unread cursor.old) (unread cursor.new) result }
    ensures found { IfSome result (λ t. IsTyped (chars t.now)
        × Took (spell (Item.text (utf8 (chars t.now)))) (unread cursor.old) (unread cursor.new)) }
{
    let text = match cursor.text() {
        Ok(text) => text,
        Err(_) => return None,
    };
    if !is_typed(text) {
        return None;
    }
    Some(text)
}

/// Whether a text has some characters, and not too many.
#[inline(always)]
fn is_typed(text: &str) -> bool
    ensures { IsTrue result ↔ IsTyped (chars text.now) }
{
    let count = char_count(text);
    count >= 1 && count <= MAX_RUN as usize
}
