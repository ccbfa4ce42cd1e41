//! What the item of a change says, read.

ghost use Rattle.std.specs.Prelude.{◌≡◌, ◌<◌, ◌^◌, length, IfSome};
ghost use Rattle.cbor_det.specs.Item.{spell, bytes};
ghost use Rattle.cbor_det.specs.Unread.{unread, Took};
ghost use Rattle.cbor_det.specs.Rows.{ReadsField, ReadsFields};
ghost use Rattle.op_grammar.specs.Parts.{SkipsNumbers, FoundNumbers, SkipsRow, FoundRow, ReadsSeven, FoundSeven, ReadsParts, FoundParts, width_body_of, width_and_body, rest_of, count_and_rest};

use crate::fields::{read_number, read_numbers, read_row};
use cbor_det::Cursor;

/// How many fields a change has.
const FIELDS: u64 = 7;

/// What the item of a change says, its numbers as they stand. The causes are to be read at their cursor.
#[derive(Clone, Copy)]
pub(crate) struct Parts<'a> {
    pub member: u64,
    pub number: u64,
    pub time: u64,
    pub causes: Cursor<'a>,
    pub count: u64,
    pub width: u64,
    pub body: &'a [u8],
}

/// The parts of a change, where an item has its shape.
#[inline(always)]
pub(crate) fn read_parts<'a>(cursor: &mut Cursor<'a>) -> Option<Parts<'a>>
    ensures item { ReadsParts (unread cursor.old) result }
    // Parts that are read are those of the item that is spelled here; likewise below.
    ensures found { IfSome result (FoundParts (unread cursor.old) (unread cursor.new)) }
    ensures len { (unread cursor.new).len ≡ (unread cursor.old).len }
{
    let count = read_row(cursor)?;
    if count != FIELDS {
        return None;
    }
    read_seven(cursor)
}

/// The parts of a change, where they are the fields of a row.
#[inline(always)]
fn read_seven<'a>(cursor: &mut Cursor<'a>) -> Option<Parts<'a>>
    ensures item { ReadsSeven (unread cursor.old) result }
    ensures found { IfSome result (FoundSeven (unread cursor.old) (unread cursor.new)) }
    ensures len { (unread cursor.new).len ≡ (unread cursor.old).len }
{
    let (member, (number, time)) = read_numbers(cursor)?;
    let causes = *cursor;
    skip_row(cursor)?;
    let (count, (width, body)) = read_rest(cursor)?;
    Some(Parts {
        member,
        number,
        time,
        causes,
        count,
        width,
        body,
    })
}

/// Goes past a row of numbers, where one stands, and tells how many they are.
#[inline(always)]
fn skip_row(cursor: &mut Cursor<'_>) -> Option<u64>
    ensures item { SkipsRow (unread cursor.old) (unread cursor.new) result }
    ensures found { IfSome result (λ _. FoundRow (unread cursor.old) (unread cursor.new)) }
    ensures len { (unread cursor.new).len ≡ (unread cursor.old).len }
{
    let count = read_row(cursor)?;
    skip_numbers(cursor, count)
}

/// Goes past so many numbers, where they stand.
#[inline(always)]
fn skip_numbers(cursor: &mut Cursor<'_>, count: u64) -> Option<u64>
    ensures item { SkipsNumbers count (unread cursor.old) (unread cursor.new) result }
    ensures found { IfSome result (λ _. FoundNumbers count (unread cursor.old) (unread cursor.new)) }
    ensures len { (unread cursor.new).len ≡ (unread cursor.old).len }
{
    for passed in 0..count {
        read_number(cursor)?;
    }
    Some(count)
}

/// The last three parts: how many operations there are, how many ids they take, and their spellings.
#[inline(always)]
fn read_rest<'a>(cursor: &mut Cursor<'a>) -> Option<(u64, (u64, &'a [u8]))>
    ensures item { ReadsFields 3 rest_of count_and_rest (λ p. Unit {0} × (Unit {0} × Unit {0})) (unread cursor.old) (unread cursor.new) result }
    ensures fits { IfSome result (λ p. (p.0 < 2 ^ 64) × (p.1.0 < 2 ^ 64) × (length p.1.1.now < 2 ^ 64)) }
    ensures len { (unread cursor.new).len ≡ (unread cursor.old).len }
{
    let count = read_number(cursor)?;
    let rest = read_width_and_body(cursor)?;
    Some((count, rest))
}

#[inline(always)]
fn read_width_and_body<'a>(cursor: &mut Cursor<'a>) -> Option<(u64, &'a [u8])>
    ensures item { ReadsFields 2 width_body_of width_and_body (λ p. Unit {0} × Unit {0}) (unread cursor.old) (unread cursor.new) result }
    ensures fits { IfSome result (λ p. (p.0 < 2 ^ 64) × (length p.1.now < 2 ^ 64)) }
    ensures len { (unread cursor.new).len ≡ (unread cursor.old).len }
{
    let width = read_number(cursor)?;
    let body = read_bytes(cursor)?;
    Some((width, body))
}

/// A byte string, where one stands.
#[inline(always)]
fn read_bytes<'a>(cursor: &mut Cursor<'a>) -> Option<&'a [u8]>
    ensures item { ReadsField (λ b. b.now) bytes (λ _. Unit {0}) (unread cursor.old) (unread cursor.new) result }
    ensures took { IfSome result (λ b. Took (spell (bytes b.now)) (unread cursor.old) (unread cursor.new)) }
    ensures len { (unread cursor.new).len ≡ (unread cursor.old).len }
{
    match cursor.bytes() {
        Ok(content) => Some(content),
        Err(_) => None,
    }
}
