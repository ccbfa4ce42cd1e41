//! The rules of a change.

ghost use Rattle.std.specs.Prelude.{◌≡◌, ◌↔◌, ◌-◌, ◌<◌, ◌≤◌, length, take, IsTrue, IfSome, None, Ok};
ghost use Rattle.cbor_det.specs.Head.{IsBytes};
ghost use Rattle.cbor_det.specs.Item.{Item, IsSpelled, spell};
ghost use Rattle.cbor_det.specs.Unread.{unread};
ghost use Rattle.model.specs.Change.{ChangeParts};
ghost use Rattle.model.specs.Rules.{IsBody};
ghost use Rattle.op_grammar.specs.Changes.{ChangeAnswer, CheckAnswer, TakesChange, StandsNoChange};
ghost use Rattle.op_grammar.specs.Parts.{SaidAnswer, SpellsOperations};

use crate::head::{Head, Said, check_head, head_of, read_said};
use crate::operation::width_of;
use crate::parts::read_parts;
use crate::reading::read_operation;
use crate::rule::Rule;
use cbor_det::{Cursor, check_sequence};
use std::alloc::Global;

/// How many bytes the body of a change has at most.
const MAX_BODY_LEN: usize = 1_048_576;

/// How many ids the operations of a change take at most.
const MAX_WIDTH: u64 = 65_536;

/// The head of a change of a document of n members, or the first rule that the item breaks: the shape of its fields
/// (G1), its member (G2), its number (G3), its time (G4), its causes (G5), its body (G6), its operations (G7). The
/// allocator is for the causes, which take no memory.
pub fn check_change(alloc: Global, span: &[u8], n: u8) -> Result<Head, Rule>
    requires some { 0 < n }
    requires few { n ≤ 32 }
    ensures { (x : Item) → IsSpelled x → span.now ≡ spell x → CheckAnswer n x result }
{
    match read_change(alloc, span, n) {
        Ok((head, _)) => Ok(head),
        Err(rule) => Err(rule),
    }
}

/// The head and the body of a change, by the rules of `check_change`.
pub fn read_change<'a>(alloc: Global, span: &'a [u8], n: u8) -> Result<(Head, &'a [u8]), Rule>
    requires some { 0 < n }
    requires few { n ≤ 32 }
    ensures { (x : Item) → IsSpelled x → span.now ≡ spell x → ChangeAnswer n x result }
{
    let said = read_said(alloc, span, n)?;
    check_body(said, n)
}

/// The head and the body of a change that says this, or the first rule that its body breaks.
fn check_body<'a>(said: Said<'a>, n: u8) -> Result<(Head, &'a [u8]), Rule>
    ensures { (x : Item) → SaidAnswer n x (Ok said.entry) → ChangeAnswer n x result }
{
    if !has_operations(said.body, said.count, said.width, n) {
        if is_body(said.body, said.count) {
            return Err(Rule::G7);
        }
        return Err(Rule::G6);
    }
    let body = said.body;
    Ok((head_of(said), body))
}

/// A change that stood at a cursor: its head, its body and all its bytes.
#[derive(Debug, Drop)]
pub struct TakenChange<'a> {
    pub head: Head,
    pub body: &'a [u8],
    pub span: &'a [u8],
}

/// The change of a document of n members that stands at the cursor and keeps the rules of `check_change`. Else the
/// cursor stays. The bytes are gone over once. The allocator is for the causes, which take no memory.
pub fn take_change<'a>(alloc: Global, cursor: &mut Cursor<'a>, n: u8) -> Option<TakenChange<'a>>
    requires some { 0 < n }
    requires few { n ≤ 32 }
    // A change that is taken is spelled here, and one that is spelled here is taken.
    ensures found { IfSome result (TakesChange n (unread cursor.old) (unread cursor.new)) }
    ensures none { result ≡ None → StandsNoChange n (unread cursor.old) }
    ensures len { (unread cursor.new).len ≡ (unread cursor.old).len }
    ensures kept { result ≡ None → unread cursor.new ≡ unread cursor.old }
{
    let rest = cursor.rest();
    let mut ahead = *cursor;
    let parts = read_parts(&mut ahead)?;
    let Ok(said) = check_head(alloc, parts, n) else {
        return None;
    };
    let Ok((head, body)) = check_body(said, n) else {
        return None;
    };
    let span = taken_from(rest, ahead.rest());
    *cursor = ahead;
    Some(TakenChange { head, body, span })
}

/// The bytes that were taken, where these are left.
fn taken_from<'a>(bytes: &'a [u8], left: &[u8]) -> &'a [u8]
    requires { length left.now ≤ length bytes.now }
    ensures value { result.now ≡ take (length bytes.now - length left.now) bytes.now }
    ensures fits { IsBytes result.now }
{
    &bytes[..bytes.len() - left.len()]
}

/// Whether the body is short enough, and has so many items.
fn is_body(body: &[u8], count: u64) -> bool
    ensures { (p : ChangeParts) → p.body ≡ body.now → p.count ≡ count → (IsTrue result ↔ IsBody p) }
{
    if body.len() > MAX_BODY_LEN {
        return false;
    }
    match check_sequence(body) {
        Ok(items) => items == count,
        Err(_) => false,
    }
}

/// Whether the body is short enough, and spells so many operations that take so many ids, and not too many.
fn has_operations(body: &[u8], count: u64, width: u64, n: u8) -> bool
    ensures { IsTrue result ↔ ((length body.now ≤ 1048576) × (width ≤ 65536) × SpellsOperations n body.now count width) }
{
    body.len() <= MAX_BODY_LEN && width <= MAX_WIDTH && are_operations(body, count, width, n)
}

/// Whether the bytes spell so many operations, which take so many ids.
fn are_operations(body: &[u8], count: u64, width: u64, n: u8) -> bool
    ensures { IsTrue result ↔ SpellsOperations n body.now count width }
{
    let mut cursor = Cursor::new(body);
    let mut left = width;
    for read in 0..count {
        let Some(op) = read_operation(&mut cursor, n) else {
            return false;
        };
        let ids = u64::from(width_of(&op));
        if ids > left {
            return false;
        }
        left -= ids;
    }
    left == 0 && cursor.is_end()
}
