//! What no clause says: that each call succeeds where memory is ample, and a receiving that was worked out by hand.
ghost use Rattle.std.specs.Prelude.{◌≡◌, List, length, IfOk, IfSome};
ghost use Rattle.model.specs.Change.{Change};
ghost use Rattle.causal_inbox.specs.Offers.{Compares};

use crate::{Inbox, Offered};
use cbor_det::Cursor;
use lazy_blocks::{Block, Shelf};
use std::alloc::{AllocError, Global};
use std::test::Fail;
use version_vector::Vector;

/// The first change of the first of two members, A. It has no operations, as all here.
const FIRST_OF_A: &[u8] = b"\x87\x00\x01\x01\x82\x00\x00\x00\x00\x40";

/// One of the same name with another time.
const OTHER_FIRST_OF_A: &[u8] = b"\x87\x00\x01\x02\x82\x00\x00\x00\x00\x40";

/// It knows the first change of A.
const SECOND_OF_A: &[u8] = b"\x87\x00\x02\x04\x82\x01\x00\x00\x00\x40";

/// It knows the second changes of both members.
const THIRD_OF_A: &[u8] = b"\x87\x00\x03\x06\x82\x02\x02\x00\x00\x40";

/// It knows a fourth change of A.
const FIFTH_OF_A: &[u8] = b"\x87\x00\x05\x08\x82\x04\x02\x00\x00\x40";

/// The first change of the second member, B.
const FIRST_OF_B: &[u8] = b"\x87\x01\x01\x02\x82\x00\x00\x00\x00\x40";

/// One of the same name with another time.
const OTHER_FIRST_OF_B: &[u8] = b"\x87\x01\x01\x03\x82\x00\x00\x00\x00\x40";

/// It knows the first changes of both members, and has the time of the second of A.
const SECOND_OF_B: &[u8] = b"\x87\x01\x02\x04\x82\x01\x01\x00\x00\x40";

/// What changes are that are offered one after the other, where the first of A is held and the third of A waits.
const OFFERS: [(&[u8], Offered); 9] = [
    (FIRST_OF_A, Offered::Known),
    (OTHER_FIRST_OF_A, Offered::Forked),
    (THIRD_OF_A, Offered::Same),
    (FIFTH_OF_A, Offered::Joined),
    (SECOND_OF_B, Offered::Joined),
    (SECOND_OF_A, Offered::Joined),
    (FIRST_OF_B, Offered::Joined),
    (FIRST_OF_B, Offered::Same),
    (OTHER_FIRST_OF_B, Offered::Forked),
];

/// The members and numbers of the changes that become ready one after the other. The first of B is earlier than the
/// second of A; the second changes have one time; and the third of A waits for both.
const READY: [(u8, u32); 4] = [(1, 1), (0, 2), (1, 2), (0, 3)];

/// The change that the bytes spell, of a document with as many members as there are counts.
fn change<'a>(alloc: Global, bytes: &'a [u8], held: &Vector) -> Option<Block<'a>>
    ensures { IfSome result (λ block. length block.causes ≡ length held.now) }
{
    match Cursor::new(bytes).skip_item() {
        Ok(span) => Block::check(alloc, span, held.len()).ok(),
        Err(_) => None,
    }
}

/// An inbox of two waiting changes, the first by name in front, and how many of them are known.
fn inbox_of<'a>(
    alloc: Global,
    first: Block<'a>,
    second: Block<'a>,
    held: &Vector,
) -> Result<Option<(Inbox<'a>, u32)>, AllocError>
    requires first { length first.causes ≡ length held.now }
    requires second { length second.causes ≡ length held.now }
    ensures members { IfOk result (λ found. IfSome found (λ r. r.0.members ≡ length held.now)) }
    ensures compares { IfOk result (λ found. IfSome found (λ r. (kept : List Change) → Compares r.0 kept)) }
{
    let mut waiting = Shelf::new(alloc);
    if first.head().member != second.head().member || first.head().number >= second.head().number {
        return Ok(None);
    }
    waiting.push(first)?;
    waiting.push(second)?;
    Ok(Some(Inbox::new(alloc, waiting, held)?))
}

/// What the change is that the bytes spell, if they spell one.
fn offer<'a>(
    alloc: Global,
    inbox: &mut Inbox<'a>,
    bytes: &'a [u8],
    held: &Vector,
    kept: &Shelf<'a>,
) -> Result<Option<Offered>, AllocError>
    requires held { length held.now ≡ inbox.old.members }
    requires kept { Compares inbox.old kept.now }
    ensures members { inbox.new.members ≡ inbox.old.members }
    ensures compares { Compares inbox.new kept.now }
{
    match change(alloc, bytes, held) {
        Some(block) => Ok(Some(inbox.offer(block, held, kept)?)),
        None => Ok(None),
    }
}

/// Takes the next ready change out and counts it as held, and says its member and number.
fn next_name(inbox: &mut Inbox<'_>, held: &mut Vector) -> Option<(u8, u32)>
    requires { length held.old ≡ inbox.old.members }
    ensures { length held.new ≡ inbox.new.members }
{
    let block = inbox.next_ready(held)?;
    let (member, number) = (block.head().member, block.head().number);
    if member < held.len() {
        held.raise(member, number);
    }
    Some((member, number))
}

/// Whether each of the changes that are offered is what the table says.
fn are_told<'a>(
    alloc: Global,
    inbox: &mut Inbox<'a>,
    offers: &[(&'a [u8], Offered)],
    held: &Vector,
    kept: &Shelf<'a>,
) -> Result<bool, AllocError>
    requires held { length held.now ≡ inbox.old.members }
    requires kept { Compares inbox.old kept.now }
    ensures { inbox.new.members ≡ inbox.old.members }
{
    for (bytes, offered) in offers {
        if offer(alloc, inbox, bytes, held, kept)? != Some(*offered) {
            return Ok(false);
        }
    }
    Ok(true)
}

/// Whether the changes of these names become ready in this order, and no others.
fn become_ready(inbox: &mut Inbox<'_>, held: &mut Vector, names: &[(u8, u32)]) -> bool
    requires { length held.old ≡ inbox.old.members }
{
    for name in names {
        if next_name(inbox, held) != Some(*name) {
            return false;
        }
    }
    next_name(inbox, held).is_none()
}

/// Whether the one change that is left is that of these bytes, and for none there is no room.
fn is_left(inbox: Inbox<'_>, bytes: &[u8]) -> Result<bool, AllocError> {
    let (rest, full) = inbox.rest()?;
    Ok(full.len() == 0 && rest.len() == 1 && rest.at(0).bytes() == bytes)
}

/// Whether the inbox makes of the offered changes what is worked out here.
fn receives<'a>(
    alloc: Global,
    inbox: Inbox<'a>,
    held: &Vector,
    kept: &Shelf<'a>,
) -> Result<bool, AllocError>
    requires held { length held.now ≡ inbox.members }
    requires kept { Compares inbox kept.now }
{
    let mut inbox = inbox;
    if !are_told(alloc, &mut inbox, &OFFERS, held, kept)? {
        return Ok(false);
    }
    let mut counts = held.copy();
    if !become_ready(&mut inbox, &mut counts, &READY) {
        return Ok(false);
    }
    is_left(inbox, FIFTH_OF_A)
}

/// Whether it does so where the first change of A is held and still waits in the file, beside the third.
fn begins_and_receives(alloc: Global, held: &Vector) -> Result<bool, AllocError> {
    let Some(first) = change(alloc, FIRST_OF_A, held) else {
        return Ok(false);
    };
    let Some(third) = change(alloc, THIRD_OF_A, held) else {
        return Ok(false);
    };
    let mut kept = Shelf::new(alloc);
    kept.push(first.copy())?;
    match inbox_of(alloc, first, third, held)? {
        Some((inbox, 1)) => receives(alloc, inbox, held, &kept),
        _ => Ok(false),
    }
}

#[test]
fn changes_become_ready(rt: HostRuntime) -> Result<(), Fail> {
    let mut held = Vector::zero(rt.alloc(), 2);
    held.raise(0, 1);
    assert!(rt; begins_and_receives(rt.alloc(), &held)?);
    Ok(())
}
