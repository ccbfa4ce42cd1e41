use super::*;
use cbor_det::Cursor;
use op_grammar::{OpRef, OpSource, Rule};
use outside::Tally;
use std::alloc::Global;
use std::test::Fail;

/// A change of the first of two members: a put, and the text `hi` typed at the root.
const CHANGE: &[u8] =
    b"\x87\x00\x01\x01\x82\x00\x00\x02\x03\x57\x84\x02\x83\x00\x00\x00\x61\x61\xf5\x85\x03\x83\x00\x00\x00\x83\x00\x00\x00\x01\x62\x68\x69";

/// A change that breaks G2.
const BROKEN: &[u8] = b"\x87\x02\x01\x01\x82\x00\x00\x00\x00\x40";

/// The block of the first item, if it is that of a change of a document of two members.
fn first_block<'a>(alloc: Global, bytes: &'a [u8]) -> Option<Block<'a>> {
    match Cursor::new(bytes).skip_item() {
        Ok(span) => match Block::check(alloc, span, 2) {
            Ok(block) => Some(block),
            Err(_) => None,
        },
        Err(_) => None,
    }
}

/// Whether the block hands out the put and the text of `CHANGE`, and then nothing.
fn are_in_order(block: &Block<'_>, tally: &mut Tally) -> bool {
    let mut ops = block.ops();
    let put = ops.next_op(tally);
    let typed = match ops.next_op(tally) {
        Some((id, OpRef::TypeText { text, .. })) => id.index == 1 && text == "hi",
        _ => false,
    };
    let is_end = ops.next_op(tally).is_none();
    matches!(&put, Some((_, OpRef::PutKey { key: "a", .. }))) && typed && is_end
}

#[test]
fn operations_come_in_order(rt: HostRuntime) -> Result<(), Fail> {
    let alloc = rt.alloc();
    let mut shelf = Shelf::new(alloc);
    match first_block(alloc, CHANGE) {
        Some(block) => shelf.push(block)?,
        None => assert!(rt; false),
    }
    assert_eq!(rt; shelf.len(), 1);
    if shelf.len() == 1 {
        let block = shelf.at(0);
        assert_eq!(rt; block.bytes(), CHANGE);
        assert_eq!(rt; block.copy().head().width, 3);
        let mut tally = Tally::new();
        assert!(rt; are_in_order(block, &mut tally));
        assert_eq!(rt; tally.decoded(), 2);
    }
    Ok(())
}

#[test]
fn broken_changes_are_no_blocks(rt: HostRuntime) {
    match Cursor::new(BROKEN).skip_item() {
        Ok(span) => match Block::check(rt.alloc(), span, 2) {
            Ok(_) => assert!(rt; false),
            Err(rule) => assert_eq!(rt; rule, Rule::G2),
        },
        Err(_) => assert!(rt; false),
    }
}

#[test]
fn a_change_is_taken(rt: HostRuntime) {
    let alloc = rt.alloc();
    let mut cursor = Cursor::new(CHANGE);
    match Block::take(alloc, &mut cursor, 2) {
        Some(block) => assert_eq!(rt; block.bytes(), CHANGE),
        None => assert!(rt; false),
    }
    assert!(rt; cursor.is_end());
    let mut cursor = Cursor::new(BROKEN);
    assert!(rt; Block::take(alloc, &mut cursor, 2).is_none());
    assert_eq!(rt; cursor.at(), 0);
}
