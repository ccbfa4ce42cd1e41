//! The header of a file, read from its item.

ghost use Rattle.std.specs.Prelude.{◌≡◌, ◌↔◌, ◌<◌, ◌^◌, length, IsTrue};
ghost use Rattle.cbor_det.specs.Item.{Item, IsSpelled, spell};
ghost use Rattle.cbor_det.specs.Unread.{unread};
ghost use Rattle.replica.specs.Headers.{HeaderAnswer, HoldsByKind, ReadsFields};

use crate::fields::{HeaderFault, read_document, read_mine, read_within};
use crate::head::{DocRef, FileHead, MEMBER_FILE};
use cbor_det::Cursor;
use std::alloc::Global;

/// What each header begins with: the head of an array of 8, the text `outline` and version 1.
const TITLE: &[u8] = b"\x88\x67outline\x01";

/// How many kinds of files there are.
const KINDS: u64 = 3;

/// The most members that a document has.
const MAX_MEMBERS: u64 = 32;

/// The most changes that a file keeps.
const MAX_KEPT: u64 = 4_294_967_295;

/// The most changes that wait in a file.
const MAX_WAITING: u64 = 4_096;

/// The header that the span of an item spells, if it is that of one.
pub(crate) fn read_header(alloc: Global, span: &[u8]) -> Result<FileHead, HeaderFault>
    requires { length span.now < 2 ^ 32 }
    ensures { (x : Item) → IsSpelled x → span.now ≡ spell x → HeaderAnswer x result }
{
    let Some(fields) = span.strip_prefix(TITLE) else {
        return Err(HeaderFault::NotHeader);
    };
    let mut cursor = Cursor::new(fields);
    let head = read_fields(alloc, &mut cursor)?;
    if !keeps_kind(&head) {
        return Err(HeaderFault::NotHeader);
    }
    Ok(head)
}

/// Whether it is a member file, or holds no member and has no waiting change.
fn keeps_kind(head: &FileHead) -> bool
    ensures { IsTrue result ↔ HoldsByKind head.now }
{
    head.kind == MEMBER_FILE || (head.mine.len() == 0 && head.waiting == 0)
}

/// The fields of a header behind its title, each by itself.
fn read_fields(alloc: Global, cursor: &mut Cursor<'_>) -> Result<FileHead, HeaderFault>
    ensures { ReadsFields (unread cursor.old) (unread cursor.new) result }
{
    let kind = read_within(cursor, 0, KINDS)?;
    let id = read_document(cursor)?;
    let n = read_within(cursor, 1, MAX_MEMBERS + 1)?;
    let mine = read_mine(alloc, cursor, n)?;
    let kept = read_within(cursor, 0, MAX_KEPT + 1)?;
    let waiting = read_within(cursor, 0, MAX_WAITING + 1)?;
    Ok(FileHead {
        kind: kind as u8,
        doc: DocRef { id, n: n as u8 },
        mine,
        kept: kept as u32,
        waiting: waiting as u32,
    })
}
