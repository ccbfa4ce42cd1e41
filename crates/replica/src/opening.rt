//! The items that stand before the changes of a file.

ghost use Rattle.std.specs.Prelude.{◌≡◌, ◌<◌, ◌^◌, length};
ghost use Rattle.cbor_det.specs.Unread.{unread};
ghost use Rattle.replica.specs.Heads.{kind_of};
ghost use Rattle.replica.specs.Scanning.{ScansOpening, ScansHeader, ScansBase, items_before};

use crate::base::is_empty_base;
use crate::fault::{BadFile, ScanFault};
use crate::fields::HeaderFault;
use crate::head::{BUNDLE, FileHead};
use crate::header::read_header;
use cbor_det::Cursor;
use op_grammar::Rule;
use std::alloc::Global;

/// How many items stand before the changes of a file of this kind.
pub(crate) fn opening_len(kind: u8) -> u32
    ensures { result ≡ items_before (kind_of kind) }
{
    if kind == BUNDLE { 1 } else { 2 }
}

/// The header, and behind it the empty base where the kind has a base.
pub(crate) fn scan_opening(alloc: Global, cursor: &mut Cursor<'_>) -> Result<FileHead, ScanFault>
    requires { length (unread cursor.old).rest < 2 ^ 32 }
    ensures { ScansOpening (unread cursor.old) (unread cursor.new) result }
{
    let head = scan_header(alloc, cursor)?;
    if head.kind == BUNDLE {
        return Ok(head);
    }
    scan_base(alloc, cursor, &head)?;
    Ok(head)
}

/// The header, at the start of the bytes.
fn scan_header(alloc: Global, cursor: &mut Cursor<'_>) -> Result<FileHead, ScanFault>
    requires { length (unread cursor.old).rest < 2 ^ 32 }
    ensures { ScansHeader (unread cursor.old) (unread cursor.new) result }
{
    let span = cursor.skip_item()?;
    match read_header(alloc, span) {
        Ok(head) => Ok(head),
        Err(HeaderFault::NotHeader) => Err(ScanFault::Bad(BadFile::Rule {
            item: 0,
            rule: Rule::F1,
        })),
        Err(HeaderFault::NoMemory) => Err(ScanFault::NoMemory),
    }
}

/// The empty base, behind a header.
fn scan_base(alloc: Global, cursor: &mut Cursor<'_>, head: &FileHead) -> Result<(), ScanFault>
    requires { length (unread cursor.old).rest < 2 ^ 32 }
    ensures { ScansBase head.now (unread cursor.old) (unread cursor.new) result }
{
    let span = cursor.skip_item()?;
    if is_empty_base(alloc, span, head.doc.n)? {
        Ok(())
    } else {
        Err(ScanFault::OtherBase)
    }
}
