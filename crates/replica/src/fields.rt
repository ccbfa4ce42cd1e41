//! The fields of a header, read.

ghost use Rattle.std.specs.Prelude.{◌≡◌, ◌<◌, ◌≤◌, length};
ghost use Rattle.cbor_det.specs.Head.{head, IsBytes};
ghost use Rattle.cbor_det.specs.Unread.{unread};
ghost use Rattle.replica.specs.Fields.{Decodes, IsWithin, spelled_bytes, IsDocument, spelled_numbers, AreMine};
ghost use Rattle.replica.specs.declared.fields.HeaderFault.TheVariants.{NotHeader as NoHeader, NoMemory as OutOfMemory};

use crate::members::Members;
use cbor_det::{CborFault, Cursor};
use std::alloc::{AllocError, Global};

/// Why an item gave no header.
#[derive(Clone, Copy)]
pub(crate) enum HeaderFault {
    /// It is that of no header.
    NotHeader,
    /// Memory ran out.
    NoMemory,
}

impl From<AllocError> for HeaderFault {
    ghost from_gives = { λ _ e. e ≡ OutOfMemory };

    fn from(_e: AllocError) -> HeaderFault {
        HeaderFault::NoMemory
    }
}

impl From<CborFault> for HeaderFault {
    ghost from_gives = { λ _ e. e ≡ NoHeader };

    fn from(_e: CborFault) -> HeaderFault {
        HeaderFault::NotHeader
    }
}

/// A number from the least on and below the limit.
pub(crate) fn read_within(
    cursor: &mut Cursor<'_>,
    least: u64,
    limit: u64,
) -> Result<u64, HeaderFault>
    ensures { Decodes (head 0) (IsWithin least limit) (unread cursor.old) (unread cursor.new) result }
{
    let number = cursor.uint()?;
    if number < least || number >= limit {
        return Err(HeaderFault::NotHeader);
    }
    Ok(number)
}

/// The id of a document.
pub(crate) fn read_document(cursor: &mut Cursor<'_>) -> Result<[u8; 16], HeaderFault>
    ensures { Decodes spelled_bytes IsDocument (unread cursor.old) (unread cursor.new) result }
{
    let bytes = cursor.bytes()?;
    if bytes.len() != 16 {
        return Err(HeaderFault::NotHeader);
    }
    Ok(id_of(bytes))
}

/// The id that the bytes are.
fn id_of(bytes: &[u8]) -> [u8; 16]
    requires { length bytes.now ≡ 16 }
    ensures id { result ≡ bytes.now }
    ensures fits { IsBytes bytes.now }
{
    let mut id = [0u8; 16];
    id.copy_from_slice(bytes);
    id
}

/// Members of a document of n, which have to rise.
pub(crate) fn read_mine(
    alloc: Global,
    cursor: &mut Cursor<'_>,
    n: u64,
) -> Result<Members, HeaderFault>
    requires { n ≤ 32 }
    ensures { Decodes spelled_numbers (AreMine n) (unread cursor.old) (unread cursor.new) result }
{
    let count = cursor.array()?;
    let mut mine = Members::new(alloc);
    let mut least = 0;
    'mine: for read in 0..count {
        let member = read_within(cursor, least, n)?;
        mine.push(member as u8)?;
        least = member + 1;
    }
    Ok(mine)
}
