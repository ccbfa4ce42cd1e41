// Files written by hand.
use std::alloc::{AllocError, Global};

/// The document whose id counts the bytes from 0 to 15, in the word that founds it.
pub(crate) const DOCUMENT: &str = "000102030405060708090a0b0c0d0e0f";

/// Its file of 55 bytes without a change, for two members, both of whom it holds.
pub(crate) const NO_CHANGE: &[u8] =
    b"\x88\x67outline\x01\x00\x50\x00\x01\x02\x03\x04\x05\x06\x07\x08\x09\x0a\x0b\x0c\x0d\x0e\x0f\x02\x82\x00\x01\x00\x00\x88\x00\x82\x83\x00\x00\x82\x00\x00\x83\x00\x00\x82\x00\x00\x80\x80\x80\x80\x80\x80";

/// The one of 74 bytes whose change puts `a` to true, and what is shown of it.
pub(crate) const ONE_KEY: &[u8] =
    b"\x88\x67outline\x01\x00\x50\x00\x01\x02\x03\x04\x05\x06\x07\x08\x09\x0a\x0b\x0c\x0d\x0e\x0f\x02\x82\x00\x01\x01\x00\x88\x00\x82\x83\x00\x00\x82\x00\x00\x83\x00\x00\x82\x00\x00\x80\x80\x80\x80\x80\x80\x87\x00\x01\x01\x82\x00\x00\x01\x01\x49\x84\x02\x83\x00\x00\x00\x61a\xf5";

pub(crate) const ONE_KEY_TEXT: &str = "node 0 root\nkey \"a\" true\n";

/// The same with the change's count spelled in two bytes.
pub(crate) const LONGER_COUNT: &[u8] =
    b"\x88\x67outline\x01\x00\x50\x00\x01\x02\x03\x04\x05\x06\x07\x08\x09\x0a\x0b\x0c\x0d\x0e\x0f\x02\x82\x00\x01\x01\x00\x88\x00\x82\x83\x00\x00\x82\x00\x00\x83\x00\x00\x82\x00\x00\x80\x80\x80\x80\x80\x80\x87\x00\x01\x01\x82\x00\x00\x18\x01\x01\x49\x84\x02\x83\x00\x00\x00\x61a\xf5";

/// The same where member 1 made the change.
pub(crate) const MADE_BY_SECOND: &[u8] =
    b"\x88\x67outline\x01\x00\x50\x00\x01\x02\x03\x04\x05\x06\x07\x08\x09\x0a\x0b\x0c\x0d\x0e\x0f\x02\x82\x00\x01\x01\x00\x88\x00\x82\x83\x00\x00\x82\x00\x00\x83\x00\x00\x82\x00\x00\x80\x80\x80\x80\x80\x80\x87\x01\x01\x01\x82\x00\x00\x01\x01\x49\x84\x02\x83\x00\x00\x00\x61a\xf5";

/// That one after member 0, who knows that change, put the same.
pub(crate) const PUT_BY_BOTH: &[u8] =
    b"\x88\x67outline\x01\x00\x50\x00\x01\x02\x03\x04\x05\x06\x07\x08\x09\x0a\x0b\x0c\x0d\x0e\x0f\x02\x82\x00\x01\x02\x00\x88\x00\x82\x83\x00\x00\x82\x00\x00\x83\x00\x00\x82\x00\x00\x80\x80\x80\x80\x80\x80\x87\x01\x01\x01\x82\x00\x00\x01\x01\x49\x84\x02\x83\x00\x00\x00\x61a\xf5\x87\x00\x01\x02\x82\x00\x01\x01\x01\x49\x84\x02\x83\x00\x00\x00\x61a\xf5";

/// The file without a change after both members acknowledged it.
pub(crate) const ACKNOWLEDGED: &[u8] =
    b"\x88\x67outline\x01\x00\x50\x00\x01\x02\x03\x04\x05\x06\x07\x08\x09\x0a\x0b\x0c\x0d\x0e\x0f\x02\x82\x00\x01\x02\x00\x88\x00\x82\x83\x00\x00\x82\x00\x00\x83\x00\x00\x82\x00\x00\x80\x80\x80\x80\x80\x80\x87\x00\x01\x01\x82\x00\x00\x00\x00\x40\x87\x01\x01\x02\x82\x01\x00\x00\x00\x40";

/// The file of one key after a second change, which puts `a` to null.
pub(crate) const KEY_UNSET: &[u8] =
    b"\x88\x67outline\x01\x00\x50\x00\x01\x02\x03\x04\x05\x06\x07\x08\x09\x0a\x0b\x0c\x0d\x0e\x0f\x02\x82\x00\x01\x02\x00\x88\x00\x82\x83\x00\x00\x82\x00\x00\x83\x00\x00\x82\x00\x00\x80\x80\x80\x80\x80\x80\x87\x00\x01\x01\x82\x00\x00\x01\x01\x49\x84\x02\x83\x00\x00\x00\x61a\xf5\x87\x00\x02\x02\x82\x01\x00\x01\x01\x49\x84\x02\x83\x00\x00\x00\x61a\xf6";

/// The file without a change where no member is held, the one where member 1 is, and that one with its put of `a`.
pub(crate) const NOBODY: &[u8] =
    b"\x88\x67outline\x01\x00\x50\x00\x01\x02\x03\x04\x05\x06\x07\x08\x09\x0a\x0b\x0c\x0d\x0e\x0f\x02\x80\x00\x00\x88\x00\x82\x83\x00\x00\x82\x00\x00\x83\x00\x00\x82\x00\x00\x80\x80\x80\x80\x80\x80";

pub(crate) const SECOND: &[u8] =
    b"\x88\x67outline\x01\x00\x50\x00\x01\x02\x03\x04\x05\x06\x07\x08\x09\x0a\x0b\x0c\x0d\x0e\x0f\x02\x81\x01\x00\x00\x88\x00\x82\x83\x00\x00\x82\x00\x00\x83\x00\x00\x82\x00\x00\x80\x80\x80\x80\x80\x80";

pub(crate) const SECOND_WITH_KEY: &[u8] =
    b"\x88\x67outline\x01\x00\x50\x00\x01\x02\x03\x04\x05\x06\x07\x08\x09\x0a\x0b\x0c\x0d\x0e\x0f\x02\x81\x01\x01\x00\x88\x00\x82\x83\x00\x00\x82\x00\x00\x83\x00\x00\x82\x00\x00\x80\x80\x80\x80\x80\x80\x87\x01\x01\x01\x82\x00\x00\x01\x01\x49\x84\x02\x83\x00\x00\x00\x61a\xf5";

/// The first byte of a head with argument 0, by what follows.
pub(crate) const NUMBER: u8 = 0x00;

pub(crate) const BYTES: u8 = 0x40;

pub(crate) const ARRAY: u8 = 0x80;

/// Appends the shortest head.
pub(crate) fn push_head(out: &mut Vec<u8>, kind: u8, argument: u64) -> Result<(), AllocError> {
    let bytes = argument.to_be_bytes();
    if argument < 24 {
        out.push(kind | bytes[7])?;
    } else if argument < 1 << 8 {
        out.push(kind | 24)?;
        out.push(bytes[7])?;
    } else if argument < 1 << 16 {
        out.push(kind | 25)?;
        out.extend_from_slice(&bytes[6..])?;
    } else if argument < 1 << 32 {
        out.push(kind | 26)?;
        out.extend_from_slice(&bytes[4..])?;
    } else {
        out.push(kind | 27)?;
        out.extend_from_slice(&bytes)?;
    }
    Ok(())
}

/// The header and the empty base of a document with the one member 0, which the file holds.
pub(crate) fn push_front(out: &mut Vec<u8>, kept: u64) -> Result<(), AllocError> {
    out.extend_from_slice(b"\x88\x67outline\x01\x00\x50")?;
    out.extend_from_slice(b"sixteen bytes id\x01\x81\x00")?;
    push_head(out, NUMBER, kept)?;
    out.push(0)?;
    out.extend_from_slice(b"\x88\x00\x81\x83\x00\x00\x81\x00\x80\x80\x80\x80\x80\x80")?;
    Ok(())
}

/// Change `number` of member 0, at this time.
pub(crate) fn push_change(
    out: &mut Vec<u8>,
    number: u64,
    time: u64,
    count: u64,
    body: &[u8],
) -> Result<(), AllocError> {
    out.extend_from_slice(b"\x87\x00")?;
    push_head(out, NUMBER, number)?;
    push_head(out, NUMBER, time)?;
    out.push(0x81)?;
    push_head(out, NUMBER, number.saturating_sub(1))?;
    push_head(out, NUMBER, count)?;
    push_head(out, NUMBER, count)?;
    push_head(out, BYTES, body.len() as u64)?;
    out.extend_from_slice(body)
}

/// A put of so many bytes under the key `k` of the root.
pub(crate) fn push_put(out: &mut Vec<u8>, len: u64) -> Result<(), AllocError> {
    out.extend_from_slice(b"\x84\x02\x83\x00\x00\x00\x61k")?;
    push_head(out, BYTES, len)?;
    for _ in 0..len {
        out.push(7)?;
    }
    Ok(())
}

/// A file with one change of so many puts of `true`, and then one put of so many bytes.
pub(crate) fn one_change(alloc: Global, puts: u64, len: u64) -> Result<Vec<u8>, AllocError> {
    let mut body = Vec::new(alloc);
    for _ in 0..puts {
        body.extend_from_slice(b"\x84\x02\x83\x00\x00\x00\x61a\xf5")?;
    }
    push_put(&mut body, len)?;
    let mut out = Vec::new(alloc);
    push_front(&mut out, 1)?;
    push_change(&mut out, 1, 1, puts.saturating_add(1), &body)?;
    Ok(out)
}

/// A file of one change at this time, which has no operations.
pub(crate) fn at_time(alloc: Global, time: u64) -> Result<Vec<u8>, AllocError> {
    let mut out = Vec::new(alloc);
    push_front(&mut out, 1)?;
    push_change(&mut out, 1, time, 0, b"")?;
    Ok(out)
}

/// A file whose body, of 16 puts, has so many bytes.
pub(crate) fn with_body(alloc: Global, len: usize) -> Result<Vec<u8>, AllocError> {
    let mut body = Vec::new(alloc);
    for _ in 0..15 {
        push_put(&mut body, 65_536)?;
    }
    let rest = len.saturating_sub(body.len()).saturating_sub(11);
    push_put(&mut body, rest as u64)?;
    let mut out = Vec::new(alloc);
    push_front(&mut out, 1)?;
    push_change(&mut out, 1, 1, 16, &body)?;
    Ok(out)
}

/// A file of so many bytes, about the limit: 255 changes with 65,536 bytes each, and a last one with what is missing.
pub(crate) fn of_length(alloc: Global, len: usize) -> Result<Vec<u8>, AllocError> {
    let mut body = Vec::new(alloc);
    push_put(&mut body, 65_536)?;
    let mut out = Vec::new(alloc);
    push_front(&mut out, 256)?;
    for number in 1..256 {
        push_change(&mut out, number, number, 1, &body)?;
    }
    let rest = len.saturating_sub(out.len()).saturating_sub(27);
    let mut last = Vec::new(alloc);
    push_put(&mut last, rest as u64)?;
    push_change(&mut out, 256, 256, 1, &last)?;
    Ok(out)
}
