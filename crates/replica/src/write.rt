//! Files, written.

ghost use Rattle.std.specs.Prelude.{◌≡◌, ◌≤◌, ◌++◌, IfOk, OnOk};
ghost use Rattle.model.specs.Command.{new_file};
ghost use Rattle.model.specs.File.{spell_base, spell_changes, spell_file};
ghost use Rattle.replica.specs.Heads.{base_by};

use crate::base::put_empty_base;
use crate::head::{BUNDLE, DocRef, FileHead};
use crate::parts::FileParts;
use cbor_det::OwnBytes;
use lazy_blocks::Shelf;
use std::alloc::{AllocError, Global};

/// The bytes of the first file of a document, which holds all of its members.
pub fn found(alloc: Global, doc: DocRef) -> Result<OwnBytes, AllocError>
    requires some { 1 ≤ doc.n }
    requires few { doc.n ≤ 32 }
    ensures { IfOk result (λ bytes. bytes ≡ spell_file (new_file doc.id doc.n)) }
{
    let parts = FileParts::founded(alloc, doc)?;
    write_parts(alloc, &parts)
}

/// The bytes of a file.
#[tactic(auto, using(crate::proofs::WriteLaws::file_written))]
pub fn write_parts(alloc: Global, parts: &FileParts<'_>) -> Result<OwnBytes, AllocError>
    ensures { IfOk result (λ bytes. bytes ≡ spell_file parts.now) }
{
    let mut out = Vec::new(alloc);
    let head = parts.head();
    head.put(&mut out)?;
    put_base(&mut out, head)?;
    let spans = spans_len(parts.kept()).saturating_add(spans_len(parts.waiting()));
    out.reserve(spans)?;
    put_changes(&mut out, parts.kept())?;
    put_changes(&mut out, parts.waiting())?;
    Ok(OwnBytes::from_vec(out))
}

/// Appends the base of a file with this header.
fn put_base(out: &mut Vec<u8>, head: &FileHead) -> Result<(), AllocError>
    ensures { OnOk result (out.new.items ≡ out.old.items ++ spell_base (base_by head.now)) }
{
    if head.kind == BUNDLE {
        return Ok(());
    }
    put_empty_base(out, head.doc.n)
}

/// How many bytes the changes have, or the greatest number.
fn spans_len(shelf: &Shelf<'_>) -> usize {
    let mut len = 0usize;
    'spans: for i in 0..shelf.len() {
        len = len.saturating_add(shelf.at(i).bytes().len());
    }
    len
}

/// Appends the bytes of the changes.
fn put_changes(out: &mut Vec<u8>, shelf: &Shelf<'_>) -> Result<(), AllocError>
    ensures { OnOk result (out.new.items ≡ out.old.items ++ spell_changes shelf.now) }
{
    'changes: for i in 0..shelf.len() {
        out.extend_from_slice(shelf.at(i).bytes())?;
    }
    Ok(())
}
