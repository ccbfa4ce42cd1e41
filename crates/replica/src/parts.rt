//! The parts of a file.

ghost use Rattle.std.specs.Prelude.{◌≡◌, ◌≢◌, ◌≤◌, length, IfOk};
ghost use Rattle.model.specs.Command.{new_file, stored_bundle};
ghost use Rattle.model.specs.File.{bundle, IsFile};
ghost use Rattle.replica.specs.Heads.{head_of};
ghost use Rattle.replica.specs.Counts.{counts_behind, time_of_last};
ghost use Rattle.replica.specs.Scanning.{HasEmptyBase};

use crate::changes::last_head;
use crate::head::{BUNDLE, DocRef, FileHead, MEMBER_FILE, all_members};
use crate::members::Members;
use lazy_blocks::Shelf;
use std::alloc::{AllocError, Global};
use std::marker::Model;
use version_vector::Vector;

/// A file of version 1 whose base, where its kind has one, is that of no changes. Its changes borrow the bytes that they
/// were read from. Contracts see it as the file, which keeps the rules of files.
#[derive(Debug, Drop)]
pub struct FileParts<'a> {
    head: FileHead,
    kept: Shelf<'a>,
    waiting: Shelf<'a>,
}

impl<'a> Model for FileParts<'a> {
    ghost use Rattle.std.specs.Coded.{codes};
    ghost use Rattle.std.specs.FinMap.{code};
    ghost use Rattle.model.specs.File.{File};

    ghost Value = { File };

    ghost coded = { Prim.hlevel (codes, code) };

    ghost use Rattle.replica.specs.Parts.{file_by, ArePartsOfFile};

    ghost view = { file_by };

    ghost invariant = { ArePartsOfFile };
}

impl<'a> FileParts<'a> {
    ghost use Rattle.replica.specs.Parts.{file_with};

    /// These parts.
    pub(crate) fn of(head: FileHead, kept: Shelf<'a>, waiting: Shelf<'a>) -> FileParts<'a>
        requires kind { head.kind ≤ 2 }
        requires kept { head.kept ≡ length kept }
        requires waiting { head.waiting ≡ length waiting }
        requires is { IsFile (file_with head kept waiting) }
        ensures { result ≡ file_with head kept.entry waiting.entry }
    {
        FileParts {
            head,
            kept,
            waiting,
        }
    }

    /// The first file of a document, which holds all of its members and has no changes.
    pub(crate) fn founded(alloc: Global, doc: DocRef) -> Result<FileParts<'a>, AllocError>
        requires some { 1 ≤ doc.n }
        requires few { doc.n ≤ 32 }
        ensures { IfOk result (λ parts. parts ≡ new_file doc.id doc.n) }
    {
        let head = FileHead {
            kind: MEMBER_FILE,
            doc,
            mine: all_members(alloc, doc.n)?,
            kept: 0,
            waiting: 0,
        };
        Ok(FileParts::of(head, Shelf::new(alloc), Shelf::new(alloc)))
    }

    /// What the header says.
    pub fn head(&self) -> &FileHead
        ensures head { result.now ≡ head_of self.now }
        ensures is_file { IsFile self.now }
        ensures base { HasEmptyBase self.now }
    {
        &self.head
    }

    /// The kept changes, in the order of time and member.
    pub fn kept(&self) -> &Shelf<'a>
        ensures { result.now ≡ self.now.kept }
    {
        &self.kept
    }

    /// The waiting changes, in the order of member and number.
    pub fn waiting(&self) -> &Shelf<'a>
        ensures { result.now ≡ self.now.waiting }
    {
        &self.waiting
    }

    /// How many changes of each member there are in the file, which is no bundle. The allocator is for the counts, which
    /// take no memory.
    pub fn counts(&self, alloc: Global) -> Vector
        requires { self.now.kind ≢ bundle }
        ensures { result ≡ counts_behind self.now.members self.now.kept }
    {
        let mut counts = Vector::zero(alloc, self.head.doc.n);
        'kept: for i in 0..self.kept.len() {
            let head = self.kept.at(i).head();
            counts.raise(head.member, head.number);
        }
        counts
    }

    /// The greatest time of a kept change, or 0 where none is kept.
    pub fn last_time(&self) -> u64
        ensures { result ≡ time_of_last self.now.kept }
    {
        match last_head(&self.kept) {
            Some(head) => head.time,
            None => 0,
        }
    }

    /// The file with these changes in place of its own.
    pub fn with_changes(self, kept: Shelf<'a>, waiting: Shelf<'a>) -> FileParts<'a>
        requires { IsFile (record self { kept = kept; waiting = waiting }) }
        ensures { result ≡ record self.entry { kept = kept.entry; waiting = waiting.entry } }
    {
        let mut head = self.head;
        head.kept = kept.len() as u32;
        head.waiting = waiting.len() as u32;
        FileParts::of(head, kept, waiting)
    }

    /// A bundle of the kept changes that the vector doesn't count. Looks at heads alone.
    pub fn bundle_since(&self, alloc: Global, vector: &Vector) -> Result<FileParts<'a>, AllocError>
        requires { length vector.now ≡ self.now.members }
        ensures { IfOk result (λ parts. parts ≡ stored_bundle self.now vector.now) }
    {
        let mut kept = Shelf::new(alloc);
        'kept: for i in 0..self.kept.len() {
            let block = self.kept.at(i);
            if block.head().number > vector.get(block.head().member) {
                kept.push(block.copy())?;
            }
        }
        let head = FileHead {
            kind: BUNDLE,
            doc: self.head.doc,
            mine: Members::new(alloc),
            kept: kept.len() as u32,
            waiting: 0,
        };
        Ok(FileParts::of(head, kept, Shelf::new(alloc)))
    }
}
