//! What the header of a file says.

ghost use Rattle.std.specs.Prelude.{◌≡◌, ◌++◌, ◌<◌, ◌≤◌, IfOk, OnOk, length, slice_get};
ghost use Rattle.cbor_det.specs.Item.{spell};
ghost use Rattle.model.specs.Base.{members};
ghost use Rattle.model.specs.File.{header_item};
ghost use Rattle.model.specs.Value.{numbers_item};

use crate::members::Members;
use cbor_det::{put_array, put_bytes, put_text, put_uint};
use std::alloc::{AllocError, Global};

/// The kind of a file that its members edit.
pub const MEMBER_FILE: u8 = 0;

/// The kind of a file that carries changes alone.
pub const BUNDLE: u8 = 1;

/// The kind of a file that begins new files.
pub const SNAPSHOT: u8 = 2;

/// A document: its id, and how many members it has, 1 to 32.
#[derive(Clone, Copy, Debug, PartialEq, Eq)]
pub struct DocRef {
    pub id: [u8; 16],
    pub n: u8,
}

/// What stands first in a file of version 1.
#[derive(Debug, Drop)]
pub struct FileHead {
    /// `MEMBER_FILE`, `BUNDLE` or `SNAPSHOT`.
    pub kind: u8,
    pub doc: DocRef,
    /// The members that the file holds, which rise.
    pub mine: Members,
    /// How many changes are kept.
    pub kept: u32,
    /// How many changes wait.
    pub waiting: u32,
}

impl FileHead {
    ghost use Rattle.replica.specs.Heads.{header_by};

    /// Appends the item of the header.
    #[tactic(auto, using(crate::proofs::WriteLaws::header_written))]
    pub(crate) fn put(&self, out: &mut Vec<u8>) -> Result<(), AllocError>
        requires { self.now.kind ≤ 2 }
        ensures { OnOk result (out.new.items ≡ out.old.items ++ spell (header_item (header_by self.now))) }
    {
        put_array(out, 8)?;
        put_text(out, "outline")?;
        put_uint(out, 1)?;
        put_uint(out, u64::from(self.kind))?;
        put_bytes(out, &self.doc.id)?;
        put_uint(out, u64::from(self.doc.n))?;
        put_members(out, &self.mine)?;
        put_uint(out, u64::from(self.kept))?;
        put_uint(out, u64::from(self.waiting))
    }
}

/// Appends the list of these members.
#[tactic(auto, using(crate::proofs::WriteLaws::numbers_more, crate::proofs::WriteLaws::numbers_written))]
fn put_members(out: &mut Vec<u8>, mine: &Members) -> Result<(), AllocError>
    ensures { OnOk result (out.new.items ≡ out.old.items ++ spell (numbers_item mine.now)) }
{
    put_array(out, mine.len() as u64)?;
    for i in 0..mine.len() {
        put_uint(out, u64::from(*mine.at(i)))?;
    }
    Ok(())
}

/// All members of a document of n, in order.
#[tactic(auto, using(crate::proofs::PartLaws::members_more))]
pub(crate) fn all_members(alloc: Global, n: u8) -> Result<Members, AllocError>
    ensures { IfOk result (λ mine. mine ≡ members n) }
{
    let mut mine = Members::new(alloc);
    for member in 0..n {
        mine.push(member)?;
    }
    Ok(mine)
}
