//! The parts of a file with what they hold.

ghost use Rattle.std.specs.Prelude.{◌≡◌, ◌≢◌, ◌*◌, IfOk, sum_by};
ghost use Rattle.model.specs.Cost.{move_count};
ghost use Rattle.model.specs.File.{bundle};
ghost use Rattle.model.specs.Reading.{base_in, state_in};
ghost use Rattle.model.specs.State.{atoms};
ghost use Rattle.tree_log.specs.Moves.{Worked};
ghost use Rattle.doc_store.specs.Documents.{DecodesSome, IsDocument};
ghost use Rattle.doc_store.specs.Kept.{state_of};
ghost use Rattle.member_replica.specs.Replicas.{Builds};
ghost use Rattle.member_replica.specs.Work.{operations_in};
ghost use Rattle.member_replica.specs.declared.built.BuildFault.TheVariants.{NoMemory as OutOfMemory, Unfit};

use doc_store::Doc;
use holding::{Holding, JoinFault};
use lazy_blocks::Block;
use outside::Tally;
use replica::{FileParts, Misfit};
use std::alloc::{AllocError, Global};
use std::marker::Model;

/// Why a file gave no replica.
#[derive(Clone, Copy, Debug, PartialEq, Eq)]
pub enum BuildFault {
    /// The first kept change that may not stand where it stands, and why.
    Unfit {
        member: u8,
        number: u32,
        misfit: Misfit,
    },
    /// Memory ran out.
    NoMemory,
}

impl From<AllocError> for BuildFault {
    ghost from_gives = { λ _ e. e ≡ OutOfMemory };

    fn from(_e: AllocError) -> BuildFault {
        BuildFault::NoMemory
    }
}

/// A member file or a snapshot whose kept changes fit one another, with what they hold. Contracts see it as the file.
#[derive(Drop)]
pub struct Replica<'a> {
    pub(crate) parts: FileParts<'a>,
    pub(crate) holding: Holding<'a>,
}

impl<'a> Model for Replica<'a> {
    ghost use Rattle.std.specs.Coded.{codes};
    ghost use Rattle.std.specs.FinMap.{code};
    ghost use Rattle.model.specs.File.{File};

    ghost Value = { File };

    ghost coded = { Prim.hlevel (codes, code) };

    ghost use Rattle.member_replica.specs.Inside.{IsReplica};

    ghost view = { λ r. r.parts };

    ghost invariant = { IsReplica };
}

impl<'a> Replica<'a> {
    /// The replica of a file, or its first kept change that isn't ready or doesn't fit the ones before it. Counts the operations
    /// that it reads, each at most twice. No move is done.
    pub fn build(
        alloc: Global,
        parts: FileParts<'a>,
        tally: &mut Tally,
    ) -> Result<Replica<'a>, BuildFault>
        requires { parts.kind ≢ bundle }
        ensures builds { Builds parts.entry result }
        ensures tally { DecodesSome tally.old tally.new (2 * operations_in parts.entry.kept) }
    {
        let mut holding = Holding::new(alloc, parts.head().doc.n)?;
        let kept = parts.kept();
        'kept: for i in 0..kept.len() {
            let block = kept.at(i);
            holding = match holding.take(block, tally) {
                Ok(holding) => holding,
                Err(JoinFault::Unfit(misfit)) => return Err(refused(block, misfit)),
                Err(JoinFault::NoMemory) => return Err(BuildFault::NoMemory),
            };
        }
        Ok(Replica { parts, holding })
    }

    /// The document. Counts the moves of the kept changes, which are done now.
    pub fn into_doc(self, tally: &mut Tally) -> Result<Doc<'a>, AllocError>
        ensures document { IfOk result (λ d. IsDocument d (base_in self.entry).state (atoms self.entry.kept)) }
        ensures state { IfOk result (λ d. state_of d ≡ state_in self.entry) }
        ensures tally { Worked tally.old tally.new (sum_by move_count self.entry.kept) }
    {
        self.holding.settle(tally)
    }
}

/// The fault of a file that keeps a change which may not join.
fn refused(block: &Block<'_>, misfit: Misfit) -> BuildFault
    ensures { result ≡ Unfit block.now.member block.now.number misfit }
{
    let head = block.head();
    BuildFault::Unfit {
        member: head.member,
        number: head.number,
        misfit,
    }
}
