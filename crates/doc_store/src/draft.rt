// A document that operations come to.
ghost use Rattle.std.specs.Prelude.{◌≡◌, ◌+◌, ◌*◌, [], length, IfOk};
ghost use Rattle.std.specs.List.{AllByRecursion};
ghost use Rattle.model.specs.Held.{wrong_references};
ghost use Rattle.model_laws.specs.Arrival.{Rises};
ghost use Rattle.tree_log.specs.Moves as moves;
ghost use Rattle.tree_log.specs.Moves.{later_count, Worked};
ghost use Rattle.doc_store.specs.Documents.{DecodesAll, DecodesSome, HasNoRow, IsFormed, Joins, parts_of};
ghost use Rattle.doc_store.specs.Kept.{document_of, state_of};
ghost use Rattle.doc_store.specs.References.{IsFirstWrong, TakesRight};

use crate::doc::Doc;
use crate::kept_rows::{KeptRows, move_by};
use crate::made::Made;
use crate::references::{BadRef, TakeFault};
use op_grammar::OpSource;
use outside::Tally;
use std::alloc::{AllocError, Global};
use std::marker::Model;
use tree_log::OpenLog;

/// A document that operations come to, whatever the order in which they come. It tells what is there, and not yet where the nodes
/// are: their moves are done when it is settled, all at once.
///
/// Contracts say what is true of it for every state and operations of which it will be the document (`document_of`).
#[derive(Drop)]
pub struct Draft<'a> {
    alloc: Global,
    pub(crate) rows: KeptRows<'a>,
    pub(crate) log: OpenLog,
}

impl<'a> Model for Draft<'a> {
    ghost use Rattle.tree_log.specs.Open.{whole};
    ghost use Rattle.doc_store.specs.Kept.{Drafted, HavePositions, drafted_code};

    ghost Value = { Drafted };

    ghost coded = { drafted_code };

    ghost view = { λ d. record { contents = d.rows; moves = d.log } };

    ghost invariant = { λ d. HavePositions d.rows.positions (whole d.log).moves };
}

impl<'a> Draft<'a> {
    /// The document, to which operations may come. Takes no memory.
    pub fn of(doc: Doc<'a>) -> Draft<'a>
        ensures { result ≡ record { contents = doc.entry.contents; moves = record { log = doc.entry.log; late = [] } } }
    {
        let Doc { alloc, rows, log } = doc;
        Draft {
            alloc,
            rows,
            log: OpenLog::of(alloc, log),
        }
    }

    /// The first wrong reference of these operations, each in the document with those before it.
    ///
    /// A reference is wrong where no such row is there, or its id isn't smaller than the operation's. Each operation has the
    /// form and the bounds of one. Counts each operation that it reads.
    pub fn refs_known<'b, S: OpSource<'b> + Drop>(
        &self,
        ops: S,
        tally: &mut Tally,
    ) -> Result<Option<BadRef>, AllocError>
        requires { AllByRecursion IsFormed (S.left ops) }
        ensures first { IfOk result (IsFirstWrong (state_of (document_of self.now)) (S.left ops)) }
        ensures tally { DecodesSome tally.old tally.new (length (S.left ops)) }
    {
        let mut ops = ops;
        let mut made = Made::new(self.alloc);
        let mut last = None;
        let mut place = 0u32;
        while let Some((id, op)) = ops.next_op(tally) {
            // No operation asks for what the very last one makes.
            made.add_last(last)?;
            if let Some(wrong) = self.wrong_id(&made, id, op) {
                return Ok(Some(BadRef {
                    op: place,
                    id: wrong,
                }));
            }
            last = Some((id, op));
            place = place.saturating_add(1);
        }
        Ok(None)
    }

    /// The document with these operations, each in its place by its id. No move is done. After a refusal it is gone.
    ///
    /// Each operation has the form and the bounds of one, and none refers wrongly in the document with those before it. The
    /// ids of their parts rise, and no row of the document has one of them. Counts each operation.
    pub fn apply<S: OpSource<'a> + Drop>(
        self,
        ops: S,
        tally: &mut Tally,
    ) -> Result<Draft<'a>, AllocError>
        requires formed { AllByRecursion IsFormed (S.left ops) }
        requires refer { wrong_references (state_of (document_of self)) 0 (S.left ops) ≡ [] }
        requires rise { Rises (parts_of (S.left ops)) }
        requires fresh { AllByRecursion (λ a. HasNoRow (state_of (document_of self)) a.id) (parts_of (S.left ops)) }
        ensures joins { IfOk result (λ d. Joins (document_of self.entry) (S.left ops) (document_of d)) }
        ensures decoded { DecodesAll tally.old tally.new (S.left ops) result }
        ensures undone { IfOk result (λ d. d.moves.log ≡ self.entry.moves.log) }
        ensures moves { tally.new.moves ≡ tally.old.moves }
    {
        let Draft {
            alloc,
            mut rows,
            mut log,
        } = self;
        let moves = rows.do_all(ops, tally)?;
        log.take(&moves)?;
        Ok(Draft { alloc, rows, log })
    }

    /// The document with these operations, each in its place by its id, or the first that refers wrongly in the document with those
    /// before it. No move is done. After a refusal the document is gone.
    ///
    /// Each operation has the form and the bounds of one. The ids of their parts rise, and no row of the document has one of
    /// them. Counts each operation that it reads.
    pub fn take<S: OpSource<'a> + Drop>(
        self,
        ops: S,
        tally: &mut Tally,
    ) -> Result<Draft<'a>, TakeFault>
        requires formed { AllByRecursion IsFormed (S.left ops) }
        requires rise { Rises (parts_of (S.left ops)) }
        requires fresh { AllByRecursion (λ a. HasNoRow (state_of (document_of self)) a.id) (parts_of (S.left ops)) }
        ensures takes { TakesRight (document_of self.entry) (S.left ops) result }
        ensures undone { IfOk result (λ d. d.moves.log ≡ self.entry.moves.log) }
        ensures tally { DecodesSome tally.old tally.new (length (S.left ops)) }
    {
        let mut draft = self;
        let mut ops = ops;
        let none = Made::new(draft.alloc);
        let mut place = 0u32;
        while let Some((id, op)) = ops.next_op(tally) {
            if let Some(wrong) = draft.wrong_id(&none, id, op) {
                return Err(TakeFault::Wrong(BadRef {
                    op: place,
                    id: wrong,
                }));
            }
            draft.rows.do_op(id, op)?;
            if let Some(step) = move_by(id, op) {
                draft.log.take(&[step])?;
            }
            place = place.saturating_add(1);
        }
        Ok(draft)
    }

    /// The document, its moves done in the order of their ids. Counts at most twice the moves that were done before and come after
    /// one of the others, and these.
    pub fn settle(self, tally: &mut Tally) -> Result<Doc<'a>, AllocError>
        ensures document { IfOk result (λ d. d ≡ document_of self.entry) }
        ensures rising { moves.Rises self.entry.moves.late }
        ensures tally { Worked tally.old tally.new
            (2 * later_count self.entry.moves.log.moves self.entry.moves.late + length self.entry.moves.late) }
    {
        let Draft { alloc, rows, log } = self;
        let log = log.settle(tally)?;
        Ok(Doc { alloc, rows, log })
    }
}
