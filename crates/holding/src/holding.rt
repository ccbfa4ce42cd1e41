//! The document, the members and the times of changes.

ghost use Rattle.std.specs.Prelude.{◌≡◌, ◌<◌, ◌≤◌, ℕ, [], List, IfOk, length, map, replicate, slice_index, slice_index_or, sum_by};
ghost use Rattle.std.specs.Option.{option_map};
ghost use Rattle.model.specs.Base.{Base, base_of, members as members_of};
ghost use Rattle.model.specs.Change.{Change, IsChange};
ghost use Rattle.model.specs.Cost.{move_count};
ghost use Rattle.model.specs.Held.{held_behind, unfit};
ghost use Rattle.model.specs.Ledger.{add};
ghost use Rattle.model.specs.State.{atoms, by_ids};
ghost use Rattle.tree_log.specs.Moves.{Worked};
ghost use Rattle.doc_store.specs.Documents.{DecodesAll, DecodesSome, IsDocument};
ghost use Rattle.replica.specs.FaultText.{misfit_of};
ghost use Rattle.holding.specs.Holds.{Holds, MayJoin};
ghost use Rattle.holding.specs.Takes.{IsNext, Takes, fault_by, with_change};
ghost use Rattle.holding.specs.declared.holding.JoinFault.TheVariants.{NoMemory as OutOfMemory};
ghost use Rattle.holding.specs.Misfits.{IsFirst, forgotten_causes, late_causes, late_times, missing_causes, of_head};
ghost use Rattle.holding.specs.Times.{time_at};

use crate::times::Times;
use doc_store::{Doc, Draft, TakeFault};
use lazy_blocks::Block;
use op_grammar::Head;
use outside::Tally;
use replica::Misfit;
use stability::{Fronts, MemberRow};
use std::alloc::{AllocError, Global};
use version_vector::Vector;

/// Why a change was not taken in.
#[derive(Clone, Copy, Debug, PartialEq, Eq)]
pub enum JoinFault {
    /// It may not join: the first reason.
    Unfit(Misfit),
    /// Memory ran out.
    NoMemory,
}

impl From<AllocError> for JoinFault {
    ghost from_gives = { λ _ e. e ≡ OutOfMemory };

    fn from(_e: AllocError) -> JoinFault {
        JoinFault::NoMemory
    }
}

impl From<TakeFault> for JoinFault {
    ghost from_gives = { λ fault e. e ≡ fault_by fault };

    fn from(fault: TakeFault) -> JoinFault {
        match fault {
            TakeFault::Wrong(wrong) => JoinFault::Unfit(Misfit::A4 {
                op: wrong.op,
                id: wrong.id,
            }),
            TakeFault::NoMemory => JoinFault::NoMemory,
        }
    }
}

/// What is held of a document of 1 to 32 members.
///
/// Contracts say what is true of it for every base and kept changes that it may be said to hold (`Holds`).
#[derive(Drop)]
pub struct Holding<'a> {
    document: Draft<'a>,
    fronts: Fronts,
    /// When the kept changes were made.
    times: Times,
}

impl<'a> Holding<'a> {
    /// What is held of a document without changes.
    pub fn new(alloc: Global, members: u8) -> Result<Holding<'a>, AllocError>
        requires some { 0 < members }
        requires few { members ≤ 32 }
        ensures { IfOk result (λ h. Holds h members (base_of members [] 0) []) }
    {
        let rows = silent_rows(alloc, members)?;
        Ok(Holding {
            document: Draft::of(Doc::new(alloc)),
            fronts: Fronts::from_rows(alloc, &rows)?,
            times: Times::none(alloc, members)?,
        })
    }

    /// How many changes of each member are held.
    pub fn counts(&self) -> Vector
        ensures { (n : ℕ) (b : Base) (kept : List Change) → Holds self.now n b kept
            → result ≡ map (λ m. ((held_behind b kept).row m).count) (members_of n) }
    {
        self.fronts.vector()
    }

    /// Why a change, the next of its member, may not join: the first reason, in the order of the rules, or none. Counts each
    /// operation that it reads.
    pub fn misfit(&self, block: &Block<'_>, tally: &mut Tally) -> Result<Option<Misfit>, AllocError>
        requires { (n : ℕ) × (b : Base) × (kept : List Change) × Holds self.now n b kept × IsChange n block.now }
        ensures first { (n : ℕ) (b : Base) (kept : List Change) → Holds self.now n b kept → IsChange n block.now
            → IfOk result (λ m. option_map misfit_of m ≡ unfit n (held_behind b kept) block.now) }
        ensures tally { DecodesSome tally.old tally.new (length block.now.operations) }
    {
        if let Some(misfit) = self.head_misfit(block) {
            return Ok(Some(misfit));
        }
        match self.document.refs_known(block.ops(), tally)? {
            Some(wrong) => Ok(Some(Misfit::A4 {
                op: wrong.op,
                id: wrong.id,
            })),
            None => Ok(None),
        }
    }

    /// What is held with a change that may join, in its place. No move is done. After a refusal it is gone. Counts each
    /// operation.
    pub fn join(self, block: &Block<'a>, tally: &mut Tally) -> Result<Holding<'a>, AllocError>
        requires { (n : ℕ) × (b : Base) × (kept : List Change) × Holds self n b kept × MayJoin n b kept block.now }
        ensures joins { (n : ℕ) (b : Base) (kept : List Change) → Holds self.entry n b kept → MayJoin n b kept block.now
            → IfOk result (λ h. Holds h n b (add kept block.now)) }
        ensures decoded { DecodesAll tally.old tally.new (by_ids block.now.time block.now.member 0 block.now.operations) result }
        ensures moves { tally.new.moves ≡ tally.old.moves }
    {
        let Holding {
            document,
            fronts,
            times,
        } = self;
        let document = document.apply(block.ops(), tally)?;
        Holding::with_change(document, fronts, times, block.head())
    }

    /// What is held with a change, the next of its member, in its place, or the first reason why it may not join, after which it is
    /// gone. No move is done. Counts each operation that it reads.
    pub fn take(self, block: &Block<'a>, tally: &mut Tally) -> Result<Holding<'a>, JoinFault>
        requires { (n : ℕ) × (b : Base) × (kept : List Change) × Holds self n b kept × IsNext n b kept block.now }
        ensures takes { (n : ℕ) (b : Base) (kept : List Change) → Holds self.entry n b kept → IsNext n b kept block.now
            → Takes n b kept block.now result }
        ensures tally { DecodesSome tally.old tally.new (length block.now.operations) }
    {
        if let Some(misfit) = self.head_misfit(block) {
            return Err(JoinFault::Unfit(misfit));
        }
        let Holding {
            document,
            fronts,
            times,
        } = self;
        let document = document.take(block.ops(), tally)?;
        Ok(Holding::with_change(document, fronts, times, block.head())?)
    }

    /// The document, its moves done in the order of their ids. Counts at most these.
    pub fn settle(self, tally: &mut Tally) -> Result<Doc<'a>, AllocError>
        ensures document { (n : ℕ) (b : Base) (kept : List Change) → Holds self.entry n b kept
            → IfOk result (λ d. IsDocument d b.state (atoms kept)) }
        ensures tally { (n : ℕ) (b : Base) (kept : List Change) → Holds self.entry n b kept
            → Worked tally.old tally.new (sum_by move_count kept) }
    {
        self.document.settle(tally)
    }

    /// What is held of a document to which the change with this head has come.
    fn with_change(
        document: Draft<'a>,
        mut fronts: Fronts,
        mut times: Times,
        head: &Head,
    ) -> Result<Holding<'a>, AllocError>
        requires row { head.now.member < length fronts }
        requires causes { length head.now.causes ≡ length fronts }
        requires list { head.now.member < length times }
        ensures { IfOk result (λ h. h ≡ with_change document.entry fronts times head.now) }
    {
        fronts.take(head);
        times.push(head.member, head.time)?;
        Ok(Holding {
            document,
            fronts,
            times,
        })
    }

    /// Why a change may not join as far as its head tells: A0 to A3.
    fn head_misfit(&self, block: &Block<'_>) -> Option<Misfit>
        requires { (n : ℕ) × (b : Base) × (kept : List Change) × Holds self.now n b kept × IsChange n block.now }
        ensures { IsFirst of_head self.now block.now result }
    {
        self.missing_cause(block)
            .or(self.late_time(block))
            .or(self.forgotten_cause(block))
            .or(self.late_cause(block))
    }

    /// The first member of whose changes the change knows more than are held.
    fn missing_cause(&self, block: &Block<'_>) -> Option<Misfit>
        requires { (n : ℕ) × (b : Base) × (kept : List Change) × Holds self.now n b kept × IsChange n block.now }
        ensures { IsFirst missing_causes self.now block.now result }
    {
        let head = block.head();
        for of in 0..self.fronts.len() {
            let (cause, held) = (head.causes.get(of), self.fronts.count(of));
            if held < cause {
                return Some(Misfit::A0 { of, cause, held });
            }
        }
        None
    }

    /// The time of the change and that of its member's last one, which isn't earlier.
    fn late_time(&self, block: &Block<'_>) -> Option<Misfit>
        requires { (n : ℕ) × (b : Base) × (kept : List Change) × Holds self.now n b kept × IsChange n block.now }
        ensures { IsFirst late_times self.now block.now result }
    {
        let head = block.head();
        let (time, last) = (head.time, self.fronts.last(head.member));
        if last < time {
            None
        } else {
            Some(Misfit::A1 { time, last })
        }
    }

    /// The first member of whose changes the change knows fewer than its maker knew before.
    fn forgotten_cause(&self, block: &Block<'_>) -> Option<Misfit>
        requires { (n : ℕ) × (b : Base) × (kept : List Change) × Holds self.now n b kept × IsChange n block.now }
        ensures { IsFirst forgotten_causes self.now block.now result }
    {
        let head = block.head();
        let before = self.fronts.known(head.member);
        for of in 0..before.len() {
            let (cause, known) = (head.causes.get(of), before.get(of));
            if cause < known {
                return Some(Misfit::A2 { of, cause, known });
            }
        }
        None
    }

    /// The first member whose change is a cause of the change and isn't earlier.
    fn late_cause(&self, block: &Block<'_>) -> Option<Misfit>
        requires { (n : ℕ) × (b : Base) × (kept : List Change) × Holds self.now n b kept × IsChange n block.now }
        ensures { IsFirst late_causes self.now block.now result }
    {
        let head = block.head();
        let time = head.time;
        for of in 0..head.causes.len() {
            let cause = head.causes.get(of);
            let cause_time = self.time_of(of, cause);
            if cause > 0 && cause_time >= time {
                return Some(Misfit::A3 {
                    of,
                    cause_time,
                    time,
                });
            }
        }
        None
    }

    /// When a change was made, or 0 where it isn't kept.
    fn time_of(&self, member: u8, number: u32) -> u64
        requires row { member < length self.now.fronts }
        requires times { member < length self.now.times }
        ensures { result ≡ time_at (slice_index_or self.now.times member [])
            (slice_index (map (λ r. r.count) self.now.fronts) member) number }
    {
        match self.fronts.count(member).checked_sub(number) {
            Some(before) => self.times.back(member, before),
            None => 0,
        }
    }
}

/// The rows of so many members, none of whom made a change.
fn silent_rows(alloc: Global, members: u8) -> Result<Vec<MemberRow>, AllocError>
    requires some { 0 < members }
    requires few { members ≤ 32 }
    ensures { IfOk result (λ rows. rows.items ≡ replicate members (record { count = 0; last = 0; known = replicate members 0 })) }
{
    let mut rows = Vec::with_capacity(alloc, usize::from(members))?;
    for _ in 0..members {
        rows.push(MemberRow {
            count: 0,
            last: 0,
            known: Vector::zero(alloc, members),
        })?;
    }
    Ok(rows)
}
