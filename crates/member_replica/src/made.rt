//! What members make.

ghost use Rattle.std.specs.Prelude.{◌≡◌, ◌≢◌, ◌++◌, ◌-◌, ◌^◌, ◌<◌, ◌≤◌, [], List, IfOk, OnOk, Ok, length, min, sum_by};
ghost use Rattle.std.specs.List.{AllByRecursion};
ghost use Rattle.cbor_det.specs.Item.{spell};
ghost use Rattle.model.specs.Change.{Change, IsChange, change_item};
ghost use Rattle.model.specs.File.{bundle, spell_changes};
ghost use Rattle.model.specs.Operation.{width_of as ids_of};
ghost use Rattle.op_grammar.specs.Changes.{change_of, head_of};
ghost use Rattle.op_grammar.specs.Operations.{operations_of};
ghost use Rattle.member_replica.specs.declared.made.MakeFault.TheVariants.{NoMemory as OutOfMemory};
ghost use Rattle.member_replica.specs.Making.{IsMade, fault_by};
ghost use Rattle.member_replica.specs.Makings.{clocked_by, HasMore, IsMaking, MakesHead, MakesOne};

use crate::waiting::still_waiting;
use cbor_det::{Cursor, OwnBytes};
use doc_store::{EditFault, PlanFault};
use lazy_blocks::{Block, Shelf};
use op_grammar::{Head, OpPlan, WriteFault, width_of, write_change};
use op_ids::MAX_TIME;
use replica::{FileParts, write_parts};
use std::alloc::{AllocError, Global};
use version_vector::Vector;

/// A change that a member made.
#[derive(Clone, Copy, Debug, PartialEq, Eq)]
pub struct MadeNote {
    pub member: u8,
    pub number: u32,
    pub time: u64,
}

/// The file with the changes that its members made, and a note of each.
#[derive(Drop)]
pub struct Made {
    pub bytes: OwnBytes,
    pub notes: Vec<MadeNote>,
}

/// Why nothing was made.
#[derive(Clone, Copy, Debug, PartialEq, Eq)]
pub enum MakeFault {
    /// The file holds no member.
    Nobody,
    /// The edit has a fault: the first, and the word of the command line that has it.
    Edit { fault: EditFault, word: u32 },
    /// The time or the number of a change would pass its end. Told are the greatest time of a change that is held, the member,
    /// and how many changes it made.
    ClockFull { time: u64, member: u8, number: u32 },
    /// Memory ran out.
    NoMemory,
}

impl From<AllocError> for MakeFault {
    ghost from_gives = { λ _ e. e ≡ OutOfMemory };

    fn from(_e: AllocError) -> MakeFault {
        MakeFault::NoMemory
    }
}

impl From<PlanFault> for MakeFault {
    ghost from_gives = { λ fault e. e ≡ fault_by fault };

    fn from(fault: PlanFault) -> MakeFault {
        match fault {
            PlanFault::Edit { fault, word } => MakeFault::Edit { fault, word },
            PlanFault::NoMemory => MakeFault::NoMemory,
        }
    }
}

/// Changes that are made of a file, one after the other.
#[derive(Drop)]
pub(crate) struct Makings {
    /// How many changes there are of each member, those made among them.
    pub(crate) counts: Vector,
    /// The greatest time of a change.
    pub(crate) time: u64,
    /// What spells those that were made.
    pub(crate) spelled: Vec<u8>,
    pub(crate) notes: Vec<MadeNote>,
}

impl Makings {
    /// Nothing is made yet of the file.
    pub(crate) fn of(alloc: Global, parts: &FileParts<'_>) -> Makings
        requires { parts.now.kind ≢ bundle }
        ensures { IsMaking parts.now [] result }
    {
        let _ = parts.head();
        Makings {
            counts: parts.counts(alloc),
            time: parts.last_time(),
            spelled: Vec::new(alloc),
            notes: Vec::new(alloc),
        }
    }

    /// Makes the member's next change, of the operations of a plan.
    pub(crate) fn make(&mut self, member: u8, plan: &OpPlan<'_>) -> Result<(), MakeFault>
        requires within { member < length self.old.counts }
        requires change { (c : Change)
            → clocked_by self.old.time self.old.counts member (operations_of plan.now) ≡ Ok c
            → IsChange (length self.old.counts) c }
        ensures { MakesOne (clocked_by self.old.time self.old.counts member (operations_of plan.now))
            self.old self.new result }
    {
        let head = next_head(&self.counts, self.time, member, plan)?;
        self.append(&head, plan)?;
        Ok(())
    }

    /// Appends the change with this head and the operations of a plan.
    fn append(&mut self, head: &Head, plan: &OpPlan<'_>) -> Result<(), AllocError>
        requires within { head.now.member < length self.old.counts }
        requires few { length head.now.causes ≤ 32 }
        requires heads { head.now ≡ head_of (change_of head.now (operations_of plan.now)) }
        requires change { IsChange (length head.now.causes) (change_of head.now (operations_of plan.now)) }
        ensures { OnOk result (HasMore self.old (change_of head.now (operations_of plan.now)) self.new) }
    {
        write_plan(&mut self.spelled, head, plan)?;
        self.notes.push(MadeNote {
            member: head.member,
            number: head.number,
            time: head.time,
        })?;
        self.counts.raise(head.member, head.number);
        self.time = head.time;
        Ok(())
    }

    /// The file with the changes that were made behind its own. Of those that wait it keeps the ones that still wait.
    pub(crate) fn stored(self, alloc: Global, parts: FileParts<'_>) -> Result<Made, AllocError>
        requires { (cs : List Change) × IsMaking parts cs self }
        ensures { (cs : List Change) → IsMaking parts.entry cs self → IfOk result (IsMade parts.entry cs) }
    {
        let Makings {
            counts,
            spelled,
            notes,
            ..
        } = self;
        let waiting = still_waiting(alloc, parts.waiting(), &counts)?;
        let kept = kept_with(alloc, parts.kept(), &spelled, parts.head().doc.n)?;
        let bytes = write_parts(alloc, &parts.with_changes(kept, waiting))?;
        Ok(Made { bytes, notes })
    }
}

/// How many operations a plan has, or the greatest number.
fn count_of(plan: &OpPlan<'_>) -> u32
    ensures { result ≡ min (length plan.now) (2 ^ 32 - 1) }
{
    u32::try_from(plan.len()).unwrap_or(u32::MAX)
}

/// How many ids the operations of a plan take, or the greatest number.
fn width_of_plan(plan: &OpPlan<'_>) -> u32
    ensures { result ≡ min (sum_by ids_of (operations_of plan.now)) (2 ^ 32 - 1) }
{
    let mut width = 0u32;
    'operations: for i in 0..plan.len() {
        width = width.saturating_add(width_of(plan.at(i)));
    }
    width
}

/// What the next change of a member says who counts so many changes, the last made at this time, and which has the operations of
/// a plan.
fn next_head(counts: &Vector, time: u64, member: u8, plan: &OpPlan<'_>) -> Result<Head, MakeFault>
    requires { member < length counts.now }
    ensures told { MakesHead (clocked_by time counts.now member (operations_of plan.now))
        (operations_of plan.now) result }
    ensures count { IfOk result (λ head. head.count ≡ min (length plan.now) (2 ^ 32 - 1)) }
    ensures width { IfOk result (λ head. head.width ≡ min (sum_by ids_of (operations_of plan.now)) (2 ^ 32 - 1)) }
{
    let number = counts.get(member);
    if time >= MAX_TIME || number == u32::MAX {
        return Err(MakeFault::ClockFull {
            time,
            member,
            number,
        });
    }
    Ok(Head {
        member,
        number: number + 1,
        time: time + 1,
        causes: counts.copy(),
        count: count_of(plan),
        width: width_of_plan(plan),
    })
}

/// Appends the change with this head and the operations of a plan.
fn write_plan(out: &mut Vec<u8>, head: &Head, plan: &OpPlan<'_>) -> Result<(), AllocError>
    requires few { length head.now.causes ≤ 32 }
    requires heads { head.now ≡ head_of (change_of head.now (operations_of plan.now)) }
    requires change { IsChange (length head.now.causes) (change_of head.now (operations_of plan.now)) }
    ensures { OnOk result (out.new.items ≡ out.old.items
        ++ spell (change_item (change_of head.now (operations_of plan.now)))) }
{
    match write_change(out, head, plan) {
        Ok(()) => Ok(()),
        Err(WriteFault::NoMemory) => Err(AllocError),
        Err(WriteFault::Rule(_)) => unreachable!(),
    }
}

/// The changes of a shelf, and behind them those that the bytes spell, of a document of n members.
fn kept_with<'a>(
    alloc: Global,
    kept: &Shelf<'a>,
    spelled: &'a [u8],
    n: u8,
) -> Result<Shelf<'a>, AllocError>
    requires some { 0 < n }
    requires few { n ≤ 32 }
    ensures { (cs : List Change) → AllByRecursion (IsChange n) cs → spelled.now ≡ spell_changes cs
        → IfOk result (λ all. all ≡ kept.now ++ cs) }
{
    let mut all = copied(alloc, kept)?;
    let mut cursor = Cursor::new(spelled);
    'spelled: while let Some(block) = Block::take(alloc, &mut cursor, n) {
        all.push(block)?;
    }
    Ok(all)
}

/// The same changes, of the same bytes.
pub(crate) fn copied<'a>(alloc: Global, shelf: &Shelf<'a>) -> Result<Shelf<'a>, AllocError>
    ensures { IfOk result (λ copy. copy ≡ shelf.now) }
{
    let mut copy = Shelf::new(alloc);
    'blocks: for i in 0..shelf.len() {
        copy.push(shelf.at(i).copy())?;
    }
    Ok(copy)
}
