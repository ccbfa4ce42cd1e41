//! Receiving, on shelves of changes.

ghost use Rattle.std.specs.Prelude.{◌≡◌, ◌≤◌, ◌<◌, ◌^◌, ◌+◌, ◌*◌, ℕ, List, [], true, IfOk, OnOk, length, fold};
ghost use Rattle.std.specs.List.{AllByRecursion};
ghost use Rattle.model.specs.Base.{base_of};
ghost use Rattle.model.specs.Change.{Change, IsChange, name_of};
ghost use Rattle.model.specs.Held.{held_behind, is_ready, fits};
ghost use Rattle.model.specs.Settle.{Settling, all_judged, judged, least_ready, offered_one, rest, settle as settles, without};
ghost use Rattle.causal_inbox.specs.Counted.{counted};
ghost use Rattle.causal_inbox.specs.Offers.{Compares, taken_out};
ghost use Rattle.member_replica.specs.Receiving.{IsJudging, IsSettled, IsSoFar, MaySettle, reading, told};
ghost use Rattle.doc_store.specs.Documents.{DecodesSome};
ghost use Rattle.member_replica.specs.Reports.{refusal_of, report_of};
ghost use Rattle.member_replica.specs.Work.{operations_in, readied, ready_in};
ghost use Rattle.replica.specs.FaultText.{misfit_of};

use crate::ledger::Ledger;
use crate::made::copied;
use crate::report::{Refusal, Report};
use causal_inbox::{FullNames, Inbox, Offered};
use holding::Holding;
use lazy_blocks::{Block, Shelf};
use outside::Tally;
use replica::Misfit;
use std::alloc::{AllocError, Global};
use version_vector::Vector;

/// The kept changes after receiving, those that wait, and what came of it.
#[derive(Drop)]
pub(crate) struct Settled<'a> {
    pub(crate) kept: Shelf<'a>,
    pub(crate) waiting: Shelf<'a>,
    pub(crate) report: Report,
}

/// A ledger with what is held of it, the changes that may join it, and the report so far.
#[derive(Drop)]
struct Judging<'a> {
    holding: Holding<'a>,
    ledger: Ledger<'a>,
    inbox: Inbox<'a>,
    report: Report,
}

/// What a ledger of kept changes, the changes that wait for others, and changes that are offered become.
pub(crate) fn settle<'a>(
    alloc: Global,
    holding: Holding<'a>,
    kept: &Shelf<'a>,
    waiting: &Shelf<'a>,
    offered: &Shelf<'a>,
    tally: &mut Tally,
) -> Result<Settled<'a>, AllocError>
    requires { (n : ℕ) × MaySettle n holding kept.now waiting.now offered.now }
    ensures settled { (n : ℕ) → MaySettle n holding.entry kept.now waiting.now offered.now
        → IfOk result (IsSettled (settles n (held_behind (base_of n [] 0)) kept.now kept.now waiting.now offered.now)) }
    ensures tally { (n : ℕ) → MaySettle n holding.entry kept.now waiting.now offered.now
        → DecodesSome tally.old tally.new (2 * operations_in (readied n (held_behind (base_of n [] 0)) kept.now kept.now waiting.now offered.now)) }
{
    let held = holding.counts();
    let (mut inbox, known) = Inbox::new(alloc, copied(alloc, waiting)?, &held)?;
    let mut report = begun(alloc, known);
    offer_all(&mut inbox, &mut report, &held, kept, offered)?;
    let ledger = Ledger::of(alloc, kept)?;
    let judging = Judging {
        holding,
        ledger,
        inbox,
        report,
    };
    judging.judge_all(tally)?.finish(alloc)
}

/// The report where so many waiting changes are known.
fn begun(alloc: Global, known: u32) -> Report
    ensures { report_of result
        ≡ record { accepted = 0; known = known; same = 0; forked = []; refused = []; full = [] } }
{
    Report {
        accepted: 0,
        known,
        same: 0,
        waiting: 0,
        forked: FullNames::new(alloc),
        refused: Vec::new(alloc),
        full: FullNames::new(alloc),
    }
}

/// Compares each of the changes that are offered with the kept ones and with those that wait. Each that is new joins those that
/// wait, and the others are reported.
fn offer_all<'a>(
    inbox: &mut Inbox<'a>,
    report: &mut Report,
    held: &Vector,
    kept: &Shelf<'a>,
    offered: &Shelf<'a>,
) -> Result<(), AllocError>
    requires held { length held.now ≡ inbox.old.members }
    requires compares { Compares inbox.old kept.now }
    requires offered { AllByRecursion (IsChange inbox.old.members) offered.now }
    requires few { report.old.known + report.old.same + length offered.now < 2 ^ 32 }
    ensures members { inbox.new.members ≡ inbox.old.members }
    ensures offers { OnOk result ((h : List Change) (s : Settling) → IsSoFar h inbox.old.pool (report_of report.old) s
        → IsSoFar h inbox.new.pool (report_of report.new) (fold (offered_one (counted held.now) kept.now) s offered.now)) }
{
    for i in 0..offered.len() {
        let block = offered.at(i);
        let told = inbox.offer(block.copy(), held, kept)?;
        tell(report, block, told)?;
    }
    Ok(())
}

/// Reports what a change is that is offered.
fn tell(report: &mut Report, block: &Block<'_>, offered: Offered) -> Result<(), AllocError>
    requires { report.old.known + report.old.same + 1 < 2 ^ 32 }
    ensures told { OnOk result (report_of report.new ≡ told (report_of report.old) block.now offered) }
    ensures few { OnOk result (report.new.known + report.new.same
        ≤ report.old.known + report.old.same + 1) }
{
    match offered {
        Offered::Known => report.known += 1,
        Offered::Same => report.same += 1,
        Offered::Forked => {
            let head = block.head();
            report.forked.push((head.member, head.number))?;
        }
        Offered::Joined => {}
    }
    Ok(())
}

impl<'a> Judging<'a> {
    /// Judges the changes that are ready one after the other, the least first, as long as there are any.
    fn judge_all(self, tally: &mut Tally) -> Result<Judging<'a>, AllocError>
        requires judging { IsJudging self }
        requires few { self.report.accepted + length self.inbox.pool < 2 ^ 32 }
        ensures judged { let n = self.entry.inbox.members in
            IfOk result (λ j. (turns : ℕ) (s : Settling) → IsSoFar self.entry.ledger self.entry.inbox.pool (report_of self.entry.report) s
            → length s.pool ≤ turns
            → IsSoFar j.ledger j.inbox.pool (report_of j.report) (all_judged turns n (reading n) s)) }
        ensures tally { let n = self.entry.inbox.members in
            (turns : ℕ) (s : Settling) → IsSoFar self.entry.ledger self.entry.inbox.pool (report_of self.entry.report) s
            → length s.pool ≤ turns
            → DecodesSome tally.old tally.new (2 * operations_in (ready_in turns n (reading n) s)) }
    {
        let mut judging = self;
        while let Some(block) = judging.next_ready() {
            judging = judging.judge(block, tally)?;
        }
        Ok(judging)
    }

    /// Takes the least change out that is ready, if there is one.
    fn next_ready(&mut self) -> Option<Block<'a>>
        requires { IsJudging self.old }
        ensures judging { IsJudging self.new }
        ensures least { let n = self.old.inbox.members in
            result ≡ least_ready n (reading n self.old.ledger) self.old.inbox.pool }
        ensures taken { self.new ≡ record self.old { inbox = record self.old.inbox { pool = taken_out self.old.inbox.pool result } } }
    {
        let held = self.holding.counts();
        self.inbox.next_ready(&held)
    }

    /// Accepts a change that is ready where it fits what is held, and otherwise refuses it.
    fn judge(self, block: Block<'a>, tally: &mut Tally) -> Result<Judging<'a>, AllocError>
        requires judging { IsJudging self }
        requires block { IsChange self.inbox.members block }
        requires ready { is_ready self.inbox.members (reading self.inbox.members self.ledger) block ≡ true }
        requires few { self.report.accepted + 1 < 2 ^ 32 }
        ensures judging { IfOk result (λ j. IsJudging j) }
        ensures inbox { IfOk result (λ j. j.inbox ≡ self.entry.inbox) }
        ensures few { IfOk result (λ j. j.report.accepted ≤ self.entry.report.accepted + 1) }
        ensures judged { let n = self.entry.inbox.members in
            IfOk result (λ j. (pool : List Change)
            → judged (record { held = self.entry.ledger; pool = pool; report = report_of self.entry.report }) block.entry (fits n (reading n self.entry.ledger) block.entry)
            ≡ record { held = j.ledger; pool = without block.entry pool; report = report_of j.report }) }
        ensures tally { DecodesSome tally.old tally.new (2 * length block.entry.operations) }
    {
        let Judging {
            holding,
            mut ledger,
            inbox,
            mut report,
        } = self;
        match holding.misfit(&block, tally)? {
            None => {
                let holding = holding.join(&block, tally)?;
                ledger.add(block)?;
                report.accepted += 1;
                Ok(Judging {
                    holding,
                    ledger,
                    inbox,
                    report,
                })
            }
            Some(misfit) => {
                report.refused.push(refusal(&block, misfit))?;
                Ok(Judging {
                    holding,
                    ledger,
                    inbox,
                    report,
                })
            }
        }
    }

    /// The ledger, the changes that go on waiting, and the report.
    fn finish(self, alloc: Global) -> Result<Settled<'a>, AllocError>
        ensures { IfOk result (λ r. (s : Settling) → IsSoFar self.entry.ledger self.entry.inbox.pool (report_of self.entry.report) s
            → IsSettled (rest s) r) }
    {
        let Judging {
            holding: _,
            ledger,
            inbox,
            mut report,
        } = self;
        let (waiting, full) = inbox.rest()?;
        report.waiting = waiting.len() as u32;
        report.full = full;
        Ok(Settled {
            kept: ledger.into_shelf(alloc)?,
            waiting,
            report,
        })
    }
}

/// The refusal of a change.
fn refusal(block: &Block<'_>, misfit: Misfit) -> Refusal
    ensures { refusal_of result ≡ record { name = name_of block.now; misfit = misfit_of misfit } }
{
    let head = block.head();
    Refusal {
        member: head.member,
        number: head.number,
        misfit,
    }
}
