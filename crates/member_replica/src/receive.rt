//! Deliveries.

ghost use Rattle.std.specs.Prelude.{◌≡◌, ◌*◌, List, ℕ, IfOk};
ghost use Rattle.model.specs.File.{member_file};
ghost use Rattle.model.specs.Reading.{settled_in, with_settled};
ghost use Rattle.model.specs.Stands.{IsStored};
ghost use Rattle.doc_store.specs.Documents.{DecodesSome};
ghost use Rattle.member_replica.specs.Reports.{IsReport};
ghost use Rattle.member_replica.specs.Work.{operations_in, readied_in};

use crate::built::Replica;
use crate::report::Report;
use crate::settle::settle;
use outside::Tally;
use replica::FileParts;
use std::alloc::{AllocError, Global};

/// The file after a delivery, and what came of it.
#[derive(Drop)]
pub struct Received<'a> {
    pub parts: FileParts<'a>,
    pub report: Report,
}

impl<'a> Replica<'a> {
    /// Receives the changes of a bundle. Each that is ready and fits what is held by then is accepted, and the changes that wait for
    /// others wait in the file. Counts the operations of the changes that are ready, each at most twice. No move is done.
    pub fn receive(
        self,
        alloc: Global,
        offered: &FileParts<'a>,
        tally: &mut Tally,
    ) -> Result<Received<'a>, AllocError>
        requires kind { self.kind ≡ member_file }
        requires stored { (bytes : List ℕ) × IsStored bytes self }
        requires offered { (bytes : List ℕ) × IsStored bytes offered.now }
        requires members { offered.now.members ≡ self.members }
        ensures parts { IfOk result (λ r. r.parts ≡ with_settled self.entry (settled_in self.entry offered.now.kept)) }
        ensures tally { DecodesSome tally.old tally.new (2 * operations_in (readied_in self.entry offered.now.kept)) }
        ensures report { IfOk result (λ r. IsReport r.report (settled_in self.entry offered.now.kept)) }
    {
        let Replica { parts, holding } = self;
        let settled = settle(
            alloc,
            holding,
            parts.kept(),
            parts.waiting(),
            offered.kept(),
            tally,
        )?;
        Ok(Received {
            parts: parts.with_changes(settled.kept, settled.waiting),
            report: settled.report,
        })
    }
}
