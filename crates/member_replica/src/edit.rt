//! Edits.

ghost use Rattle.std.specs.Prelude.{List, ℕ, sum_by};
ghost use Rattle.model.specs.Command.{made_edit};
ghost use Rattle.model.specs.Cost.{move_count};
ghost use Rattle.model.specs.Reading.{held_in};
ghost use Rattle.model.specs.Stands.{IsStored};
ghost use Rattle.keeping_laws.specs.Forms.{IsEdit};
ghost use Rattle.tree_log.specs.Moves.{Worked};
ghost use Rattle.doc_store.specs.Edits.{edit_of};
ghost use Rattle.member_replica.specs.Making.{Makes};

use crate::built::Replica;
use crate::made::{Made, MakeFault, Makings};
use doc_store::Edit;
use outside::Tally;
use std::alloc::Global;

impl<'a> Replica<'a> {
    /// The file with the change that an edit by its least member makes. Of the waiting changes those stay that still wait. Counts
    /// the moves of the kept changes, which are done now.
    pub fn edit(self, alloc: Global, edit: &Edit<'_>, tally: &mut Tally) -> Result<Made, MakeFault>
        requires form { IsEdit (edit_of edit.now) }
        requires stored { (bytes : List ℕ) × IsStored bytes self }
        ensures makes { Makes self.entry
            (made_edit self.entry.members (held_in self.entry) self.entry.mine (edit_of edit.now)) result }
        ensures tally { Worked tally.old tally.new (sum_by move_count self.entry.kept) }
    {
        let Replica { parts, holding } = self;
        let mine = &parts.head().mine;
        if mine.len() == 0 {
            return Err(MakeFault::Nobody);
        }
        let member = *mine.at(0);
        let doc = holding.settle(tally)?;
        let plan = doc.plan(edit)?;
        let mut makings = Makings::of(alloc, &parts);
        makings.make(member, &plan)?;
        Ok(makings.stored(alloc, parts)?)
    }
}
