// Moves that are still to be done.
ghost use Rattle.std.specs.Prelude.{◌≡◌, ◌+◌, ◌*◌, ◌||◌, OnOk, IfOk, length, []};
ghost use Rattle.std.specs.List.{AllByRecursion, list_any};
ghost use Rattle.tree_log.specs.declared.moves.TreeMove.{TreeMove};
ghost use Rattle.tree_log.specs.Moves.{inserted, Rises, IsFresh, AllReferBack, has_place, places_now, later_count, Worked};
ghost use Rattle.tree_log.specs.Open.{whole, late_in, is_child, makes};

use crate::log::TreeLog;
use crate::moves::TreeMove;
use op_ids::OpId;
use outside::Tally;
use std::alloc::{AllocError, Global};
use std::collections::BTreeMap;
use std::marker::Model;

#[cfg(test)]
mod tests;

/// A log that takes moves in and does them later, all at once: so however many come late, those after them are undone and done
/// again once. It tells which nodes there are, and not yet where they are.
#[derive(Drop)]
pub struct OpenLog {
    alloc: Global,
    log: TreeLog,
    // the moves that are still to be done
    late: BTreeMap<OpId, TreeMove>,
}

impl Model for OpenLog {
    ghost use Rattle.tree_log.specs.Open.{Open, open_code, open_of, IsOpen};

    ghost Value = { Open };

    ghost coded = { open_code };

    ghost view = { λ o. open_of o.log o.late.entries };

    ghost invariant = { λ o. IsOpen o.log o.late.entries };
}

impl OpenLog {
    /// The log, to which moves may come. Takes no memory.
    pub fn of(alloc: Global, log: TreeLog) -> OpenLog
        ensures { result ≡ record { log = log; late = [] } }
    {
        OpenLog {
            alloc,
            log,
            late: BTreeMap::new(alloc),
        }
    }

    /// Whether the node has a place when all moves are done. Costs a logarithm.
    pub fn has_place(&self, node: OpId) -> bool
        ensures { result ≡ has_place (places_now (whole self.now)) node }
    {
        self.log.parents().parent_of(node).is_some() || self.is_made(node)
    }

    /// Takes in the moves of one change, and does none. Costs a logarithm for each.
    ///
    /// The ids rise, and none is the id of a move of the log. Each move refers back, as for `TreeLog::insert`. After a refusal some
    /// of the moves may be missing.
    pub fn take(&mut self, moves: &[TreeMove]) -> Result<(), AllocError>
        requires rises { Rises moves.now }
        requires fresh { AllByRecursion (λ (x : TreeMove). IsFresh (whole self.old).moves x.id) moves.now }
        requires refer { AllReferBack (has_place (places_now (whole self.old))) moves.now }
        ensures log { self.new.log ≡ self.old.log }
        ensures late { OnOk result (self.new.late ≡ inserted self.old.late moves.now) }
        ensures whole { OnOk result ((whole self.new).moves ≡ inserted (whole self.old).moves moves.now) }
        ensures there { OnOk result ((node : OpId) → has_place (places_now (whole self.new)) node
            ≡ (has_place (places_now (whole self.old)) node || is_child node moves.now)) }
    {
        // A look-up tells the proof that the log's own moves refer to nodes that are there.
        let _ = self.log.parents();
        for step in moves {
            self.late.insert(step.id, *step)?;
        }
        Ok(())
    }

    /// The log with all moves in their places by their ids. Counts at most twice the moves that were done and come after one of
    /// those that weren't, and these.
    pub fn settle(self, tally: &mut Tally) -> Result<TreeLog, AllocError>
        ensures log { IfOk result (λ l. l ≡ whole self) }
        ensures rising { Rises self.late }
        ensures tally { Worked tally.old tally.new
            (2 * later_count self.log.moves self.late + length self.late) }
    {
        let OpenLog {
            alloc,
            mut log,
            late,
        } = self;
        let moves = moves_in(alloc, &late)?;
        log.insert(&moves, tally)?;
        Ok(log)
    }

    // Whether one of the moves that are still to be done makes the node.
    fn is_made(&self, node: OpId) -> bool
        ensures { result ≡ list_any (makes node) self.now.late }
    {
        match self.late.get(&node) {
            Some(step) => step.child == node,
            None => false,
        }
    }
}

// The moves, by their ids.
fn moves_in(alloc: Global, late: &BTreeMap<OpId, TreeMove>) -> Result<Vec<TreeMove>, AllocError>
    ensures { IfOk result (λ v. v.items ≡ late_in late.now.entries) }
{
    let mut moves = Vec::with_capacity(alloc, late.len())?;
    for (_, step) in late {
        moves.push(*step)?;
    }
    Ok(moves)
}
