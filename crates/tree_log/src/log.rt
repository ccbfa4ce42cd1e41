// The log.
ghost use Rattle.std.specs.Prelude.{◌≡◌, ◌+◌, ◌*◌, OnOk, OnErr, IfOk, length, filter, nat_le, nat_lt, [], true, false};
ghost use Rattle.std.specs.List.{AllByRecursion};
ghost use Rattle.std.specs.FinSet as set;
ghost use Rattle.model.specs.State.{is_fixed};
ghost use Rattle.model_laws.specs.Tree.{IsTree};
ghost use Rattle.tree_move.specs.Parents.{IsTreeOfAdmitted};
ghost use Rattle.tree_log.specs.declared.moves.TreeMove.{TreeMove};
ghost use Rattle.tree_log.specs.Log.{steps, AreMovesIn};
ghost use Rattle.tree_log.specs.Moves.{inserted, Rises, IsFresh, AllReferBack, has_place, after_moves, places_now, later_count, Worked};

use crate::merge::{first_later, redo, undo_from};
use crate::moves::{Held, TreeMove};
use op_ids::ROOT;
use outside::Tally;
use std::alloc::{AllocError, Global};
use std::marker::Model;
use tree_move::Parents;

#[cfg(test)]
pub(crate) mod tests;

/// Moves by their ids, and the places after them.
///
/// The places are always those after the held moves, done by rising id over the places that the log began from. Moves that
/// were dropped count as part of these.
#[derive(Drop)]
pub struct TreeLog {
    alloc: Global,
    // the places after the held moves
    parents: Parents,
    // by rising id
    held: Vec<Held>,
}

impl Model for TreeLog {
    ghost use Rattle.tree_log.specs.Moves.{Log, log_code};
    ghost use Rattle.tree_log.specs.Log.{log_of, IsKept};

    ghost Value = { Log };

    ghost coded = { log_code };

    ghost view = { λ l. log_of l.parents.places l.held.items };

    ghost invariant = { λ l. IsKept l.parents l.held.items };
}

impl TreeLog {
    /// A log without moves over these places.
    pub fn from_parents(alloc: Global, parents: Parents) -> TreeLog
        ensures base { result.base ≡ parents.places }
        ensures moves { result.moves ≡ [] }
    {
        // A look-up tells the proof that the places are a tree.
        let _ = parents.parent_of(ROOT);
        TreeLog {
            alloc,
            parents,
            held: Vec::new(alloc),
        }
    }

    /// The places after all held moves, done by rising id over the places that the log began from. Each move refers to nodes that
    /// are there.
    pub fn parents(&self) -> &Parents
        ensures places { result.now.places ≡ after_moves self.now.base self.now.moves }
        ensures rising { Rises self.now.moves }
        ensures base { IsTree self.now.base }
        ensures fits { AreMovesIn (has_place self.now.base) self.now.moves }
        ensures tree { IsTreeOfAdmitted result.now }
    {
        &self.parents
    }

    /// Takes in the moves of one change: later ones are undone, and done again in their places.
    ///
    /// The ids rise, and none is the id of a held move. Each move refers back: its parent is root, trash or a node with a lesser
    /// id than the move's, and its child is such a node, or has the move's own id and is neither root nor trash. A node is one
    /// that has a place or is made by an earlier move of the list.
    ///
    /// Counts at most twice the held moves that come after one of the new ones, and the new ones. After a refusal the log and
    /// every place are as before, and some of the new nodes may stand admitted without a place.
    pub fn insert(&mut self, moves: &[TreeMove], tally: &mut Tally) -> Result<(), AllocError>
        requires rises { Rises moves.now }
        requires fresh { AllByRecursion (λ (x : TreeMove). IsFresh self.old.moves x.id) moves.now }
        requires refer { AllReferBack (has_place (places_now self.old)) moves.now }
        ensures base { self.new.base ≡ self.old.base }
        ensures ok { OnOk result (self.new.moves ≡ inserted self.old.moves moves.now) }
        ensures err { OnErr result (self.new.moves ≡ self.old.moves) }
        ensures tally { Worked tally.old tally.new
            (2 * later_count self.old.moves moves.now + length moves.now) }
    {
        let Some(first) = moves.first() else {
            return Ok(());
        };
        let from = first_later(&self.held, first.id);
        let later = steps_of(self.alloc, &self.held[from..])?;
        self.held.reserve(moves.len())?;
        admit_new(&mut self.parents, moves)?;
        undo_from(&mut self.parents, &mut self.held, from, tally);
        redo(&mut self.parents, &mut self.held, &later, moves, tally);
        Ok(())
    }

    /// Forgets the moves with a time of at most this, and keeps every place. Takes no memory.
    pub fn drop_through(&mut self, time: u64)
        ensures base { self.new.base
            ≡ after_moves self.old.base
            (filter (λ (t : TreeMove). nat_le t.id.time time) self.old.moves) }
        ensures moves { self.new.moves
            ≡ filter (λ (t : TreeMove). nat_lt time t.id.time) self.old.moves }
        ensures places { places_now self.new ≡ places_now self.old }
    {
        self.held.retain(|h| h.step.id.time > time);
    }
}

/// The moves alone.
fn steps_of(alloc: Global, held: &[Held]) -> Result<Vec<TreeMove>, AllocError>
    ensures { IfOk result (λ v. v.items ≡ steps held.now) }
{
    held.iter().map(|h| h.step).collect(alloc)
}

/// Lets each child have a place.
fn admit_new(parents: &mut Parents, moves: &[TreeMove]) -> Result<(), AllocError>
    requires tree { IsTreeOfAdmitted parents.old }
    requires below { AllByRecursion (λ (t : TreeMove). is_fixed t.child ≡ false) moves.now }
    ensures places { parents.new.places ≡ parents.old.places }
    ensures tree { IsTreeOfAdmitted parents.new }
    ensures admitted { OnOk result (AllByRecursion
        (λ (t : TreeMove). set.contains parents.new.admitted t.child ≡ true) moves.now) }
{
    for step in moves {
        if parents.parent_of(step.child).is_none() {
            parents.admit(step.child)?;
        }
    }
    Ok(())
}
