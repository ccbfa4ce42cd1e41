// The steps of taking in late moves: undo, and do again with the new ones between.

ghost use Rattle.std.specs.Prelude.{◌≡◌, ◌+◌, ◌-◌, ◌≤◌, ◌<◌, true, false, length, drop, take, ◌∷◌, ◌++◌, [], slice_index_or, vec_len, vec_capacity};
ghost use Rattle.std.specs.Bool.{OnTrue, OnFalse};
ghost use Rattle.std.specs.List.{AllByRecursion};
ghost use Rattle.std.specs.FinMap as fin;
ghost use Rattle.std.specs.FinSet as set;
ghost use Rattle.op_ids.specs.declared.OpId.{OpId};
ghost use Rattle.op_ids.specs.Order.{id_lt};
ghost use Rattle.tree_log.specs.declared.moves.TreeMove.{TreeMove};
ghost use Rattle.tree_log.specs.declared.moves.Held.{Held};
ghost use Rattle.tree_move.specs.Parents.{is_node, IsTreeOfAdmitted, kept_place};
ghost use Rattle.tree_log.specs.Log.{steps, IsLog, undone};
ghost use Rattle.tree_log.specs.Merge.{merged, Redo, NextOld, NextNew};
ghost use Rattle.tree_log.specs.Moves.{after_move, Rises, Worked};

use crate::moves::{Held, TreeMove};
use op_ids::OpId;
use outside::Tally;
use tree_move::{Parents, Place, Undo};

/// The index of the first of the last moves, all of which have an id above `id`. Looks at no move before these but one.
pub fn first_later(held: &[Held], id: OpId) -> usize
    ensures bound { result ≤ length held.now }
    ensures later { AllByRecursion (λ (h : Held). id_lt id h.step.id ≡ true)
        (drop result held.now) }
    ensures border { (d : Held) → 0 < result
        → id_lt id (slice_index_or held.now (result - 1) d).step.id ≡ false }
{
    let mut from = held.len();
    while from > 0 && id.is_before(held[from - 1].step.id) {
        from -= 1;
    }
    from
}

/// Whether the next move of two rising lists, from their indexes on, is the old one.
pub fn takes_old(later: &[TreeMove], moves: &[TreeMove], i: usize, j: usize) -> bool
    requires some { 0 < (length later.now - i) + (length moves.now - j) }
    requires later_rises { Rises (drop i later.now) }
    requires moves_rise { Rises (drop j moves.now) }
    ensures old { (d : TreeMove) → OnTrue result (NextOld later.now moves.now i j d) }
    ensures new { (d : TreeMove) → OnFalse result (NextNew later.now moves.now i j d) }
{
    if i >= later.len() {
        return false;
    }
    if j >= moves.len() {
        return true;
    }
    later[i].id.is_before(moves[j].id)
}

/// Does a move and keeps it with the place that its child had. There is room for it.
pub fn take_up(parents: &mut Parents, held: &mut Vec<Held>, step: TreeMove, tally: &mut Tally)
    requires room { vec_len held.old < vec_capacity held.old }
    requires admitted { set.contains parents.old.admitted step.child ≡ true }
    requires parent { is_node parents.old.places step.parent ≡ true }
    ensures places { parents.new.places ≡ after_move parents.old.places step }
    ensures admitted { parents.new.admitted ≡ parents.old.admitted }
    ensures held { held.new.items
        ≡ held.old.items
        ++ record { step = step; before = kept_place (fin.get parents.old.places step.child) }
        ∷ [] }
    ensures len { vec_len held.new ≡ vec_len held.old + 1 }
    ensures capacity { vec_capacity held.old ≤ vec_capacity held.new }
    ensures tree { IsTreeOfAdmitted parents.new }
    ensures tally { Worked tally.old tally.new 1 }
{
    let place = Place {
        parent: step.parent,
        position: step.id,
    };
    let undo = parents.do_move(step.child, place, tally);
    held.push(Held {
        step,
        before: undo.before,
    })
    .unwrap();
}

/// Undoes the moves from an index on, the last first.
pub fn undo_from(parents: &mut Parents, held: &mut Vec<Held>, from: usize, tally: &mut Tally)
    requires log { IsLog (undone parents.old.places held.old.items) held.old.items
        parents.old.places }
    requires tree { IsTreeOfAdmitted parents.old }
    requires bound { from ≤ vec_len held.old }
    ensures log { IsLog (undone parents.old.places held.old.items) held.new.items
        parents.new.places }
    ensures held { held.new.items ≡ take from held.old.items }
    ensures admitted { parents.new.admitted ≡ parents.old.admitted }
    ensures capacity { vec_capacity held.new ≡ vec_capacity held.old }
    ensures tree { IsTreeOfAdmitted parents.new }
    ensures tally { Worked tally.old tally.new (vec_len held.old - from) }
{
    while held.len() > from {
        if let Some(last) = held.pop() {
            let step = Undo {
                child: last.step.child,
                before: last.before,
            };
            parents.undo(step, tally);
        }
    }
}

/// Does the old moves and the new ones, in the order of their ids.
pub fn redo(
    parents: &mut Parents,
    held: &mut Vec<Held>,
    later: &[TreeMove],
    moves: &[TreeMove],
    tally: &mut Tally,
)
    requires todo { Redo (undone parents.old.places held.old.items) held.old.items
        parents.old.places (merged later.now moves.now)
        (steps held.old.items ++ merged later.now moves.now) parents.old.admitted }
    requires tree { IsTreeOfAdmitted parents.old }
    requires later_rises { Rises later.now }
    requires moves_rise { Rises moves.now }
    requires room { vec_len held.old + (length later.now + length moves.now) ≤ vec_capacity held.old }
    ensures log { IsLog (undone parents.old.places held.old.items) held.new.items
        parents.new.places }
    ensures held { steps held.new.items ≡ steps held.old.items ++ merged later.now moves.now }
    ensures tree { IsTreeOfAdmitted parents.new }
    ensures tally { Worked tally.old tally.new (length later.now + length moves.now) }
{
    let mut i = 0;
    let mut j = 0;
    while i < later.len() || j < moves.len() {
        if takes_old(later, moves, i, j) {
            take_up(parents, held, later[i], tally);
            i += 1;
        } else {
            take_up(parents, held, moves[j], tally);
            j += 1;
        }
    }
}
