//! Laws of places and moves, each the contract of a function with nothing to do.

ghost use Rattle.tree_move.specs.Moves.{UndoGivesBack, HasNoCycle, RowsComeBack};

/// To undo what a move answered gives back all places as they were before it, whether it had an effect or not.
pub fn undo_gives_back()
    ensures { UndoGivesBack }
{}

/// In a tree of places no node is above its own parent.
pub fn tree_has_no_cycle()
    ensures { HasNoCycle }
{}

/// The rows of places are by strictly rising ids, and make the same places again.
pub fn rows_come_back()
    ensures { RowsComeBack }
{}
