//! Laws of the log's moves, each the contract of a function with nothing to do.

ghost use Rattle.tree_log.specs.Moves.{InsertionSorts, OneOrder};
ghost use Rattle.tree_log.specs.Steps.{NodeStepsAreMoves, MovesArrive};

/// New moves put in their places among others: all of them stand by rising id.
pub fn insertion_sorts()
    ensures { InsertionSorts }
{}

/// The same moves have one order by rising ids, and so one outcome, whatever the order in which they came.
pub fn one_order()
    ensures { OneOrder }
{}

/// The nodes of a document are the places after the moves of its operations.
pub fn node_steps_are_moves()
    ensures { NodeStepsAreMoves }
{}

/// An operation that comes late is its move, if it is one, put in its place among the moves of the others.
pub fn moves_arrive()
    ensures { MovesArrive }
{}
