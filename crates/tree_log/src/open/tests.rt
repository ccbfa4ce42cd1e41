// What no clause says: that each call succeeds where memory is ample, and what late moves cost. A move is tried where its
// conditions hold.
ghost use Rattle.std.specs.Prelude.{◌<◌};
ghost use Rattle.std.specs.Bool.{OnFalse};
ghost use Rattle.tree_log.specs.Moves.{IsFresh};
ghost use Rattle.tree_log.specs.Open.{whole};

use super::*;
use crate::log::tests::{A, B, CASES, CHANGE, arrived, is_held, refers_back, shuffled, try_insert};
use op_ids::ROOT;
use std::test::Fail;
use tree_move::Parents;

// Whether a move that was done or is still to be done has the id.
fn holds(open: &OpenLog, id: OpId) -> bool
    ensures { OnFalse result (IsFresh (whole open.now).moves id) }
{
    is_held(&open.log, id) || open.late.contains_key(&id)
}

// Takes in a move if it refers back and is not there yet.
fn try_take(open: &mut OpenLog, step: TreeMove) -> Result<bool, AllocError> {
    let has_parent = open.has_place(step.parent);
    let has_child = open.has_place(step.child);
    if holds(open, step.id) || !refers_back(step, has_parent, has_child) {
        return Ok(false);
    }
    open.take(&[step])?;
    Ok(true)
}

// A log to which the first moves came one by one, and the others late. One that refers to a node that isn't there yet waits for the
// next round.
fn settled(alloc: Global, moves: &[TreeMove; 6], first: usize) -> Result<TreeLog, AllocError>
    requires { first < 7 }
{
    let mut open = OpenLog::of(alloc, arrived(alloc, &moves[..first])?);
    for _ in 0..moves.len() {
        for step in moves {
            try_take(&mut open, *step)?;
        }
    }
    open.settle(&mut Tally::new())
}

#[test]
fn late_moves_leave_the_places_that_they_leave_one_by_one(rt: HostRuntime) -> Result<(), Fail> {
    for case in &CASES {
        let one_by_one = arrived(rt.alloc(), &case.moves)?;
        for number in 0..720 {
            let log = settled(rt.alloc(), &shuffled(&case.moves, number), number % 7)?;
            for (node, parent) in &case.parents {
                let place = log.parents().parent_of(*node).ok_or("no place")?;
                let wanted = one_by_one.parents().parent_of(*node).ok_or("no place")?;
                assert_eq!(rt; place.parent, *parent, "order {number}");
                assert_eq!(rt; place.position, wanted.position, "order {number}");
            }
        }
    }
    Ok(())
}

#[test]
fn a_node_has_a_place_once_its_move_is_taken_in(rt: HostRuntime) -> Result<(), Fail> {
    let log = TreeLog::from_parents(rt.alloc(), Parents::new(rt.alloc()));
    let mut open = OpenLog::of(rt.alloc(), log);
    for step in &CHANGE {
        assert!(rt; !open.has_place(step.child));
        assert!(rt; try_take(&mut open, *step)?);
        assert!(rt; open.has_place(step.child));
    }
    assert!(rt; !open.has_place(B));
    let log = open.settle(&mut Tally::new())?;
    for step in &CHANGE {
        let place = log.parents().parent_of(step.child).ok_or("no place")?;
        assert_eq!(rt; (place.parent, place.position), (step.parent, step.id));
    }
    Ok(())
}

// A move of the node that is made at one time, at this time.
fn nth_move(made: u64, time: u64) -> TreeMove {
    TreeMove {
        id: OpId { time, ..A },
        child: OpId { time: made, ..A },
        parent: ROOT,
    }
}

#[test]
fn a_thousand_late_moves_have_a_thousand_done_again_once(rt: HostRuntime) -> Result<(), Fail> {
    let mut tally = Tally::new();
    let mut log = TreeLog::from_parents(rt.alloc(), Parents::new(rt.alloc()));
    for time in 1001..2001 {
        assert!(rt; try_insert(&mut log, nth_move(1001, time), &mut tally)?);
    }
    assert_eq!(rt; tally.moves(), 1000);
    let mut open = OpenLog::of(rt.alloc(), log);
    for time in 1..1001 {
        assert!(rt; try_take(&mut open, nth_move(1, time))?);
    }
    let log = open.settle(&mut tally)?;
    assert!(rt; tally.moves() <= 1000 + 3000);
    assert!(rt; log.parents().parent_of(A).is_some());
    Ok(())
}
