// What no clause says: that each call succeeds where memory is ample. A move is tried where its conditions hold.
ghost use Rattle.std.specs.Prelude.{◌≡◌, Bool};
ghost use Rattle.std.specs.Bool.{OnTrue, OnFalse};
ghost use Rattle.std.specs.List.{list_any};
ghost use Rattle.op_ids.specs.declared.OpId.{OpId};
ghost use Rattle.op_ids.specs.Order.{id_eq};
ghost use Rattle.model.specs.State.{is_fixed};
ghost use Rattle.tree_log.specs.declared.moves.Held.{Held};
ghost use Rattle.tree_log.specs.Moves.{IsFresh, Rises, RefersBack};

use super::*;
use op_ids::{OpId, TRASH};
use std::test::Fail;

pub(crate) const A: OpId = OpId {
    time: 1,
    member: 0,
    index: 0,
};

pub(crate) const B: OpId = OpId { time: 2, ..A };

pub(crate) const C: OpId = OpId { time: 3, ..A };

pub(crate) const NEW_A: TreeMove = TreeMove {
    id: A,
    child: A,
    parent: ROOT,
};

pub(crate) const NEW_B: TreeMove = TreeMove {
    id: B,
    child: B,
    parent: ROOT,
};

const NEW_C: TreeMove = TreeMove {
    id: C,
    child: C,
    parent: ROOT,
};

const FIRST: OpId = OpId { time: 4, ..A };

const SECOND: OpId = OpId { member: 1, ..FIRST };

const THIRD: OpId = OpId { member: 2, ..FIRST };

// moves by rising ids, and each node with its parent after them
pub(crate) struct Case {
    pub(crate) moves: [TreeMove; 6],
    pub(crate) parents: [(OpId, OpId); 3],
}

pub(crate) const CASES: [Case; 3] = [
    // two nodes each below the other: the second move has no effect
    Case {
        moves: [
            NEW_A,
            NEW_B,
            NEW_C,
            TreeMove {
                id: FIRST,
                child: A,
                parent: B,
            },
            TreeMove {
                id: SECOND,
                child: B,
                parent: A,
            },
            TreeMove {
                id: THIRD,
                child: C,
                parent: TRASH,
            },
        ],
        parents: [(A, B), (B, ROOT), (C, TRASH)],
    },
    // the second move clears the way for the third
    Case {
        moves: [
            NEW_A,
            NEW_B,
            NEW_C,
            TreeMove {
                id: FIRST,
                child: A,
                parent: B,
            },
            TreeMove {
                id: SECOND,
                child: A,
                parent: ROOT,
            },
            TreeMove {
                id: THIRD,
                child: B,
                parent: A,
            },
        ],
        parents: [(A, ROOT), (B, A), (C, ROOT)],
    },
    // three nodes round in a circle: the third move has no effect
    Case {
        moves: [
            NEW_A,
            NEW_B,
            NEW_C,
            TreeMove {
                id: FIRST,
                child: A,
                parent: B,
            },
            TreeMove {
                id: SECOND,
                child: B,
                parent: C,
            },
            TreeMove {
                id: THIRD,
                child: C,
                parent: A,
            },
        ],
        parents: [(A, B), (B, C), (C, ROOT)],
    },
];

// a change that makes a node and another one below it
pub(crate) const CHANGE: [TreeMove; 2] = [
    NEW_A,
    TreeMove {
        id: OpId { index: 1, ..A },
        child: OpId { index: 1, ..A },
        parent: A,
    },
];

fn has_id(held: &[Held], id: OpId) -> bool
    ensures { result ≡ list_any (λ (h : Held). id_eq h.step.id id) held.now }
{
    held.iter().any(|h| h.step.id == id)
}

fn is_top(node: OpId) -> bool
    ensures { result ≡ is_fixed node }
{
    node == ROOT || node == TRASH
}

// Whether a move refers back where its parent and its child are nodes or aren't.
pub(crate) fn refers_back(step: TreeMove, has_parent: bool, has_child: bool) -> bool
    ensures { (nodes : OpId → Bool) → nodes step.parent ≡ has_parent
        → nodes step.child ≡ has_child
        → OnTrue result (RefersBack nodes step) }
{
    if is_top(step.child) {
        return false;
    }
    if !is_top(step.parent) && !(has_parent && step.parent.is_before(step.id)) {
        return false;
    }
    step.child == step.id || (has_child && step.child.is_before(step.id))
}

// Whether a move of the log has the id.
pub(crate) fn is_held(log: &TreeLog, id: OpId) -> bool
    ensures fresh { OnFalse result (IsFresh log.now.moves id) }
    ensures rising { Rises log.now.moves }
{
    has_id(&log.held, id)
}

// Takes in a move if it refers back and is not held yet.
pub(crate) fn try_insert(
    log: &mut TreeLog,
    step: TreeMove,
    tally: &mut Tally,
) -> Result<bool, AllocError> {
    let has_parent = log.parents().parent_of(step.parent).is_some();
    let has_child = log.parents().parent_of(step.child).is_some();
    if is_held(log, step.id) || !refers_back(step, has_parent, has_child) {
        return Ok(false);
    }
    log.insert(&[step], tally)?;
    Ok(true)
}

// Takes in moves in this order. One that refers to a node that isn't there yet waits for the next round.
pub(crate) fn arrived(alloc: Global, moves: &[TreeMove]) -> Result<TreeLog, AllocError> {
    let mut tally = Tally::new();
    let mut log = TreeLog::from_parents(alloc, Parents::new(alloc));
    for _ in 0..moves.len() {
        for step in moves {
            try_insert(&mut log, *step, &mut tally)?;
        }
    }
    Ok(log)
}

// A new log with that change.
fn changed(alloc: Global, tally: &mut Tally) -> Result<TreeLog, AllocError> {
    let mut log = TreeLog::from_parents(alloc, Parents::new(alloc));
    log.insert(&CHANGE, tally)?;
    Ok(log)
}

// The parent that the nodes have in a list, or the node itself where it isn't there.
fn parent_in(parents: &[(OpId, OpId)], node: OpId) -> OpId {
    for (child, parent) in parents {
        if *child == node {
            return *parent;
        }
    }
    node
}

// The parents after moves, each done if a walk up from its new parent doesn't meet the child.
fn replayed(moves: &[TreeMove]) -> [(OpId, OpId); 3] {
    let mut parents = [(A, TRASH), (B, TRASH), (C, TRASH)];
    for step in moves {
        let mut at = step.parent;
        let mut met = false;
        for _ in 0..4u8 {
            met = met || at == step.child;
            at = parent_in(&parents, at);
        }
        for row in parents.iter_mut() {
            if row.0 == step.child && !met {
                row.1 = step.parent;
            }
        }
    }
    parents
}

// The order of this number, of 720.
pub(crate) fn shuffled(moves: &[TreeMove; 6], number: usize) -> [TreeMove; 6] {
    let mut moves = *moves;
    let mut rest = number;
    for k in 1..7usize {
        moves.swap(k - 1, rest % k);
        rest /= k;
    }
    moves
}

#[test]
fn any_order_leaves_the_places_of_the_sorted_replay(rt: HostRuntime) -> Result<(), Fail> {
    for case in &CASES {
        assert_eq!(rt; replayed(&case.moves), case.parents);
        for number in 0..720 {
            let log = arrived(rt.alloc(), &shuffled(&case.moves, number))?;
            for (node, parent) in &case.parents {
                let place = log.parents().parent_of(*node).ok_or("no place")?;
                assert_eq!(rt; place.parent, *parent, "order {number}");
            }
        }
    }
    Ok(())
}

#[test]
fn a_change_is_taken_in_and_dropped(rt: HostRuntime) -> Result<(), Fail> {
    let mut tally = Tally::new();
    let mut log = changed(rt.alloc(), &mut tally)?;
    assert_eq!(rt; tally.moves(), 2);
    log.drop_through(1);
    for step in &CHANGE {
        let place = log.parents().parent_of(step.child).ok_or("no place")?;
        assert_eq!(rt; (place.parent, place.position), (step.parent, step.id));
    }
    assert!(rt; !has_id(&log.held, A));
    Ok(())
}

#[test]
fn a_move_before_a_thousand_has_them_done_again(rt: HostRuntime) -> Result<(), Fail> {
    let mut tally = Tally::new();
    let mut log = TreeLog::from_parents(rt.alloc(), Parents::new(rt.alloc()));
    assert!(rt; try_insert(&mut log, NEW_B, &mut tally)?);
    for time in 3..1002 {
        let step = TreeMove {
            id: OpId { time, ..A },
            ..NEW_B
        };
        assert!(rt; try_insert(&mut log, step, &mut tally)?);
    }
    assert_eq!(rt; tally.moves(), 1000);
    assert!(rt; try_insert(&mut log, NEW_A, &mut tally)?);
    assert!(rt; tally.moves() <= 1000 + 2001);
    assert!(rt; log.parents().parent_of(A).is_some());
    Ok(())
}
