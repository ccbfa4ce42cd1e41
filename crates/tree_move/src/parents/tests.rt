// What no clause says: that each call succeeds where memory is ample. A move is tried where its conditions hold.
ghost use Rattle.std.specs.Prelude.{◌≡◌};
ghost use Rattle.model.specs.State.{is_fixed};
ghost use Rattle.tree_move.specs.Parents.{is_node};

use super::*;
use op_ids::{ROOT, TRASH};
use std::test::Fail;

const A: OpId = OpId {
    time: 1,
    member: 0,
    index: 0,
};

const B: OpId = OpId { time: 2, ..A };

const C: OpId = OpId { time: 3, ..A };

// moves of a child below a parent, to the position of this time
const MOVES: [(OpId, OpId, u64); 6] = [
    (A, ROOT, 1),
    (B, ROOT, 2),
    (C, TRASH, 3),
    // below each other: the second has no effect
    (A, B, 4),
    (B, A, 5),
    (C, B, 6),
];

const ROWS: [NodeRow; 3] = [
    NodeRow {
        id: A,
        parent: B,
        position: OpId { time: 4, ..A },
    },
    NodeRow {
        id: B,
        parent: ROOT,
        position: B,
    },
    NodeRow {
        id: C,
        parent: B,
        position: OpId { time: 6, ..A },
    },
];

const BELOW_B: [(OpId, OpId); 2] = [(OpId { time: 4, ..A }, A), (OpId { time: 6, ..A }, C)];

fn is_top(node: OpId) -> bool
    ensures { result ≡ is_fixed node }
{
    node == ROOT || node == TRASH
}

fn is_there(parents: &Parents, node: OpId) -> bool
    ensures { result ≡ is_node parents.now.places node }
{
    is_top(node) || parents.parent_of(node).is_some()
}

// Moves the child, which is admitted where it has no place. `None` where it or the parent can't be.
fn moved_below(
    parents: &mut Parents,
    child: OpId,
    to: Place,
    tally: &mut Tally,
) -> Result<Option<Undo>, AllocError> {
    if is_top(child) || !is_there(parents, to.parent) {
        return Ok(None);
    }
    if parents.parent_of(child).is_some() {
        return Ok(Some(parents.do_move(child, to, tally)));
    }
    parents.admit(child)?;
    Ok(Some(parents.do_move(child, to, tally)))
}

// Moves a node that has a place and moves it back, and answers its place between.
fn there_and_back(
    parents: &mut Parents,
    child: OpId,
    to: Place,
    tally: &mut Tally,
) -> Option<Place> {
    if parents.parent_of(child).is_none() || !is_there(parents, to.parent) {
        return None;
    }
    let step = parents.do_move(child, to, tally);
    let between = parents.parent_of(child);
    parents.undo(step, tally);
    between
}

// The places made again from their rows.
fn made_again(alloc: Global, parents: &Parents) -> Result<Parents, AllocError> {
    let _ = parents.parent_of(ROOT);
    let rows = parents.rows()?;
    Parents::from_rows(alloc, rows.as_slice())
}

#[test]
fn crossed_moves_make_no_cycle(rt: HostRuntime) -> Result<(), Fail> {
    let mut tally = Tally::new();
    let mut parents = Parents::new(rt.alloc());
    assert_eq!(rt; parents.parent_of(A), None);
    for (child, parent, time) in MOVES {
        let to = Place {
            parent,
            position: OpId { time, ..A },
        };
        let step = moved_below(&mut parents, child, to, &mut tally)?;
        assert!(rt; step.is_some());
    }
    assert_eq!(rt; parents.rows()?.as_slice(), ROWS.as_slice());
    assert_eq!(rt; parents.children(B)?.as_slice(), BELOW_B.as_slice());
    assert!(rt; parents.is_above(B, A) && !parents.is_above(A, B));
    assert_eq!(rt; tally.moves(), 6);
    Ok(())
}

#[test]
fn undo_gives_the_place_back(rt: HostRuntime) -> Result<(), Fail> {
    let mut tally = Tally::new();
    let mut parents = Parents::new(rt.alloc());
    for row in [ROWS[1], ROWS[0]] {
        moved_below(&mut parents, row.id, row.place(), &mut tally)?;
    }
    let to = Place {
        parent: TRASH,
        position: C,
    };
    let between = there_and_back(&mut parents, A, to, &mut tally);
    assert_eq!(rt; between, Some(to));
    assert_eq!(rt; parents.parent_of(A), Some(ROWS[0].place()));
    assert_eq!(rt; tally.moves(), 4);
    Ok(())
}

#[test]
fn rows_make_the_same_places(rt: HostRuntime) -> Result<(), Fail> {
    let mut tally = Tally::new();
    let mut parents = Parents::new(rt.alloc());
    for row in [ROWS[1], ROWS[0], ROWS[2]] {
        moved_below(&mut parents, row.id, row.place(), &mut tally)?;
    }
    let again = made_again(rt.alloc(), &parents)?;
    assert_eq!(rt; again.rows()?.as_slice(), ROWS.as_slice());
    Ok(())
}
