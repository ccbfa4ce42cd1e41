// What no clause says: that each call succeeds where memory is ample, what it answers of a document of one node, that operations
// on a text and a list that come in two orders show the same, and that moves leave the same tables whatever their order and
// wherever the draft was settled before.
ghost use Rattle.std.specs.Prelude.{◌≡◌, Some, IfOk, IfSome, [], drop, map, option_to_list};
ghost use Rattle.std.specs.Bool.{OnTrue};
ghost use Rattle.std.specs.List.{AllByRecursion, list_any};
ghost use Rattle.op_ids.specs.Order.{id_eq};
ghost use Rattle.model.specs.Value.{IsOpId};
ghost use Rattle.model_laws.specs.Arrival.{IsFresh, Rises, all_placed};
ghost use Rattle.op_grammar.specs.Operations.{operation_of};
ghost use Rattle.op_grammar.specs.Sources.{atom_of};
ghost use Rattle.tree_log.specs.declared.moves.TreeMove.{TreeMove};
ghost use Rattle.tree_log.specs.Steps.{move_by};
ghost use Rattle.doc_store.specs.Documents.{IsFormed, IsOwnId, parts_of};
ghost use Rattle.doc_store.specs.Kept.{document_of};

use crate::{BadRef, Doc, Draft, Edit, EditFault, NodeRow, PlaceRow, PlanFault, Tables, ViewNode};
use op_grammar::{OpRef, OpSource, OwnValue, Value};
use op_ids::{MAX_TIME, OpId, ROOT, Side, TRASH};
use outside::Tally;
use std::alloc::{AllocError, Global};
use std::test::Fail;
use tree_log::TreeMove;

// One operation.
#[derive(Drop)]
struct One<'a> {
    op: Option<(OpId, OpRef<'a>)>,
}

impl<'a> OpSource<'a> for One<'a> {
    ghost left = { λ one. map atom_of (option_to_list one.op) };

    fn next_op(&mut self, tally: &mut Tally) -> Option<(OpId, OpRef<'a>)> {
        let op = self.op.take();
        if op.is_some() {
            tally.tick_decoded();
        }
        op
    }
}

const FIRST: OpId = OpId {
    time: 1,
    member: 0,
    index: 0,
};

const SECOND: OpId = OpId {
    time: 2,
    member: 0,
    index: 0,
};

// A node below the root, in a draft.
fn first_child(alloc: Global, tally: &mut Tally) -> Result<Draft<'static>, AllocError> {
    let op = OpRef::NewNode {
        parent: ROOT,
        anchor: ROOT,
        side: Side::Right,
    };
    Draft::of(Doc::new(alloc)).apply(
        One {
            op: Some((FIRST, op)),
        },
        tally,
    )
}

// The references of a child of the first node, behind this anchor.
fn refs_of_child(
    draft: &Draft<'_>,
    anchor: OpId,
    tally: &mut Tally,
) -> Result<Option<BadRef>, AllocError>
    requires { IsOpId 32 anchor }
{
    let op = OpRef::NewNode {
        parent: FIRST,
        anchor,
        side: Side::Right,
    };
    draft.refs_known(
        One {
            op: Some((SECOND, op)),
        },
        tally,
    )
}

// The owner of the one row that an edit plans, what it hangs on, and the side.
fn place_in(doc: &Doc<'_>, edit: &Edit<'_>) -> Option<(OpId, OpId, Side)> {
    let Ok(plan) = doc.plan(edit) else {
        return None;
    };
    if plan.len() != 1 {
        return None;
    }
    match plan.at(0) {
        OpRef::NewNode {
            parent,
            anchor,
            side,
        } => Some((*parent, *anchor, *side)),
        OpRef::MoveNode {
            parent,
            anchor,
            side,
            ..
        } => Some((*parent, *anchor, *side)),
        OpRef::TypeText {
            node,
            anchor,
            side,
            ..
        } => Some((*node, *anchor, *side)),
        OpRef::AddItem {
            node,
            anchor,
            side,
            ..
        } => Some((*node, *anchor, *side)),
        _ => None,
    }
}

// The fault of an edit, and its word.
fn fault_of(doc: &Doc<'_>, edit: &Edit<'_>) -> Option<(EditFault, u32)> {
    match doc.plan(edit) {
        Err(PlanFault::Edit { fault, word }) => Some((fault, word)),
        _ => None,
    }
}

// Edits of a document with one child of the root, and where their rows hang.
const PLACES: [(Edit<'static>, (OpId, OpId, Side)); 4] = [
    (
        Edit::New {
            parent: ROOT,
            at: 0,
        },
        (ROOT, FIRST, Side::Left),
    ),
    (Edit::Trash { child: FIRST }, (TRASH, ROOT, Side::Right)),
    (
        Edit::TypeText {
            node: FIRST,
            at: 0,
            text: "ab",
        },
        (FIRST, ROOT, Side::Right),
    ),
    (
        Edit::Add {
            node: FIRST,
            at: 0,
            value: Value::Null,
        },
        (FIRST, ROOT, Side::Right),
    ),
];

// Edits of it that have a fault, and its word.
const FAULTS: [(Edit<'static>, (EditFault, u32)); 4] = [
    (
        Edit::New {
            parent: ROOT,
            at: 2,
        },
        (EditFault::NoIndex, 3),
    ),
    (
        Edit::Move {
            child: FIRST,
            parent: FIRST,
            at: 0,
        },
        (EditFault::Cycle, 3),
    ),
    (
        Edit::Erase {
            node: FIRST,
            at: 0,
            count: 1,
        },
        (EditFault::NoChars, 4),
    ),
    (
        Edit::Shift {
            node: FIRST,
            from: 0,
            to: 0,
        },
        (EditFault::NoIndex, 3),
    ),
];

// Operations that are handed out one by one.
#[derive(Drop)]
struct Listed<'a> {
    ops: &'a [(OpId, OpRef<'a>)],
    place: usize,
}

impl<'a> OpSource<'a> for Listed<'a> {
    ghost left = { λ listed. map atom_of (drop listed.place listed.ops.now) };

    fn next_op(&mut self, tally: &mut Tally) -> Option<(OpId, OpRef<'a>)> {
        let op = *self.ops.get(self.place)?;
        self.place += 1;
        tally.tick_decoded();
        Some(op)
    }
}

const EARLY_TEXT: OpId = FIRST;

const EARLY_ITEM: OpId = OpId {
    time: 1,
    member: 0,
    index: 2,
};

const LATE_TEXT: OpId = SECOND;

const ERASURE: OpId = OpId {
    time: 2,
    member: 0,
    index: 2,
};

const LATE_ITEM: OpId = OpId {
    time: 2,
    member: 0,
    index: 3,
};

const WRITE: OpId = OpId {
    time: 2,
    member: 0,
    index: 4,
};

const SHIFT: OpId = OpId {
    time: 2,
    member: 0,
    index: 5,
};

const DROPPED: OpId = OpId {
    time: 2,
    member: 0,
    index: 6,
};

const DROP: OpId = OpId {
    time: 2,
    member: 0,
    index: 7,
};

// Operations on the root, with lesser ids than the others.
const EARLY: [(OpId, OpRef<'static>); 2] = [
    (
        EARLY_TEXT,
        OpRef::TypeText {
            node: ROOT,
            anchor: ROOT,
            side: Side::Right,
            text: "ab",
        },
    ),
    (
        EARLY_ITEM,
        OpRef::AddItem {
            node: ROOT,
            anchor: ROOT,
            side: Side::Right,
            value: Value::Bool(true),
        },
    ),
];

// A text without its first character, an element that is written and shifted, and one that is dropped.
const LATE: [(OpId, OpRef<'static>); 7] = [
    (
        LATE_TEXT,
        OpRef::TypeText {
            node: ROOT,
            anchor: ROOT,
            side: Side::Right,
            text: "xy",
        },
    ),
    (
        ERASURE,
        OpRef::EraseText {
            node: ROOT,
            first: LATE_TEXT,
            count: 1,
        },
    ),
    (
        LATE_ITEM,
        OpRef::AddItem {
            node: ROOT,
            anchor: ROOT,
            side: Side::Right,
            value: Value::Null,
        },
    ),
    (
        WRITE,
        OpRef::SetItem {
            node: ROOT,
            element: LATE_ITEM,
            value: Value::Int(7),
        },
    ),
    (
        SHIFT,
        OpRef::ShiftItem {
            node: ROOT,
            element: LATE_ITEM,
            anchor: ROOT,
            side: Side::Right,
        },
    ),
    (
        DROPPED,
        OpRef::AddItem {
            node: ROOT,
            anchor: ROOT,
            side: Side::Right,
            value: Value::Null,
        },
    ),
    (
        DROP,
        OpRef::DropItem {
            node: ROOT,
            element: DROPPED,
        },
    ),
];

// The text of both.
const TEXT: &str = "aby";

// The document of some operations and then others, if they refer right. It is settled once.
fn in_two_steps<'a>(
    alloc: Global,
    ops: &'a [(OpId, OpRef<'a>)],
    others: &'a [(OpId, OpRef<'a>)],
    tally: &mut Tally,
) -> Result<Option<Doc<'a>>, AllocError>
    requires formed { AllByRecursion IsFormed (map atom_of ops.now) }
    requires others_formed { AllByRecursion IsFormed (map atom_of others.now) }
    requires rise { Rises (parts_of (map atom_of ops.now)) }
    requires others_rise { Rises (parts_of (map atom_of others.now)) }
    requires fresh { AllByRecursion (λ a. IsFresh (all_placed (parts_of (map atom_of ops.now)) []) a.id)
        (parts_of (map atom_of others.now)) }
{
    let draft = Draft::of(Doc::new(alloc));
    if draft.refs_known(Listed { ops, place: 0 }, tally)?.is_some() {
        return Ok(None);
    }
    let draft = draft.apply(Listed { ops, place: 0 }, tally)?;
    let ops = others;
    if draft.refs_known(Listed { ops, place: 0 }, tally)?.is_some() {
        return Ok(None);
    }
    let draft = draft.apply(Listed { ops, place: 0 }, tally)?;
    Ok(Some(draft.settle(tally)?))
}

fn is_true(value: &OwnValue) -> bool {
    matches!(value, OwnValue::Bool(true))
}

fn is_seven(value: &OwnValue) -> bool {
    matches!(value, OwnValue::Int(7))
}

// Whether there is a document that shows the text and the elements of all operations, early and late.
fn shows_all(doc: &Option<Doc<'_>>) -> Result<bool, AllocError> {
    let Some(doc) = doc else {
        return Ok(false);
    };
    let view = doc.view()?;
    let [node] = view.as_slice() else {
        return Ok(false);
    };
    let [first, second] = node.items.as_slice() else {
        return Ok(false);
    };
    Ok(node.text.text() == TEXT && is_true(first) && is_seven(second))
}

// Whether there is a document that has the rows of all operations.
fn has_all_rows(doc: &Option<Doc<'_>>) -> Result<bool, AllocError> {
    let Some(doc) = doc else {
        return Ok(false);
    };
    let tables = doc.tables()?;
    Ok(
        tables.texts.as_slice().len() == 4
            && tables.list_positions.as_slice().len() == 4
            && tables.elements.as_slice().len() == 3,
    )
}

const A: OpId = FIRST;

const B: OpId = SECOND;

const C: OpId = OpId { time: 3, ..A };

const FOURTH: OpId = OpId { time: 4, ..A };

const FIFTH: OpId = OpId {
    member: 1,
    ..FOURTH
};

const SIXTH: OpId = OpId {
    member: 2,
    ..FOURTH
};

// New nodes below the root.
const NEW: [TreeMove; 3] = [
    TreeMove {
        id: A,
        child: A,
        parent: ROOT,
    },
    TreeMove {
        id: B,
        child: B,
        parent: ROOT,
    },
    TreeMove {
        id: C,
        child: C,
        parent: ROOT,
    },
];

// Moves of these nodes, and the rows after them: those of nodes, and of positions the parent and the id.
struct Case {
    moves: [TreeMove; 3],
    nodes: [NodeRow; 3],
    positions: [(OpId, OpId); 6],
}

const CASES: [Case; 2] = [
    // two nodes each below the other: the second move has no effect
    Case {
        moves: [
            TreeMove {
                id: FOURTH,
                child: A,
                parent: B,
            },
            TreeMove {
                id: FIFTH,
                child: B,
                parent: A,
            },
            TreeMove {
                id: SIXTH,
                child: C,
                parent: TRASH,
            },
        ],
        nodes: [
            NodeRow {
                id: A,
                parent: B,
                position: FOURTH,
            },
            NodeRow {
                id: B,
                parent: ROOT,
                position: B,
            },
            NodeRow {
                id: C,
                parent: TRASH,
                position: SIXTH,
            },
        ],
        positions: [
            (ROOT, A),
            (ROOT, B),
            (ROOT, C),
            (TRASH, SIXTH),
            (A, FIFTH),
            (B, FOURTH),
        ],
    },
    // the second move clears the way for the third
    Case {
        moves: [
            TreeMove {
                id: FOURTH,
                child: A,
                parent: B,
            },
            TreeMove {
                id: FIFTH,
                child: A,
                parent: ROOT,
            },
            TreeMove {
                id: SIXTH,
                child: B,
                parent: A,
            },
        ],
        nodes: [
            NodeRow {
                id: A,
                parent: ROOT,
                position: FIFTH,
            },
            NodeRow {
                id: B,
                parent: A,
                position: SIXTH,
            },
            NodeRow {
                id: C,
                parent: ROOT,
                position: C,
            },
        ],
        positions: [
            (ROOT, A),
            (ROOT, B),
            (ROOT, C),
            (ROOT, FIFTH),
            (A, SIXTH),
            (B, FOURTH),
        ],
    },
];

// How many moves may be counted at most, by after how many of the six the draft is settled. Of the last three each that was
// done may have to be undone and done again.
const MOST: [u64; 7] = [6, 6, 6, 6, 8, 10, 6];

// The new nodes, and then the moves in the order of this number, of 6.
fn arriving(moves: &[TreeMove; 3], number: usize) -> [TreeMove; 6] {
    let mut moves = *moves;
    moves.swap(0, number % 3);
    moves.swap(1, 1 + number % 2);
    let [a, b, c] = NEW;
    let [first, second, third] = moves;
    [a, b, c, first, second, third]
}

fn has_id(moves: &[TreeMove], id: OpId) -> bool
    ensures { result ≡ list_any (λ (t : TreeMove). id_eq t.id id) moves.now }
{
    moves.iter().any(|step| step.id == id)
}

fn is_own(id: OpId) -> bool
    ensures { OnTrue result (IsOwnId id) }
{
    id.time > 0 && id.time <= MAX_TIME && id.member < 32 && id.index < 65_536
}

// A move as an operation, where its ids are those of changes. It makes a node where the child has its own id.
fn op_of(step: TreeMove) -> Option<OpRef<'static>>
    ensures formed { IfSome result (λ op. IsFormed (record { id = step.id; operation = operation_of op })) }
    ensures moves { IfSome result (λ op. move_by step.id (operation_of op) ≡ Some step) }
{
    let TreeMove { id, child, parent } = step;
    let parent_is_top = parent == ROOT || parent == TRASH;
    if !is_own(id) || !is_own(child) || !(parent_is_top || is_own(parent)) {
        return None;
    }
    let (anchor, side) = (ROOT, Side::Right);
    Some(if child == id {
        OpRef::NewNode {
            parent,
            anchor,
            side,
        }
    } else {
        OpRef::MoveNode {
            child,
            parent,
            anchor,
            side,
        }
    })
}

// The draft, settled and then opened again where it is to be.
fn reopened<'a>(draft: Draft<'a>, settles: bool, tally: &mut Tally) -> Result<Draft<'a>, AllocError>
    ensures { IfOk result (λ d. document_of d ≡ document_of draft.entry) }
{
    if settles {
        return Ok(Draft::of(draft.settle(tally)?));
    }
    Ok(draft)
}

// The document of moves that come in this order, each in a change of its own, if they may. The draft is settled once after so
// many of them, and at the end.
fn arrived(
    alloc: Global,
    moves: &[TreeMove],
    settled: usize,
    tally: &mut Tally,
) -> Result<Option<Doc<'static>>, AllocError> {
    let mut draft = Draft::of(Doc::new(alloc));
    for (place, step) in moves.iter().enumerate() {
        draft = reopened(draft, place == settled, tally)?;
        let Some(op) = op_of(*step) else {
            return Ok(None);
        };
        let op = Some((step.id, op));
        if has_id(&moves[..place], step.id) || draft.refs_known(One { op }, tally)?.is_some() {
            return Ok(None);
        }
        draft = draft.apply(One { op }, tally)?;
    }
    Ok(Some(draft.settle(tally)?))
}

fn is_at(row: &PlaceRow, place: (OpId, OpId)) -> bool {
    (row.owner, row.id) == place && row.anchor == ROOT && row.side == Side::Right
}

// Whether these are the tables of a case.
fn are_tables(tables: &Tables<'_>, case: &Case) -> bool {
    let positions = tables.positions.as_slice();
    tables.nodes.as_slice() == case.nodes.as_slice()
        && positions.len() == case.positions.len()
        && positions
            .iter()
            .zip(case.positions)
            .all(|(row, place)| is_at(row, place))
}

// The depths and ids of a view.
const SHOWN: [(u32, OpId); 2] = [(0, ROOT), (1, FIRST)];

fn is_shown(node: &ViewNode<'_>, shown: (u32, OpId)) -> bool {
    node.depth == shown.0 && node.id == shown.1 && node.keys.as_slice().is_empty()
}

fn are_rows(tables: &Tables<'_>) -> bool {
    tables.nodes.as_slice().len() == 1
        && tables.positions.as_slice().len() == 1
        && tables.registers.as_slice().is_empty()
}

#[test]
fn a_child_is_shown(rt: HostRuntime) -> Result<(), Fail> {
    let mut tally = Tally::new();
    let mut doc = first_child(rt.alloc(), &mut tally)?.settle(&mut tally)?;
    doc.forget_through(1);
    let view = doc.view()?;
    assert_eq!(rt; view.as_slice().len(), SHOWN.len());
    for (node, shown) in view.as_slice().iter().zip(SHOWN) {
        assert!(rt; is_shown(node, shown));
    }
    assert!(rt; are_rows(&doc.tables()?));
    Ok(())
}

#[test]
fn references_are_known(rt: HostRuntime) -> Result<(), Fail> {
    let mut tally = Tally::new();
    let draft = first_child(rt.alloc(), &mut tally)?;
    assert!(rt; refs_of_child(&draft, ROOT, &mut tally)?.is_none());
    let wrong = refs_of_child(&draft, SECOND, &mut tally)?;
    assert!(rt; wrong.is_some_and(|bad| bad.op == 0 && bad.id == SECOND));
    assert_eq!(rt; tally.decoded(), 3);
    let settled = Draft::of(draft.settle(&mut tally)?);
    assert!(rt; refs_of_child(&settled, ROOT, &mut tally)?.is_none());
    Ok(())
}

#[test]
fn edits_are_planned(rt: HostRuntime) -> Result<(), Fail> {
    let mut tally = Tally::new();
    let doc = first_child(rt.alloc(), &mut tally)?.settle(&mut tally)?;
    for (edit, place) in PLACES {
        assert_eq!(rt; place_in(&doc, &edit), Some(place));
    }
    for (edit, fault) in FAULTS {
        assert_eq!(rt; fault_of(&doc, &edit), Some(fault));
    }
    Ok(())
}

#[test]
fn both_orders_show_the_same(rt: HostRuntime) -> Result<(), Fail> {
    let mut tally = Tally::new();
    let early_first = in_two_steps(rt.alloc(), &EARLY, &LATE, &mut tally)?;
    assert!(rt; shows_all(&early_first)?);
    assert!(rt; has_all_rows(&early_first)?);
    let late_first = in_two_steps(rt.alloc(), &LATE, &EARLY, &mut tally)?;
    assert!(rt; shows_all(&late_first)?);
    assert!(rt; has_all_rows(&late_first)?);
    Ok(())
}

#[test]
fn moves_leave_the_same_tables_in_any_order(rt: HostRuntime) -> Result<(), Fail> {
    for case in &CASES {
        for number in 0..6usize {
            let moves = arriving(&case.moves, number);
            for (settled, most) in MOST.iter().enumerate() {
                let mut tally = Tally::new();
                let doc = arrived(rt.alloc(), &moves, settled, &mut tally)?;
                let doc = doc.ok_or("a move may not come")?;
                assert!(rt;
                    are_tables(&doc.tables()?, case),
                    "order {number}, {settled}"
                );
                assert!(rt; tally.moves() <= *most, "order {number}, {settled}");
            }
        }
    }
    Ok(())
}
