// What no clause says: that each call succeeds where memory is ample, and a list that was worked out by hand.
ghost use Rattle.std.specs.Prelude.{◌≡◌, ◌≢◌, IsTrue, None};
ghost use Rattle.std.specs.FinMap as fin;
ghost use Rattle.op_ids.specs.Order.{root_id};
ghost use Rattle.move_list.specs.Lists.{HangsIn};

use crate::{ElementRow, Lists, PlaceRow, Value};
use op_ids::{OpId, ROOT, Side};
use std::alloc::{AllocError, Global};
use std::test::Fail;

const fn id(time: u64) -> OpId {
    OpId {
        time,
        member: 0,
        index: 0,
    }
}

const NODE: OpId = OpId {
    time: 7,
    member: 1,
    index: 0,
};

// One step, by the times of its ids; the head of a list has time 0.
#[derive(Clone, Copy, Debug)]
enum Step {
    // The new element, what its position hangs on, the side, and its value.
    Add(u64, u64, Side, i64),
    // The element, the new position, what it hangs on, and the side.
    Shift(u64, u64, u64, Side),
    // The element, the time of the write, and the value.
    Set(u64, u64, i64),
    Drop(u64),
}

// The second element comes to the front, and the third between the others.
const ADDED: [Step; 3] = [
    Step::Add(1, 0, Side::Right, 10),
    Step::Add(2, 1, Side::Left, 20),
    Step::Add(3, 2, Side::Right, 30),
];

// The shift with id 5 and the write with id 4 come too late. The third element is written and shifted after it was
// dropped.
const CHANGED: [Step; 7] = [
    Step::Shift(1, 6, 2, Side::Left),
    Step::Shift(1, 5, 1, Side::Right),
    Step::Set(2, 7, 21),
    Step::Set(2, 4, 22),
    Step::Drop(3),
    Step::Set(3, 8, 31),
    Step::Shift(3, 9, 6, Side::Left),
];

// The elements that are added, with their values.
const FIRST: [(u64, i64); 3] = [(2, 20), (3, 30), (1, 10)];

// The elements in the end, with their values.
const LAST: [(u64, i64); 2] = [(1, 10), (2, 21)];

// The positions in the end: the walk has them in the order 9, 6, 2, 3, 1, 5.
const POSITIONS: [(u64, u64, Side); 6] = [
    (1, 0, Side::Right),
    (2, 1, Side::Left),
    (3, 2, Side::Right),
    (5, 1, Side::Right),
    (6, 2, Side::Left),
    (9, 6, Side::Left),
];

// The rows of the elements in the end: each one's position, last writer and value, and whether it was dropped.
const ELEMENTS: [(u64, u64, u64, i64, bool); 3] = [
    (1, 6, 1, 10, false),
    (2, 2, 7, 21, false),
    (3, 9, 8, 31, true),
];

// The place of a position that is to stand after the one of this time.
const PLACES: [(u64, u64, Side); 4] = [
    (0, 9, Side::Left),
    (1, 5, Side::Left),
    (2, 3, Side::Left),
    (5, 5, Side::Right),
];

const fn at(time: u64) -> OpId {
    if time == 0 { ROOT } else { id(time) }
}

// Whether a new position may hang there.
fn may_hang(lists: &Lists, node: OpId, id: OpId, anchor: OpId, side: Side) -> bool
    ensures { IsTrue result → (fin.get lists.now.positions (node, id) ≡ None) × (id ≢ root_id)
        × HangsIn lists.now.positions node id (record { on = anchor; side = side }) }
{
    if id == ROOT || lists.has_position(node, id) {
        return false;
    }
    if anchor == ROOT && side == Side::Right {
        return true;
    }
    anchor.is_before(id) && lists.has_position(node, anchor)
}

// Adds the element if it may be, and says whether it did.
fn add_element(
    lists: &mut Lists,
    node: OpId,
    id: OpId,
    anchor: OpId,
    side: Side,
    number: i64,
) -> Result<bool, AllocError> {
    let has = lists.has_element(node, id);
    let may = may_hang(lists, node, id, anchor, side);
    if has {
        return Ok(false);
    }
    if may {
        lists.add(node, id, anchor, side, Value::Int(number))?;
    }
    Ok(may)
}

// Shifts the element if it may be, and says whether it did.
fn shift_element(
    lists: &mut Lists,
    node: OpId,
    element: OpId,
    id: OpId,
    anchor: OpId,
    side: Side,
) -> Result<bool, AllocError> {
    let has = lists.has_element(node, element);
    let may = may_hang(lists, node, id, anchor, side);
    if !has {
        return Ok(false);
    }
    if may {
        lists.shift(node, element, id, anchor, side)?;
    }
    Ok(may)
}

// Takes the step in the list of the node if it may be, and says whether it did.
fn take_step(lists: &mut Lists, node: OpId, step: Step) -> Result<bool, AllocError> {
    match step {
        Step::Add(new, anchor, side, number) => {
            add_element(lists, node, id(new), at(anchor), side, number)
        }
        Step::Shift(element, new, anchor, side) => {
            shift_element(lists, node, id(element), id(new), at(anchor), side)
        }
        Step::Set(element, writer, number) => {
            let element = id(element);
            let has = lists.has_element(node, element);
            if has {
                lists.set(node, element, id(writer), Value::Int(number))?;
            }
            Ok(has)
        }
        Step::Drop(element) => {
            let element = id(element);
            let has = lists.has_element(node, element);
            if has {
                lists.drop_item(node, element);
            }
            Ok(has)
        }
    }
}

// Takes all of the steps, and says whether each might be.
fn take_all(lists: &mut Lists, steps: &[Step]) -> Result<bool, AllocError> {
    for step in steps {
        if !take_step(lists, NODE, *step)? {
            return Ok(false);
        }
    }
    Ok(true)
}

fn copy_of(alloc: Global, lists: &Lists) -> Result<Lists, AllocError> {
    let positions = lists.position_rows()?;
    let elements = lists.element_rows()?;
    Lists::from_rows(alloc, positions.as_slice(), elements.as_slice())
}

fn place_in(lists: &Lists, node: OpId, left: OpId) -> Option<(OpId, Side)> {
    if left == ROOT || lists.has_position(node, left) {
        Some(lists.place_after(node, left))
    } else {
        None
    }
}

// Whether the elements of the list and their values are these.
fn shows(lists: &Lists, shown: &[(u64, i64)]) -> Result<bool, AllocError> {
    let elements = lists.elements(NODE)?;
    let same = elements.iter().zip(shown).all(|(element, (time, number))| {
        element.0 == id(*time) && matches!(element.1.as_value(), Value::Int(n) if n == *number)
    });
    Ok(same && elements.len() == shown.len())
}

fn is_position(row: &PlaceRow, kept: (u64, u64, Side)) -> bool {
    let (time, anchor, side) = kept;
    row.owner == NODE && row.id == id(time) && row.anchor == at(anchor) && row.side == side
}

fn is_element(row: &ElementRow, kept: (u64, u64, u64, i64, bool)) -> bool {
    let (time, position, writer, number, dropped) = kept;
    row.node == NODE
        && row.id == id(time)
        && row.position == id(position)
        && row.writer == id(writer)
        && row.dropped == dropped
        && matches!(row.value.as_value(), Value::Int(n) if n == number)
}

fn are_places(lists: &Lists) -> bool {
    for (left, on, side) in PLACES {
        if place_in(lists, NODE, at(left)) != Some((id(on), side)) {
            return false;
        }
    }
    true
}

fn are_rows(lists: &Lists) -> Result<bool, AllocError> {
    let positions = lists.position_rows()?;
    let elements = lists.element_rows()?;
    Ok(
        positions.len() == POSITIONS.len()
            && elements.len() == ELEMENTS.len()
            && positions
                .iter()
                .zip(POSITIONS)
                .all(|(row, kept)| is_position(row, kept))
            && elements
                .iter()
                .zip(ELEMENTS)
                .all(|(row, kept)| is_element(row, kept)),
    )
}

#[test]
fn elements_are_moved(rt: HostRuntime) -> Result<(), Fail> {
    let mut lists = Lists::new(rt.alloc());
    assert!(rt; take_all(&mut lists, &ADDED)?);
    assert!(rt; shows(&lists, &FIRST)?);
    assert!(rt; take_all(&mut lists, &CHANGED)?);
    assert!(rt; shows(&lists, &LAST)? && are_rows(&lists)? && are_places(&lists));
    let copy = copy_of(rt.alloc(), &lists)?;
    assert!(rt; shows(&copy, &LAST)? && are_rows(&copy)?);
    assert_eq!(rt; lists.element_at(NODE, 1)?, Some(id(2)));
    assert!(rt; lists.element_at(NODE, 2)?.is_none());
    Ok(())
}
