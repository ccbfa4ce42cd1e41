// What no clause says: that each call succeeds where memory is ample.
use crate::{RegisterRow, Registers, Value};
use op_ids::OpId;
use std::alloc::{AllocError, Global};
use std::test::Fail;

const fn id(time: u64) -> OpId {
    OpId {
        time,
        member: 0,
        index: 0,
    }
}

// Writes in the order in which they come: a node and a key, the time of the write, and its number.
const WRITES: [(u64, &str, u64, i64); 11] = [
    (1, "b", 4, 40),
    (1, "b", 3, 30),
    (1, "a", 2, 20),
    (0, "b", 2, 21),
    (0, "b", 5, 50),
    // Keys whose first 8 bytes are the same, or the same but for zeros that stand there.
    (2, "alike in 9", 7, 70),
    (2, "alike in 10", 8, 80),
    (2, "alike in", 9, 90),
    (2, "a\0", 10, 100),
    (2, "a", 11, 110),
    (2, "\u{e9}", 12, 120),
];

// What is kept of them, by node and key.
const KEPT: [(u64, &str, u64, i64); 9] = [
    (0, "b", 5, 50),
    (1, "a", 2, 20),
    (1, "b", 4, 40),
    (2, "a", 11, 110),
    (2, "a\0", 10, 100),
    (2, "alike in", 9, 90),
    (2, "alike in 10", 8, 80),
    (2, "alike in 9", 7, 70),
    (2, "\u{e9}", 12, 120),
];

fn is_row(row: &RegisterRow<'_>, kept: (u64, &str, u64, i64)) -> bool {
    let (node, key, writer, number) = kept;
    row.node == id(node)
        && row.key == key
        && row.writer == id(writer)
        && matches!(row.value, Value::Int(n) if n == number)
}

fn copy_of<'a>(alloc: Global, registers: &Registers<'a>) -> Result<Registers<'a>, AllocError> {
    let rows = registers.rows()?;
    Registers::from_rows(alloc, rows.as_slice())
}

#[test]
fn the_greatest_id_wins(rt: HostRuntime) -> Result<(), Fail> {
    let mut registers = Registers::new(rt.alloc());
    for (node, key, writer, number) in WRITES {
        registers.write(id(node), key, id(writer), Value::Int(number))?;
    }
    for rows in [registers.rows()?, copy_of(rt.alloc(), &registers)?.rows()?] {
        assert_eq!(rt; rows.len(), KEPT.len());
        for (row, kept) in rows.iter().zip(KEPT) {
            assert!(rt; is_row(row, kept), "row {kept:?}");
        }
    }
    let of_node = registers.entries(id(1))?;
    assert_eq!(rt; of_node.len(), 2);
    for (row, kept) in of_node.iter().zip([KEPT[1], KEPT[2]]) {
        assert!(rt; is_row(row, kept), "row {kept:?}");
    }
    for (node, key, writer, _) in KEPT {
        let found = registers.get(id(node), key);
        assert!(rt;
            found.is_some_and(|(by, _)| by == id(writer)),
            "{node} {key}"
        );
    }
    assert!(rt; registers.get(id(0), "a").is_none());
    Ok(())
}
