// What no clause says: that each call succeeds where memory is ample, and what is printed of a small document and of a head.
ghost use Rattle.std.specs.Prelude.{drop, map};
ghost use Rattle.op_grammar.specs.Sources.{atom_of};

use crate::{log_line, show_text};
use cbor_det::OwnText;
use doc_store::{Doc, Draft};
use op_grammar::{Head, OpRef, OpSource, Value};
use op_ids::{OpId, ROOT, Side};
use outside::Tally;
use std::alloc::{AllocError, Global};
use std::test::Fail;
use version_vector::Vector;

// Operations that are handed out one by one.
#[derive(Drop)]
struct Listed<'a> {
    ops: &'a [(OpId, OpRef<'a>)],
    place: usize,
}

impl<'a> OpSource<'a> for Listed<'a> {
    ghost left = { λ listed. map atom_of (drop listed.place listed.ops.now) };

    fn next_op(&mut self, tally: &mut Tally) -> Option<(OpId, OpRef<'a>)> {
        let op = *self.ops.get(self.place)?;
        self.place += 1;
        tally.tick_decoded();
        Some(op)
    }
}

const NODE: OpId = OpId {
    time: 1,
    member: 0,
    index: 0,
};

const CHILD: OpId = OpId {
    time: 1,
    member: 0,
    index: 1,
};

const OPS: [(OpId, OpRef<'static>); 8] = [
    (
        NODE,
        OpRef::NewNode {
            parent: ROOT,
            anchor: ROOT,
            side: Side::Right,
        },
    ),
    (
        CHILD,
        OpRef::NewNode {
            parent: NODE,
            anchor: ROOT,
            side: Side::Right,
        },
    ),
    (
        OpId {
            time: 1,
            member: 0,
            index: 2,
        },
        OpRef::PutKey {
            node: NODE,
            key: "yes",
            value: Value::Bool(true),
        },
    ),
    (
        OpId {
            time: 1,
            member: 0,
            index: 3,
        },
        OpRef::PutKey {
            node: NODE,
            key: "no",
            value: Value::Bool(false),
        },
    ),
    (
        OpId {
            time: 1,
            member: 0,
            index: 4,
        },
        OpRef::PutKey {
            node: NODE,
            key: "none",
            value: Value::Null,
        },
    ),
    (
        OpId {
            time: 1,
            member: 0,
            index: 5,
        },
        OpRef::PutKey {
            node: NODE,
            key: "bytes",
            value: Value::Bytes(b"\x00\xff"),
        },
    ),
    (
        OpId {
            time: 1,
            member: 0,
            index: 6,
        },
        OpRef::PutKey {
            node: NODE,
            key: "words",
            value: Value::Text("\"\\\n\u{7f}\u{e9}"),
        },
    ),
    (
        OpId {
            time: 1,
            member: 0,
            index: 7,
        },
        OpRef::PutKey {
            node: CHILD,
            key: "\t",
            value: Value::Int(-7),
        },
    ),
];

const SHOWN: &str = "node 0 root
node 1 1.0.0
key \"bytes\" #00ff
key \"no\" false
key \"words\" \"\\\"\\\\\\u000a\\u007f\u{e9}\"
key \"yes\" true
node 2 1.0.1
key \"\\u0009\" -7
";

const KEPT: &str = "change 1 2 30 causes 0,0,0 count 4 width 5\n";

const WAITING: &str = "waits 1 2 30 causes 0,0,0 count 4 width 5\n";

// What the document of these operations shows, if they refer right.
fn small_text(alloc: Global) -> Result<Option<OwnText>, AllocError> {
    let mut tally = Tally::new();
    let draft = Draft::of(Doc::new(alloc));
    match draft.refs_known(
        Listed {
            ops: &OPS,
            place: 0,
        },
        &mut tally,
    )? {
        Some(_) => Ok(None),
        None => {
            let draft = draft.apply(
                Listed {
                    ops: &OPS,
                    place: 0,
                },
                &mut tally,
            )?;
            let doc = draft.settle(&mut tally)?;
            Ok(Some(show_text(alloc, &doc.view()?)?))
        }
    }
}

#[test]
fn a_document_is_shown(rt: HostRuntime) -> Result<(), Fail> {
    match small_text(rt.alloc())? {
        Some(text) => assert_eq!(rt; text.text(), SHOWN),
        None => assert!(rt; false),
    }
    Ok(())
}

#[test]
fn a_head_is_a_line(rt: HostRuntime) -> Result<(), Fail> {
    let head = Head {
        member: 1,
        number: 2,
        time: 30,
        causes: Vector::zero(rt.alloc(), 3),
        count: 4,
        width: 5,
    };
    let kept = log_line(rt.alloc(), &head, false)?;
    assert_eq!(rt; kept.text(), KEPT);
    let waiting = log_line(rt.alloc(), &head, true)?;
    assert_eq!(rt;
        waiting.text(),
        "waits 1 2 30 causes 0,0,0 count 4 width 5\n"
    );
    Ok(())
}
