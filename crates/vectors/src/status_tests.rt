use cbor_det::{CborFault, Why};
use op_grammar::Rule;
use op_ids::{OpId, ROOT};
use outline_cmd::{
    BadFile, DocRef, EditFault, MemberFault, Misfit, Status, number_of, status_line,
};
use std::test::*;

const DOCUMENT: [u8; 16] = [0, 1, 2, 3, 4, 5, 6, 7, 8, 9, 10, 11, 12, 13, 14, 15];

const LATE_NODE: OpId = OpId {
    time: 1,
    member: 0,
    index: 0,
};

const STATUSES: [(Status, u8, &str); 30] = [
    (Status::Done, 0, "outline: Done\n"),
    (
        Status::Words { line: 4, word: 3 },
        1,
        "outline: Words 4 3\n",
    ),
    (Status::Missing { word: 1 }, 2, "outline: Missing 1\n"),
    (Status::Exists { word: 3 }, 3, "outline: Exists 3\n"),
    (Status::ReadFault { word: 1 }, 4, "outline: ReadFault 1\n"),
    (Status::WriteFault, 5, "outline: WriteFault\n"),
    (Status::SinkFault, 6, "outline: SinkFault\n"),
    (
        Status::BadFile {
            word: 1,
            why: BadFile::Cbor(CborFault {
                at: 62,
                why: Why::NotShortest,
            }),
        },
        7,
        "outline: BadFile 1 Cbor 62 NotShortest\n",
    ),
    (
        Status::BadFile {
            word: 2,
            why: BadFile::Rule {
                item: 1,
                rule: Rule::F6,
            },
        },
        7,
        "outline: BadFile 2 Rule 1 F6\n",
    ),
    (
        Status::BadFile {
            word: 1,
            why: BadFile::Trailing { at: 55 },
        },
        7,
        "outline: BadFile 1 Trailing 55\n",
    ),
    (
        Status::TooLarge {
            word: 1,
            bytes: 16_777_217,
        },
        8,
        "outline: TooLarge 1 16777217\n",
    ),
    (
        Status::OtherKind { word: 1, kind: 1 },
        9,
        "outline: OtherKind 1 1\n",
    ),
    (
        Status::OtherDocument {
            left: DocRef { id: DOCUMENT, n: 2 },
            right: DocRef { id: DOCUMENT, n: 3 },
        },
        10,
        "outline: OtherDocument 000102030405060708090a0b0c0d0e0f 2 000102030405060708090a0b0c0d0e0f 3\n",
    ),
    (
        Status::Member(MemberFault::NoMember { member: 2, n: 2 }),
        11,
        "outline: Member NoMember 2 2\n",
    ),
    (
        Status::Member(MemberFault::NotHeld { member: 1 }),
        11,
        "outline: Member NotHeld 1\n",
    ),
    (
        Status::Member(MemberFault::Held { member: 1 }),
        11,
        "outline: Member Held 1\n",
    ),
    (
        Status::Member(MemberFault::Nobody),
        11,
        "outline: Member Nobody\n",
    ),
    (
        Status::Edit {
            fault: EditFault::NoNode,
            word: 2,
        },
        12,
        "outline: Edit NoNode 2\n",
    ),
    (
        Status::Edit {
            fault: EditFault::TooLong,
            word: 4,
        },
        12,
        "outline: Edit TooLong 4\n",
    ),
    (
        Status::ClockFull {
            time: 281_474_976_710_655,
            member: 0,
            number: 4_294_967_295,
        },
        13,
        "outline: ClockFull 281474976710655 0 4294967295\n",
    ),
    (
        Status::Trimmed {
            member: 0,
            asked: 0,
            base: 1,
        },
        14,
        "outline: Trimmed 0 0 1\n",
    ),
    (
        Status::Unfit {
            word: 1,
            member: 1,
            number: 1,
            misfit: Misfit::A0 {
                of: 0,
                cause: 1,
                held: 0,
            },
        },
        15,
        "outline: Unfit 1 1 1 A0 0 1 0\n",
    ),
    (
        Status::Unfit {
            word: 1,
            member: 1,
            number: 2,
            misfit: Misfit::A1 { time: 1, last: 2 },
        },
        15,
        "outline: Unfit 1 1 2 A1 1 2\n",
    ),
    (
        Status::Unfit {
            word: 1,
            member: 1,
            number: 2,
            misfit: Misfit::A2 {
                of: 0,
                cause: 0,
                known: 1,
            },
        },
        15,
        "outline: Unfit 1 1 2 A2 0 0 1\n",
    ),
    (
        Status::Unfit {
            word: 1,
            member: 1,
            number: 1,
            misfit: Misfit::A3 {
                of: 0,
                cause_time: 5,
                time: 3,
            },
        },
        15,
        "outline: Unfit 1 1 1 A3 0 5 3\n",
    ),
    (
        Status::Unfit {
            word: 1,
            member: 0,
            number: 1,
            misfit: Misfit::A4 {
                op: 0,
                id: LATE_NODE,
            },
        },
        15,
        "outline: Unfit 1 0 1 A4 0 1.0.0\n",
    ),
    (
        Status::Unfit {
            word: 1,
            member: 0,
            number: 1,
            misfit: Misfit::A4 { op: 3, id: ROOT },
        },
        15,
        "outline: Unfit 1 0 1 A4 3 root\n",
    ),
    (Status::NoMemory, 16, "outline: NoMemory\n"),
    (Status::NotBuilt { word: 0 }, 17, "outline: NotBuilt 0\n"),
    (Status::NotBuilt { word: 2 }, 17, "outline: NotBuilt 2\n"),
];

#[test]
fn says_statuses(rt: HostRuntime) -> Result<(), Fail> {
    let alloc = rt.alloc();
    for (status, number, line) in &STATUSES {
        assert_eq!(rt; number_of(status), *number);
        assert_eq!(rt; status_line(alloc, status)?.text(), *line);
    }
    Ok(())
}

#[test]
fn numbers_edit_faults(rt: HostRuntime) -> Result<(), Fail> {
    let numbers = [
        EditFault::NoNode as u8,
        EditFault::NoIndex as u8,
        EditFault::Cycle as u8,
        EditFault::Fixed as u8,
        EditFault::NoChars as u8,
        EditFault::Empty as u8,
        EditFault::TooLong as u8,
    ];
    assert_eq!(rt; numbers, [1, 2, 3, 4, 5, 6, 7]);
    Ok(())
}
