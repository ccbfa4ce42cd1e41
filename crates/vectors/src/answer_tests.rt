use crate::files::{
    ACKNOWLEDGED, DOCUMENT, KEY_UNSET, LONGER_COUNT, MADE_BY_SECOND, NO_CHANGE, NOBODY, ONE_KEY,
    ONE_KEY_TEXT, PUT_BY_BOTH, SECOND, SECOND_WITH_KEY,
};
use crate::runs::{NO_FAULTS, Step, take, take_with};
use cbor_det::{CborFault, Why};
use outline_cmd::{BadFile, EditFault, MemberFault, Status};
use outside::MemKeeper;
use std::alloc::Global;
use std::test::*;

const PUT: &[&str] = &["put", "a", "root", "a", "true"];

/// From the founding on, each with what it prints and the file after it.
const LIFE: &[(&[&str], &str, &[u8])] = &[
    (&["found", DOCUMENT, "2", "a"], "holds 0,1\n", NO_CHANGE),
    (&["show", "a"], "node 0 root\n", NO_CHANGE),
    (PUT, "made 0 1 1\n", ONE_KEY),
    (&["show", "a"], ONE_KEY_TEXT, ONE_KEY),
    (&["unset", "a", "root", "a"], "made 0 2 2\n", KEY_UNSET),
    (&["show", "a"], "node 0 root\n", KEY_UNSET),
    (&["found", DOCUMENT, "1", "b"], "holds 0\n", KEY_UNSET),
    (&["put", "b", "root", "k", "1"], "made 0 1 1\n", KEY_UNSET),
    (&["put", "b", "root", "k", "2"], "made 0 2 2\n", KEY_UNSET),
    (&["put", "b", "root", "k", "3"], "made 0 3 3\n", KEY_UNSET),
    (&["show", "b"], "node 0 root\nkey \"k\" 3\n", KEY_UNSET),
];

#[test]
fn founds_puts_and_unsets(rt: HostRuntime) -> Result<(), Fail> {
    let alloc = rt.alloc();
    let mut keeper = MemKeeper::new(alloc, &[], &[])?;
    for &(line, text, after) in LIFE {
        let status = Status::Done;
        let step = Step {
            line,
            status,
            text,
            after,
        };
        let went = take(alloc, &mut keeper, &step)?;
        assert_eq!(rt; went, (status, true, true), "{text}");
    }
    Ok(())
}

const NOT_SHORTEST: Status = Status::BadFile {
    word: 1,
    why: BadFile::Cbor(CborFault {
        at: 62,
        why: Why::NotShortest,
    }),
};

const ENDED: Status = Status::BadFile {
    word: 1,
    why: BadFile::Cbor(CborFault {
        at: 0,
        why: Why::Ended,
    }),
};

/// Of each file what a command does with it: the file before and after, and what is printed.
const FILES: &[(&[u8], &[&str], Status, &str, &[u8])] = &[
    (LONGER_COUNT, &["show", "a"], NOT_SHORTEST, "", LONGER_COUNT),
    (b"", &["show", "a"], ENDED, "", b""),
    (b"", &["items", "a"], Status::Done, "", b""),
    (
        b"\x83\x01\x20\x41\x07\xf6",
        &["items", "a"],
        Status::Done,
        "[1, -1, h'07']\nnull\n",
        b"\x83\x01\x20\x41\x07\xf6",
    ),
    (SECOND, PUT, Status::Done, "made 1 1 1\n", SECOND_WITH_KEY),
    (
        MADE_BY_SECOND,
        &["show", "a"],
        Status::Done,
        ONE_KEY_TEXT,
        MADE_BY_SECOND,
    ),
    (
        MADE_BY_SECOND,
        PUT,
        Status::Done,
        "made 0 1 2\n",
        PUT_BY_BOTH,
    ),
    (
        NO_CHANGE,
        &["ack", "a"],
        Status::Done,
        "made 0 1 1\nmade 1 1 2\n",
        ACKNOWLEDGED,
    ),
    (
        NOBODY,
        &["show", "a"],
        Status::Done,
        "node 0 root\n",
        NOBODY,
    ),
    (
        NOBODY,
        &["put", "a", "root", "", "1"],
        Status::Member(MemberFault::Nobody),
        "",
        NOBODY,
    ),
];

#[test]
fn answers_files(rt: HostRuntime) -> Result<(), Fail> {
    for &(before, line, status, text, after) in FILES {
        let step = Step {
            line,
            status,
            text,
            after,
        };
        let went = take_with(rt.alloc(), before, &NO_FAULTS, &step)?;
        assert_eq!(rt; went, (status, true, true), "{line:?}");
    }
    Ok(())
}

const EMPTY: Status = Status::Edit {
    fault: EditFault::Empty,
    word: 3,
};

const NO_NODE: Status = Status::Edit {
    fault: EditFault::NoNode,
    word: 2,
};

const NO_PLACE: Status = Status::Edit {
    fault: EditFault::NoIndex,
    word: 3,
};

const FIXED: Status = Status::Edit {
    fault: EditFault::Fixed,
    word: 2,
};

const NO_TEXT: Status = Status::Edit {
    fault: EditFault::Empty,
    word: 4,
};

const NO_CHARACTERS: Status = Status::Edit {
    fault: EditFault::NoChars,
    word: 4,
};

/// Words that are no command, and the first wrong one.
const WRONG: &[(&[&str], u32)] = &[
    (&[], 0),
    (&["frob"], 0),
    (&["--help"], 0),
    (&["show"], 1),
    (&["show", ".a"], 1),
    (&["show", "a/b", "c"], 1),
    (&["show", "a", ""], 2),
    (&["put", "a", "root"], 3),
    (&["put", "a", "root", "k"], 4),
    (&["put", "a", "root", "k", "1", "2"], 5),
    (&["put", "a", "1.0.0", "k", "one"], 4),
    (&["put", "a", "root", "k", "9223372036854775808"], 4),
    (&["put", "a", "root", "k", "-9223372036854775809"], 4),
    (&["unset", "a", "root", "k", "1"], 4),
    (&["found", "000102030405060708090a0b0c0d0e0", "1", "c"], 1),
    (&["found", "000102030405060708090a0b0c0d0e0f0", "1", "c"], 1),
    (&["found", "000102030405060708090a0b0c0d0e0F", "1", "c"], 1),
    (&["found", DOCUMENT, "0", "c"], 2),
    (&["found", DOCUMENT, "33", "c"], 2),
    (&["found", DOCUMENT, "01", "c"], 2),
];

#[test]
fn names_the_first_wrong_word(rt: HostRuntime) -> Result<(), Fail> {
    for &(line, word) in WRONG {
        let status = Status::Words { line: 0, word };
        let step = Step {
            line,
            status,
            text: "",
            after: ONE_KEY,
        };
        let went = take_with(rt.alloc(), ONE_KEY, &NO_FAULTS, &step)?;
        assert_eq!(rt; went, (status, true, true), "{line:?}");
    }
    Ok(())
}

/// Over the file of one key.
const REFUSALS: &[(&[&str], Status)] = &[
    (&["trim", "a"], Status::NotBuilt { word: 0 }),
    (&["trim"], Status::NotBuilt { word: 0 }),
    (&["found", DOCUMENT, "2", "a"], Status::Exists { word: 3 }),
    (&["show", "q"], Status::Missing { word: 1 }),
    (&["put", "q", "root", "", "1"], Status::Missing { word: 1 }),
    (&["put", "a", "root", "", "1"], EMPTY),
    (&["unset", "a", "root", ""], EMPTY),
    (&["put", "a", "1.0.0", "k", "1"], NO_NODE),
    (&["unset", "a", "trash", "k"], NO_NODE),
    (&["new", "a", "1.0.0", "0"], NO_NODE),
    (&["new", "a", "root", "1"], NO_PLACE),
    (&["move", "a", "trash", "1.0.0", "0"], FIXED),
    (&["trash", "a", "root"], FIXED),
    (&["type", "a", "1.0.0", "0", "x"], NO_NODE),
    (&["type", "a", "root", "1", "x"], NO_PLACE),
    (&["type", "a", "root", "0", ""], NO_TEXT),
    (&["erase", "a", "root", "0", "1"], NO_CHARACTERS),
    (&["add", "a", "root", "1", "1"], NO_PLACE),
    (&["shift", "a", "root", "0", "0"], NO_PLACE),
    (&["set", "a", "root", "0", "1"], NO_PLACE),
    (&["drop", "a", "root", "0"], NO_PLACE),
];

#[test]
fn refusals_leave_the_file(rt: HostRuntime) -> Result<(), Fail> {
    for &(line, status) in REFUSALS {
        let step = Step {
            line,
            status,
            text: "",
            after: ONE_KEY,
        };
        let went = take_with(rt.alloc(), ONE_KEY, &NO_FAULTS, &step)?;
        assert_eq!(rt; went, (status, true, true), "{line:?}");
    }
    Ok(())
}

/// Words at the ends of what they may say, which are taken.
const ENDS: &[(&[&str], &str)] = &[
    (
        &["put", "a", "root", "k", "9223372036854775807"],
        "made 0 2 2\n",
    ),
    (
        &["put", "a", "root", "k", "-9223372036854775808"],
        "made 0 3 3\n",
    ),
    (
        &["show", "a"],
        "node 0 root\nkey \"a\" true\nkey \"k\" -9223372036854775808\n",
    ),
    (&["found", DOCUMENT, "1", "b"], "holds 0\n"),
    (
        &["found", DOCUMENT, "32", "c"],
        "holds 0,1,2,3,4,5,6,7,8,9,10,11,12,13,14,15,16,17,18,19,20,21,22,23,24,25,26,27,28,29,30,31\n",
    ),
];

/// A text that is typed and erased, and a list whose elements are added, shifted, set and dropped.
const TEXT_AND_LIST: &[(&[&str], &str)] = &[
    (&["type", "a", "root", "0", "abd\u{1f600}"], "made 0 2 2\n"),
    (&["type", "a", "root", "2", "c"], "made 0 3 3\n"),
    (&["erase", "a", "root", "1", "1"], "made 0 4 4\n"),
    (&["add", "a", "root", "0", "1"], "made 0 5 5\n"),
    (&["add", "a", "root", "1", "#00ff"], "made 0 6 6\n"),
    (&["add", "a", "root", "1", "=c"], "made 0 7 7\n"),
    (&["shift", "a", "root", "0", "2"], "made 0 8 8\n"),
    (&["set", "a", "root", "1", "#0a"], "made 0 9 9\n"),
    (&["drop", "a", "root", "0"], "made 0 10 10\n"),
    (
        &["show", "a"],
        "node 0 root\nkey \"a\" true\ntext \"acd\u{1f600}\"\nitem #0a\nitem 1\n",
    ),
];

/// The two members' files: what one changed is delivered to the other, twice, acknowledged, and answered.
const EXCHANGE: &[(&[&str], &str)] = &[
    (&["bundle", "a", "0,0", "x"], "changes 1\n"),
    (
        &["deliver", "second", "x"],
        "accepted 1 known 0 same 0 waiting 0\n",
    ),
    (&["show", "second"], ONE_KEY_TEXT),
    (
        &["deliver", "second", "x"],
        "accepted 0 known 1 same 0 waiting 0\n",
    ),
    (&["ack", "second"], "made 1 1 2\n"),
    (&["put", "second", "root", "b", "1"], "made 1 2 3\n"),
    (&["bundle", "second", "1,0", "y"], "changes 2\n"),
    (
        &["deliver", "a", "y"],
        "accepted 2 known 0 same 0 waiting 0\n",
    ),
    (&["show", "a"], "node 0 root\nkey \"a\" true\nkey \"b\" 1\n"),
];

/// Does these over the file of one key, beside that of member 1 alone. Gives the text of the first that isn't done, or prints another text.
fn first_undone(
    alloc: Global,
    steps: &[(&[&str], &'static str)],
) -> Result<Option<&'static str>, Fail> {
    let mut keeper = MemKeeper::new(alloc, &[], &[])?;
    keeper.put_file("a", ONE_KEY)?;
    keeper.put_file("second", SECOND)?;
    for &(line, text) in steps {
        let step = Step {
            line,
            status: Status::Done,
            text,
            after: b"",
        };
        let (status, printed, _) = take(alloc, &mut keeper, &step)?;
        if status != Status::Done || !printed {
            return Ok(Some(text));
        }
    }
    Ok(None)
}

#[test]
fn takes_the_ends(rt: HostRuntime) -> Result<(), Fail> {
    assert_eq!(rt; first_undone(rt.alloc(), ENDS)?, None);
    Ok(())
}

#[test]
fn edits_a_text_and_a_list(rt: HostRuntime) -> Result<(), Fail> {
    assert_eq!(rt; first_undone(rt.alloc(), TEXT_AND_LIST)?, None);
    Ok(())
}

#[test]
fn members_exchange(rt: HostRuntime) -> Result<(), Fail> {
    assert_eq!(rt; first_undone(rt.alloc(), EXCHANGE)?, None);
    Ok(())
}
