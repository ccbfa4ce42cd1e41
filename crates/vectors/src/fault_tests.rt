use crate::files::{DOCUMENT, NO_CHANGE, ONE_KEY, ONE_KEY_TEXT};
use crate::runs::{Faults, NO_FAULTS, Step, take, take_with};
use op_grammar::Rule;
use outline_cmd::{BadFile, Status};
use outside::MemKeeper;
use std::test::*;

const FOUND: &[&str] = &["found", DOCUMENT, "2", "b"];

const PUT: &[&str] = &["put", "a", "root", "a", "true"];

const SHOW: &[&str] = &["show", "a"];

const LOAD_0: Faults<'_> = Faults {
    loads: &[0],
    ..NO_FAULTS
};

const LOAD_1: Faults<'_> = Faults {
    loads: &[1],
    ..NO_FAULTS
};

const LOAD_2: Faults<'_> = Faults {
    loads: &[2],
    ..NO_FAULTS
};

const STORE_0: Faults<'_> = Faults {
    stores: &[0],
    ..NO_FAULTS
};

const STORE_1: Faults<'_> = Faults {
    stores: &[1],
    ..NO_FAULTS
};

const PUT_0: Faults<'_> = Faults {
    puts: &[0],
    ..NO_FAULTS
};

const ROOM_FOR_10: Faults<'_> = Faults {
    room: 10,
    ..NO_FAULTS
};

const UNREAD: Status = Status::ReadFault { word: 1 };

/// Over the file without a change. A put loads its file twice, as the second load finds its end, and `found` loads the
/// new name once; a command that isn't built is refused before any load. A run stores once, and a store that fails leaves all
/// as before. Where a print fails, the store stands, and what there is room for is printed.
const FAULTS: &[(Faults<'_>, &[&str], Status, &str, &[u8])] = &[
    (LOAD_0, PUT, UNREAD, "", NO_CHANGE),
    (LOAD_1, PUT, UNREAD, "", NO_CHANGE),
    (LOAD_2, PUT, Status::Done, "made 0 1 1\n", ONE_KEY),
    (LOAD_0, FOUND, Status::ReadFault { word: 3 }, "", NO_CHANGE),
    (LOAD_1, FOUND, Status::Done, "holds 0,1\n", NO_CHANGE),
    (
        LOAD_0,
        &["trim", "a"],
        Status::NotBuilt { word: 0 },
        "",
        NO_CHANGE,
    ),
    (LOAD_0, SHOW, UNREAD, "", NO_CHANGE),
    (LOAD_1, SHOW, UNREAD, "", NO_CHANGE),
    (LOAD_2, SHOW, Status::Done, "node 0 root\n", NO_CHANGE),
    (STORE_0, PUT, Status::WriteFault, "", NO_CHANGE),
    (STORE_0, FOUND, Status::WriteFault, "", NO_CHANGE),
    (STORE_1, PUT, Status::Done, "made 0 1 1\n", ONE_KEY),
    (STORE_1, FOUND, Status::Done, "holds 0,1\n", NO_CHANGE),
    (PUT_0, PUT, Status::SinkFault, "", ONE_KEY),
    (ROOM_FOR_10, PUT, Status::SinkFault, "made 0 1 1", ONE_KEY),
    (PUT_0, FOUND, Status::SinkFault, "", NO_CHANGE),
    (PUT_0, SHOW, Status::SinkFault, "", NO_CHANGE),
    (
        ROOM_FOR_10,
        SHOW,
        Status::SinkFault,
        "node 0 roo",
        NO_CHANGE,
    ),
];

#[test]
fn calls_fail(rt: HostRuntime) -> Result<(), Fail> {
    for (faults, line, status, text, after) in FAULTS {
        let step = Step {
            line,
            status: *status,
            text,
            after,
        };
        let went = take_with(rt.alloc(), NO_CHANGE, faults, &step)?;
        assert_eq!(rt; went, (*status, true, true), "{line:?}");
    }
    Ok(())
}

/// What follows on each other over a keeper whose store 0 fails: a refusal uses no store, and the next try does what the
/// first was to do.
const TRIES: &[(&[&str], Status, &str, &[u8])] = &[
    (
        &["put", "b", "root", "a", "true"],
        Status::Missing { word: 1 },
        "",
        NO_CHANGE,
    ),
    (PUT, Status::WriteFault, "", NO_CHANGE),
    (PUT, Status::Done, "made 0 1 1\n", ONE_KEY),
    (SHOW, Status::Done, ONE_KEY_TEXT, ONE_KEY),
];

#[test]
fn tries_again(rt: HostRuntime) -> Result<(), Fail> {
    let alloc = rt.alloc();
    let mut keeper = MemKeeper::new(alloc, &[], &[0])?;
    keeper.put_file("a", NO_CHANGE)?;
    for &(line, status, text, after) in TRIES {
        let step = Step {
            line,
            status,
            text,
            after,
        };
        let went = take(alloc, &mut keeper, &step)?;
        assert_eq!(rt; went, (status, true, true), "{line:?}");
    }
    Ok(())
}

/// Item 0 breaks F1.
const NO_HEADER: Status = Status::BadFile {
    word: 1,
    why: BadFile::Rule {
        item: 0,
        rule: Rule::F1,
    },
};

/// Files of so many zeros, which are loaded in pieces of 65,536 bytes, up to the first that goes past 16,777,216: which
/// load fails, and how a `show` ends.
const PIECES: &[(usize, &[u64], Status)] = &[
    (130_000, &[2], UNREAD),
    (130_000, &[3], NO_HEADER),
    (17_000_000, &[256], UNREAD),
    (
        17_000_000,
        &[257],
        Status::TooLarge {
            word: 1,
            bytes: 16_777_217,
        },
    ),
];

#[test]
fn loads_pieces_up_to_the_limit(rt: HostRuntime) -> Result<(), Fail> {
    let alloc = rt.alloc();
    for &(len, loads, status) in PIECES {
        let bytes = vec![in alloc; 0u8; len]?;
        let faults = Faults { loads, ..NO_FAULTS };
        let step = Step {
            line: SHOW,
            status,
            text: "",
            after: &bytes,
        };
        let went = take_with(alloc, &bytes, &faults, &step)?;
        assert_eq!(rt; went, (status, true, true), "{len} {loads:?}");
    }
    Ok(())
}
