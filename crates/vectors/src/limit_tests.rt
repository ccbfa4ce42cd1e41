use crate::files::{DOCUMENT, NO_CHANGE, at_time, of_length, one_change, with_body};
use crate::runs::status_over;
use op_grammar::Rule;
use outline_cmd::{BadFile, EditFault, Status};
use std::alloc::{AllocError, Global};
use std::test::*;

const PUT: &[&str] = &["put", "a", "root", "k", "1"];

const SHOW: &[&str] = &["show", "a"];

/// The first change breaks G6, or G7.
const WRONG_BODY: Status = Status::BadFile {
    word: 1,
    why: BadFile::Rule {
        item: 2,
        rule: Rule::G6,
    },
};

const WRONG_OPERATIONS: Status = Status::BadFile {
    word: 1,
    why: BadFile::Rule {
        item: 2,
        rule: Rule::G7,
    },
};

const TOO_LARGE: Status = Status::TooLarge {
    word: 1,
    bytes: 16_777_217,
};

const KEY_TOO_LONG: Status = Status::Edit {
    fault: EditFault::TooLong,
    word: 3,
};

const VALUE_TOO_LONG: Status = Status::Edit {
    fault: EditFault::TooLong,
    word: 4,
};

/// A front, and how often a part stands behind it.
type Repeated<'a> = (&'a str, &'a str, usize);

fn text_of(alloc: Global, (front, part, times): Repeated<'_>) -> Result<String, AllocError> {
    let mut text = String::from_str(alloc, front)?;
    for _ in 0..times {
        text.push_str(part)?;
    }
    Ok(text)
}

/// Keys and values, whose lengths are of bytes: `é` has two. The key comes first.
const LENGTHS: &[(Repeated<'_>, Repeated<'_>, Status)] = &[
    (("", "k", 256), ("1", "", 0), Status::Done),
    (("", "k", 257), ("1", "", 0), KEY_TOO_LONG),
    (("", "é", 128), ("1", "", 0), Status::Done),
    (("", "é", 129), ("1", "", 0), KEY_TOO_LONG),
    (("k", "", 0), ("=", "x", 65_536), Status::Done),
    (("k", "", 0), ("=", "x", 65_537), VALUE_TOO_LONG),
    (("k", "", 0), ("=", "é", 32_769), VALUE_TOO_LONG),
    (("k", "", 0), ("#", "07", 65_536), Status::Done),
    (("k", "", 0), ("#", "07", 65_537), VALUE_TOO_LONG),
    (("", "k", 257), ("=", "x", 65_537), KEY_TOO_LONG),
];

#[test]
fn keys_and_values_have_lengths(rt: HostRuntime) -> Result<(), Fail> {
    let alloc = rt.alloc();
    for &(key, value, status) in LENGTHS {
        let key_text = text_of(alloc, key)?;
        let value_text = text_of(alloc, value)?;
        let line = ["put", "a", "root", key_text.as_str(), value_text.as_str()];
        let (answer, _) = status_over(alloc, NO_CHANGE, &line)?;
        assert_eq!(rt; answer, status, "{key:?} {value:?}");
    }
    Ok(())
}

#[test]
fn names_have_250_characters(rt: HostRuntime) -> Result<(), Fail> {
    let alloc = rt.alloc();
    for (len, status) in [
        (250, Status::Done),
        (251, Status::Words { line: 0, word: 3 }),
    ] {
        let name = text_of(alloc, ("", "n", len))?;
        let line = ["found", DOCUMENT, "1", name.as_str()];
        let (answer, _) = status_over(alloc, NO_CHANGE, &line)?;
        assert_eq!(rt; answer, status, "a name of {len}");
    }
    Ok(())
}

/// A file that is made for a limit.
#[derive(Clone, Copy, Debug)]
enum Made {
    /// One change of so many puts and then one of so many bytes.
    OneChange(u64, u64),
    /// One whose body has so many bytes.
    Body(usize),
    /// One of so many bytes.
    Length(usize),
    /// So many bytes of zero.
    Zeros(usize),
    /// One change at this time.
    Time(u64),
}

fn bytes_of(alloc: Global, made: Made) -> Result<Vec<u8>, AllocError> {
    match made {
        Made::OneChange(puts, len) => one_change(alloc, puts, len),
        Made::Body(len) => with_body(alloc, len),
        Made::Length(len) => of_length(alloc, len),
        Made::Zeros(len) => vec![in alloc; 0u8; len],
        Made::Time(time) => at_time(alloc, time),
    }
}

/// Of each file how a command ends, and by how many bytes it grows. A change has at most 65,536 operations, a value
/// 65,536 bytes, a body 1,048,576, and a file 16,777,216; what comes behind these isn't looked at. A time is below 2^48.
const FILES: &[(Made, &[&str], Status, usize)] = &[
    (Made::OneChange(65_535, 1), SHOW, Status::Done, 0),
    (Made::OneChange(65_536, 1), SHOW, WRONG_OPERATIONS, 0),
    (Made::OneChange(0, 65_536), SHOW, Status::Done, 0),
    (Made::OneChange(0, 65_537), SHOW, WRONG_OPERATIONS, 0),
    (Made::Body(1_048_576), SHOW, Status::Done, 0),
    (Made::Body(1_048_577), SHOW, WRONG_BODY, 0),
    (Made::Length(16_777_216), SHOW, Status::Done, 0),
    (Made::Length(16_777_217), SHOW, TOO_LARGE, 0),
    (Made::Zeros(17_000_000), SHOW, TOO_LARGE, 0),
    (Made::Length(16_777_192), PUT, Status::Done, 24),
    (Made::Length(16_777_193), PUT, TOO_LARGE, 0),
    (Made::Length(16_777_217), PUT, TOO_LARGE, 0),
    (Made::Time(281_474_976_710_654), PUT, Status::Done, 26),
    (
        Made::Time(281_474_976_710_655),
        PUT,
        Status::ClockFull {
            time: 281_474_976_710_655,
            member: 0,
            number: 1,
        },
        0,
    ),
];

#[test]
fn files_have_lengths_and_times(rt: HostRuntime) -> Result<(), Fail> {
    let alloc = rt.alloc();
    for &(made, line, status, more) in FILES {
        let bytes = bytes_of(alloc, made)?;
        if let Made::Length(len) = made {
            assert_eq!(rt; bytes.len(), len);
        }
        let (answer, len) = status_over(alloc, &bytes, line)?;
        assert_eq!(rt; answer, status, "{made:?}");
        assert_eq!(rt; Some(len), bytes.len().checked_add(more), "{made:?}");
    }
    Ok(())
}
