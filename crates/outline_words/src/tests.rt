use super::*;
use std::alloc::{AllocError, Global};
use std::test::*;

const DOCUMENT: &str = "00112233445566778899aabbccddeeff";

// Words that are no document: of 31 digits, of 33, and with upper-case digits.
const SHORT: &str = "00112233445566778899aabbccddeef";

const LONG: &str = "00112233445566778899aabbccddeeff0";

const UPPER: &str = "00112233445566778899AABBCCDDEEFF";

// 32 and 33 counts.
const MOST: &str = "0,0,0,0,0,0,0,0,0,0,0,0,0,0,0,0,0,0,0,0,0,0,0,0,0,0,0,0,0,0,0,0";

const MANY: &str = "0,0,0,0,0,0,0,0,0,0,0,0,0,0,0,0,0,0,0,0,0,0,0,0,0,0,0,0,0,0,0,0,0";

fn words_of(alloc: Global, list: &[&str]) -> Result<Words, AllocError> {
    let mut words = Words::new(alloc);
    for word in list {
        words.push(*word)?;
    }
    Ok(words)
}

fn letters(alloc: Global, count: usize) -> Result<String, AllocError> {
    let mut text = String::new(alloc);
    for _ in 0..count {
        text.push('a')?;
    }
    Ok(text)
}

/// The words of each command but `bundle`, and how the command is printed.
const GIVEN: &[(&[&str], &str)] = &[
    (
        &["found", DOCUMENT, "32", "a.txt"],
        "Found { doc: [0, 17, 34, 51, 68, 85, 102, 119, 136, 153, 170, 187, 204, 221, 238, 255], n: 32, name: \"a.txt\" }",
    ),
    (
        &["new", "a", "root", "0"],
        "New { name: \"a\", parent: OpId { time: 0, member: 0, index: 0 }, i: 0 }",
    ),
    (
        &["move", "a", "1.2.3", "trash", "4294967295"],
        "Move { name: \"a\", child: OpId { time: 1, member: 2, index: 3 }, parent: OpId { time: 0, member: 0, index: 1 }, i: 4294967295 }",
    ),
    (
        &["trash", "a", "281474976710655.31.65535"],
        "Trash { name: \"a\", child: OpId { time: 281474976710655, member: 31, index: 65535 } }",
    ),
    (
        &["put", "a", "root", "key", "-7"],
        "Put { name: \"a\", node: OpId { time: 0, member: 0, index: 0 }, key: \"key\", value: Plain(Int(-7)) }",
    ),
    (
        &["unset", "-._Z9", "root", ""],
        "Unset { name: \"-._Z9\", node: OpId { time: 0, member: 0, index: 0 }, key: \"\" }",
    ),
    (
        &["type", "a", "root", "2", "ü x"],
        "TypeText { name: \"a\", node: OpId { time: 0, member: 0, index: 0 }, at: 2, text: \"ü x\" }",
    ),
    (
        &["erase", "a", "root", "2", "3"],
        "Erase { name: \"a\", node: OpId { time: 0, member: 0, index: 0 }, at: 2, count: 3 }",
    ),
    (
        &["add", "a", "root", "2", "true"],
        "Add { name: \"a\", node: OpId { time: 0, member: 0, index: 0 }, at: 2, value: Plain(Bool(true)) }",
    ),
    (
        &["shift", "a", "root", "2", "3"],
        "Shift { name: \"a\", node: OpId { time: 0, member: 0, index: 0 }, from: 2, to: 3 }",
    ),
    (
        &["set", "a", "root", "2", "#00ff"],
        "Set { name: \"a\", node: OpId { time: 0, member: 0, index: 0 }, at: 2, value: Digits(\"00ff\") }",
    ),
    (
        &["drop", "a", "root", "2"],
        "DropItem { name: \"a\", node: OpId { time: 0, member: 0, index: 0 }, at: 2 }",
    ),
    (&["ack", "a"], "Ack { name: \"a\" }"),
    (&["show", "a"], "Show { name: \"a\" }"),
    (&["status", "a"], "Status { name: \"a\" }"),
    (&["log", "a"], "Log { name: \"a\" }"),
    (
        &["deliver", "a", "b"],
        "Deliver { name: \"a\", bundle: \"b\" }",
    ),
    (&["trim", "a"], "Trim { name: \"a\" }"),
    (
        &["snapshot", "a", "b"],
        "Snapshot { name: \"a\", out: \"b\" }",
    ),
    (
        &["release", "a", "31"],
        "Release { name: \"a\", member: 31 }",
    ),
    (
        &["begin", "a", "0", "b"],
        "Begin { source: \"a\", member: 0, name: \"b\" }",
    ),
    (&["check", "a"], "Check { name: \"a\" }"),
    (&["items", "a"], "Items { name: \"a\" }"),
    (&["play", "a"], "Play { name: \"a\" }"),
    (
        &["sample", "18446744073709551615", "2000", "a"],
        "Sample { seed: 18446744073709551615, size: 2000, name: \"a\" }",
    ),
];

#[test]
fn each_command_is_given(rt: HostRuntime) -> Result<(), Fail> {
    for &(list, printed) in GIVEN {
        let words = words_of(rt.alloc(), list)?;
        match read_words(rt.alloc(), &words) {
            Ok(command) => {
                assert_eq!(rt; format!(in rt.alloc(); "{command:?}")?.as_str(), printed);
            }
            Err(fault) => assert!(rt; false, "{list:?}: {fault:?}"),
        }
    }
    Ok(())
}

/// Words of vectors, and how many counts they have.
const VECTORS: &[(&str, u8)] = &[("0", 1), ("4294967295,7", 2), (MOST, 32)];

#[test]
fn bundle_gives_the_vector(rt: HostRuntime) -> Result<(), Fail> {
    for &(word, counts) in VECTORS {
        let words = words_of(rt.alloc(), &["bundle", "a", word, "b"])?;
        match read_words(rt.alloc(), &words) {
            Ok(Command::Bundle { name, vector, out }) => {
                assert_eq!(rt; name, "a");
                assert_eq!(rt; vector.len(), counts);
                assert_eq!(rt; vector.text()?.as_str(), word);
                assert_eq!(rt; out, "b");
            }
            _ => assert!(rt; false, "{word}"),
        }
    }
    Ok(())
}

/// Words of values, and how what they say is printed.
const VALUES: &[(&str, &str)] = &[
    ("null", "Plain(Null)"),
    ("true", "Plain(Bool(true))"),
    ("false", "Plain(Bool(false))"),
    ("0", "Plain(Int(0))"),
    ("-1", "Plain(Int(-1))"),
    ("9223372036854775807", "Plain(Int(9223372036854775807))"),
    ("-9223372036854775808", "Plain(Int(-9223372036854775808))"),
    ("=", "Plain(Text(\"\"))"),
    ("=null", "Plain(Text(\"null\"))"),
    ("==ü 1", "Plain(Text(\"=ü 1\"))"),
    ("#", "Digits(\"\")"),
    ("#00ff7a", "Digits(\"00ff7a\")"),
];

#[test]
fn put_gives_each_value(rt: HostRuntime) -> Result<(), Fail> {
    for &(word, printed) in VALUES {
        let words = words_of(rt.alloc(), &["put", "a", "root", "key", word])?;
        match read_words(rt.alloc(), &words) {
            Ok(Command::Put { value, .. }) => {
                assert_eq!(rt; format!(in rt.alloc(); "{value:?}")?.as_str(), printed);
            }
            _ => assert!(rt; false, "{word}"),
        }
    }
    Ok(())
}

#[test]
fn names_have_at_most_250_characters(rt: HostRuntime) -> Result<(), Fail> {
    let longest = letters(rt.alloc(), 250)?;
    let words = words_of(rt.alloc(), &["show", longest.as_str()])?;
    match read_words(rt.alloc(), &words) {
        Ok(Command::Show { name }) => assert_eq!(rt; name, longest.as_str()),
        _ => assert!(rt; false, "the longest name"),
    }
    let longer = letters(rt.alloc(), 251)?;
    let words = words_of(rt.alloc(), &["show", longer.as_str()])?;
    match read_words(rt.alloc(), &words) {
        Ok(_) => assert!(rt; false, "a longer name"),
        Err(fault) => assert_eq!(rt; fault, WordFault { word: 1 }),
    }
    Ok(())
}

/// Words that are no command, and the first wrong one.
const WRONG: &[(&[&str], u32)] = &[
    (&[], 0),
    (&[""], 0),
    (&["Show", "a"], 0),
    (&["new"], 1),
    (&["help"], 0),
    (&["show"], 1),
    (&["show", ""], 1),
    (&["show", ".a"], 1),
    (&["show", "a/b"], 1),
    (&["show", "a", "b"], 2),
    (&["show", "", "b"], 1),
    (&["found"], 1),
    (&["found", SHORT, "1", "a"], 1),
    (&["found", LONG, "1", "a"], 1),
    (&["found", UPPER, "1", "a"], 1),
    (&["found", DOCUMENT], 2),
    (&["found", DOCUMENT, "0", "a"], 2),
    (&["found", DOCUMENT, "33", "a"], 2),
    (&["found", DOCUMENT, "01", "a"], 2),
    (&["found", DOCUMENT, "", ""], 2),
    (&["found", DOCUMENT, "1"], 3),
    (&["found", DOCUMENT, "1", "a", ""], 4),
    (&["new", "a", "root", "4294967296"], 3),
    (&["new", "a", "root", "-1"], 3),
    (&["bundle", "a", "", "b"], 2),
    (&["bundle", "a", "1,,2", "b"], 2),
    (&["bundle", "a", "1,02", "b"], 2),
    (&["bundle", "a", "4294967296", "b"], 2),
    (&["bundle", "a", MANY, "b"], 2),
    (&["release", "a", "32"], 2),
    (&["sample", "18446744073709551616", "1", "a"], 1),
    (&["sample", "0", "0", "a"], 2),
    (&["sample", "0", "2001", "a"], 2),
    (&["unset", "a", "0.0.0", "k"], 2),
    (&["unset", "a", "root"], 3),
    (&["unset", "a", "root", "k", "k"], 4),
    (&["put", "a", "Root", "k", "1"], 2),
    (&["put", "a", "root", "k"], 4),
    (&["put", "a", "root", "k", "1", "1"], 5),
];

#[test]
fn the_first_wrong_word_is_named(rt: HostRuntime) -> Result<(), Fail> {
    for &(list, word) in WRONG {
        let words = words_of(rt.alloc(), list)?;
        match read_words(rt.alloc(), &words) {
            Ok(_) => assert!(rt; false, "{list:?}"),
            Err(fault) => assert_eq!(rt; fault, WordFault { word }, "{list:?}"),
        }
    }
    Ok(())
}

const NO_VALUES: &[&str] = &[
    "",
    "nul",
    "True",
    "01",
    "-",
    "-0",
    "-01",
    "+1",
    "1.0",
    "9223372036854775808",
    "-9223372036854775809",
    "99999999999999999999",
    "#0",
    "#AB",
    "#0g",
    "# 00",
];

#[test]
fn wrong_values_are_named(rt: HostRuntime) -> Result<(), Fail> {
    for &word in NO_VALUES {
        let words = words_of(rt.alloc(), &["put", "a", "root", "k", word])?;
        match read_words(rt.alloc(), &words) {
            Ok(_) => assert!(rt; false, "{word}"),
            Err(fault) => assert_eq!(rt; fault, WordFault { word: 4 }, "{word}"),
        }
    }
    Ok(())
}
