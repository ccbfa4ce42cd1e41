use super::*;
use cbor_det::{CborFault, Why};
use op_grammar::Rule;
use std::alloc::Global;
use std::test::Fail;
use version_vector::Vector;

/// A document of one member.
const ONE: DocRef = DocRef { id: [7; 16], n: 1 };

/// Its first file.
const FOUNDED: &[u8] =
    b"\x88\x67outline\x01\x00\x50\x07\x07\x07\x07\x07\x07\x07\x07\x07\x07\x07\x07\x07\x07\x07\x07\x01\x81\x00\x00\x00\x88\x00\x81\x83\x00\x00\x81\x00\x80\x80\x80\x80\x80\x80";

/// The same with one kept change, of time 5 and without operations.
const KEPT: &[u8] =
    b"\x88\x67outline\x01\x00\x50\x07\x07\x07\x07\x07\x07\x07\x07\x07\x07\x07\x07\x07\x07\x07\x07\x01\x81\x00\x01\x00\x88\x00\x81\x83\x00\x00\x81\x00\x80\x80\x80\x80\x80\x80\x87\x00\x01\x05\x81\x00\x00\x00\x40";

/// Bundles of two changes, and a file of kind 3, with what is wrong with each: the second change is no later, and there
/// is no such kind.
const BROKEN: [(&[u8], BadFile); 2] = [
    (
        b"\x88\x67outline\x01\x01\x50\x07\x07\x07\x07\x07\x07\x07\x07\x07\x07\x07\x07\x07\x07\x07\x07\x01\x80\x02\x00\x87\x00\x01\x05\x81\x00\x00\x00\x40\x87\x00\x02\x05\x81\x01\x00\x00\x40",
        BadFile::Rule {
            item: 2,
            rule: Rule::F4,
        },
    ),
    (
        b"\x88\x67outline\x01\x03\x50\x07\x07\x07\x07\x07\x07\x07\x07\x07\x07\x07\x07\x07\x07\x07\x07\x01\x80\x00\x00",
        BadFile::Rule {
            item: 0,
            rule: Rule::F1,
        },
    ),
];

/// What a scan of short bytes answers, unless they are those of a file.
fn fault_of(alloc: Global, bytes: &[u8]) -> Option<ScanFault> {
    if bytes.len() > 200 {
        return None;
    }
    match scan_file(alloc, bytes) {
        Ok(_) => None,
        Err(fault) => Some(fault),
    }
}

#[test]
fn first_files_are_written_and_read(rt: HostRuntime) -> Result<(), Fail> {
    let bytes = found(rt.alloc(), ONE)?;
    assert_eq!(rt; bytes.bytes(), FOUNDED);
    match scan_file(rt.alloc(), FOUNDED) {
        Ok(parts) => {
            assert_eq!(rt; parts.head().doc, ONE);
            assert_eq!(rt; parts.last_time(), 0);
            assert_eq!(rt; write_parts(rt.alloc(), &parts)?.bytes(), FOUNDED);
        }
        Err(_) => assert!(rt; false),
    }
    Ok(())
}

#[test]
fn a_file_is_cut_at_each_length(rt: HostRuntime) -> Result<(), Fail> {
    for at in 0..KEPT.len() {
        let ended = CborFault {
            at,
            why: Why::Ended,
        };
        assert_eq!(rt;
            fault_of(rt.alloc(), &KEPT[..at]),
            Some(ScanFault::Bad(BadFile::Cbor(ended)))
        );
    }
    assert_eq!(rt; fault_of(rt.alloc(), KEPT), None);
    Ok(())
}

#[test]
fn rules_are_named(rt: HostRuntime) -> Result<(), Fail> {
    for (bytes, fault) in BROKEN {
        assert_eq!(rt; fault_of(rt.alloc(), bytes), Some(ScanFault::Bad(fault)));
    }
    assert_eq!(rt;
        format!(in rt.alloc(); "{}", BROKEN[0].1)?.as_str(),
        "Rule 2 F4"
    );
    Ok(())
}

#[test]
fn members_are_taken_out(rt: HostRuntime) -> Result<(), Fail> {
    let mut members = Members::new(rt.alloc());
    members.push(3)?;
    members.push(5)?;
    assert_eq!(rt; members.len(), 2);
    members.remove(0);
    assert_eq!(rt; members.len(), 1);
    assert_eq!(rt; *members.at(0), 5);
    Ok(())
}

#[test]
fn a_bundle_has_what_is_not_counted(rt: HostRuntime) -> Result<(), Fail> {
    let alloc = rt.alloc();
    let mut vector = Vector::zero(alloc, 1);
    match scan_file(alloc, KEPT) {
        Ok(parts) => {
            if parts.head().doc.n == 1 {
                let all = parts.bundle_since(alloc, &vector)?;
                assert_eq!(rt; all.head().kind, BUNDLE);
                assert_eq!(rt; all.kept().len(), 1);
                vector.raise(0, 1);
                let none = parts.bundle_since(alloc, &vector)?;
                assert_eq!(rt; none.kept().len(), 0);
            }
        }
        Err(_) => assert!(rt; false),
    }
    Ok(())
}
