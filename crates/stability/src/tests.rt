ghost use Rattle.std.specs.Prelude.{◌≡◌, length};

use super::*;
use op_grammar::Head;
use std::alloc::Global;
use std::test::Fail;
use version_vector::Vector;

/// A change of one of three members, and behind it how many are held and how many are known to all.
struct Case {
    member: u8,
    number: u32,
    time: u64,
    causes: [u32; 3],
    vector: &'static str,
    stable: &'static str,
}

const CASES: [Case; 6] = [
    Case {
        member: 0,
        number: 1,
        time: 3,
        causes: [0, 0, 0],
        vector: "1,0,0",
        stable: "0,0,0",
    },
    Case {
        member: 1,
        number: 1,
        time: 4,
        causes: [0, 0, 0],
        vector: "1,1,0",
        stable: "0,0,0",
    },
    Case {
        member: 0,
        number: 2,
        time: 10,
        causes: [1, 1, 0],
        vector: "2,1,0",
        stable: "0,0,0",
    },
    Case {
        member: 2,
        number: 1,
        time: 12,
        causes: [2, 1, 0],
        vector: "2,1,1",
        stable: "0,1,0",
    },
    Case {
        member: 1,
        number: 2,
        time: 14,
        causes: [2, 1, 1],
        vector: "2,2,1",
        stable: "2,1,0",
    },
    Case {
        member: 0,
        number: 3,
        time: 20,
        causes: [2, 2, 0],
        vector: "3,2,1",
        stable: "2,1,0",
    },
];

/// A member of three that made no change.
fn silent(alloc: Global) -> MemberRow
    ensures { length result.known ≡ 3 }
{
    MemberRow {
        count: 0,
        last: 0,
        known: Vector::zero(alloc, 3),
    }
}

fn head_of(alloc: Global, case: &Case) -> Head
    ensures { length result.causes ≡ 3 }
{
    let mut causes = Vector::zero(alloc, 3);
    causes.raise(0, case.causes[0]);
    causes.raise(1, case.causes[1]);
    causes.raise(2, case.causes[2]);
    Head {
        member: case.member,
        number: case.number,
        time: case.time,
        causes,
        count: 1,
        width: 1,
    }
}

#[test]
fn members_make_known_what_they_know(rt: HostRuntime) -> Result<(), Fail> {
    let alloc = rt.alloc();
    let rows = [silent(alloc), silent(alloc), silent(alloc)];
    let mut fronts = Fronts::from_rows(alloc, &rows)?;
    for case in &CASES {
        let head = head_of(alloc, case);
        assert!(rt; fronts.len() == 3 && head.member < 3);
        fronts.take(&head);
        assert_eq!(rt; fronts.vector().text()?.as_str(), case.vector);
        assert_eq!(rt; fronts.stable().text()?.as_str(), case.stable);
    }
    assert_eq!(rt; fronts.len(), 3);
    assert_eq!(rt; fronts.known(1).text()?.as_str(), "2,2,1");
    assert_eq!(rt; fronts.last(2), 12);
    let mut horizon = Horizon::of(&fronts);
    assert_eq!(rt; horizon.time, 12);
    for case in &CASES {
        let head = head_of(alloc, case);
        assert!(rt; head.member < horizon.stable.len());
        horizon.pass(&head);
    }
    assert_eq!(rt; horizon.time, 11);
    Ok(())
}
