// What no clause says: that the calls succeed where memory is ample, and what the host's files do.
use crate::{
    HostKeeper, HostSink, Keeper, KeeperFault, Load, MemKeeper, MemSink, Sink, SinkFailed, Tally,
};
use std::fs;
use std::process::Abort;
use std::rt::Files;
use std::test::Fail;

// Whether pieces of three bytes make up this file.
fn holds<K: Keeper>(rt: &impl Abort, keeper: &mut K, name: &str, wanted: &[u8]) -> bool {
    let mut piece = [0; 3];
    let mut at = 0;
    for _ in 0..100u8 {
        match keeper.load(name, at as u64, &mut piece) {
            Ok(Load::Got(0)) => return at == wanted.len(),
            Ok(Load::Got(count)) => {
                assert!(rt; count <= 3 && at <= wanted.len() && count <= wanted.len() - at);
                if piece[..count] != wanted[at..at + count] {
                    return false;
                }
                at += count;
            }
            Ok(Load::Missing) | Err(_) => return false,
        }
    }
    false
}

#[test]
fn memory_keeps_files(rt: HostRuntime) -> Result<(), Fail> {
    let mut keeper = MemKeeper::new(rt.alloc(), &[7], &[1])?;
    keeper.put_file("a", b"first")?;
    keeper.put_file("a", b"a longer text")?;
    assert!(rt; holds(&rt, &mut keeper, "a", b"a longer text"));
    assert_eq!(rt; keeper.load("b", 0, &mut [0; 3]), Ok(Load::Missing));
    assert_eq!(rt; keeper.load("a", 0, &mut [0; 3]), Err(KeeperFault::Failed));
    assert_eq!(rt; keeper.store("b", b"stored"), Ok(()));
    assert_eq!(rt; keeper.store("b", b"again"), Err(KeeperFault::Failed));
    assert_eq!(rt;
        keeper.bytes_of("b").ok_or("missing")?,
        b"stored".as_slice()
    );
    Ok(())
}

#[test]
fn memory_takes_text(rt: HostRuntime) -> Result<(), Fail> {
    let mut sink = MemSink::new(rt.alloc(), 5, &[1])?;
    assert_eq!(rt; sink.put(b"abc"), Ok(3));
    assert_eq!(rt; sink.put(b"lost"), Err(SinkFailed));
    assert_eq!(rt; sink.put(b"defg"), Ok(2));
    assert_eq!(rt; sink.put(b"h"), Err(SinkFailed));
    assert_eq!(rt; sink.bytes(), b"abcde".as_slice());
    Ok(())
}

// The test of the host's files makes a folder with the file `b`, which holds `other`, the folder `full`, in which the file
// `x` holds `inner`, and the folder `a~`. These are the names there of which loads fail, which are missing, and of which stores fail.
const UNREADABLE: [&str; 3] = ["outside_test", "outside_test/full", "outside_test/b/x"];

const MISSING: [&str; 2] = ["outside_test/a", "outside_test/none/x"];

const UNSTORABLE: [&str; 3] = ["outside_test/full", "outside_test/b/x", "outside_test/a"];

fn make_folder(rt: &HostRuntime) -> Result<(), Fail> {
    let _ = fs::remove_dir_all(rt, "outside_test");
    fs::create_dir(rt, "outside_test")?;
    fs::write(rt, "outside_test/b", "other")?;
    fs::create_dir(rt, "outside_test/full")?;
    fs::write(rt, "outside_test/full/x", "inner")?;
    fs::create_dir(rt, "outside_test/a~")?;
    Ok(())
}

fn no_unreadable_file_is_missing(rt: &impl Abort, keeper: &mut impl Keeper) {
    for name in UNREADABLE {
        assert_eq!(rt;
            keeper.load(name, 0, &mut [0; 3]),
            Err(KeeperFault::Failed),
            "{name}"
        );
    }
    for name in MISSING {
        assert_eq!(rt;
            keeper.load(name, 0, &mut [0; 3]),
            Ok(Load::Missing),
            "{name}"
        );
    }
}

fn a_store_that_fails_leaves_nothing(
    rt: &(impl Files + Abort),
    keeper: &mut impl Keeper,
) -> Result<(), Fail> {
    for name in UNSTORABLE {
        assert_eq!(rt;
            keeper.store(name, b"never"),
            Err(KeeperFault::Failed),
            "{name}"
        );
    }
    assert_eq!(rt; fs::exists(rt, "outside_test/full~")?, false);
    assert_eq!(rt; fs::exists(rt, "outside_test/a")?, false);
    assert!(rt; holds(rt, keeper, "outside_test/full/x", b"inner"));
    assert!(rt; holds(rt, keeper, "outside_test/b", b"other"));
    Ok(())
}

fn a_store_replaces_the_file(
    rt: &(impl Files + Abort),
    keeper: &mut impl Keeper,
) -> Result<(), Fail> {
    assert_eq!(rt; keeper.store("outside_test/b", b"then this"), Ok(()));
    assert_eq!(rt; fs::exists(rt, "outside_test/b~")?, false);
    assert!(rt; holds(rt, keeper, "outside_test/b", b"then this"));
    let mut piece = [7; 6];
    assert_eq!(rt;
        keeper.load("outside_test/b", 5, &mut piece),
        Ok(Load::Got(4))
    );
    assert_eq!(rt; piece, *b"this\x07\x07");
    assert_eq!(rt;
        keeper.load("outside_test/b", 20, &mut piece),
        Ok(Load::Got(0))
    );
    Ok(())
}

#[test]
fn the_host_keeps_files(rt: HostRuntime) -> Result<(), Fail> {
    make_folder(&rt)?;
    let mut keeper = HostKeeper::new(&rt);
    no_unreadable_file_is_missing(&rt, &mut keeper);
    a_store_that_fails_leaves_nothing(&rt, &mut keeper)?;
    a_store_replaces_the_file(&rt, &mut keeper)?;
    fs::remove_dir_all(&rt, "outside_test")?;
    Ok(())
}

#[test]
fn the_host_prints(rt: HostRuntime) {
    let mut sink = HostSink::new(&rt);
    assert_eq!(rt; sink.put(b"printed\n"), Ok(8));
}

#[test]
fn a_tally_counts_apart(rt: HostRuntime) {
    let mut tally = Tally::new();
    tally.tick_move();
    tally.tick_decoded();
    tally.tick_decoded();
    assert_eq!(rt; (tally.moves(), tally.decoded()), (1, 2));
}
