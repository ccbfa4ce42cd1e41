//! The file that a command reads: taken apart, found to be of a kind that the command takes, and built up to what it holds.

ghost use Rattle.std.specs.Prelude.{◌≡◌, ◌≢◌, ◌≤◌, ◌*◌, List, IfOk, length};
ghost use Rattle.model.specs.File.{File, Kind, bundle, kind_number, file_limit};
ghost use Rattle.doc_store.specs.Documents.{DecodesSome};
ghost use Rattle.member_replica.specs.Work.{operations_in};
ghost use Rattle.outline_meaning.specs.Meaning.{exactly, scanned, opened};
ghost use Rattle.outline_meaning.specs.Opened.{IsScanned, AreKinds};
ghost use Rattle.outline_meaning.specs.Outcome.{fitting, of_kind};
ghost use Rattle.outline_meaning.specs.Follows.{Follows};

use member_replica::{BuildFault, Replica};
use outline_meaning::Status;
use outside::Tally;
use replica::{FileParts, ScanFault, scan_file};
use std::alloc::Global;

/// Takes apart the file that the bytes spell which a word of the command line names.
fn scan<'a>(alloc: Global, word: u32, bytes: &'a [u8]) -> Result<FileParts<'a>, Status>
    requires { length bytes.now ≤ file_limit }
    ensures told { Follows (λ parts. parts) result (scanned word bytes.now) }
    ensures is { IfOk result (IsScanned bytes.now) }
{
    match scan_file(alloc, bytes) {
        Ok(parts) => Ok(parts),
        Err(ScanFault::Bad(why)) => Err(Status::BadFile { word, why }),
        Err(ScanFault::OtherBase) => Err(Status::NotBuilt { word }),
        Err(ScanFault::NoMemory) => Err(Status::NoMemory),
    }
}

/// Finds that a kind is one of these.
fn check_kind(word: u32, kind: u8, kinds: &[u8]) -> Result<(), Status>
    ensures { (f : File) (taken : List Kind) → kind ≡ kind_number f.kind → AreKinds kinds.now taken
        → Follows (λ u. f) result (exactly (of_kind word taken f)) }
{
    if kinds.contains(&kind) {
        Ok(())
    } else {
        Err(Status::OtherKind { word, kind })
    }
}

/// Opens the file that the bytes spell which a word of the command line names: its base is taken, and it is of one of
/// these kinds.
pub(crate) fn open<'a>(
    alloc: Global,
    word: u32,
    bytes: &'a [u8],
    kinds: &[u8],
) -> Result<FileParts<'a>, Status>
    requires { length bytes.now ≤ file_limit }
    ensures told { (taken : List Kind) → AreKinds kinds.now taken
        → Follows (λ parts. parts) result (opened word taken bytes.now) }
    ensures is { IfOk result (IsScanned bytes.now) }
{
    let parts = scan(alloc, word, bytes)?;
    check_kind(word, parts.head().kind, kinds)?;
    Ok(parts)
}

/// The replica of a file whose changes fit one another. A word of the command line names the file.
pub(crate) fn replica_of<'a>(
    alloc: Global,
    word: u32,
    parts: FileParts<'a>,
    tally: &mut Tally,
) -> Result<Replica<'a>, Status>
    requires { parts.kind ≢ bundle }
    ensures told { Follows (λ r. tt) result (exactly (fitting word parts.entry)) }
    ensures is { IfOk result (λ r. r ≡ parts.entry) }
    ensures tally { DecodesSome tally.old tally.new (2 * operations_in parts.entry.kept) }
{
    match Replica::build(alloc, parts, tally) {
        Ok(replica) => Ok(replica),
        Err(
            BuildFault::Unfit {
                member,
                number,
                misfit,
            },
        ) => Err(Status::Unfit {
            word,
            member,
            number,
            misfit,
        }),
        Err(BuildFault::NoMemory) => Err(Status::NoMemory),
    }
}
