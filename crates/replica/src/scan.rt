//! The bytes of a file, taken apart item by item.

ghost use Rattle.std.specs.Prelude.{◌≡◌, ◌+◌, ◌<◌, ◌≤◌, ◌^◌, length, List, IfOk, IfErr};
ghost use Rattle.cbor_det.specs.Item.{spell};
ghost use Rattle.cbor_det.specs.Unread.{unread, Took};
ghost use Rattle.model.specs.Change.{IsChange, change_item};
ghost use Rattle.model.specs.File.{IsHeader};
ghost use Rattle.replica.specs.Heads.{header_by};
ghost use Rattle.replica.specs.Scanning.{ScanAnswer, ScansKept, ScansWaiting, IsNoChange, Room};
ghost use Rattle.replica.specs.declared.fault.BadFile.TheVariants.{Rule as BrokenRule};
ghost use Rattle.replica.specs.declared.fault.ScanFault.TheVariants.{Bad as BadBytes};

use crate::changes::{check_kept, is_next_name};
use crate::fault::{BadFile, ScanFault};
use crate::head::FileHead;
use crate::opening::{opening_len, scan_opening};
use crate::parts::FileParts;
use cbor_det::Cursor;
use lazy_blocks::{Block, Shelf};
use op_grammar::Rule;
use std::alloc::Global;
use version_vector::Vector;

/// The parts of the file that the bytes spell, or their first fault. The least item with a fault decides; within an
/// item the flaw of its encoding comes first, and then the first rule that it breaks. What stands behind the last item
/// comes last. Of a file with another base than the empty one no item behind it is looked at.
pub fn scan_file<'a>(alloc: Global, bytes: &'a [u8]) -> Result<FileParts<'a>, ScanFault>
    requires { length bytes.now < 2 ^ 32 }
    ensures { ScanAnswer bytes.now result }
{
    let mut cursor = Cursor::new(bytes);
    let head = scan_opening(alloc, &mut cursor)?;
    let first = opening_len(head.kind);
    let kept = scan_kept(alloc, &mut cursor, first, &head)?;
    let waiting = scan_waiting(alloc, &mut cursor, first + head.kept, &head, &kept)?;
    if !cursor.is_end() {
        return Err(ScanFault::Bad(BadFile::Trailing { at: cursor.at() }));
    }
    Ok(FileParts::of(head, kept, waiting))
}

/// The kept changes, whose first has this number as an item.
fn scan_kept<'a>(
    alloc: Global,
    cursor: &mut Cursor<'a>,
    first: u32,
    head: &FileHead,
) -> Result<Shelf<'a>, ScanFault>
    requires header { IsHeader (header_by head.now) }
    requires room { Room first (unread cursor.old) }
    ensures { ScansKept first head.now (unread cursor.old) (unread cursor.new) result }
{
    let mut kept = Shelf::new(alloc);
    let mut counts = Vector::zero(alloc, head.doc.n);
    'kept: for read in 0..head.kept {
        let block = read_block(alloc, cursor, head.doc.n, first + read)?;
        if let Err(rule) = check_kept(&block, head, &kept, &counts) {
            return Err(broken(first + read, rule));
        }
        counts.raise(block.head().member, block.head().number);
        kept.push(block)?;
    }
    Ok(kept)
}

/// The waiting changes, whose first has this number as an item.
fn scan_waiting<'a>(
    alloc: Global,
    cursor: &mut Cursor<'a>,
    first: u32,
    head: &FileHead,
    kept: &Shelf<'a>,
) -> Result<Shelf<'a>, ScanFault>
    requires header { IsHeader (header_by head.now) }
    requires kept { length kept.now ≡ head.now.kept }
    requires room { Room first (unread cursor.old) }
    ensures { ScansWaiting first head.now kept.now (unread cursor.old) (unread cursor.new) result }
{
    let mut waiting = Shelf::new(alloc);
    'waiting: for read in 0..head.waiting {
        let block = read_block(alloc, cursor, head.doc.n, first + read)?;
        if !is_next_name(&waiting, &block) {
            return Err(broken(first + read, Rule::F4));
        }
        waiting.push(block)?;
    }
    Ok(waiting)
}

/// The change of a document of n members that stands next, as the item of this number; or what is wrong with that item.
/// Its bytes are gone over once, and again only where something is wrong.
fn read_block<'a>(
    alloc: Global,
    cursor: &mut Cursor<'a>,
    n: u8,
    item: u32,
) -> Result<Block<'a>, ScanFault>
    requires some { 0 < n }
    requires few { n ≤ 32 }
    ensures ok { IfOk result (λ block. IsChange n block
        × Took (spell (change_item block)) (unread cursor.old) (unread cursor.new)) }
    ensures err { IfErr result (IsNoChange n item (unread cursor.old)) }
    ensures len { (unread cursor.new).len ≡ (unread cursor.old).len }
{
    match Block::take(alloc, cursor, n) {
        Some(block) => Ok(block),
        None => check_item(alloc, cursor, n, item),
    }
}

/// The same, the item being gone over first.
fn check_item<'a>(
    alloc: Global,
    cursor: &mut Cursor<'a>,
    n: u8,
    item: u32,
) -> Result<Block<'a>, ScanFault>
    requires some { 0 < n }
    requires few { n ≤ 32 }
    ensures ok { IfOk result (λ block. IsChange n block
        × Took (spell (change_item block)) (unread cursor.old) (unread cursor.new)) }
    ensures err { IfErr result (IsNoChange n item (unread cursor.old)) }
    ensures len { (unread cursor.new).len ≡ (unread cursor.old).len }
{
    let span = cursor.skip_item()?;
    match Block::check(alloc, span, n) {
        Ok(block) => Ok(block),
        Err(rule) => Err(broken(item, rule)),
    }
}

/// The fault of an item that breaks a rule.
fn broken(item: u32, rule: Rule) -> ScanFault
    ensures { result ≡ BadBytes (BrokenRule item rule) }
{
    ScanFault::Bad(BadFile::Rule { item, rule })
}
