//! Deliveries: the changes of a bundle for the file of a member.

ghost use Rattle.std.specs.Prelude.{◌≡◌, ◌≤◌, ◌+◌, ◌*◌, List, ℕ, IfOk, length, vec_len};
ghost use Rattle.model.specs.Command.{deliver as delivers};
ghost use Rattle.model.specs.File.{file_limit, member_file};
ghost use Rattle.model.specs.Stands.{IsStored};
ghost use Rattle.doc_store.specs.Documents.{DecodesSome};
ghost use Rattle.member_replica.specs.Work.{operations_in, readied_in};
ghost use Rattle.outline_words.specs.Table.{command};
ghost use Rattle.outline_meaning.specs.Meaning.{Loaded, exactly, read, reads_two};
ghost use Rattle.outline_meaning.specs.Outcome.{delivered};
ghost use Rattle.outline_meaning.specs.Follows.{Follows};
ghost use Rattle.outline_cmd.specs.Stages.{answer_of};
ghost use Rattle.outline_cmd.specs.Tasks.{answering, order_made_of, over};
ghost use Rattle.outline_meaning.specs.Works.{ReadsTwo};

use crate::answer::{Answer, Store};
use crate::opened::{open, replica_of};
use crate::same_document::check_document;
use outline_meaning::Status;
use outside::Tally;
use replica::{BUNDLE, FileParts, MEMBER_FILE, write_parts};
use std::alloc::Global;

/// The answer of a delivery of one file to another, which has this name.
fn deliver_parts<'a, 'w>(
    alloc: Global,
    parts: FileParts<'a>,
    offered: &FileParts<'a>,
    name: &'w str,
    tally: &mut Tally,
) -> Result<Answer<'w>, Status>
    requires kind { parts.kind ≡ member_file }
    requires stored { (bytes : List ℕ) × IsStored bytes parts }
    requires offered { (bytes : List ℕ) × IsStored bytes offered.now }
    ensures meant { (other : List ℕ) → Follows answer_of result
        (answering (reads_two name.now other) (exactly (delivered parts.entry offered.now))) }
    ensures works { DecodesSome tally.old tally.new
        (2 * operations_in parts.entry.kept + 2 * operations_in (readied_in parts.entry offered.now.kept)) }
{
    check_document(parts.head().doc, offered.head().doc)?;
    let replica = replica_of(alloc, 1, parts, tally)?;
    let received = replica.receive(alloc, offered, tally)?;
    let text = received.report.text(alloc)?;
    let bytes = write_parts(alloc, &received.parts)?;
    Ok(Answer {
        text,
        store: Some(Store {
            word: 1,
            name,
            bytes,
        }),
    })
}

/// The answer of a delivery to the file that the bytes spell. What is wrong with that file is told before what is wrong with the
/// second, which is offered.
pub(crate) fn deliver_file<'w>(
    alloc: Global,
    bytes: &[u8],
    second: &Result<Vec<u8>, Status>,
    name: &'w str,
    tally: &mut Tally,
) -> Result<Answer<'w>, Status>
    requires short { length bytes.now ≤ file_limit }
    requires short_second { IfOk second.now (λ b. vec_len b ≤ file_limit) }
    ensures meant { (other : List ℕ) (load : Loaded) → Follows (λ b. b.items) second.now (exactly (read 2 load))
        → Follows answer_of result (order_made_of (command (delivers name.now other)) bytes.now load) }
    ensures works { (load : Loaded) → Follows (λ b. b.items) second.now (exactly (read 2 load))
        → ReadsTwo (over bytes.now load) tally.old tally.new }
{
    let parts = open(alloc, 1, bytes, &[MEMBER_FILE])?;
    match second {
        Ok(second) => {
            let offered = open(alloc, 2, second, &[BUNDLE])?;
            deliver_parts(alloc, parts, &offered, name, tally)
        }
        Err(status) => Err(*status),
    }
}
