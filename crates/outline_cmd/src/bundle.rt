//! Bundles: the changes of a file that a vector doesn't count.

ghost use Rattle.std.specs.Prelude.{◌≡◌, ◌≤◌, ◌++◌, List, ℕ, IfOk, codes, length};
ghost use Rattle.model.specs.Command.{bundle_since};
ghost use Rattle.model.specs.File.{file_limit};
ghost use Rattle.model.specs.Text.{field};
ghost use Rattle.outline_words.specs.Table.{command};
ghost use Rattle.outline_meaning.specs.Meaning.{Loaded, exactly, reads_and_makes};
ghost use Rattle.outline_meaning.specs.Outcome.{bundled};
ghost use Rattle.outline_meaning.specs.Follows.{Follows};
ghost use Rattle.outline_cmd.specs.Stages.{answer_of};
ghost use Rattle.outline_cmd.specs.Tasks.{answering, order_made_of};

use crate::answer::{Answer, Store};
use crate::opened::open;
use crate::same_document::check_document;
use cbor_det::OwnText;
use outline_meaning::Status;
use replica::{DocRef, FileParts, MEMBER_FILE, write_parts};
use std::alloc::{AllocError, Global};
use version_vector::Vector;

/// The line that says how many changes a bundle has.
fn changes_text(alloc: Global, count: u32) -> Result<OwnText, AllocError>
    ensures { IfOk result (λ text. text ≡ codes "changes" ++ (field count ++ codes "\n")) }
{
    let text = format!(in alloc; "changes {count}\n")?;
    Ok(OwnText::from_string(text))
}

/// The answer of a bundle of a file, which gets a name of its own.
fn bundle_parts<'w>(
    alloc: Global,
    parts: &FileParts<'_>,
    vector: &Vector,
    new_name: &'w str,
) -> Result<Answer<'w>, Status>
    ensures { (name : List ℕ) → Follows answer_of result
        (answering (reads_and_makes name 3 new_name.now) (exactly (bundled vector.now parts.now))) }
{
    let doc = parts.head().doc;
    let id = doc.id;
    let n = vector.len();
    check_document(doc, DocRef { id, n })?;
    let bundle = parts.bundle_since(alloc, vector)?;
    let text = changes_text(alloc, bundle.head().kept)?;
    let bytes = write_parts(alloc, &bundle)?;
    Ok(Answer {
        text,
        store: Some(Store {
            word: 3,
            name: new_name,
            bytes,
        }),
    })
}

/// The answer of a bundle of the file that the bytes spell.
pub(crate) fn bundle_file<'w>(
    alloc: Global,
    bytes: &[u8],
    vector: &Vector,
    new_name: &'w str,
) -> Result<Answer<'w>, Status>
    requires { length bytes.now ≤ file_limit }
    ensures { (name : List ℕ) (second : Loaded) → Follows answer_of result
        (order_made_of (command (bundle_since name vector.now new_name.now)) bytes.now second) }
{
    let parts = open(alloc, 1, bytes, &[MEMBER_FILE])?;
    bundle_parts(alloc, &parts, vector, new_name)
}
