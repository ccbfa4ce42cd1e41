//! Whether two documents are the same one.

ghost use Rattle.std.specs.Prelude.{◌≡◌, IfOk};
ghost use Rattle.model.specs.File.{File};
ghost use Rattle.outline_meaning.specs.Meaning.{exactly};
ghost use Rattle.outline_meaning.specs.Outcome.{document_ref, same_document};
ghost use Rattle.outline_meaning.specs.Follows.{Follows};

use outline_meaning::Status;
use replica::DocRef;

/// Finds that the document of a file is this other one.
pub(crate) fn check_document(left: DocRef, right: DocRef) -> Result<(), Status>
    ensures told { (f : File) → left ≡ document_ref f.document f.members
        → Follows (λ u. u) result (exactly (same_document f right.id right.n)) }
    ensures same { IfOk result (λ u. left.n ≡ right.n) }
{
    if left == right {
        Ok(())
    } else {
        Err(Status::OtherDocument { left, right })
    }
}
