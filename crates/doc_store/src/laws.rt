//! A law of documents, the contract of a function with nothing to do.

ghost use Rattle.doc_store.specs.Documents.{FreshIdsHaveNoRow};

/// No row of a document has an id that is greater than those of its state and isn't one of an operation since.
pub fn fresh_ids_have_no_row()
    ensures { FreshIdsHaveNoRow }
{}
