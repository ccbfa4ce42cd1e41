//! Edits, as words give them.

ghost use Rattle.std.specs.Prelude.{◌≡◌, ℕ, List, IfOk, IfErr};
ghost use Rattle.cbor_det.specs.Head.{IsBytes};
ghost use Rattle.model.specs.Text.{hex};
ghost use Rattle.model.specs.Value.{Value as TheValue};
ghost use Rattle.op_grammar.specs.Values.{value_of};
ghost use Rattle.doc_store.specs.Edits.{edit_of};
ghost use Rattle.outline_words.specs.Commands.{SaysValue};
ghost use Rattle.outline_words.specs.Forms.{IsWordValue};
ghost use Rattle.outline_cmd.specs.Tasks.{GivesValue, with_value};
ghost use Rattle.outline_meaning.specs.declared.status.Status.TheVariants.{NoMemory};

use doc_store::Edit;
use op_grammar::Value;
use outline_meaning::Status;
use outline_words::WordValue;
use std::alloc::Global;

/// An edit, as words give it: the edit with null for its value, and the word of the value. Where the edit has no value, that
/// is null too.
#[derive(Clone, Copy)]
pub(crate) struct EditWords<'w> {
    pub(crate) edit: Edit<'w>,
    pub(crate) value: WordValue<'w>,
}

impl<'w> EditWords<'w> {
    /// The bytes that the value's word gives in digits, or none.
    pub(crate) fn decode(self, alloc: Global) -> Result<Vec<u8>, Status>
        ensures ok { (said : TheValue) → SaysValue self.entry.value said → IsWordValue said
            → IfOk result (λ bytes. GivesValue self.entry.value said bytes.items) }
        ensures err { IfErr result (λ status. status ≡ NoMemory) }
    {
        match self.value {
            WordValue::Digits(digits) => decoded(alloc, digits),
            WordValue::Plain(_) => Ok(Vec::new(alloc)),
        }
    }

    /// The edit with its value, for which the bytes were decoded.
    pub(crate) fn edit(self, bytes: &'w [u8]) -> Edit<'w>
        ensures { (said : TheValue) → SaysValue self.entry.value said → GivesValue self.entry.value said bytes.now
            → edit_of result ≡ with_value (edit_of self.entry.edit) said }
    {
        let value = value_with(self.value, bytes);
        match self.edit {
            Edit::Put { node, key, .. } => Edit::Put { node, key, value },
            Edit::Add { node, at, .. } => Edit::Add { node, at, value },
            Edit::Set { node, at, .. } => Edit::Set { node, at, value },
            edit => edit,
        }
    }
}

/// The value of a word, with its bytes if it gives them in digits.
fn value_with<'w>(value: WordValue<'w>, bytes: &'w [u8]) -> Value<'w>
    ensures { (said : TheValue) → SaysValue value.entry said → GivesValue value.entry said bytes.now
        → value_of result ≡ said }
{
    match value {
        WordValue::Plain(value) => value,
        WordValue::Digits(_) => Value::Bytes(bytes),
    }
}

/// The bytes that lower-case hexadecimal digits say.
#[tactic(auto, using(crate::proofs::HexLaws::hex_decodes))]
fn decoded(alloc: Global, digits: &str) -> Result<Vec<u8>, Status>
    ensures ok { (bytes : List ℕ) → IsBytes bytes → digits.now ≡ hex bytes
        → IfOk result (λ decoded. decoded.items ≡ bytes) }
    ensures err { IfErr result (λ status. status ≡ NoMemory) }
{
    // What a word says are digits, so that memory alone can be wanting.
    hex::decode(alloc, digits).map_err(|_| Status::NoMemory)
}
