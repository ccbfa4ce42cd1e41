// References of operations.
ghost use Rattle.std.specs.Prelude.{◌≡◌};
ghost use Rattle.doc_store.specs.References.{first_wrong_of};
ghost use Rattle.doc_store.specs.declared.references.TakeFault.TheVariants.{NoMemory as OutOfMemory};

use op_ids::OpId;
use std::alloc::AllocError;

/// A wrong reference: the place of the operation, from 0, and the id that it names. 2^32 - 1 stands for any greater place.
#[derive(Clone, Copy, Debug, PartialEq, Eq)]
pub struct BadRef {
    pub op: u32,
    pub id: OpId,
}

/// Why operations were not taken into a document.
#[derive(Clone, Copy, Debug, PartialEq, Eq)]
pub enum TakeFault {
    /// The first wrong reference.
    Wrong(BadRef),
    /// Memory ran out.
    NoMemory,
}

impl From<AllocError> for TakeFault {
    ghost from_gives = { λ _ e. e ≡ OutOfMemory };

    fn from(_e: AllocError) -> TakeFault {
        TakeFault::NoMemory
    }
}

// The first of the ids, each with whether it is there, that isn't there or isn't smaller than the operation's id.
pub fn first_wrong(id: OpId, names: &[(OpId, bool)]) -> Option<OpId>
    ensures { result ≡ first_wrong_of id names.now }
{
    for (name, is_there) in names {
        if !(*is_there && name.is_before(id)) {
            return Some(*name);
        }
    }
    None
}
