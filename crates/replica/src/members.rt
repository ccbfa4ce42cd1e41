//! Lists of members.

ghost use Rattle.std.specs.Prelude.{◌≡◌, ◌<◌, ◌++◌, ◌∷◌, [], length, remove, slice_get, slice_index, Some, OnOk, OnErr};

use std::alloc::{AllocError, Global};
use std::marker::Model;

/// A list of members, each by its number from 0.
#[derive(Debug, Drop)]
pub struct Members {
    items: Vec<u8>,
}

impl Model for Members {
    ghost use Rattle.std.specs.Prelude.{ℕ, List};

    ghost Value = { List ℕ };

    ghost view = { λ m. m.items.items };
}

impl Members {
    /// No members.
    pub fn new(alloc: Global) -> Members
        ensures { result ≡ [] }
    {
        Members {
            items: Vec::new(alloc),
        }
    }

    /// Adds a member at the end. After a refusal for want of memory the list is as before.
    pub fn push(&mut self, member: u8) -> Result<(), AllocError>
        ensures ok { OnOk result (self.new ≡ self.old ++ member ∷ []) }
        ensures err { OnErr result (self.new ≡ self.old) }
    {
        self.items.push(member)?;
        Ok(())
    }

    /// How many members the list has.
    pub fn len(&self) -> usize
        ensures { result ≡ length self.now }
    {
        self.items.len()
    }

    /// The member at this place, from 0.
    pub fn at(&self, i: usize) -> &u8
        requires { i < length self.now }
        ensures at { slice_get self.now i ≡ Some result.now }
        ensures value { result.now ≡ slice_index self.now i }
    {
        &self.items[i]
    }

    /// Takes out the member at this place. The others keep their order. It takes no memory.
    pub fn remove(&mut self, i: usize)
        requires { i < length self.old }
        ensures { self.new ≡ remove self.old i }
    {
        self.items.remove(i);
    }
}
