//! Names in a row.

ghost use Rattle.std.specs.Prelude.{◌≡◌, ◌++◌, ◌∷◌, [], ◌<◌, length, OnOk, OnErr, slice_get, Some};

use std::alloc::{AllocError, Global};
use std::marker::Model;

/// A list of names of changes, each a member and a number.
#[derive(Debug, Drop)]
pub struct FullNames {
    names: Vec<(u8, u32)>,
}

impl Model for FullNames {
    ghost use Rattle.std.specs.Prelude.{List, ℕ};

    ghost Value = { List (ℕ × ℕ) };

    ghost view = { λ n. n.names.items };
}

impl FullNames {
    /// No names.
    pub fn new(alloc: Global) -> FullNames
        ensures { result ≡ [] }
    {
        FullNames {
            names: Vec::new(alloc),
        }
    }

    /// Adds a name at the end. After a refusal for want of memory the list is as before.
    pub fn push(&mut self, name: (u8, u32)) -> Result<(), AllocError>
        ensures ok { OnOk result (self.new ≡ self.old ++ name ∷ []) }
        ensures err { OnErr result (self.new ≡ self.old) }
    {
        self.names.push(name)?;
        Ok(())
    }

    /// How many names there are.
    pub fn len(&self) -> usize
        ensures { result ≡ length self.now }
    {
        self.names.len()
    }

    /// The name at this place, from 0.
    pub fn at(&self, i: usize) -> &(u8, u32)
        requires { i < length self.now }
        ensures { slice_get self.now i ≡ Some result.now }
    {
        &self.names[i]
    }
}
