//! When changes were made.

ghost use Rattle.std.specs.Prelude.{◌≡◌, ◌<◌, ◌++◌, ◌∷◌, [], IfOk, OnOk, length, replicate, slice_index_or, slice_set};
ghost use Rattle.holding.specs.Times.{back};

use std::alloc::{AllocError, Global};
use std::marker::Model;

/// The times of changes, member by member, each member's in the order in which it made them. Contracts see them as these lists.
#[derive(Drop)]
pub(crate) struct Times {
    members: Vec<Vec<u64>>,
}

impl Model for Times {
    ghost use Rattle.std.specs.Prelude.{ℕ, List, map};

    ghost Value = { List (List ℕ) };

    ghost view = { λ t. map (λ times. times.items) t.members.items };
}

impl Times {
    /// Those of so many members, none of whom made a change.
    pub fn none(alloc: Global, members: u8) -> Result<Times, AllocError>
        ensures { IfOk result (λ t. t ≡ replicate members []) }
    {
        let mut lists = Vec::with_capacity(alloc, usize::from(members))?;
        for _ in 0..members {
            lists.push(Vec::new(alloc))?;
        }
        Ok(Times { members: lists })
    }

    /// Adds the time of a member's next change.
    pub fn push(&mut self, member: u8, time: u64) -> Result<(), AllocError>
        requires { member < length self.old }
        ensures { OnOk result (self.new ≡ slice_set self.old member (slice_index_or self.old member [] ++ time ∷ [])) }
    {
        self.members[usize::from(member)].push(time)?;
        Ok(())
    }

    /// The time of the change that comes so many before the member's last, or 0.
    pub fn back(&self, member: u8, before: u32) -> u64
        requires { member < length self.now }
        ensures { result ≡ back (slice_index_or self.now member []) before }
    {
        let times = &self.members[usize::from(member)];
        match times.len().checked_sub(before as usize + 1) {
            Some(place) => times[place],
            None => 0,
        }
    }
}
