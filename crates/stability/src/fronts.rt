//! A row for each member.

ghost use Rattle.std.specs.Prelude.{◌≡◌, ◌<◌, ◌≤◌, All, IfOk, Some, length, map, slice_get, slice_index};
ghost use Rattle.model.specs.Base.{members};
ghost use Rattle.model.specs.Held.{Held};
ghost use Rattle.model.specs.Stability.{stable_of};
ghost use Rattle.stability.specs.Rows.{row_of, rows_in, taken};

use op_grammar::Head;
use std::alloc::{AllocError, Global};
use std::marker::Model;
use version_vector::Vector;

/// What is known of a member.
#[derive(Debug, Drop)]
pub struct MemberRow {
    /// How many of its changes are held.
    pub count: u32,
    /// The time of the last of them, or 0.
    pub last: u64,
    /// How many changes of each member it knew then, that one with them.
    pub known: Vector,
}

impl MemberRow {
    /// The same row.
    pub fn copy(&self) -> MemberRow
        ensures { result ≡ self.now }
    {
        MemberRow {
            count: self.count,
            last: self.last,
            known: self.known.copy(),
        }
    }
}

/// A row for each of the 1 to 32 members of a document, raised by the changes that come. Contracts see it as the list of
/// these rows.
///
/// The rows are the two-dimensional table of Wuu and Bernstein ("Efficient solutions to the replicated log and dictionary
/// problems", PODC 1984): what each member is known to know, so what all are known to know.
#[derive(Debug, Drop)]
pub struct Fronts {
    alloc: Global,
    rows: Vec<MemberRow>,
}

impl Model for Fronts {
    ghost use Rattle.std.specs.Prelude.{List, map};
    ghost use Rattle.model.specs.Base.{MemberRow};

    ghost Value = { List MemberRow };

    ghost use Rattle.stability.specs.Rows.{AreRows, row_of};

    ghost view = { λ f. map row_of f.rows.items };

    ghost invariant = { λ f. AreRows f.rows.items };
}

impl Fronts {
    /// The members with these rows, in the order of the members.
    pub fn from_rows(alloc: Global, rows: &[MemberRow]) -> Result<Fronts, AllocError>
        requires some { 0 < length rows.now }
        requires few { length rows.now ≤ 32 }
        requires known { All (λ r. length r.known ≡ length rows.now) rows.now }
        ensures { IfOk result (λ fronts. fronts ≡ map row_of rows.now) }
    {
        let mut own = Vec::with_capacity(alloc, rows.len())?;
        for row in rows {
            own.push(row.copy())?;
        }
        Ok(Fronts { alloc, rows: own })
    }

    /// How many members the document has.
    pub fn len(&self) -> u8
        ensures value { result ≡ length self.now }
        ensures some { 0 < result }
        ensures few { result ≤ 32 }
    {
        self.rows.len() as u8
    }

    /// Makes the row of a member anew, by the head of its next change. Takes no memory.
    pub fn take(&mut self, head: &Head)
        requires member { head.now.member < length self.old }
        requires causes { length head.now.causes ≡ length self.old }
        ensures { self.new ≡ taken self.old head.now }
    {
        let mut known = head.causes.copy();
        known.raise(head.member, head.number);
        self.rows[usize::from(head.member)] = MemberRow {
            count: head.number,
            last: head.time,
            known,
        };
    }

    /// How many changes of each member are held.
    pub fn vector(&self) -> Vector
        ensures { result ≡ map (λ r. r.count) self.now }
    {
        let mut vector = Vector::zero(self.alloc, self.len());
        for member in 0..self.len() {
            vector.raise(member, self.rows[usize::from(member)].count);
        }
        vector
    }

    /// How many changes of a member are held.
    pub fn count(&self, member: u8) -> u32
        requires { member < length self.now }
        ensures { result ≡ slice_index (map (λ r. r.count) self.now) member }
    {
        self.rows[usize::from(member)].count
    }

    /// What a member is known to know: how many changes of each member.
    pub fn known(&self, member: u8) -> &Vector
        requires { member < length self.now }
        ensures row { slice_get (map (λ r. r.known) self.now) member ≡ Some result.now }
        ensures each { length result.now ≡ length self.now }
    {
        &self.rows[usize::from(member)].known
    }

    /// The time of a member's last change, or 0.
    pub fn last(&self, member: u8) -> u64
        requires { member < length self.now }
        ensures { result ≡ slice_index (map (λ r. r.last) self.now) member }
    {
        self.rows[usize::from(member)].last
    }

    /// How many changes of each member all members are known to know.
    pub fn stable(&self) -> Vector
        ensures { (past : Held) → self.now ≡ rows_in (length self.now) past
            → result ≡ map (stable_of (length self.now) past) (members (length self.now)) }
    {
        let mut stable = self.rows[0].known.copy();
        for row in &self.rows {
            stable.least_of(&row.known);
        }
        stable
    }
}
