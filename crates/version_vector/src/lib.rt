//! Version vectors: for each member of a document, how many of its changes are known. Stands on `op_ids`, whose numbers
//! in words it reads, and on the kit's `smallvec`.
#![tactic(auto)]

ghost use Rattle.std.specs.Prelude.{◌≡◌, ◌<◌, ◌≤◌, ◌↔◌, ℕ, List, length, max, replicate, slice_index, slice_set, IfSome, IfOk, IsTrue};
ghost use Rattle.std.specs.String.{string_bytes};
ghost use Rattle.version_vector.specs.Counts.{IsCounts, counts_word, AtLeast, least_counts};

use op_ids::parse_number;
use smallvec::SmallVec;
use std::alloc::{AllocError, Global};
use std::marker::Model;

// The most members that a document can have.
const MAX_MEMBERS: usize = 32;

/// A version vector: one count for each of the 1 to 32 members of a document, in the order of the members.
///
/// A count says that so many changes of that member are known, its first ones (Parker et al., "Detection of
/// mutual inconsistency in distributed systems", IEEE Transactions on Software Engineering, 1983).
/// The counts lie in the value itself, so no call takes memory.
#[derive(Debug, Drop)]
pub struct Vector {
    counts: SmallVec<u32, MAX_MEMBERS>,
}

impl Model for Vector {
    ghost use Rattle.std.specs.Prelude.{List, ℕ};
    ghost use Rattle.version_vector.specs.Inline.{IsInline};

    ghost Value = { List ℕ };

    ghost view = { λ v. v.counts.items };

    ghost invariant = { λ v. IsInline v.counts };
}

impl Vector {
    /// The vector of one who knows no change: a count of 0 for each of so many members.
    /// The allocator is kept and never asked.
    pub fn zero(alloc: Global, members: u8) -> Vector
        requires some { 0 < members }
        requires few { members ≤ 32 }
        ensures { result ≡ replicate members 0 }
    {
        Vector {
            counts: SmallVec::from_buf_and_len(alloc, [0; MAX_MEMBERS], usize::from(members)),
        }
    }

    /// How many members the document has.
    pub fn len(&self) -> u8
        ensures value { result ≡ length self.now }
        ensures some { 0 < result }
        ensures few { result ≤ 32 }
    {
        self.counts.len() as u8
    }

    /// The count of a member. Members are numbered from 0.
    pub fn get(&self, member: u8) -> u32
        requires { member < length self.now }
        ensures { result ≡ slice_index self.now member }
    {
        self.counts[usize::from(member)]
    }

    /// Raises the count of a member to `count`, or leaves it where it is greater. The other counts stay.
    pub fn raise(&mut self, member: u8, count: u32)
        requires { member < length self.old }
        ensures { self.new ≡ slice_set self.old member (max (slice_index self.old member) count) }
    {
        let held = &mut self.counts[usize::from(member)];
        *held = count.max(*held);
    }

    /// Another vector with the same counts.
    pub fn copy(&self) -> Vector
        ensures { result ≡ self.now }
    {
        let counts = SmallVec::from_slice(*self.counts.allocator(), self.counts.as_slice());
        Vector {
            counts: counts.unwrap(),
        }
    }

    /// Whether no count is below the other vector's.
    pub fn at_least(&self, other: &Vector) -> bool
        requires { length self.now ≡ length other.now }
        ensures { IsTrue result ↔ AtLeast self.now other.now }
    {
        self.counts
            .iter()
            .zip(other.counts.iter())
            .all(|(mine, theirs)| *mine >= *theirs)
    }

    /// Lowers each count to the other vector's, or leaves it where it is less.
    pub fn least_of(&mut self, other: &Vector)
        requires { length self.old ≡ length other.now }
        ensures { self.new ≡ least_counts self.old other.now }
    {
        for (member, theirs) in other.counts.iter().enumerate() {
            let mine = &mut self.counts[member];
            *mine = (*theirs).min(*mine);
        }
    }

    /// The vector that the word spells: 1 to 32 counts in decimal, without signs or needless zeros in front, with a
    /// comma between each two. None for any other word. The allocator is kept and never asked.
    pub fn parse(alloc: Global, word: &str) -> Option<Vector>
        ensures found { IfSome result (λ counts. IsCounts counts × (word.now ≡ counts_word counts)) }
        ensures only { (counts : List ℕ) → IsCounts counts → word.now ≡ counts_word counts
            → result ≡ Some counts }
    {
        let mut counts = SmallVec::new(alloc);
        for number in word.split(',') {
            if counts.len() == MAX_MEMBERS {
                return None;
            }
            counts.push_reserved(parse_number(number, u64::from(u32::MAX))? as u32);
        }
        Some(Vector { counts })
    }

    /// The word that spells the vector. Fails only where memory runs out.
    pub fn text(&self) -> Result<String, AllocError>
        ensures { IfOk result (λ text. string_bytes text ≡ counts_word self.now) }
    {
        let mut text = String::new(*self.counts.allocator());
        for (member, count) in self.counts.iter().enumerate() {
            if member > 0 {
                text.push(',')?;
            }
            write!(text, "{count}")?;
        }
        Ok(text)
    }
}

#[cfg(test)]
mod tests {
    use super::*;
    use std::test::Fail;

    const ZEROS_32: &str = "0,0,0,0,0,0,0,0,0,0,0,0,0,0,0,0,0,0,0,0,0,0,0,0,0,0,0,0,0,0,0,0";

    const ZEROS_33: &str = "0,0,0,0,0,0,0,0,0,0,0,0,0,0,0,0,0,0,0,0,0,0,0,0,0,0,0,0,0,0,0,0,0";

    const SPELLED: [&str; 4] = ["0", "3,0,12", "4294967295,1", ZEROS_32];

    const NOT_SPELLED: [&str; 12] = [
        "",
        ",",
        "1,",
        ",1",
        "1,,2",
        "1, 2",
        "01",
        "+1",
        "-1",
        "1.2",
        "4294967296",
        ZEROS_33,
    ];

    // Two counts that one member's is raised to, and what it is then.
    const RAISES: [(u32, u32, u32); 4] = [
        (0, 0, 0),
        (3, 7, 7),
        (7, 3, 7),
        (4_294_967_295, 0, 4_294_967_295),
    ];

    #[test]
    fn words_spell_vectors(rt: HostRuntime) -> Result<(), Fail> {
        for word in SPELLED {
            let vector = Vector::parse(rt.alloc(), word).ok_or("none")?;
            assert_eq!(rt; vector.copy().text()?.as_str(), word);
        }
        for word in NOT_SPELLED {
            assert!(rt; Vector::parse(rt.alloc(), word).is_none(), "{word}");
        }
        Ok(())
    }

    #[test]
    fn counts_only_rise(rt: HostRuntime) {
        for (first, second, held) in RAISES {
            let mut vector = Vector::zero(rt.alloc(), 32);
            vector.raise(30, first);
            vector.raise(30, second);
            assert_eq!(rt; vector.get(30), held, "{first}, {second}");
            assert_eq!(rt; vector.get(31), 0);
        }
    }

    #[test]
    fn vectors_compare_in_each_place(rt: HostRuntime) -> Result<(), Fail> {
        let mut vector = Vector::parse(rt.alloc(), "5,2").ok_or("none")?;
        let other = Vector::parse(rt.alloc(), "3,4").ok_or("none")?;
        assert!(rt; vector.len() == 2 && other.len() == 2);
        assert!(rt; !vector.at_least(&other) && vector.at_least(&vector.copy()));
        vector.least_of(&other);
        assert_eq!(rt; vector.text()?.as_str(), "3,2");
        Ok(())
    }
}
