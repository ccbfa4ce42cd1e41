//! Which of the changes that wait is next.

ghost use Rattle.std.specs.Prelude.{◌≡◌, ◌<◌, ◌==◌, ◌&&◌, length, None};
ghost use Rattle.std.specs.List.{AllByRecursion, find};
ghost use Rattle.std.specs.Option.{option_map};
ghost use Rattle.model.specs.Change.{IsChange};
ghost use Rattle.causal_inbox.specs.Names.{NamesRise};
ghost use Rattle.causal_inbox.specs.Counted.{IsReady, first_ready, candidate_of, lesser_of};

use crate::pool::Pool;
use op_ids::Stamp;
use version_vector::Vector;

/// A ready change, by its place in the order of changes and its number.
#[derive(Clone, Copy)]
pub(crate) struct Candidate {
    pub stamp: Stamp,
    pub number: u32,
}

/// The ready change with the least stamp. Of each member at most one is ready, so so many are looked at.
pub(crate) fn first_ready(pool: &Pool<'_>, held: &Vector) -> Option<Candidate>
    requires { AllByRecursion (IsChange (length held.now)) pool.now }
    ensures next { result ≡ option_map candidate_of (first_ready held.now pool.now) }
    ensures rise { NamesRise pool.now }
{
    let _ = pool.len();
    let mut best = None;
    for member in 0..held.len() {
        best = lesser(best, ready_of(pool, held, member));
    }
    best
}

/// The ready change of a member.
fn ready_of(pool: &Pool<'_>, held: &Vector, member: u8) -> Option<Candidate>
    requires member { member < length held.now }
    requires pooled { AllByRecursion (IsChange (length held.now)) pool.now }
    ensures { result ≡ option_map candidate_of (find (λ c. c.member == member && IsReady held.now c) pool.now) }
{
    let number = held.get(member).checked_add(1)?;
    let next = pool.find((member, number))?;
    let head = next.head();
    if !held.at_least(&head.causes) {
        return None;
    }
    Some(Candidate {
        stamp: Stamp {
            time: head.time,
            member,
        },
        number,
    })
}

/// The one with the lesser stamp.
fn lesser(first: Option<Candidate>, second: Option<Candidate>) -> Option<Candidate>
    ensures { result ≡ lesser_of first second }
{
    match (first, second) {
        (Some(a), Some(b)) => {
            if b.stamp.is_before(a.stamp) {
                Some(b)
            } else {
                Some(a)
            }
        }
        (None, other) => other,
        (some, None) => some,
    }
}
