//! What receiving makes of the changes that are offered.

ghost use Rattle.std.specs.Prelude.{◌≡◌, ◌<◌, ◌^◌, [], List, length, map, take, drop, None, IfOk, OnOk, OnErr, if◌then◌else◌};
ghost use Rattle.std.specs.List.{AllByRecursion, find};
ghost use Rattle.model.specs.Change.{Change, IsChange, EachAfter, has_name, name_of};
ghost use Rattle.model.specs.File.{IsNextName};
ghost use Rattle.model.specs.Held.{is_known};
ghost use Rattle.model.specs.Settle.{begun, differs, is_pooled, most_waiting};
ghost use Rattle.causal_inbox.specs.Names.{key_of, NamesRise};
ghost use Rattle.causal_inbox.specs.Counted.{counted, first_ready};

use crate::index::Index;
use crate::names::FullNames;
use crate::pool::{Pool, name_in};
use crate::ready::first_ready;
use lazy_blocks::{Block, Shelf};
use std::alloc::{AllocError, Global};
use std::marker::Model;
use version_vector::Vector;

/// How many changes may wait.
const MOST_WAITING: usize = 4_096;

/// What a change that is offered is.
#[derive(Clone, Copy, Debug, PartialEq, Eq)]
pub enum Offered {
    /// It is held already, or stands in the base.
    Known,
    /// One with its name and its bytes waits already.
    Same,
    /// One with its name and other bytes is kept or waits.
    Forked,
    /// It waits.
    Joined,
}

/// The changes that wait for changes that they know. They borrow the bytes that spell them.
#[derive(Drop)]
pub struct Inbox<'a> {
    alloc: Global,
    members: u8,
    pool: Pool<'a>,
    kept: Option<Index<'a>>,
}

impl<'a> Model for Inbox<'a> {
    ghost use Rattle.std.specs.List.{AllByRecursion};
    ghost use Rattle.model.specs.Change.{IsChange};
    ghost use Rattle.causal_inbox.specs.Offers.{Waiting};

    ghost Value = { Waiting };

    ghost view = { λ i. record { members = i.members; pool = i.pool; kept = i.kept } };

    ghost invariant = { λ i. AllByRecursion (IsChange i.members) i.pool };
}

impl<'a> Inbox<'a> {
    ghost use Rattle.causal_inbox.specs.Offers.{Compares, IsOffered, pool_after, IsRest, taken_out};

    /// The waiting changes of a file that aren't known by now, and how many are.
    pub fn new(
        alloc: Global,
        waiting: Shelf<'a>,
        held: &Vector,
    ) -> Result<(Inbox<'a>, u32), AllocError>
        requires few { length waiting < 2 ^ 32 }
        requires members { AllByRecursion (λ c. length c.causes ≡ length held.now) waiting }
        requires rise { EachAfter IsNextName [] waiting }
        ensures pool { IfOk result (λ r. r.0.pool ≡ (begun (counted held.now) [] waiting.entry).pool) }
        ensures known { IfOk result (λ r. r.1 ≡ (begun (counted held.now) [] waiting.entry).report.known) }
        ensures members { IfOk result (λ r. r.0.members ≡ length held.now) }
        ensures compares { IfOk result (λ r. (kept : List Change) → Compares r.0 kept) }
    {
        let mut pool = Pool::new(alloc);
        let mut known = 0;
        for i in 0..waiting.len() {
            let block = waiting.at(i);
            if is_known(block, held) {
                known += 1;
            } else {
                pool.insert(block.copy())?;
            }
        }
        let inbox = Inbox {
            alloc,
            members: held.len(),
            pool,
            kept: None,
        };
        Ok((inbox, known))
    }

    /// Compares a change with what is held, and with those that wait. It joins them where it is new. The kept changes
    /// are the same at each call. After a refusal for want of memory all is as before, and the block is gone.
    pub fn offer(
        &mut self,
        block: Block<'a>,
        held: &Vector,
        kept: &Shelf<'a>,
    ) -> Result<Offered, AllocError>
        requires held { length held.now ≡ self.old.members }
        requires block { length block.causes ≡ self.old.members }
        requires kept { Compares self.old kept.now }
        ensures ok { IfOk result
            (IsOffered (counted held.now) kept.now self.old.pool block.entry) }
        ensures pool { IfOk result (λ o. self.new.pool ≡ pool_after self.old.pool block.entry o) }
        ensures members { self.new.members ≡ self.old.members }
        ensures compares { Compares self.new kept.now }
        ensures err { OnErr result (self.new ≡ self.old) }
    {
        if is_known(&block, held) {
            return self.offer_known(&block, kept);
        }
        match offer_new(&self.pool, &block) {
            Offered::Joined => {
                self.pool.insert(block)?;
                Ok(Offered::Joined)
            }
            other => Ok(other),
        }
    }

    /// Takes the least ready change out, by time and then by member; `None` exactly where none is ready. It looks at
    /// one change of each member, and takes no memory.
    pub fn next_ready(&mut self, held: &Vector) -> Option<Block<'a>>
        requires { length held.now ≡ self.old.members }
        ensures least { result ≡ first_ready held.now self.old.pool }
        ensures pool { self.new.pool ≡ taken_out self.old.pool result }
        ensures members { self.new.members ≡ self.old.members }
        ensures kept { self.new.kept ≡ self.old.kept }
    {
        let next = first_ready(&self.pool, held)?;
        self.pool.remove((next.stamp.member, next.number))
    }

    /// The first of the changes that are left, by member and number, which go on waiting, and the names of those for
    /// which there is no room.
    pub fn rest(self) -> Result<(Shelf<'a>, FullNames), AllocError>
        ensures { IfOk result (λ r. IsRest self.entry.pool r.0 r.1) }
    {
        let Inbox {
            alloc,
            members: _,
            mut pool,
            kept: _,
        } = self;
        let _ = pool.len();
        let waiting = take_waiting(alloc, &mut pool)?;
        let full = take_names(alloc, pool)?;
        Ok((waiting, full))
    }

    /// What a change is that is held already or stands in the base.
    fn offer_known(&mut self, block: &Block<'a>, kept: &Shelf<'a>) -> Result<Offered, AllocError>
        requires { Compares self.old kept.now }
        ensures ok { IfOk result (λ o. o
            ≡ (if differs kept.now block.now then Offered.Forked else Offered.Known)) }
        ensures pool { self.new.pool ≡ self.old.pool }
        ensures members { self.new.members ≡ self.old.members }
        ensures compares { Compares self.new kept.now }
        ensures err { OnErr result (self.new ≡ self.old) }
    {
        match &self.kept {
            Some(index) => Ok(known_or_forked(index.differs(block))),
            None => {
                let index = Index::of(self.alloc, kept)?;
                let offered = known_or_forked(index.differs(block));
                self.kept = Some(index);
                Ok(offered)
            }
        }
    }
}

/// What a change is that is known, by whether a kept one differs from it.
fn known_or_forked(differs: bool) -> Offered
    ensures { result ≡ (if differs then Offered.Forked else Offered.Known) }
{
    if differs {
        Offered::Forked
    } else {
        Offered::Known
    }
}

/// What a change is that isn't known, by those that wait.
fn offer_new(pool: &Pool<'_>, block: &Block<'_>) -> Offered
    ensures value { result ≡ (if differs pool.now block.now then Offered.Forked else
        if is_pooled pool.now block.now then Offered.Same else Offered.Joined) }
    ensures new { result ≡ Offered.Joined
        → find (has_name (name_of block.now)) pool.now ≡ None }
    ensures rise { NamesRise pool.now }
{
    match pool.find(name_in(block)) {
        Some(waiting) => {
            if block.bytes() == waiting.bytes() {
                Offered::Same
            } else {
                Offered::Forked
            }
        }
        None => Offered::Joined,
    }
}

/// Takes the first blocks out, as many as may wait.
fn take_waiting<'a>(alloc: Global, pool: &mut Pool<'a>) -> Result<Shelf<'a>, AllocError>
    ensures taken { IfOk result (λ waiting. waiting ≡ take most_waiting pool.old) }
    ensures left { OnOk result (pool.new ≡ drop most_waiting pool.old) }
{
    let mut waiting = Shelf::new(alloc);
    for taken in 0..MOST_WAITING {
        match pool.pop_first() {
            Some(block) => waiting.push(block)?,
            None => return Ok(waiting),
        }
        let _ = taken;
    }
    Ok(waiting)
}

/// The names of the blocks.
fn take_names(alloc: Global, pool: Pool<'_>) -> Result<FullNames, AllocError>
    ensures { IfOk result (λ names. names ≡ map key_of pool.entry) }
{
    let mut pool = pool;
    let mut names = FullNames::new(alloc);
    while let Some(block) = pool.pop_first() {
        names.push(name_in(&block))?;
    }
    Ok(names)
}

/// Whether so many changes of its member are held that it is among them.
fn is_known(block: &Block<'_>, held: &Vector) -> bool
    requires { length block.now.causes ≡ length held.now }
    ensures value { result ≡ is_known (counted held.now) block.now }
    ensures change { IsChange (length held.now) block.now }
{
    let _ = block.members();
    let head = block.head();
    head.number <= held.get(head.member)
}
