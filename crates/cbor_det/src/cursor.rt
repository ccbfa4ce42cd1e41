ghost use Rattle.std.specs.Prelude.{◌≡◌, ℕ, ◌-◌, ◌^◌, ◌<◌, ◌≤◌, ◌↔◌, ◌⊎◌, ℤ, List, [], ◌++◌, length, Ok, Err, IfOk, IfErr, IsOkAnd, OnErr, IsTrue, IsUtf8};
ghost use Rattle.cbor_det.specs.Head.{head};
ghost use Rattle.cbor_det.specs.Item.{Item, Simple, FitsInt, IsSpelled, spell, spell_int};
ghost use Rattle.cbor_det.specs.Reading.{argument_at, int_at, bytes_at, text_at, simple_at};

use crate::fault::{CborFault, Stop};
use crate::fields::{argument_of, bytes_of, int_of, simple_of, text_of};
use crate::sequence::skip_of;
use crate::simple::Simple;

/// A place in some bytes, from which items are read one after the other.
///
/// A read gives the item that stands at the place and goes just past it. Where no such item stands
/// there, it answers the first fault, and the cursor stays. No read takes memory.
#[derive(Clone, Copy)]
pub struct Cursor<'a> {
    len: usize,
    rest: &'a [u8],
    ghost in_range: { length rest.now ≤ len },
}

impl<'a> Cursor<'a> {
    ghost use Rattle.cbor_det.specs.Asked.{as_unsigned, as_number, as_bytes, as_text, as_list, as_map, as_tag, as_simple, ReadsItem};
    ghost use Rattle.cbor_det.specs.Slices.{seen_stop, Inside};
    ghost use Rattle.cbor_det.specs.Unread.{unread, place, Reads, Took};
    ghost use Rattle.cbor_det.specs.FieldFaults.{FlawedHere, Fails};

    /// The place at the start of the bytes.
    pub fn new(bytes: &'a [u8]) -> Cursor<'a>
        ensures { unread result ≡ record { len = length bytes.now; rest = bytes.now } }
    {
        Cursor {
            len: bytes.len(),
            rest: bytes,
        }
    }

    /// How many bytes stand before the place.
    pub fn at(&self) -> usize
        ensures { result ≡ (unread self.now).len - length (unread self.now).rest }
    {
        self.len - self.rest.len()
    }

    /// Whether the place is the end of the bytes.
    pub fn is_end(&self) -> bool
        ensures { IsTrue result ↔ ((unread self.now).rest ≡ []) }
    {
        self.rest.is_empty()
    }

    /// The bytes from the place on, which are still to be read.
    pub fn rest(&self) -> &'a [u8]
        ensures { result.now ≡ (unread self.now).rest }
    {
        self.rest
    }

    /// A fault by its place in all of the bytes.
    fn fault(&self, stop: Stop) -> CborFault
        requires { stop.left ≤ length (unread self.now).rest }
        ensures { result ≡ place (unread self.now).len (seen_stop stop) }
    {
        CborFault {
            at: self.len - stop.left,
            why: stop.why,
        }
    }

    /// Goes past what was read from the place, or says where the fault is.
    #[inline(always)]
    fn past<T>(&mut self, read: Result<(T, &'a [u8]), Stop>) -> Result<T, CborFault>
        requires { Inside read (unread self.old).rest }
        ensures ok { IfOk read.entry (λ x. (result ≡ Ok x.0) × ((unread self.new).rest ≡ x.1.now)
            × ((unread self.new).len ≡ (unread self.old).len)) }
        ensures err { IfErr read.entry (λ s. (result ≡ Err (place (unread self.old).len (seen_stop s)))
            × (unread self.new ≡ unread self.old)) }
    {
        match read {
            Ok((value, rest)) => {
                self.rest = rest;
                Ok(value)
            }
            Err(stop) => Err(self.fault(stop)),
        }
    }

    /// A number of major type 0.
    #[inline(always)]
    pub fn uint(&mut self) -> Result<u64, CborFault>
        // Where an item stands, its value is read, or it is of another type; likewise below.
        ensures exact { Reads (λ n. n) (unread self.old) (unread self.new) result (argument_at 0) }
        ensures item { ReadsItem (λ n. n) (unread self.old) (unread self.new) result as_unsigned }
        // A number that is read is spelled so, and one that is spelled here is read; likewise below.
        ensures found { IfOk result (λ n. (n < 2 ^ 64)
            × Took (head 0 n) (unread self.old) (unread self.new)) }
        ensures only { (n : ℕ) (more : List ℕ) → n < 2 ^ 64
            → (unread self.old).rest ≡ head 0 n ++ more
            → (result ≡ Ok n) × ((unread self.new).rest ≡ more) }
        // Where a head of another type stands a read fails so, and else with the flaw of the item;
        // likewise below.
        ensures faults { IfErr result (Fails (λ m. m ≡ 0) (unread self.old) (unread self.new)) }
        ensures len { (unread self.new).len ≡ (unread self.old).len }
    {
        let read = argument_of(0, self.rest);
        self.past(read)
    }

    /// A number of major type 0 or 1: from -2^64 to 2^64 - 1.
    #[inline(always)]
    pub fn int(&mut self) -> Result<i128, CborFault>
        ensures exact { Reads (λ n. n) (unread self.old) (unread self.new) result int_at }
        ensures item { ReadsItem (λ n. n) (unread self.old) (unread self.new) result as_number }
        ensures found { IfOk result (λ n. FitsInt n
            × Took (spell_int n) (unread self.old) (unread self.new)) }
        ensures only { (n : ℤ) (more : List ℕ) → FitsInt n
            → (unread self.old).rest ≡ spell_int n ++ more
            → (result ≡ Ok n) × ((unread self.new).rest ≡ more) }
        ensures faults { IfErr result (Fails (λ m. (m ≡ 0) ⊎ (m ≡ 1)) (unread self.old) (unread self.new)) }
        ensures len { (unread self.new).len ≡ (unread self.old).len }
    {
        let read = int_of(self.rest);
        self.past(read)
    }

    /// A byte string.
    #[inline(always)]
    pub fn bytes(&mut self) -> Result<&'a [u8], CborFault>
        ensures exact { Reads (λ b. b.now) (unread self.old) (unread self.new) result bytes_at }
        ensures item { ReadsItem (λ b. b.now) (unread self.old) (unread self.new) result as_bytes }
        ensures found { IfOk result (λ b. (length b.now < 2 ^ 64)
            × Took (spell (Item.bytes b.now)) (unread self.old) (unread self.new)) }
        ensures only { (b more : List ℕ) → length b < 2 ^ 64
            → (unread self.old).rest ≡ spell (Item.bytes b) ++ more
            → IsOkAnd result (λ r. r.now ≡ b) × ((unread self.new).rest ≡ more) }
        ensures faults { IfErr result (Fails (λ m. m ≡ 2) (unread self.old) (unread self.new)) }
        ensures len { (unread self.new).len ≡ (unread self.old).len }
    {
        let read = bytes_of(self.rest);
        self.past(read)
    }

    /// A text.
    #[inline(always)]
    pub fn text(&mut self) -> Result<&'a str, CborFault>
        ensures exact { Reads (λ t. t.now) (unread self.old) (unread self.new) result text_at }
        ensures item { ReadsItem (λ t. t.now) (unread self.old) (unread self.new) result as_text }
        ensures found { IfOk result (λ t. (length t.now < 2 ^ 64) × IsUtf8 t.now
            × Took (spell (Item.text t.now)) (unread self.old) (unread self.new)) }
        ensures only { (t more : List ℕ) → length t < 2 ^ 64 → IsUtf8 t
            → (unread self.old).rest ≡ spell (Item.text t) ++ more
            → IsOkAnd result (λ r. r.now ≡ t) × ((unread self.new).rest ≡ more) }
        ensures faults { IfErr result (Fails (λ m. m ≡ 3) (unread self.old) (unread self.new)) }
        ensures len { (unread self.new).len ≡ (unread self.old).len }
    {
        let read = text_of(self.rest);
        self.past(read)
    }

    /// The head of an array: how many items follow it.
    #[inline(always)]
    pub fn array(&mut self) -> Result<u64, CborFault>
        ensures exact { Reads (λ n. n) (unread self.old) (unread self.new) result (argument_at 4) }
        ensures item { ReadsItem (λ n. n) (unread self.old) (unread self.new) result as_list }
        ensures found { IfOk result (λ n. (n < 2 ^ 64)
            × Took (head 4 n) (unread self.old) (unread self.new)) }
        ensures only { (n : ℕ) (more : List ℕ) → n < 2 ^ 64
            → (unread self.old).rest ≡ head 4 n ++ more
            → (result ≡ Ok n) × ((unread self.new).rest ≡ more) }
        ensures faults { IfErr result (Fails (λ m. m ≡ 4) (unread self.old) (unread self.new)) }
        ensures len { (unread self.new).len ≡ (unread self.old).len }
    {
        let read = argument_of(4, self.rest);
        self.past(read)
    }

    /// The head of a map: how many pairs of a key and a value follow it.
    pub fn map(&mut self) -> Result<u64, CborFault>
        ensures item { ReadsItem (λ n. n) (unread self.old) (unread self.new) result as_map }
        ensures found { IfOk result (λ n. (n < 2 ^ 64)
            × Took (head 5 n) (unread self.old) (unread self.new)) }
        ensures only { (n : ℕ) (more : List ℕ) → n < 2 ^ 64
            → (unread self.old).rest ≡ head 5 n ++ more
            → (result ≡ Ok n) × ((unread self.new).rest ≡ more) }
        ensures faults { IfErr result (Fails (λ m. m ≡ 5) (unread self.old) (unread self.new)) }
        ensures len { (unread self.new).len ≡ (unread self.old).len }
    {
        let read = argument_of(5, self.rest);
        self.past(read)
    }

    /// The head of a tag: its number. The item that it is on follows it.
    pub fn tag(&mut self) -> Result<u64, CborFault>
        ensures item { ReadsItem (λ n. n) (unread self.old) (unread self.new) result as_tag }
        ensures found { IfOk result (λ n. (n < 2 ^ 64)
            × Took (head 6 n) (unread self.old) (unread self.new)) }
        ensures only { (n : ℕ) (more : List ℕ) → n < 2 ^ 64
            → (unread self.old).rest ≡ head 6 n ++ more
            → (result ≡ Ok n) × ((unread self.new).rest ≡ more) }
        ensures faults { IfErr result (Fails (λ m. m ≡ 6) (unread self.old) (unread self.new)) }
        ensures len { (unread self.new).len ≡ (unread self.old).len }
    {
        let read = argument_of(6, self.rest);
        self.past(read)
    }

    /// False, true or null.
    #[inline(always)]
    pub fn simple(&mut self) -> Result<Simple, CborFault>
        ensures exact { Reads (λ s. s) (unread self.old) (unread self.new) result simple_at }
        ensures item { ReadsItem (λ s. s) (unread self.old) (unread self.new) result as_simple }
        ensures found { IfOk result (λ s.
            Took (spell (Item.simple s)) (unread self.old) (unread self.new)) }
        ensures only { (s : Simple) (more : List ℕ)
            → (unread self.old).rest ≡ spell (Item.simple s) ++ more
            → (result ≡ Ok s) × ((unread self.new).rest ≡ more) }
        ensures faults { IfErr result (Fails (λ m. m ≡ 7) (unread self.old) (unread self.new)) }
        ensures len { (unread self.new).len ≡ (unread self.old).len }
    {
        let read = simple_of(self.rest);
        self.past(read)
    }

    /// One whole item, in which at most 16 arrays, maps and tags enclose each other: the span of its
    /// bytes.
    pub fn skip_item(&mut self) -> Result<&'a [u8], CborFault>
        // What is skipped is an item, and an item that stands here is skipped.
        ensures found { IfOk result (λ span. (x : Item) × IsSpelled x × (span.now ≡ spell x)
            × Took (spell x) (unread self.old) (unread self.new)) }
        ensures only { (x : Item) (more : List ℕ) → IsSpelled x
            → (unread self.old).rest ≡ spell x ++ more
            → IsOkAnd result (λ span. span.now ≡ spell x) × ((unread self.new).rest ≡ more) }
        ensures flawed { IfErr result (FlawedHere (unread self.old)) }
        ensures len { (unread self.new).len ≡ (unread self.old).len }
        ensures stays { OnErr result (unread self.new ≡ unread self.old) }
    {
        let read = skip_of(self.rest);
        self.past(read)
    }
}
