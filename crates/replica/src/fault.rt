//! What is wrong with the bytes of a file, with its members and with its changes. Each fault that is told prints its name and its
//! fields in order, each after a space.

ghost use Rattle.std.specs.Prelude.{◌≡◌};
ghost use Rattle.replica.specs.declared.fault.BadFile.TheVariants.{Cbor as CborFlaw};
ghost use Rattle.replica.specs.declared.fault.ScanFault.TheVariants.{Bad as BadBytes, NoMemory as OutOfMemory};

use cbor_det::CborFault;
use op_grammar::Rule;
use op_ids::OpId;
use std::alloc::AllocError;
use std::error::Error;
use std::fmt;

/// The first fault of bytes that are no file.
#[derive(Clone, Copy, Debug, PartialEq, Eq)]
pub enum BadFile {
    /// The bytes are no sequence of items (RFC 8742), or end where one more is wanted.
    Cbor(CborFault),
    /// An item, counted from 0, breaks a rule.
    Rule { item: u32, rule: Rule },
    /// More bytes stand behind the last item, from this place on.
    Trailing { at: usize },
}

impl fmt::Display for BadFile {
    ghost use Rattle.std.specs.Prelude.{Some};
    ghost use Rattle.replica.specs.FaultText.{bad_file_text};

    ghost output = { λ fault. Some (bad_file_text fault) };

    fn fmt<W: fmt::Write>(&self, f: &mut fmt::Formatter<W>) -> fmt::Result {
        match self {
            BadFile::Cbor(fault) => write!(f, "Cbor {fault}"),
            BadFile::Rule { item, rule } => write!(f, "Rule {item} {rule}"),
            BadFile::Trailing { at } => write!(f, "Trailing {at}"),
        }
    }
}

impl Error for BadFile {}

/// Why bytes gave no parts of a file.
#[derive(Clone, Copy, Debug, PartialEq, Eq)]
pub enum ScanFault {
    /// The first fault of the bytes.
    Bad(BadFile),
    /// So far only files with the empty base are taken apart, and this one has another item in its place.
    OtherBase,
    /// Memory ran out.
    NoMemory,
}

impl From<AllocError> for ScanFault {
    ghost from_gives = { λ _ e. e ≡ OutOfMemory };

    fn from(_e: AllocError) -> ScanFault {
        ScanFault::NoMemory
    }
}

impl From<CborFault> for ScanFault {
    ghost from_gives = { λ fault e. e ≡ BadBytes (CborFlaw fault) };

    fn from(fault: CborFault) -> ScanFault {
        ScanFault::Bad(BadFile::Cbor(fault))
    }
}

/// What is wrong with a member that a command names, or that makes an edit.
#[derive(Clone, Copy, Debug, PartialEq, Eq)]
pub enum MemberFault {
    /// The document of n members has no such member.
    NoMember { member: u8, n: u8 },
    /// The file doesn't hold the member.
    NotHeld { member: u8 },
    /// The file holds the member.
    Held { member: u8 },
    /// An edit or an acknowledgement of a file that holds no member.
    Nobody,
}

impl fmt::Display for MemberFault {
    ghost use Rattle.std.specs.Prelude.{Some};
    ghost use Rattle.replica.specs.FaultText.{member_fault_text};

    ghost output = { λ fault. Some (member_fault_text fault) };

    fn fmt<W: fmt::Write>(&self, f: &mut fmt::Formatter<W>) -> fmt::Result {
        match self {
            MemberFault::NoMember { member, n } => write!(f, "NoMember {member} {n}"),
            MemberFault::NotHeld { member } => write!(f, "NotHeld {member}"),
            MemberFault::Held { member } => write!(f, "Held {member}"),
            MemberFault::Nobody => f.write_str("Nobody"),
        }
    }
}

/// Why a change may not join what is held: a rule, and what it compares.
#[derive(Clone, Copy, Debug, PartialEq, Eq)]
pub enum Misfit {
    /// A cause counts more changes of a member than are held.
    A0 { of: u8, cause: u32, held: u32 },
    /// The time isn't above that of its member's last change.
    A1 { time: u64, last: u64 },
    /// A cause counts fewer changes of a member than its maker knew before.
    A2 { of: u8, cause: u32, known: u32 },
    /// The change that is its cause isn't earlier than it.
    A3 { of: u8, cause_time: u64, time: u64 },
    /// An operation, counted from 0, refers to an id that isn't there, or isn't smaller than its own.
    A4 { op: u32, id: OpId },
}

impl fmt::Display for Misfit {
    ghost use Rattle.std.specs.Prelude.{Some};
    ghost use Rattle.model.specs.Text.{misfit_text};
    ghost use Rattle.replica.specs.FaultText.{misfit_of};

    ghost output = { λ fault. Some (misfit_text (misfit_of fault)) };

    fn fmt<W: fmt::Write>(&self, f: &mut fmt::Formatter<W>) -> fmt::Result {
        match self {
            Misfit::A0 { of, cause, held } => write!(f, "A0 {of} {cause} {held}"),
            Misfit::A1 { time, last } => write!(f, "A1 {time} {last}"),
            Misfit::A2 { of, cause, known } => write!(f, "A2 {of} {cause} {known}"),
            Misfit::A3 {
                of,
                cause_time,
                time,
            } => write!(f, "A3 {of} {cause_time} {time}"),
            Misfit::A4 { op, id } => write!(f, "A4 {op} {id}"),
        }
    }
}
