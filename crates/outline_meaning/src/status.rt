//! How a run ends: the statuses, their numbers and their lines.

ghost use Rattle.std.specs.Prelude.{◌≡◌, IfOk, string_bytes};
ghost use Rattle.outline_meaning.specs.Status.{number, line};
ghost use Rattle.outline_meaning.specs.declared.status.Status.TheVariants.{NoMemory, OtherDocument};

use cbor_det::{OwnText, push_hex};
use doc_store::EditFault;
use replica::{BadFile, DocRef, MemberFault, Misfit};
use std::alloc::{AllocError, Global};
use std::fmt::Write;

/// How a run ended. Words are counted from 0, the command.
#[derive(Clone, Copy, Debug, PartialEq, Eq)]
pub enum Status {
    /// What the command means was stored and printed, and its files were read to their ends.
    Done,
    /// The words are no command. `word` is the first wrong one; `line` is 0 for the command line, and else a script's.
    Words {
        line: u32,
        word: u32,
    },
    /// No file has the name that this word gives.
    Missing {
        word: u32,
    },
    /// A file has the name that this word gives to a new one.
    Exists {
        word: u32,
    },
    /// The file that this word names could not be read.
    ReadFault {
        word: u32,
    },
    /// The file could not be stored.
    WriteFault,
    /// The output could not be written. What was written is a front of the text, and the command's file is stored.
    SinkFault,
    /// The bytes of the file that this word names are no file.
    BadFile {
        word: u32,
        why: BadFile,
    },
    /// The file that this word names has more bytes than a file may have: `bytes` is 16,777,217 of one that was
    /// read, and the length of one that was to be stored.
    TooLarge {
        word: u32,
        bytes: u64,
    },
    /// The command doesn't take a file of this kind.
    OtherKind {
        word: u32,
        kind: u8,
    },
    /// Two files, or a file and a vector, are of different documents; the left one is named first.
    OtherDocument {
        left: DocRef,
        right: DocRef,
    },
    /// A member is no one who may do this.
    Member(MemberFault),
    /// The edit is wrong at this word.
    Edit {
        fault: EditFault,
        word: u32,
    },
    /// The time or the number of the change to be made would pass its end. Told are the greatest time of a change,
    /// the member, and how many changes it has made.
    ClockFull {
        time: u64,
        member: u8,
        number: u32,
    },
    /// The file keeps fewer changes of this member than are asked for: those up to `base` were trimmed.
    Trimmed {
        member: u8,
        asked: u32,
        base: u32,
    },
    /// The first kept change of the file that may not stand there, and why.
    Unfit {
        word: u32,
        member: u8,
        number: u32,
        misfit: Misfit,
    },
    /// There was no memory for the run.
    NoMemory,
    /// The word is a command, or names a file or a node, that this version does not take.
    NotBuilt {
        word: u32,
    },
}

impl From<AllocError> for Status {
    ghost from_gives = { λ _ status. status ≡ NoMemory };

    fn from(_: AllocError) -> Status {
        Status::NoMemory
    }
}

/// The number of a status, with which the program ends.
pub fn number_of(status: &Status) -> u8
    ensures { result ≡ number status.now }
{
    match status {
        Status::Done => 0,
        Status::Words { .. } => 1,
        Status::Missing { .. } => 2,
        Status::Exists { .. } => 3,
        Status::ReadFault { .. } => 4,
        Status::WriteFault => 5,
        Status::SinkFault => 6,
        Status::BadFile { .. } => 7,
        Status::TooLarge { .. } => 8,
        Status::OtherKind { .. } => 9,
        Status::OtherDocument { .. } => 10,
        Status::Member(_) => 11,
        Status::Edit { .. } => 12,
        Status::ClockFull { .. } => 13,
        Status::Trimmed { .. } => 14,
        Status::Unfit { .. } => 15,
        Status::NoMemory => 16,
        Status::NotBuilt { .. } => 17,
    }
}

/// The line of a status for standard error: `outline: `, its name, its fields in order, each after a space, and a line feed.
pub fn status_line(alloc: Global, status: &Status) -> Result<OwnText, AllocError>
    ensures { IfOk result (λ text. text ≡ line status.now) }
{
    let text = match status {
        Status::Done => format!(in alloc; "outline: Done\n"),
        Status::Words { line, word } => format!(in alloc; "outline: Words {line} {word}\n"),
        Status::Missing { word } => format!(in alloc; "outline: Missing {word}\n"),
        Status::Exists { word } => format!(in alloc; "outline: Exists {word}\n"),
        Status::ReadFault { word } => format!(in alloc; "outline: ReadFault {word}\n"),
        Status::WriteFault => format!(in alloc; "outline: WriteFault\n"),
        Status::SinkFault => format!(in alloc; "outline: SinkFault\n"),
        Status::BadFile { word, why } => format!(in alloc; "outline: BadFile {word} {why}\n"),
        Status::TooLarge { word, bytes } => {
            format!(in alloc; "outline: TooLarge {word} {bytes}\n")
        }
        Status::OtherKind { word, kind } => {
            format!(in alloc; "outline: OtherKind {word} {kind}\n")
        }
        Status::OtherDocument { left, right } => other_document_line(alloc, left, right),
        Status::Member(fault) => format!(in alloc; "outline: Member {fault}\n"),
        Status::Edit { fault, word } => format!(in alloc; "outline: Edit {fault} {word}\n"),
        Status::ClockFull {
            time,
            member,
            number,
        } => format!(in alloc; "outline: ClockFull {time} {member} {number}\n"),
        Status::Trimmed {
            member,
            asked,
            base,
        } => format!(in alloc; "outline: Trimmed {member} {asked} {base}\n"),
        Status::Unfit {
            word,
            member,
            number,
            misfit,
        } => format!(in alloc; "outline: Unfit {word} {member} {number} {misfit}\n"),
        Status::NoMemory => format!(in alloc; "outline: NoMemory\n"),
        Status::NotBuilt { word } => format!(in alloc; "outline: NotBuilt {word}\n"),
    }?;
    Ok(OwnText::from_string(text))
}

// The line of two documents that differ.
fn other_document_line(alloc: Global, left: &DocRef, right: &DocRef) -> Result<String, AllocError>
    ensures { IfOk result (λ text. string_bytes text ≡ line (OtherDocument left.now right.now)) }
{
    let mut text = String::from_str(alloc, "outline: OtherDocument ")?;
    push_hex(alloc, &mut text, &left.id)?;
    write!(text, " {} ", left.n)?;
    push_hex(alloc, &mut text, &right.id)?;
    write!(text, " {}\n", right.n)?;
    Ok(text)
}
