ghost use Rattle.std.specs.Prelude.{◌≡◌, ◌<◌, ◌≤◌, ◌+◌, ◌++◌, ℕ, List, length, IfOk, OnOk, string_bytes};
ghost use Rattle.std.specs.Option.{option_to_list};
ghost use Rattle.cbor_det.specs.Item.{Item, IsSpelled, spell};
ghost use Rattle.cbor_det.specs.Notation.{notation};
ghost use Rattle.cbor_det.specs.Slices.{seen_token};
ghost use Rattle.cbor_det.specs.Printing.{comma, start_text, opened_by, Todo, IsTodo, task_of, GoesOn, StandsFirst, WantsItem, IsPrinting};

use crate::begin::{Token, token_of};
use crate::notation::{push_hex, push_quoted};
use crate::simple::Simple;
use std::alloc::{AllocError, Global};

/// What is still to be printed of an array, a map or a tag, once the item inside that is being printed
/// is whole.
#[derive(Clone, Copy)]
pub(crate) enum Task {
    /// So many items, with a comma before the first of them unless it is the first of all, and then
    /// the character that closes them.
    Items { left: u64, first: bool, close: char },
    /// So many pairs, and then a brace.
    Pairs { left: u64, first: bool },
    /// The value of the key, and then so many pairs.
    Value { left: u64 },
}

/// Prints a token, and gives what is then to be done behind it.
fn push_token(alloc: Global, out: &mut String, token: Token<'_>) -> Result<Option<Task>, AllocError>
    ensures { IfOk result (λ task. (task ≡ opened_by (seen_token token.entry))
        × (string_bytes out.new ≡ string_bytes out.old ++ start_text (seen_token token.entry))) }
{
    match token {
        Token::Unsigned(n) => write!(out, "{n}")?,
        Token::Negative(n) => {
            let number = -1 - i128::from(n);
            write!(out, "{number}")?
        }
        Token::Bytes(bytes) => {
            out.push_str("h'")?;
            push_hex(alloc, out, bytes)?;
            out.push('\'')?
        }
        Token::Text(text) => push_quoted(alloc, out, text)?,
        Token::Simple(Simple::False) => out.push_str("false")?,
        Token::Simple(Simple::True) => out.push_str("true")?,
        Token::Simple(Simple::Null) => out.push_str("null")?,
        Token::List(left) => {
            out.push('[')?;
            return Ok(Some(Task::Items {
                left,
                first: true,
                close: ']',
            }));
        }
        Token::Map(left) => {
            out.push('{')?;
            return Ok(Some(Task::Pairs { left, first: true }));
        }
        Token::Tag(n) => {
            write!(out, "{n}(")?;
            return Ok(Some(Task::Items {
                left: 1,
                first: true,
                close: ')',
            }));
        }
    }
    Ok(None)
}

/// Keeps what is to be done, if anything is.
fn keep(tasks: &mut Vec<Task>, task: Option<Task>) -> Result<(), AllocError>
    ensures kept { OnOk result (tasks.new.items ≡ tasks.old.items ++ option_to_list task) }
    ensures deeper { OnOk result (length tasks.new.items ≤ length tasks.old.items + 1) }
{
    if let Some(task) = task {
        tasks.push(task)?;
    }
    Ok(())
}

/// Prints the head of the item that stands first, and gives the bytes after it.
fn push_head<'a>(
    alloc: Global,
    out: &mut String,
    tasks: &mut Vec<Task>,
    bytes: &'a [u8],
) -> Result<&'a [u8], AllocError>
    requires { StandsFirst bytes.now }
    ensures goes_on { (whole more : List ℕ)
        → WantsItem whole more tasks.old.items bytes.now (string_bytes out.old)
        → IfOk result (λ rest.
        IsPrinting whole more tasks.new.items rest.now (string_bytes out.new)) }
    ensures shorter { IfOk result (λ rest. length rest.now < length bytes.now) }
    ensures deeper { OnOk result (length tasks.new.items ≤ length tasks.old.items + 1) }
{
    let Ok((token, rest)) = token_of(16, bytes) else {
        unreachable!()
    };
    let task = push_token(alloc, out, token)?;
    keep(tasks, task)?;
    Ok(rest)
}

/// Prints what stands between two of several.
fn push_comma(out: &mut String, first: bool) -> Result<(), AllocError>
    ensures { OnOk result (string_bytes out.new ≡ string_bytes out.old ++ comma first) }
{
    if first { Ok(()) } else { out.push_str(", ") }
}

/// Prints what stands before the next item, and gives what is to be done once that is whole; or prints
/// the end, where no item is left.
fn push_next(out: &mut String, task: Task) -> Result<Option<Task>, AllocError>
    ensures { (todo : Todo) → IsTodo todo → task ≡ task_of todo
        → IfOk result (GoesOn todo (string_bytes out.old) (string_bytes out.new)) }
{
    match task {
        Task::Items { left, first, close } => {
            if left == 0 {
                out.push(close)?;
                return Ok(None);
            }
            push_comma(out, first)?;
            Ok(Some(Task::Items {
                left: left - 1,
                first: false,
                close,
            }))
        }
        Task::Pairs { left, first } => {
            if left == 0 {
                out.push('}')?;
                return Ok(None);
            }
            push_comma(out, first)?;
            Ok(Some(Task::Value { left: left - 1 }))
        }
        Task::Value { left } => {
            out.push_str(": ")?;
            Ok(Some(Task::Pairs { left, first: false }))
        }
    }
}

/// Prints the item that stands first, and gives the bytes after it.
pub(crate) fn push_item<'a>(
    alloc: Global,
    out: &mut String,
    bytes: &'a [u8],
) -> Result<&'a [u8], AllocError>
    requires { StandsFirst bytes.now }
    ensures { (x : Item) (more : List ℕ) → IsSpelled x → bytes.now ≡ spell x ++ more
        → IfOk result (λ rest. (rest.now ≡ more)
        × (string_bytes out.new ≡ string_bytes out.old ++ notation x)) }
{
    let mut tasks = Vec::new(alloc);
    let mut rest = push_head(alloc, out, &mut tasks, bytes)?;
    while let Some(task) = tasks.pop() {
        if let Some(task) = push_next(out, task)? {
            tasks.push(task)?;
            rest = push_head(alloc, out, &mut tasks, rest)?;
        }
    }
    Ok(rest)
}
