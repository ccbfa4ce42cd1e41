//! Each command's words, read one after the other.

ghost use Rattle.std.specs.Prelude.{◌≡◌, ◌∷◌, IfOk, IfErr, codes};
ghost use Rattle.outline_words.specs.Commands.{IsGiven};
ghost use Rattle.outline_words.specs.Reading.{unread, IsFirstWrong};

use crate::command::{Command, WordFault};
use crate::rest::Rest;
use std::alloc::Global;

fn read_found(mut rest: Rest<'_>) -> Result<Command<'_>, WordFault>
    requires { (unread rest).place ≡ 1 }
    ensures command { IfOk result (IsGiven (codes "found" ∷ (unread rest.entry).words)) }
    ensures wrong { IfErr result (λ fault.
        IsFirstWrong (codes "found") (unread rest.entry) fault.word) }
{
    let doc = rest.document()?;
    let n = rest.number(1, 32)? as u8;
    let name = rest.name()?;
    rest.end()?;
    Ok(Command::Found { doc, n, name })
}

fn read_new(mut rest: Rest<'_>) -> Result<Command<'_>, WordFault>
    requires { (unread rest).place ≡ 1 }
    ensures command { IfOk result (IsGiven (codes "new" ∷ (unread rest.entry).words)) }
    ensures wrong { IfErr result (λ fault.
        IsFirstWrong (codes "new") (unread rest.entry) fault.word) }
{
    let name = rest.name()?;
    let parent = rest.node()?;
    let i = rest.place()?;
    rest.end()?;
    Ok(Command::New { name, parent, i })
}

fn read_move(mut rest: Rest<'_>) -> Result<Command<'_>, WordFault>
    requires { (unread rest).place ≡ 1 }
    ensures command { IfOk result (IsGiven (codes "move" ∷ (unread rest.entry).words)) }
    ensures wrong { IfErr result (λ fault.
        IsFirstWrong (codes "move") (unread rest.entry) fault.word) }
{
    let name = rest.name()?;
    let child = rest.node()?;
    let parent = rest.node()?;
    let i = rest.place()?;
    rest.end()?;
    Ok(Command::Move {
        name,
        child,
        parent,
        i,
    })
}

fn read_trash(mut rest: Rest<'_>) -> Result<Command<'_>, WordFault>
    requires { (unread rest).place ≡ 1 }
    ensures command { IfOk result (IsGiven (codes "trash" ∷ (unread rest.entry).words)) }
    ensures wrong { IfErr result (λ fault.
        IsFirstWrong (codes "trash") (unread rest.entry) fault.word) }
{
    let name = rest.name()?;
    let child = rest.node()?;
    rest.end()?;
    Ok(Command::Trash { name, child })
}

fn read_put(mut rest: Rest<'_>) -> Result<Command<'_>, WordFault>
    requires { (unread rest).place ≡ 1 }
    ensures command { IfOk result (IsGiven (codes "put" ∷ (unread rest.entry).words)) }
    ensures wrong { IfErr result (λ fault.
        IsFirstWrong (codes "put") (unread rest.entry) fault.word) }
{
    let name = rest.name()?;
    let node = rest.node()?;
    let key = rest.key()?;
    let value = rest.value()?;
    rest.end()?;
    Ok(Command::Put {
        name,
        node,
        key,
        value,
    })
}

fn read_unset(mut rest: Rest<'_>) -> Result<Command<'_>, WordFault>
    requires { (unread rest).place ≡ 1 }
    ensures command { IfOk result (IsGiven (codes "unset" ∷ (unread rest.entry).words)) }
    ensures wrong { IfErr result (λ fault.
        IsFirstWrong (codes "unset") (unread rest.entry) fault.word) }
{
    let name = rest.name()?;
    let node = rest.node()?;
    let key = rest.key()?;
    rest.end()?;
    Ok(Command::Unset { name, node, key })
}

fn read_type(mut rest: Rest<'_>) -> Result<Command<'_>, WordFault>
    requires { (unread rest).place ≡ 1 }
    ensures command { IfOk result (IsGiven (codes "type" ∷ (unread rest.entry).words)) }
    ensures wrong { IfErr result (λ fault.
        IsFirstWrong (codes "type") (unread rest.entry) fault.word) }
{
    let name = rest.name()?;
    let node = rest.node()?;
    let at = rest.place()?;
    let text = rest.text()?;
    rest.end()?;
    Ok(Command::TypeText {
        name,
        node,
        at,
        text,
    })
}

fn read_erase(mut rest: Rest<'_>) -> Result<Command<'_>, WordFault>
    requires { (unread rest).place ≡ 1 }
    ensures command { IfOk result (IsGiven (codes "erase" ∷ (unread rest.entry).words)) }
    ensures wrong { IfErr result (λ fault.
        IsFirstWrong (codes "erase") (unread rest.entry) fault.word) }
{
    let name = rest.name()?;
    let node = rest.node()?;
    let at = rest.place()?;
    let count = rest.place()?;
    rest.end()?;
    Ok(Command::Erase {
        name,
        node,
        at,
        count,
    })
}

fn read_add(mut rest: Rest<'_>) -> Result<Command<'_>, WordFault>
    requires { (unread rest).place ≡ 1 }
    ensures command { IfOk result (IsGiven (codes "add" ∷ (unread rest.entry).words)) }
    ensures wrong { IfErr result (λ fault.
        IsFirstWrong (codes "add") (unread rest.entry) fault.word) }
{
    let name = rest.name()?;
    let node = rest.node()?;
    let at = rest.place()?;
    let value = rest.value()?;
    rest.end()?;
    Ok(Command::Add {
        name,
        node,
        at,
        value,
    })
}

fn read_shift(mut rest: Rest<'_>) -> Result<Command<'_>, WordFault>
    requires { (unread rest).place ≡ 1 }
    ensures command { IfOk result (IsGiven (codes "shift" ∷ (unread rest.entry).words)) }
    ensures wrong { IfErr result (λ fault.
        IsFirstWrong (codes "shift") (unread rest.entry) fault.word) }
{
    let name = rest.name()?;
    let node = rest.node()?;
    let from = rest.place()?;
    let to = rest.place()?;
    rest.end()?;
    Ok(Command::Shift {
        name,
        node,
        from,
        to,
    })
}

fn read_set(mut rest: Rest<'_>) -> Result<Command<'_>, WordFault>
    requires { (unread rest).place ≡ 1 }
    ensures command { IfOk result (IsGiven (codes "set" ∷ (unread rest.entry).words)) }
    ensures wrong { IfErr result (λ fault.
        IsFirstWrong (codes "set") (unread rest.entry) fault.word) }
{
    let name = rest.name()?;
    let node = rest.node()?;
    let at = rest.place()?;
    let value = rest.value()?;
    rest.end()?;
    Ok(Command::Set {
        name,
        node,
        at,
        value,
    })
}

fn read_drop(mut rest: Rest<'_>) -> Result<Command<'_>, WordFault>
    requires { (unread rest).place ≡ 1 }
    ensures command { IfOk result (IsGiven (codes "drop" ∷ (unread rest.entry).words)) }
    ensures wrong { IfErr result (λ fault.
        IsFirstWrong (codes "drop") (unread rest.entry) fault.word) }
{
    let name = rest.name()?;
    let node = rest.node()?;
    let at = rest.place()?;
    rest.end()?;
    Ok(Command::DropItem { name, node, at })
}

fn read_bundle(alloc: Global, mut rest: Rest<'_>) -> Result<Command<'_>, WordFault>
    requires { (unread rest).place ≡ 1 }
    ensures command { IfOk result (IsGiven (codes "bundle" ∷ (unread rest.entry).words)) }
    ensures wrong { IfErr result (λ fault.
        IsFirstWrong (codes "bundle") (unread rest.entry) fault.word) }
{
    let name = rest.name()?;
    let vector = rest.vector(alloc)?;
    let out = rest.name()?;
    rest.end()?;
    Ok(Command::Bundle { name, vector, out })
}

fn read_deliver(mut rest: Rest<'_>) -> Result<Command<'_>, WordFault>
    requires { (unread rest).place ≡ 1 }
    ensures command { IfOk result (IsGiven (codes "deliver" ∷ (unread rest.entry).words)) }
    ensures wrong { IfErr result (λ fault.
        IsFirstWrong (codes "deliver") (unread rest.entry) fault.word) }
{
    let name = rest.name()?;
    let bundle = rest.name()?;
    rest.end()?;
    Ok(Command::Deliver { name, bundle })
}

fn read_snapshot(mut rest: Rest<'_>) -> Result<Command<'_>, WordFault>
    requires { (unread rest).place ≡ 1 }
    ensures command { IfOk result (IsGiven (codes "snapshot" ∷ (unread rest.entry).words)) }
    ensures wrong { IfErr result (λ fault.
        IsFirstWrong (codes "snapshot") (unread rest.entry) fault.word) }
{
    let name = rest.name()?;
    let out = rest.name()?;
    rest.end()?;
    Ok(Command::Snapshot { name, out })
}

fn read_release(mut rest: Rest<'_>) -> Result<Command<'_>, WordFault>
    requires { (unread rest).place ≡ 1 }
    ensures command { IfOk result (IsGiven (codes "release" ∷ (unread rest.entry).words)) }
    ensures wrong { IfErr result (λ fault.
        IsFirstWrong (codes "release") (unread rest.entry) fault.word) }
{
    let name = rest.name()?;
    let member = rest.member()?;
    rest.end()?;
    Ok(Command::Release { name, member })
}

fn read_begin(mut rest: Rest<'_>) -> Result<Command<'_>, WordFault>
    requires { (unread rest).place ≡ 1 }
    ensures command { IfOk result (IsGiven (codes "begin" ∷ (unread rest.entry).words)) }
    ensures wrong { IfErr result (λ fault.
        IsFirstWrong (codes "begin") (unread rest.entry) fault.word) }
{
    let source = rest.name()?;
    let member = rest.member()?;
    let name = rest.name()?;
    rest.end()?;
    Ok(Command::Begin {
        source,
        member,
        name,
    })
}

fn read_sample(mut rest: Rest<'_>) -> Result<Command<'_>, WordFault>
    requires { (unread rest).place ≡ 1 }
    ensures command { IfOk result (IsGiven (codes "sample" ∷ (unread rest.entry).words)) }
    ensures wrong { IfErr result (λ fault.
        IsFirstWrong (codes "sample") (unread rest.entry) fault.word) }
{
    let seed = rest.number(0, u64::MAX)?;
    let size = rest.number(1, 2000)? as u32;
    let name = rest.name()?;
    rest.end()?;
    Ok(Command::Sample { seed, size, name })
}

/// The command of this name that the words behind it give.
pub(crate) fn read_command<'w>(
    alloc: Global,
    command: &str,
    rest: Rest<'w>,
) -> Result<Command<'w>, WordFault>
    requires { (unread rest).place ≡ 1 }
    ensures command { IfOk result (IsGiven (command.now ∷ (unread rest.entry).words)) }
    ensures wrong { IfErr result (λ fault.
        IsFirstWrong command.now (unread rest.entry) fault.word) }
{
    match command {
        "found" => read_found(rest),
        "new" => read_new(rest),
        "move" => read_move(rest),
        "trash" => read_trash(rest),
        "put" => read_put(rest),
        "unset" => read_unset(rest),
        "type" => read_type(rest),
        "erase" => read_erase(rest),
        "add" => read_add(rest),
        "shift" => read_shift(rest),
        "set" => read_set(rest),
        "drop" => read_drop(rest),
        "ack" => Ok(Command::Ack { name: rest.last()? }),
        "show" => Ok(Command::Show { name: rest.last()? }),
        "status" => Ok(Command::Status { name: rest.last()? }),
        "log" => Ok(Command::Log { name: rest.last()? }),
        "bundle" => read_bundle(alloc, rest),
        "deliver" => read_deliver(rest),
        "trim" => Ok(Command::Trim { name: rest.last()? }),
        "snapshot" => read_snapshot(rest),
        "release" => read_release(rest),
        "begin" => read_begin(rest),
        "check" => Ok(Command::Check { name: rest.last()? }),
        "items" => Ok(Command::Items { name: rest.last()? }),
        "play" => Ok(Command::Play { name: rest.last()? }),
        "sample" => read_sample(rest),
        _ => Err(WordFault { word: 0 }),
    }
}
