ghost use Rattle.std.specs.Prelude.{◌≡◌, ◌++◌, flat_map, encode_utf8, string_bytes, OnOk, OnErr};
ghost use Rattle.cbor_det.specs.Notation.{hex, escaped, quoted};

use std::alloc::{AllocError, Global};

/// Appends a text between quotes, by the escape rule: a quote and a backslash get a backslash before
/// them, U+0000 to U+001F and U+007F become `\u00` and two lower-case hexadecimal digits. After a
/// refusal of memory the buffer is as it was.
pub fn put_escaped(out: &mut Vec<u8>, text: &str) -> Result<(), AllocError>
    ensures ok { OnOk result (out.new.items ≡ out.old.items ++ quoted text.now) }
    ensures err { OnErr result (out.new.items ≡ out.old.items) }
{
    let alloc = *out.allocator();
    let mut printed = String::new(alloc);
    push_quoted(alloc, &mut printed, text)?;
    out.extend_from_slice(printed.as_bytes())
}

/// Appends a text between quotes, as [`put_escaped`] does. After a refusal of memory a part of it may
/// stand at the end.
pub fn push_quoted(alloc: Global, out: &mut String, text: &str) -> Result<(), AllocError>
    ensures { OnOk result (string_bytes out.new ≡ string_bytes out.old ++ quoted text.now) }
{
    out.push('"')?;
    for character in text.chars() {
        push_escaped(alloc, out, character)?;
    }
    out.push('"')
}

/// Appends a character of a text between quotes.
#[tactic(auto, using(crate::proofs::NotationLaws::plain_character))]
fn push_escaped(alloc: Global, out: &mut String, character: char) -> Result<(), AllocError>
    ensures { OnOk result (string_bytes out.new ≡ string_bytes out.old
        ++ flat_map escaped (encode_utf8 character)) }
{
    match character {
        '"' => out.push_str("\\\""),
        '\\' => out.push_str("\\\\"),
        '\0'..='\x1f' | '\x7f' => {
            out.push_str("\\u00")?;
            push_hex(alloc, out, &[character as u8])
        }
        _ => out.push(character),
    }
}

/// Appends each byte as two lower-case hexadecimal digits. After a refusal of memory the text is as
/// it was.
#[tactic(auto, using(crate::proofs::NotationLaws::encode_lower_is_hex))]
pub fn push_hex(alloc: Global, out: &mut String, bytes: &[u8]) -> Result<(), AllocError>
    ensures ok { OnOk result (string_bytes out.new ≡ string_bytes out.old ++ hex bytes.now) }
    ensures err { OnErr result (string_bytes out.new ≡ string_bytes out.old) }
{
    let digits = hex::encode(alloc, bytes)?;
    out.push_str(&digits)
}
