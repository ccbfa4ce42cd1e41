//! Values in print.

ghost use Rattle.std.specs.Prelude.{◌≡◌, ◌++◌, string_bytes, OnOk};
ghost use Rattle.model.specs.Text as printed;
ghost use Rattle.op_grammar.specs.Values.{value_of};

use cbor_det::{push_hex, push_quoted};
use op_grammar::Value;
use std::alloc::{AllocError, Global};

/// Appends a value as it is printed: `null`, `true`, `false`, a number in decimal, a text between quotes, or `#` and the
/// hexadecimal digits of bytes. After a refusal for want of memory a part of it may stand at the end.
pub fn push_value(alloc: Global, text: &mut String, value: Value<'_>) -> Result<(), AllocError>
    ensures { OnOk result (string_bytes text.new ≡ string_bytes text.old
        ++ printed.value_text (value_of value.entry)) }
{
    match value {
        Value::Null => text.push_str("null"),
        Value::Bool(true) => text.push_str("true"),
        Value::Bool(false) => text.push_str("false"),
        Value::Int(number) => write!(text, "{number}"),
        Value::Text(content) => push_quoted(alloc, text, content),
        Value::Bytes(bytes) => {
            text.push('#')?;
            push_hex(alloc, text, bytes)
        }
    }
}
