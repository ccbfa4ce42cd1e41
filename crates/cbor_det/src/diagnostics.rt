ghost use Rattle.std.specs.Prelude.{◌≡◌, ◌↔◌, List, Err, IfOk, string_bytes};
ghost use Rattle.cbor_det.specs.Item.{Item, Spells};
ghost use Rattle.cbor_det.specs.Flaw.{HasFlaw};
ghost use Rattle.cbor_det.specs.Notation.{notation_lines};
ghost use Rattle.cbor_det.specs.declared.fault.CborFault.{CborFault};

use crate::fault::CborFault;
use crate::owned::OwnText;
use crate::printing::push_item;
use crate::sequence::check_sequence;
use std::alloc::{AllocError, Global};

/// Why bytes have no notation.
#[derive(Clone, Copy, Debug, PartialEq, Eq)]
pub enum DiagnosticFault {
    /// They are no sequence of items.
    Cbor(CborFault),
    /// Memory was refused.
    NoMemory,
}

impl From<CborFault> for DiagnosticFault {
    ghost use Rattle.std.specs.Prelude.{◌≡◌};
    ghost use Rattle.cbor_det.specs.declared.diagnostics.DiagnosticFault.TheVariants.{Cbor};

    ghost from_gives = { λ fault made. made ≡ Cbor fault };

    fn from(fault: CborFault) -> DiagnosticFault {
        DiagnosticFault::Cbor(fault)
    }
}

impl From<AllocError> for DiagnosticFault {
    ghost use Rattle.std.specs.Prelude.{◌≡◌};
    ghost use Rattle.cbor_det.specs.declared.diagnostics.DiagnosticFault.TheVariants.{NoMemory};

    ghost from_gives = { λ _ made. made ≡ NoMemory };

    fn from(_refused: AllocError) -> DiagnosticFault {
        DiagnosticFault::NoMemory
    }
}

/// The items that the bytes spell, a line for each.
fn lines_of(alloc: Global, bytes: &[u8]) -> Result<String, AllocError>
    requires { (xs : List Item) × Spells bytes.now xs }
    ensures { IfOk result (λ out. (xs : List Item) × Spells bytes.now xs
        × (string_bytes out ≡ notation_lines xs)) }
{
    let mut out = String::new(alloc);
    let mut rest = bytes;
    while !rest.is_empty() {
        rest = push_item(alloc, &mut out, rest)?;
        out.push('\n')?;
    }
    Ok(out)
}

/// A sequence of items in the notation of RFC 8949, section 8, a line for each item; or its first
/// fault, as [`check_sequence`] answers it.
pub fn diagnostic(alloc: Global, bytes: &[u8]) -> Result<OwnText, DiagnosticFault>
    ensures printed { IfOk result (λ text. (xs : List Item) × Spells bytes.now xs
        × (text ≡ notation_lines xs)) }
    ensures flawed { (f : CborFault) → (result ≡ Err (DiagnosticFault.Cbor f)) ↔ HasFlaw bytes.now f }
{
    check_sequence(bytes)?;
    let out = lines_of(alloc, bytes)?;
    Ok(OwnText::from_string(out))
}
