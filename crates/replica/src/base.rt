//! The base of no changes.

ghost use Rattle.std.specs.Prelude.{◌≡◌, ◌++◌, ◌↔◌, IfOk, OnOk, IfErr, IsTrue, replicate, flat_map};
ghost use Rattle.cbor_det.specs.Head.{head};
ghost use Rattle.cbor_det.specs.Item.{Item, IsSpelled, spell};
ghost use Rattle.model.specs.BaseItem.{base_item};
ghost use Rattle.replica.specs.Empty.{empty_base, empty_row_item};

use cbor_det::{put_array, put_uint};
use std::alloc::{AllocError, Global};

/// How many tables a base has behind the rows of its members.
const TABLES: u8 = 6;

/// Whether the span of an item is that of the base of no changes, of so many members.
pub(crate) fn is_empty_base(alloc: Global, span: &[u8], n: u8) -> Result<bool, AllocError>
    ensures { IfOk result (λ same. IsTrue same ↔ (span.now ≡ spell (base_item (empty_base n)))) }
{
    let mut empty = Vec::new(alloc);
    put_empty_base(&mut empty, n)?;
    Ok(span == empty.as_slice())
}

/// Appends the base of no changes: horizon 0, a row for each member, and empty tables.
#[tactic(auto, using(crate::proofs::EmptyItem::base_written, crate::proofs::EmptyItem::same_more))]
pub(crate) fn put_empty_base(out: &mut Vec<u8>, n: u8) -> Result<(), AllocError>
    ensures { OnOk result (out.new.items ≡ out.old.items ++ spell (base_item (empty_base n))) }
{
    put_array(out, 8)?;
    put_uint(out, 0)?;
    put_array(out, u64::from(n))?;
    'rows: for _ in 0..n {
        put_row(out, n)?;
    }
    put_tables(out)
}

/// Appends the row of a member who made no change and knows of none.
#[tactic(auto, using(crate::proofs::EmptyItem::row_written, crate::proofs::EmptyItem::same_more))]
fn put_row(out: &mut Vec<u8>, n: u8) -> Result<(), AllocError>
    ensures { OnOk result (out.new.items ≡ out.old.items ++ spell (empty_row_item n)) }
{
    put_array(out, 3)?;
    put_uint(out, 0)?;
    put_uint(out, 0)?;
    put_array(out, u64::from(n))?;
    'zeros: for _ in 0..n {
        put_uint(out, 0)?;
    }
    Ok(())
}

/// Appends empty tables.
#[tactic(auto, using(crate::proofs::EmptyItem::same_more))]
fn put_tables(out: &mut Vec<u8>) -> Result<(), AllocError>
    ensures { OnOk result (out.new.items ≡ out.old.items ++ flat_map (head 4) (replicate TABLES 0)) }
{
    'tables: for _ in 0..TABLES {
        put_array(out, 0)?;
    }
    Ok(())
}
