// The registers of one node.
ghost use Rattle.std.specs.Prelude.{◌≡◌, ◌++◌, OnOk, OnErr, map};
ghost use Rattle.std.specs.FinMap as fin;
ghost use Rattle.std.specs.BTreeMap as tree;
ghost use Rattle.op_grammar.specs.Values.{value_of};
ghost use Rattle.lww_map.specs.Keys.{seen, overwritten, key_written, written_seen, tagged, rows_seen, key_list, prefix_cmp};

use crate::prefix_key::PrefixKey;
use crate::registers::RegisterRow;
use op_grammar::Value;
use op_ids::OpId;
use std::alloc::{AllocError, Global};
use std::collections::BTreeMap;
use std::marker::Model;

// Who wrote a register last, and what.
#[derive(Clone, Copy)]
pub struct Written<'a> {
    pub writer: OpId,
    pub value: Value<'a>,
}

impl<'a> Written<'a> {
    // Gives way to a write with a greater id.
    fn overwrite(&mut self, by: Written<'a>)
        ensures { seen self.new ≡ overwritten (seen self.old) (seen by.entry) }
    {
        if self.writer.is_before(by.writer) {
            *self = by;
        }
    }
}

// The registers of a node, by their keys.
#[derive(Drop)]
pub struct NodeKeys<'a> {
    keys: BTreeMap<PrefixKey<'a>, Written<'a>>,
}

impl<'a> Model for NodeKeys<'a> {
    ghost use Rattle.lww_map.specs.Keys.{Keys, keys_code, keys_of};

    ghost Value = { Keys };

    ghost coded = { keys_code };

    ghost view = { λ k. keys_of k.keys.entries };
}

impl<'a> NodeKeys<'a> {
    // Nothing was written.
    pub fn new(alloc: Global) -> NodeKeys<'a>
        ensures { result ≡ fin.empty }
    {
        NodeKeys {
            keys: BTreeMap::new(alloc),
        }
    }

    // The last write of a key.
    pub fn get(&self, key: &'a str) -> Option<&Written<'a>>
        ensures { written_seen result ≡ fin.get self.now key.now }
    {
        let sought = PrefixKey::of(key);
        self.keys.get(&sought)
    }

    // Keeps the write, unless one with a greater id came before it.
    pub fn write(&mut self, key: &'a str, id: OpId, value: Value<'a>) -> Result<(), AllocError>
        ensures ok { OnOk result (self.new ≡ key_written self.old key.now id (value_of value.entry)) }
        ensures err { OnErr result (self.new ≡ self.old) }
    {
        let key = PrefixKey::of(key);
        let written = Written { writer: id, value };
        if let Some(last) = self.keys.get_mut(&key) {
            last.overwrite(written);
            return Ok(());
        }
        self.keys.insert(key, written)?;
        Ok(())
    }

    // Adds the registers behind the rows, by their keys.
    pub fn push_rows(&self, node: OpId, rows: &mut Vec<RegisterRow<'a>>) -> Result<(), AllocError>
        ensures { OnOk result (rows_seen rows.new.items
            ≡ rows_seen rows.old.items ++ tagged node (fin.entries self.now)) }
    {
        push_all(&self.keys, node, rows)
    }
}

fn push_all<'a>(
    keys: &BTreeMap<PrefixKey<'a>, Written<'a>>,
    node: OpId,
    rows: &mut Vec<RegisterRow<'a>>,
) -> Result<(), AllocError>
    ensures pushed { OnOk result (rows_seen rows.new.items
        ≡ rows_seen rows.old.items ++ tagged node (key_list keys.now.entries)) }
    ensures ordered { tree.IsOrdered prefix_cmp keys.now }
{
    let _ = keys.len();
    for (key, written) in keys {
        rows.push(RegisterRow {
            node,
            key: key.text,
            writer: written.writer,
            value: written.value,
        })?;
    }
    Ok(())
}
