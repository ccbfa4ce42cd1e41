// All registers.
ghost use Rattle.std.specs.Prelude.{◌≡◌, OnOk, OnErr, IfOk, map, filter};
ghost use Rattle.std.specs.FinMap as fin;
ghost use Rattle.std.specs.BTreeMap as tree;
ghost use Rattle.std.specs.List.Sorted.{IsStrictlySortedBy};
ghost use Rattle.op_ids.specs.Order.{id_cmp};
ghost use Rattle.model.specs.Operation.{put_key};
ghost use Rattle.model.specs.State.{register_cmp};
ghost use Rattle.model_laws.specs.Arrival.{late_register};
ghost use Rattle.op_grammar.specs.Values.{value_of};
ghost use Rattle.lww_map.specs.Keys.{register_seen, rows_seen, node_rows, table_list};

use crate::keys::NodeKeys;
use op_grammar::Value;
use op_ids::OpId;
use std::alloc::{AllocError, Global};
use std::collections::BTreeMap;
use std::marker::Model;

/// A register: a key of a node, who wrote it last, and what.
#[derive(Clone, Copy)]
pub struct RegisterRow<'a> {
    pub node: OpId,
    pub key: &'a str,
    pub writer: OpId,
    pub value: Value<'a>,
}

/// The registers of all nodes, their keys and values borrowed. Each keeps the write with the greatest id.
#[derive(Drop)]
pub struct Registers<'a> {
    alloc: Global,
    nodes: BTreeMap<OpId, NodeKeys<'a>>,
}

impl<'a> Model for Registers<'a> {
    ghost use Rattle.lww_map.specs.Keys.{Table, table_code, table_of};

    ghost Value = { Table };

    ghost coded = { table_code };

    ghost view = { λ r. table_of r.nodes.entries };
}

impl<'a> Registers<'a> {
    /// Nothing was written.
    pub fn new(alloc: Global) -> Registers<'a>
        ensures { result ≡ fin.empty }
    {
        Registers {
            alloc,
            nodes: BTreeMap::new(alloc),
        }
    }

    /// The registers of these rows.
    pub fn from_rows(alloc: Global, rows: &[RegisterRow<'a>]) -> Result<Registers<'a>, AllocError>
        requires { IsStrictlySortedBy register_cmp (map (λ e. e.0) (rows_seen rows.now)) }
        ensures { IfOk result (λ r. r ≡ fin.from_entries (rows_seen rows.now)) }
    {
        let mut registers = Registers::new(alloc);
        for row in rows {
            registers.write(row.node, row.key, row.writer, row.value)?;
        }
        Ok(registers)
    }

    /// Keeps the write, unless one with a greater id came before it.
    pub fn write(
        &mut self,
        node: OpId,
        key: &'a str,
        id: OpId,
        value: Value<'a>,
    ) -> Result<(), AllocError>
        ensures ok { OnOk result (self.new
            ≡ late_register self.old id (put_key node key.now (value_of value.entry))) }
        ensures err { OnErr result (self.new ≡ self.old) }
    {
        if let Some(keys) = self.nodes.get_mut(&node) {
            return keys.write(key, id, value);
        }
        let mut keys = NodeKeys::new(self.alloc);
        keys.write(key, id, value)?;
        self.nodes.insert(node, keys)?;
        Ok(())
    }

    /// The last write of a key, and who wrote it, or `None` exactly where nothing was written.
    pub fn get(&self, node: OpId, key: &'a str) -> Option<(OpId, Value<'a>)>
        ensures { register_seen result ≡ fin.get self.now (node, key.now) }
    {
        let _ = self.nodes.len();
        let keys = self.nodes.get(&node)?;
        let written = keys.get(key)?;
        Some((written.writer, written.value))
    }

    /// The registers of a node, by key.
    pub fn entries(&self, node: OpId) -> Result<Vec<RegisterRow<'a>>, AllocError>
        ensures { IfOk result (λ v. rows_seen v.items ≡ node_rows node (fin.entries self.now)) }
    {
        let mut rows = Vec::new(self.alloc);
        let _ = self.nodes.len();
        if let Some(keys) = self.nodes.get(&node) {
            keys.push_rows(node, &mut rows)?;
        }
        Ok(rows)
    }

    /// All registers, by node and key.
    pub fn rows(&self) -> Result<Vec<RegisterRow<'a>>, AllocError>
        ensures { IfOk result (λ v. rows_seen v.items ≡ fin.entries self.now) }
    {
        rows_in(self.alloc, &self.nodes)
    }
}

// The registers of each node in turn.
fn rows_in<'a>(
    alloc: Global,
    nodes: &BTreeMap<OpId, NodeKeys<'a>>,
) -> Result<Vec<RegisterRow<'a>>, AllocError>
    ensures rows { IfOk result (λ v. rows_seen v.items ≡ table_list nodes.now.entries) }
    ensures ordered { tree.IsOrdered id_cmp nodes.now }
{
    let mut rows = Vec::new(alloc);
    let _ = nodes.len();
    for (node, keys) in nodes {
        keys.push_rows(*node, &mut rows)?;
    }
    Ok(rows)
}
