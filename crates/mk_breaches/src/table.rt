//! What is known of each path, in one table.
ghost use Rattle.std.specs.Prelude.{◌≡◌, ◌<◌, ◌^◌, length, IfOk, OnOk};
ghost use Rattle.mk_filemon.specs.Outer.{ops_of};
ghost use Rattle.mk_breaches.specs.Held.{rows_in};
ghost use Rattle.mk_breaches.specs.Rows as spec;

use crate::node::NodeFacts;
use indexmap::IndexMap;
use mk_bytes::NoMemory;
use mk_filemon::Rec;
use mk_world::Op;
use std::alloc::Global;

/// Whose records name a path.
#[derive(Clone, Copy)]
pub enum Naming {
    Nowhere,
    /// Those of one node.
    Once(u32),
    /// Those of two nodes or more.
    Often,
}

/// What is known of a path.
#[derive(Clone, Copy)]
pub struct Row {
    /// It is a node's.
    pub node: bool,
    /// The first node that makes a file there.
    pub maker: Option<u32>,
    /// Some record says that it was changed.
    pub changed: bool,
    pub naming: Naming,
}

// Of a path of which nothing is known.
fn no_row() -> Row
    ensures { result ≡ spec.no_row }
{
    Row {
        node: false,
        maker: None,
        changed: false,
        naming: Naming::Nowhere,
    }
}

fn named_too(n: u32, naming: Naming) -> Naming
    ensures { result ≡ spec.named_too n naming }
{
    match naming {
        Naming::Nowhere => Naming::Once(n),
        Naming::Once(other) if other == n => naming,
        Naming::Once(_) | Naming::Often => Naming::Often,
    }
}

/// Whether the records of another node than this one name a path.
pub fn by_other(n: u32, naming: Naming) -> bool
    ensures { result ≡ spec.by_other n naming }
{
    match naming {
        Naming::Nowhere => false,
        Naming::Once(other) => other != n,
        Naming::Often => true,
    }
}

fn made_too(n: u32, made: bool, maker: Option<u32>) -> Option<u32>
    ensures { result ≡ spec.made_too n made maker }
{
    match maker {
        Some(first) => Some(first),
        None if made => Some(n),
        None => None,
    }
}

/// What is known of each path that the nodes so far or their records name. The paths are lent by
/// the nodes. One more record takes about constant time.
#[derive(Drop)]
pub struct Table<'r> {
    rows: IndexMap<&'r [u8], Row>,
}

impl<'r> Table<'r> {
    fn new(alloc: Global) -> Table<'r>
        ensures { rows_in result ≡ spec.no_rows }
    {
        Table {
            rows: IndexMap::new(alloc),
        }
    }

    /// What is known of a path. Takes no memory.
    pub fn row(&self, path: &[u8]) -> Row
        ensures { result ≡ rows_in self.now path.now }
    {
        match self.rows.get(path) {
            Some(row) => *row,
            None => no_row(),
        }
    }

    // From now on this is known of a path.
    fn set(&mut self, path: &'r [u8], row: Row) -> Result<(), NoMemory>
        ensures { OnOk result (rows_in self.new ≡ spec.with_row (rows_in self.old) path.now row) }
    {
        self.rows.insert(path, row)?;
        Ok(())
    }

    fn note_path(&mut self, n: u32, path: &'r [u8], changed: bool) -> Result<(), NoMemory>
        ensures { OnOk result
            (rows_in self.new ≡ spec.noted_path n changed (rows_in self.old) path.now) }
    {
        let row = self.row(path);
        let changed = row.changed || changed;
        let naming = named_too(n, row.naming);
        self.set(
            path,
            Row {
                changed,
                naming,
                ..row
            },
        )
    }

    fn note_op(&mut self, n: u32, op: &'r Op) -> Result<(), NoMemory>
        ensures { OnOk result (rows_in self.new ≡ spec.noted_op n (rows_in self.old) op.now) }
    {
        match op {
            Op::Read(path) | Op::Miss(path) => self.note_path(n, path.bytes(), false),
            Op::Write(path) | Op::Delete(path) => self.note_path(n, path.bytes(), true),
            Op::Move(from, to) => {
                self.note_path(n, from.bytes(), true)?;
                self.note_path(n, to.bytes(), true)
            }
        }
    }

    fn note_ops(&mut self, n: u32, records: &'r [Rec]) -> Result<(), NoMemory>
        ensures { OnOk result
            (rows_in self.new ≡ spec.noted_ops n (rows_in self.old) (ops_of records.now)) }
    {
        for one in records {
            self.note_op(n, &one.op)?;
        }
        Ok(())
    }

    fn note_name(&mut self, n: u32, node: &'r NodeFacts) -> Result<(), NoMemory>
        ensures { OnOk result (rows_in self.new ≡ spec.with_row (rows_in self.old) node.now.name
            (spec.node_row n node.now.made (rows_in self.old node.now.name))) }
    {
        let path = node.name.bytes();
        let row = self.row(path);
        let maker = made_too(n, node.made, row.maker);
        self.set(
            path,
            Row {
                node: true,
                maker,
                ..row
            },
        )
    }

    fn note_node(&mut self, n: u32, node: &'r NodeFacts) -> Result<(), NoMemory>
        ensures { OnOk result (rows_in self.new ≡ spec.noted_node n (rows_in self.old) node.now) }
    {
        self.note_name(n, node)?;
        self.note_ops(n, node.records.as_slice())
    }

    fn note_all(&mut self, nodes: &'r [NodeFacts]) -> Result<(), NoMemory>
        requires { length nodes.now < 2 ^ 32 }
        ensures { OnOk result (rows_in self.new ≡ spec.noted_from 0 (rows_in self.old) nodes.now) }
    {
        for (n, node) in nodes.iter().enumerate() {
            self.note_node(n as u32, node)?;
        }
        Ok(())
    }

    /// What nodes and their records tell of each path.
    pub fn of(alloc: Global, nodes: &'r [NodeFacts]) -> Result<Table<'r>, NoMemory>
        requires { length nodes.now < 2 ^ 32 }
        ensures { IfOk result (λ table. rows_in table ≡ spec.noted_from 0 spec.no_rows nodes.now) }
    {
        let mut table = Table::new(alloc);
        table.note_all(nodes)?;
        Ok(table)
    }
}
