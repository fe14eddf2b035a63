//! Changes that breach: of paths that are a node's or that another job reads or changes; a made
//! file that is not left written; and meta paths.
ghost use Rattle.std.specs.Prelude.{◌≡◌, ◌++◌, ◌∷◌, ◌&&◌, ◌||◌, [], not, filter, map, OnOk, IfOk};
ghost use Rattle.std.specs.Prelude.{if◌then◌else◌};
ghost use Rattle.mk_breaches.specs.Breaches as spec;
ghost use Rattle.mk_breaches.specs.Held.{rows_in};
ghost use Rattle.mk_breaches.specs.Paths.{is_meta_path as ends_as_meta, meta_paths};
ghost use Rattle.mk_breaches.specs.Rows.{by_other as by_another, noted_from, no_rows};
ghost use Rattle.mk_breaches.specs.declared.breach.Breach.TheVariants as breach;

use crate::breach::{Breach, Breaches};
use crate::node::{NodeFacts, is_own};
use crate::path::{Paths, is_meta_path};
use crate::table::{Row, Table, by_other};
use mk_bytes::{NoMemory, Text, is_among};
use mk_filemon::left_written;
use std::alloc::Global;

fn is_shared(n: u32, row: Row) -> bool
    ensures { result ≡ (row.node || by_another n row.naming) }
{
    row.node || by_other(n, row.naming)
}

impl<'r> Paths<'r> {
    // Adds those that are shared, other than the node's own made file.
    fn push_shared(
        &self,
        alloc: Global,
        table: &Table,
        n: u32,
        node: &NodeFacts,
        all: &mut Breaches,
    ) -> Result<(), NoMemory>
        ensures { OnOk result (all.new ≡ all.old ++ map (breach.Changes n)
            (filter (λ path. not (spec.is_own node.now path)
            && ((rows_in table.now path).node || by_another n (rows_in table.now path).naming))
            self.now)) }
    {
        for path in self.paths.iter() {
            if !is_own(node, *path) && is_shared(n, table.row(*path)) {
                all.push(Breach::Changes(n, Text::from_bytes(alloc, *path)?))?;
            }
        }
        Ok(())
    }

    // Adds the meta paths.
    fn push_metas(&self, alloc: Global, n: u32, all: &mut Breaches) -> Result<(), NoMemory>
        ensures { OnOk result
            (all.new ≡ all.old ++ map (breach.Meta n) (filter ends_as_meta self.now)) }
    {
        for path in self.paths.iter() {
            if is_meta_path(*path) {
                all.push(Breach::Meta(n, Text::from_bytes(alloc, *path)?))?;
            }
        }
        Ok(())
    }
}

/// Adds the paths other than its own made file that a node's job changed, and that are a node's or
/// that another job reads or changes.
pub fn push_changes(
    alloc: Global,
    nodes: &[NodeFacts],
    table: &Table,
    n: u32,
    node: &NodeFacts,
    all: &mut Breaches,
) -> Result<(), NoMemory>
    requires { rows_in table.now ≡ noted_from 0 no_rows nodes.now }
    ensures { OnOk result
        (all.new ≡ all.old ++ map (breach.Changes n) (spec.changes nodes.now n node.now)) }
{
    let changed = Paths::changed(alloc, node.records.as_slice())?;
    changed.push_shared(alloc, table, n, node, all)
}

fn is_unwritten(alloc: Global, node: &NodeFacts) -> Result<bool, NoMemory>
    ensures { IfOk result (λ is. is ≡ spec.is_unwritten node.now) }
{
    if !node.made {
        return Ok(false);
    }
    let left = left_written(alloc, &node.records)?;
    Ok(!is_among(left.as_slice(), node.name.bytes()))
}

/// Adds a node that makes a file, where its job does not leave it written.
pub fn push_unwritten(
    alloc: Global,
    n: u32,
    node: &NodeFacts,
    all: &mut Breaches,
) -> Result<(), NoMemory>
    ensures { OnOk result (all.new
        ≡ all.old ++ spec.told_where (spec.is_unwritten node.now) (breach.Unwritten n)) }
{
    if is_unwritten(alloc, node)? {
        all.push(Breach::Unwritten(n))?;
    }
    Ok(())
}

/// Adds the meta paths that a node's job reads or changes, and its own name where it is one.
pub fn push_meta_paths(
    alloc: Global,
    n: u32,
    node: &NodeFacts,
    all: &mut Breaches,
) -> Result<(), NoMemory>
    ensures { OnOk result (all.new
        ≡ all.old ++ map (breach.Meta n) (meta_paths (spec.ops node.now) node.now.name)) }
{
    let named = Paths::named(alloc, node.records.as_slice(), node.name.bytes())?;
    named.push_metas(alloc, n, all)
}
