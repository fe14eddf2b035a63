//! Outer reads that breach: of made files on which a node does not depend, and of paths that jobs
//! change.
ghost use Rattle.std.specs.Prelude.{◌≡◌, ◌++◌, ◌&&◌, filter, is_none, map, OnOk};
ghost use Rattle.std.specs.List.{list_any};
ghost use Rattle.mk_breaches.specs.Breaches.{is_apart, is_changed, maker_of};
ghost use Rattle.mk_breaches.specs.Held.{rows_in};
ghost use Rattle.mk_breaches.specs.Rows.{noted_from, no_rows};
ghost use Rattle.mk_breaches.specs.Walks as spec;
ghost use Rattle.mk_breaches.specs.declared.breach.Breach.TheVariants as breach;

use crate::breach::{Breach, Breaches};
use crate::node::{NodeFacts, sources_at};
use crate::reach::reached;
use crate::table::{Row, Table};
use indexmap::IndexSet;
use mk_bytes::{NoMemory, Text};
use std::alloc::Global;

// Whether a path has a maker that is none of these sources.
fn is_distant(sources: &[u32], row: Row) -> bool
    ensures { result ≡ spec.is_distant sources.now row.maker }
{
    match row.maker {
        None => false,
        Some(maker) => !sources.contains(&maker),
    }
}

// Whether it has one that is not met.
fn is_unmet(met: &IndexSet<u32>, row: Row) -> bool
    ensures { result ≡ spec.is_unmet met.now.keys row.maker }
{
    match row.maker {
        None => false,
        Some(maker) => !met.contains(&maker),
    }
}

fn any_distant(table: &Table, sources: &[u32], reads: &[Text]) -> bool
    ensures { result ≡ list_any
        (λ path. spec.is_distant sources.now (rows_in table.now path).maker) reads.now }
{
    reads
        .iter()
        .any(|path| is_distant(sources, table.row(path.bytes())))
}

fn push_unmet(
    alloc: Global,
    table: &Table,
    met: &IndexSet<u32>,
    n: u32,
    reads: &[Text],
    all: &mut Breaches,
) -> Result<(), NoMemory>
    ensures { OnOk result (all.new ≡ all.old ++ map (breach.ReadsMade n)
        (filter (λ path. spec.is_unmet met.now.keys (rows_in table.now path).maker) reads.now)) }
{
    for path in reads {
        if is_unmet(met, table.row(path.bytes())) {
            all.push(Breach::ReadsMade(n, path.copy(alloc)?))?;
        }
    }
    Ok(())
}

/// Adds those of a node's outer reads that are made files on which it does not depend. Where each
/// is a source of the node, no walk is made.
pub fn push_reads_made(
    alloc: Global,
    nodes: &[NodeFacts],
    table: &Table,
    n: u32,
    reads: &[Text],
    all: &mut Breaches,
) -> Result<(), NoMemory>
    requires { rows_in table.now ≡ noted_from 0 no_rows nodes.now }
    ensures { OnOk result (all.new ≡ all.old ++ map (breach.ReadsMade n)
        (filter (λ path. is_apart nodes.now n (maker_of nodes.now path)) reads.now)) }
{
    if !any_distant(table, sources_at(nodes, n as usize), reads) {
        return Ok(());
    }
    let met = reached(alloc, nodes, n as usize)?;
    push_unmet(alloc, table, &met, n, reads, all)
}

fn is_changed_source(row: Row) -> bool
    ensures { result ≡ (is_none row.maker && row.changed) }
{
    row.maker.is_none() && row.changed
}

fn push_changed(
    alloc: Global,
    table: &Table,
    n: u32,
    reads: &[Text],
    all: &mut Breaches,
) -> Result<(), NoMemory>
    ensures { OnOk result (all.new ≡ all.old ++ map (breach.ReadsChanged n)
        (filter (λ path. is_none (rows_in table.now path).maker && (rows_in table.now path).changed)
        reads.now)) }
{
    for path in reads {
        if is_changed_source(table.row(path.bytes())) {
            all.push(Breach::ReadsChanged(n, path.copy(alloc)?))?;
        }
    }
    Ok(())
}

/// Adds those that are no made files, and that some job changed.
pub fn push_reads_changed(
    alloc: Global,
    nodes: &[NodeFacts],
    table: &Table,
    n: u32,
    reads: &[Text],
    all: &mut Breaches,
) -> Result<(), NoMemory>
    requires { rows_in table.now ≡ noted_from 0 no_rows nodes.now }
    ensures { OnOk result (all.new ≡ all.old ++ map (breach.ReadsChanged n)
        (filter (λ path. is_none (maker_of nodes.now path) && is_changed nodes.now path) reads.now)) }
{
    push_changed(alloc, table, n, reads, all)
}
