//! On which nodes a node depends, through sources.
ghost use Rattle.std.specs.Prelude.{◌≡◌, ◌<◌, ℕ, length, nat_eq, IfOk, OnOk};
ghost use Rattle.std.specs.List.{list_any};
ghost use Rattle.mk_breaches.specs.Breaches.{sources_at as sources_in};
ghost use Rattle.mk_breaches.specs.Reaches.{depends};
ghost use Rattle.mk_breaches.specs.Walks.{met_too};

use crate::node::{NodeFacts, sources_at};
use indexmap::IndexSet;
use mk_bytes::NoMemory;
use std::alloc::Global;

// Takes in those of some numbers that are below a count.
fn meet(met: &mut IndexSet<u32>, count: usize, numbers: &[u32]) -> Result<(), NoMemory>
    ensures { OnOk result (met.new.keys ≡ met_too count met.old.keys numbers.now) }
{
    for n in numbers {
        if (*n as usize) < count {
            met.insert(*n)?;
        }
    }
    Ok(())
}

/// The nodes on which a node depends, through sources: one walk over them and their sources.
pub fn reached(alloc: Global, nodes: &[NodeFacts], n: usize) -> Result<IndexSet<u32>, NoMemory>
    ensures { IfOk result (λ met. (other : ℕ) → other < length nodes.now
        → list_any (nat_eq other) met.keys
        ≡ depends (sources_in nodes.now) (length nodes.now) n other) }
{
    let mut met = IndexSet::new(alloc);
    meet(&mut met, nodes.len(), sources_at(nodes, n))?;
    for next in 0..nodes.len() {
        let Some(one) = met.get_index(next) else {
            return Ok(met);
        };
        let one = *one as usize;
        meet(&mut met, nodes.len(), sources_at(nodes, one))?;
    }
    Ok(met)
}
