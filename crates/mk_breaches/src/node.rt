//! The nodes of a plan, with what is found of each and what is recorded of its job.
ghost use Rattle.std.specs.Prelude.{◌≡◌};
ghost use Rattle.mk_breaches.specs.Breaches as spec;

use mk_bytes::{Items, Text, Texts};
use mk_filemon::Recs;
use mk_oodate::Why;

/// What is found of a whole plan.
#[derive(Clone, Copy)]
pub struct PlanFacts {
    /// Meta files are not kept or compared as an audit needs it, or paths are ignored.
    pub mode: bool,
    /// What a line of a makefile asked of a command stands on files that a build makes, or is not
    /// recorded.
    pub asks: bool,
    /// Without the files that a build makes, the plan or a task would be another one.
    pub differs: bool,
}

/// A node of a plan, what is found of it, and what is recorded of its job.
#[derive(Drop)]
pub struct NodeFacts {
    /// Its cleaned path.
    pub name: Text,
    /// Its job makes a file at this path.
    pub made: bool,
    /// The numbers of the nodes from which it is made.
    pub sources: Items<u32>,
    /// It has commands. Of a node without commands nothing is told.
    pub job: bool,
    /// It makes a file, and no meta file is kept or compared for it.
    pub unmeta: bool,
    /// Its task is a fault.
    pub task: bool,
    /// Its commands look up which sources are newer, or one of its lines is not compared.
    pub oodate: bool,
    /// The paths of which its commands ask whether they are there, in the order of asking.
    pub asked: Texts,
    /// It is no node in meta mode.
    pub unrecorded: bool,
    /// The first reason that makes it out of date.
    pub stale: Option<Why>,
    /// What is recorded of its job; nothing where it has none. It counts for the other nodes,
    /// whatever else is found of this one.
    pub records: Recs,
}

/// Nodes in the order of their plan, in which each has its place as its number.
pub type Nodes = Items<NodeFacts>;

/// The sources of a node; none where there is no such node.
pub fn sources_at(nodes: &[NodeFacts], n: usize) -> &[u32]
    ensures { result.now ≡ spec.sources_at nodes.now n }
{
    match nodes.get(n) {
        Some(node) => node.sources.as_slice(),
        None => &[],
    }
}

/// The name of a node; none where there is no such node.
pub fn name_at(nodes: &[NodeFacts], n: u32) -> &[u8]
    ensures { result.now ≡ spec.name_at nodes.now n }
{
    match nodes.get(n as usize) {
        Some(node) => node.name.bytes(),
        None => b"",
    }
}

/// Whether a path is that of the file that a node makes.
pub fn is_own(node: &NodeFacts, path: &[u8]) -> bool
    ensures { result ≡ spec.is_own node.now path.now }
{
    node.made && node.name.bytes() == path
}

/// Whether what is recorded of a node's job is what it would do.
pub fn is_judged(node: &NodeFacts) -> bool
    ensures { result ≡ spec.is_judged node.now }
{
    node.job && !node.task && !node.unrecorded && node.stale.is_none()
}
