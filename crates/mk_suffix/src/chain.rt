use mk_bytes::Texts;
use mk_graph::Nodes;

/// How a name is made by suffix rules.
#[derive(Drop)]
pub struct Chain {
    /// The files, from the found source to the name itself.
    pub names: Texts,
    /// The nodes of the rules, each of which makes the next file from one of them.
    pub rules: Nodes,
}
