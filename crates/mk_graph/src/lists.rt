use mk_bytes::Items;

/// A list of nodes, each by its number.
pub type Nodes = Items<u32>;

/// The predecessors of node 0, 1 and so on.
pub type Preds = Items<Nodes>;
