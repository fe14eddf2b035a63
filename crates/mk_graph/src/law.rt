//! What holds of orders of nodes.
ghost use Rattle.mk_graph.specs.Orders.{OrdersAreWhole};

/// The order that a depth-first walk gives has exactly the nodes that are reached, each once, and
/// each behind its predecessors.
pub fn orders_are_whole()
    ensures { OrdersAreWhole }
{}
