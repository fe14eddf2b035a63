//! What a graph tells of a name.
ghost use Rattle.std.specs.Prelude.{◌≡◌, ◌<◌, Bool, false, true, length, is_none, IfSome};
ghost use Rattle.mk_graph.specs.Nodes.{Node, node_at};
ghost use Rattle.mk_graph.specs.Where as spec;

use crate::attr::Attr;
use crate::graph::Graph;

impl Graph {
    // The node of a name, of which there is one.
    fn node_of(&self, name: &[u8]) -> Option<u32>
        ensures found { IfSome result (λ n. (n < length self.now)
            × ((is_so : Node → Bool) → is_so (node_at self.now n)
            ≡ spec.is_listed (spec.names_where is_so self.now) name.now)) }
        ensures missing { is_none result ≡ true → (is_so : Node → Bool)
            → spec.is_listed (spec.names_where is_so self.now) name.now ≡ false }
    {
        if self.len() == 0 {
            return None;
        }
        self.find(name)
    }

    /// Whether the node of this name stood as a target. Takes no memory.
    pub fn is_target(&self, name: &[u8]) -> bool
        ensures { result ≡ spec.is_listed (spec.names_where spec.is_target self.now) name.now }
    {
        match self.node_of(name) {
            Some(n) => self.has(n, Attr::Target),
            None => false,
        }
    }

    /// Whether the node of this name has commands. Takes no memory.
    pub fn has_commands(&self, name: &[u8]) -> bool
        ensures { result ≡ spec.is_listed (spec.names_where spec.has_commands self.now) name.now }
    {
        match self.node_of(name) {
            Some(n) => !self.commands(n).is_empty(),
            None => false,
        }
    }
}
