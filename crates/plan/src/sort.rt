//! The sort of a node: how it is run. Engines, and the proofs about them, ask for the sort and not
//! for the variant. So a new variant of an existing sort changes nothing in them.
ghost use Rattle.std.specs.Prelude.{◌≡◌};
ghost use Rattle.plan.specs.Nodes.{sort, is_input, is_output, is_linear};

use crate::node::Node;

/// How a node is run.
#[derive(Clone, Copy, PartialEq, Eq)]
pub enum Sort {
    /// Its rows come from outside.
    Source,
    /// Works update by update and keeps no state.
    Stateless,
    /// Sends rows to workers by their key, and keeps them in order.
    Arrangement,
    /// Pairs rows of two sources. It is linear in each of them alone.
    Bilinear,
    /// Computes the answer for each key from all rows of the key.
    Reduction,
    /// Is read from outside.
    View,
}

impl Node {
    /// The sort of the node. Takes no memory.
    pub fn sort(&self) -> Sort
        ensures { result ≡ sort self.now }
    {
        match self {
            Node::Input { .. } => Sort::Source,
            Node::Map { .. } | Node::Filter { .. } | Node::Concat { .. } | Node::Negate { .. } => {
                Sort::Stateless
            }
            Node::Arrange { .. } => Sort::Arrangement,
            Node::Join { .. } => Sort::Bilinear,
            Node::Reduce { .. } => Sort::Reduction,
            Node::Output { .. } => Sort::View,
        }
    }

    /// Whether this is an input. Takes no memory.
    pub fn is_input(&self) -> bool
        ensures { result ≡ is_input self.now }
    {
        matches!(self.sort(), Sort::Source)
    }

    /// Whether this is a view. Takes no memory.
    pub fn is_output(&self) -> bool
        ensures { result ≡ is_output self.now }
    {
        matches!(self.sort(), Sort::View)
    }

    /// Whether the node is linear, which means that its output for a sum is the sum of its outputs
    /// for the parts: all nodes but joins and reductions. Takes no memory.
    pub fn is_linear(&self) -> bool
        ensures { result ≡ is_linear self.now }
    {
        !matches!(self.sort(), Sort::Bilinear | Sort::Reduction)
    }
}
