//! What the definitions of this crate mean for a caller. A law is a function with an empty body:
//! callers cite its clause.
ghost use Rattle.std.specs.Prelude.{◌≡◌, ◌<◌, ℕ, List, [], length, slice_index, slice_index_or};
ghost use Rattle.plan.specs.Nodes.{is_input};
ghost use Rattle.plan.specs.Edges.{numbers_where};
ghost use Rattle.plan.specs.declared.node.Node.{Node};
ghost use Rattle.oracle.specs.Evaluation.{list_of};
ghost use Rattle.update.specs.declared.change.Update.{Update};

use lattice::Lattice;

/// List number `i` belongs to the `i`-th input, in the order in which
/// [`Plan::inputs`](plan::Plan::inputs) lists them.
pub fn lists_belong_to_inputs<T: Lattice>()
    ensures { (p : List Node) (lists : List (List (Update T))) (i : ℕ)
        → i < length (numbers_where is_input p)
        → list_of p lists (slice_index (numbers_where is_input p) i) ≡ slice_index_or lists i [] }
{}
