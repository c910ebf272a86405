//! What follows from the definitions of linear nodes alone. The functions do nothing: they are
//! called, or their clauses cited, for what they promise in every lattice.
ghost use Rattle.std.specs.Prelude.{◌≡◌, ◌<◌, ◌≤◌, ◌^◌, ℕ, List, ◌++◌, Some, IsTrue, length, slice_get};
ghost use Rattle.std.specs.List.{list_all};
ghost use Rattle.update.specs.Bags.{Alike};
ghost use Rattle.update.specs.Updates.{as_of, size};
ghost use Rattle.update.specs.declared.change.Update.{Update};
ghost use Rattle.plan.specs.Nodes.{node_at, sources, is_linear};
ghost use Rattle.plan.specs.Operators.{operator_output};
ghost use Rattle.plan.specs.Rules.{IsPlan};
ghost use Rattle.plan.specs.Widths.{width_of};
ghost use Rattle.plan.specs.declared.node.Node.{Node};
ghost use Rattle.linear.specs.Applied.{linear_output, Overflows};
ghost use Rattle.linear.specs.Ports.{is_port, at_port, with_more_at};
ghost use Rattle.linear.specs.Widths.{takes_rows, are_wide};

use lattice::Lattice;

/// A linear node may be applied piece by piece. Its output for two pieces together is its output
/// for each, together. At every time, the sum of its output is the operator's output for the sum of
/// what came to the port. If the sum of what was emitted is the operator's output for all that was
/// received, then this still holds after one more piece. The output is never larger than the input.
/// If a diff of the output is no 64-bit number, then the input has size 2^63 or more.
pub fn pieces_add_up<T: Lattice>()
    ensures pieces { (node : Node) (us vs : List (Update T))
        → linear_output node (us ++ vs) ≡ linear_output node us ++ linear_output node vs }
    ensures sums { (k : ℕ) (node : Node) → IsTrue (is_linear node) → (port : ℕ)
        → IsTrue (is_port node port) → (us : List (Update T)) (t : T)
        → Alike (as_of T.times t (linear_output node us))
        (operator_output k node (at_port port (as_of T.times t us))) }
    ensures goes_on { (k : ℕ) (node : Node) → IsTrue (is_linear node) → (port : ℕ)
        → IsTrue (is_port node port)
        → (received : ℕ → List (Update T)) (emitted us : List (Update T)) (t : T)
        → Alike (as_of T.times t emitted)
        (operator_output k node (λ p. as_of T.times t (received p)))
        → Alike (as_of T.times t (linear_output node us ++ emitted))
        (operator_output k node (λ p. as_of T.times t (with_more_at port us received p))) }
    ensures size { (node : Node) (us : List (Update T)) → size (linear_output node us) ≤ size us }
    ensures large { (node : Node) (us : List (Update T)) → Overflows node us → 2 ^ 63 ≤ size us }
{}

/// A linear node of a plan takes the rows of its sources, and its output rows have the width that
/// the plan says. That it takes the rows of its sources holds for every node of a plan.
pub fn plans_fit<T: Lattice>()
    ensures takes { (p : List Node) → IsPlan p → (n port source : ℕ)
        → slice_get (sources (node_at p n)) port ≡ Some source
        → (us : List (Update T)) → IsTrue (are_wide (width_of p source) us)
        → IsTrue (takes_rows (node_at p n) us) }
    ensures gives { (p : List Node) → IsPlan p → (n port source : ℕ)
        → slice_get (sources (node_at p n)) port ≡ Some source
        → IsTrue (is_linear (node_at p n))
        → (us : List (Update T)) → IsTrue (are_wide (width_of p source) us)
        → IsTrue (are_wide (width_of p n) (linear_output (node_at p n) us)) }
{}
