//! The differences of a plan's last node. The plain query asks something of its caller. Here it is
//! called only after that was tested, so that a test need not be proved to keep it.
ghost use Rattle.std.specs.Prelude.{◌-◌, length, map, IfOk};
ghost use Rattle.plan.specs.Changes.{AreDifferences, open_for};
ghost use Rattle.oracle.specs.Evaluation.{list_of};

use antichain::Antichain;
use lattice::Lattice;
use oracle::{are_wide, differences};
use plan::{NodeId, Plan};
use std::alloc::Global;
use update::{Refusal, Update};

/// The differences of the plan's last node, as of the inputs' frontiers. An input without one is
/// closed. Refused as [`differences`] is, and with `Stray` if the plan has no node, or a change
/// does not have the width of its input. Cost: that of [`differences`].
pub fn listed<T: Lattice>(
    alloc: Global,
    plan: &Plan,
    changes: &[Vec<Update<T>>],
    frontiers: &[Antichain<T>],
) -> Result<Vec<Update<T>>, Refusal>
    ensures { IfOk result (λ listed. AreDifferences T.times T.cmp plan.now
        (list_of plan.now (map (λ v. v.items) changes.now))
        (open_for T.times plan.now (list_of plan.now frontiers.now) (length plan.now - 1))
        (length plan.now - 1) listed.items) }
{
    if plan.is_empty() || !are_wide(plan, changes) {
        return Err(Refusal::Stray);
    }
    let last = NodeId::new(plan.len() - 1);
    differences(alloc, plan, last, changes, frontiers)
}
