//! Ends: the first and the last moment of a hub.
//!
//! All passes are dealt when the hub opens, each cut from the seat that the table begins with. So
//! their numbers are known, and none has seen anything. The caller of `close` owns the hub, so no
//! tenure is under way then. The word is read all the same, since no clause says that each tenure
//! was ended.
ghost use Rattle.std.specs.Prelude.{◌≡◌, ◌≤◌, ℕ, List, [], ◌∷◌, true, false, length, slice_get, Some, IfOk, IfSome};
ghost use Rattle.hub.specs.Passes.{hub_id, AreDealt, AgreesWith};
ghost use Rattle.hub.specs.Rules.{first_view};

use crate::hub::{HOME, Hub, Pass};
use crate::protocol::{Deal, Protocol};
use crate::view::View;
use atomic_table::{Seat, Table};
use std::alloc::{AllocError, Global};

/// Deals the passes of a new hub, in the order of their numbers.
fn deal<P: Protocol>(
    alloc: Global,
    hub: &Hub<P>,
    first: Seat<Option<P::State>, View<P::Event>>,
    passes: usize,
) -> Result<Vec<Pass<P>>, AllocError>
    requires hub { first.table_id ≡ hub.now.table.shared.table_id }
    requires first { first.me ≡ (first_view, []) }
    requires count { (1 ≤ passes) × (passes ≤ 32) }
    ensures count { IfOk result (λ v. length v.items ≡ passes) }
    ensures each { IfOk result (λ v. AreDealt (hub_id hub.now) v.items) }
{
    let mut dealt = Vec::with_capacity(alloc, passes)?;
    let mut dealer = first;
    for _ in 1..passes {
        let next = hub.table.shared.split_seat::<Deal>(&mut dealer);
        dealt.push(Pass { seat: dealer })?;
        dealer = next;
    }
    dealt.push(Pass { seat: dealer })?;
    Ok(dealt)
}

impl<P: Protocol> Hub<P> {
    /// Opens a hub with this state at home. Answers the hub, and its passes in the order of their
    /// numbers, from 0 on.
    ///
    /// `AllocError` if there is no memory. The state is dropped then.
    ///
    /// Four allocations, whatever the state. No other call of this crate takes memory.
    pub fn open(
        alloc: Global,
        state: P::State,
        passes: usize,
    ) -> Result<(Hub<P>, Vec<Pass<P>>), AllocError>
        requires count { (1 ≤ passes) × (passes ≤ 32) }
        requires opening { P.stands state [] }
        ensures count { IfOk result (λ r. length r.1.items ≡ passes) }
        ensures each { IfOk result (λ r. AreDealt (hub_id r.0) r.1.items) }
    {
        let mut slots = Vec::new(alloc);
        slots.push(Some(state))?;
        let Ok((table, seat)) = Table::new(alloc, &[HOME], slots, &()) else {
            return Err(AllocError);
        };
        let hub = Hub { table };
        let dealt = deal(alloc, &hub, seat, passes)?;
        Ok((hub, dealt))
    }

    /// Ends a hub, and answers its state. It stands after a history that agrees with the pass.
    ///
    /// `None` if the state is away. It is at home if each tenure was ended by
    /// [`Held::leave`](crate::Held::leave).
    ///
    /// Frees the hub's memory, and takes none.
    pub fn close(self, pass: Pass<P>) -> Option<P::State>
        requires { pass.hub ≡ hub_id self }
        ensures { IfSome result (λ x. (h : List _) × AgreesWith pass h × P.stands x h) }
    {
        let Hub { table } = self;
        let Pass { seat } = pass;
        let mut closed = table.close_with(seat);
        let word = closed.word(0);
        let slot = closed.take(0);
        closed.free();
        if word == HOME { slot } else { None }
    }
}
