//! How an actor enters the board: in its turn, for which it waits, or by one try.
//!
//! Both begin a tenure with the pass that lies in the actor, and promise the same of it. So a call
//! and its twin that waits differ here alone.
ghost use Rattle.std.specs.Prelude.{◌≡◌, IfErr, IfOk, IfSome, IsSomeAnd};
ghost use Rattle.hub.specs.Passes.{hub_id};
ghost use Rattle.hub.specs.Tenures.{IsTenureOf};
ghost use Rattle.update.specs.declared.refusal.Refusal.TheVariants.{Busy};

use hub::{Held, Hub, Pass, Protocol};
use std::sync::Wait;
use update::Refusal;

// Begins a tenure with the pass that lies there, when the board is at home.
pub(crate) fn enter<'h, R: Wait, P: Protocol>(
    rt: &R,
    hub: &'h Hub<P>,
    pass: &mut Option<Pass<P>>,
) -> Held<'h, P>
    requires there { IsSomeAnd pass.old (λ p. p.hub ≡ hub_id hub.now) }
    ensures found { IfSome pass.old (λ p. IsTenureOf p result) }
    ensures stands { P.stands result.state result.found }
{
    let Some(own) = pass.take() else {
        unreachable!()
    };
    hub.enter(rt, own)
}

// Begins a tenure with the pass that lies there, if the board is at home. Refused only with `Busy`:
// another actor has the board. Then the pass lies there still.
pub(crate) fn try_enter<'h, P: Protocol>(
    hub: &'h Hub<P>,
    pass: &mut Option<Pass<P>>,
) -> Result<Held<'h, P>, Refusal>
    requires there { IsSomeAnd pass.old (λ p. p.hub ≡ hub_id hub.now) }
    ensures found { IfOk result (λ tenure. IfSome pass.old (λ p. IsTenureOf p tenure)) }
    ensures stands { IfOk result (λ tenure. P.stands tenure.state tenure.found) }
    ensures busy { IfErr result (λ refusal. refusal ≡ Busy) }
    ensures same { IfErr result (λ refusal. pass.new ≡ pass.old) }
{
    let Some(own) = pass.take() else {
        unreachable!()
    };
    match hub.try_enter(own) {
        Ok(tenure) => Ok(tenure),
        Err(same) => {
            *pass = Some(same);
            Err(Refusal::Busy)
        }
    }
}
