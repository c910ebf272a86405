//! Tests of what no clause says: that the calls succeed, that a pass comes back only while the
//! state is away, and that the built program loses nothing when threads hand the state on.
ghost use Rattle.std.specs.Prelude.{◌≡◌, ◌+◌, ◌<◌, ◌≤◌, ◌^◌, ◌-◌, [], IfOk, length, min};
ghost use Rattle.std.specs.Thread.{IsSync};
ghost use Rattle.std.specs.Arc.{arc_value};
ghost use Rattle.hub.specs.Passes.{hub_id, AreDealt};

use hub::{Hub, Pass, Protocol};
use std::alloc::{AllocError, Global};
use std::process::Abort;
use std::sync::{Arc, Wait};
use std::test::Fail;
use std::thread::{Threads, join};

/// A list of numbers, and how many events there were.
#[derive(Drop)]
struct Numbers {
    list: Vec<u64>,
    events: u64,
}

impl Numbers {
    /// Puts a number, and counts the event. `false` if there was no memory for the number.
    fn put(&mut self, number: u64) -> bool
        ensures { self.new.events ≡ min (self.old.events + 1) (2 ^ 64 - 1) }
    {
        self.events = self.events.saturating_add(1);
        self.list.push(number).is_ok()
    }
}

/// The state counts the events of its history, as far as 64 bits go. An event is its own number.
struct Counting;

impl Protocol for Counting {
    ghost use Rattle.std.specs.Prelude.{◌≡◌, ◌^◌, ◌-◌, length, min};

    type State = Box<Numbers, Global>;

    type Event = u64;

    ghost stands = { λ b h. b.value.events ≡ min (length h) (2 ^ 64 - 1) };

    ghost last = { λ b. b.value.events };
}

fn open(alloc: Global, passes: usize) -> Result<(Hub<Counting>, Vec<Pass<Counting>>), AllocError>
    requires { (1 ≤ passes) × (passes ≤ 32) }
    ensures { IfOk result (λ r. (length r.1.items ≡ passes) × AreDealt (hub_id r.0) r.1.items) }
{
    let numbers = Numbers {
        list: Vec::new(alloc),
        events: 0,
    };
    Hub::open(alloc, Box::new(alloc, numbers)?, passes)
}

/// Takes the pass of the highest number.
fn take_pass(hub: &Hub<Counting>, passes: &mut Vec<Pass<Counting>>) -> Pass<Counting>
    requires { (0 < length passes.old.items) × AreDealt (hub_id hub.now) passes.old.items }
    ensures pass { result.hub ≡ hub_id hub.now }
    ensures passes { (length passes.new.items + 1 ≡ length passes.old.items)
        × AreDealt (hub_id hub.now) passes.new.items }
{
    passes.pop().unwrap()
}

/// Puts the number in 100 tenures.
fn append<R: Wait>(rt: &R, hub: &Hub<Counting>, pass: Pass<Counting>, number: u64) -> Pass<Counting>
    requires { pass.hub ≡ hub_id hub.now }
    ensures { result.hub ≡ pass.hub }
{
    let mut pass = pass;
    for _ in 0..100 {
        let mut held = hub.enter(rt, pass);
        let _has_memory = held.state().put(number);
        pass = held.leave();
    }
    pass
}

/// In two threads, each appends its number: the first one, and the one after it.
fn append_both<R: Threads + Wait + Sync>(
    rt: &R,
    hub: &Hub<Counting>,
    first: u64,
    a: Pass<Counting>,
    b: Pass<Counting>,
)
    requires { (first < 100) × (a.hub ≡ hub_id hub.now) × (b.hub ≡ hub_id hub.now) }
{
    join(
        rt,
        move || -> Pass<Counting>
            requires { IsSync R.row × (a.hub ≡ hub_id hub.now) }
        { append(rt, hub, a, first) },
        move || -> Pass<Counting>
            requires { IsSync R.row × (b.hub ≡ hub_id hub.now) × (first < 100) }
        { append(rt, hub, b, first + 1) },
    );
}

/// How often a number is in the list.
fn times(list: &[u64], number: u64) -> usize {
    list.iter().filter(|it| **it == number).count()
}

// Shows that the built steps are atomic, and that a hub may lie in an `Arc` and its passes move
// into threads.
#[test]
fn four_threads_lose_no_number(rt: HostRuntime) -> Result<(), Fail> {
    let (hub, mut passes) = open(rt.alloc(), 5)?;
    let last = take_pass(&hub, &mut passes);
    let (a, b) = (take_pass(&hub, &mut passes), take_pass(&hub, &mut passes));
    let (c, d) = (take_pass(&hub, &mut passes), take_pass(&hub, &mut passes));
    let hub = Arc::new(rt.alloc(), hub)?;
    let theirs = Arc::try_clone(&hub)?;
    join(
        &rt,
        move || -> ()
            requires { (a.hub ≡ hub_id (arc_value theirs)) × (b.hub ≡ hub_id (arc_value theirs)) }
        { append_both(&rt, &theirs, 0, a, b) },
        || -> ()
            requires { (c.hub ≡ hub_id (arc_value hub)) × (d.hub ≡ hub_id (arc_value hub)) }
        { append_both(&rt, &hub, 2, c, d) },
    );
    let Some(hub) = Arc::into_inner(hub) else {
        panic!(rt; "no other thread has the hub")
    };
    let Some(state) = hub.close(last) else {
        panic!(rt; "the state is at home")
    };
    assert_eq!(rt; state.events, 400);
    for number in 0..4 {
        assert_eq!(rt;
            times(state.list.as_slice(), number),
            100,
            "number {number}"
        );
    }
    Ok(())
}

/// Whether the pass finds the state at home. If so, then it counts one event.
fn finds_home(hub: &Hub<Counting>, pass: Pass<Counting>) -> (bool, Pass<Counting>)
    requires { pass.hub ≡ hub_id hub.now }
    ensures { result.1.hub ≡ pass.hub }
{
    match hub.try_enter(pass) {
        Ok(mut held) => {
            let _has_memory = held.state().put(7);
            (true, held.leave())
        }
        Err(pass) => (false, pass),
    }
}

// No clause says when a pass comes back: a body that never lets anyone enter meets the contract.
#[test]
fn a_pass_comes_back_while_the_state_is_away(rt: HostRuntime) -> Result<(), Fail> {
    let (hub, mut passes) = open(rt.alloc(), 2)?;
    let b = take_pass(&hub, &mut passes);
    let a = take_pass(&hub, &mut passes);
    let (before, a) = finds_home(&hub, a);
    let mut held = hub.enter(&rt, a);
    let (during, b) = finds_home(&hub, b);
    let _has_memory = held.state().put(7);
    let a = held.leave();
    let (after, _) = finds_home(&hub, b);
    assert_eq!(rt; (before, during, after), (true, false, true));
    let Some(state) = hub.close(a) else {
        panic!(rt; "the state is at home")
    };
    assert_eq!(rt; state.events, 3);
    assert_eq!(rt; state.list.as_slice(), [7, 7, 7].as_slice());
    Ok(())
}

// No clause says that a hub opens once there is memory.
#[test]
fn opening_takes_memory(rt: HostRuntime) -> Result<(), Fail> {
    let (_hub, passes) = match open(rt.alloc(), 3) {
        Err(AllocError) => open(rt.alloc(), 3)?,
        opened => opened?,
    };
    assert_eq!(rt; passes.len(), 3);
    Ok(())
}
