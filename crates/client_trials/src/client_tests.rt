//! Clients of a session where nobody else does anything: each call comes in, and succeeds if there
//! is memory. The plan is that of an input of one column and a view of it.
use crate::caller::{Caller, Crew, callers};
use antichain::Antichain;
use lattice::Bitime;
use std::alloc::Global;
use std::process::Abort;
use std::sync::Wait;
use std::test::Fail;
use trials::at;
use update::Refusal;

// Opens a session with one worker, who does nothing, and one client.
fn opened<R: Wait + Abort>(rt: &R, alloc: Global, waits: bool) -> Result<Caller, Refusal> {
    let mut crew: Crew = Vec::new(alloc);
    let mut callers = callers(rt, alloc, 1, 1, &mut crew)?;
    let Some(mut caller) = callers.pop() else {
        panic!(rt; "there is a client")
    };
    caller.waits = waits;
    Ok(caller)
}

// The client changes the input until it is closed.
fn changes_inputs<R: Wait + Abort>(
    rt: &R,
    alloc: Global,
    waits: bool,
    start: Bitime,
    later: Bitime,
) -> Result<(), Refusal> {
    let mut client = opened(rt, alloc, waits)?;
    client.feed(rt, alloc, &[7], start, 2)?;
    client.advance(rt, alloc, later)?;
    assert_eq!(rt;
        client.feed(rt, alloc, &[7], start, 2),
        Err(Refusal::TimePassed)
    );
    assert_eq!(rt; client.advance(rt, alloc, start), Err(Refusal::NotForward));
    assert_eq!(rt;
        client.feed(rt, alloc, &[], later, 0),
        Err(Refusal::WrongWidth)
    );
    assert_eq!(rt;
        client.feed(rt, alloc, &[1, 2, 3, 4, 5, 6, 7, 8, 9], later, 0),
        Err(Refusal::WrongWidth)
    );
    assert_eq!(rt;
        client.feed(rt, alloc, &[7, 8], later, 0),
        Err(Refusal::WrongWidth)
    );
    assert_eq!(rt;
        client.feed(rt, alloc, &[7], later, 0),
        Err(Refusal::ZeroWeight)
    );
    client.close_input(rt)?;
    assert_eq!(rt;
        client.feed(rt, alloc, &[7], later, 1),
        Err(Refusal::TimePassed)
    );
    Ok(())
}

// The worker has carried nothing on, so what was fed can't be read yet, and the view may still
// change from the least time on.
fn asks_views<R: Wait + Abort>(
    rt: &R,
    alloc: Global,
    waits: bool,
    start: Bitime,
    later: Bitime,
) -> Result<Antichain<Bitime>, Refusal> {
    let mut client = opened(rt, alloc, waits)?;
    assert!(rt; client.quiet(rt)?);
    client.feed(rt, alloc, &[7], start, 2)?;
    client.advance(rt, alloc, later)?;
    assert!(rt; !client.quiet(rt)?);
    assert!(rt; !client.is_too_large(rt)?);
    assert!(rt; matches!(client.read(rt, start), Err(Refusal::NotPassed)));
    assert!(rt; client.changes(rt)?.is_empty());
    client.allow(rt, alloc, later)?;
    assert_eq!(rt; client.allow(rt, alloc, start), Err(Refusal::NotForward));
    assert!(rt; matches!(client.changes(rt), Err(Refusal::GivenUp)));
    client.probe(rt)
}

// Memory is ample here. No clause says that a client who is alone is not refused each time. What
// waits answers the same.
#[test]
fn clients_change_inputs(rt: HostRuntime) -> Result<(), Fail> {
    changes_inputs(&rt, rt.alloc(), false, at(0, 0), at(0, 1))?;
    changes_inputs(&rt, rt.alloc(), true, at(0, 0), at(0, 1))?;
    Ok(())
}

#[test]
fn clients_ask_views(rt: HostRuntime) -> Result<(), Fail> {
    for waits in [false, true] {
        let frontier = asks_views(&rt, rt.alloc(), waits, at(0, 0), at(0, 1))?;
        assert!(rt; frontier.elements() == [at(0, 0)].as_slice());
    }
    Ok(())
}

// All of it may be refused for want of memory, and succeeds when it is done again.
#[test]
fn clients_take_memory(rt: HostRuntime) -> Result<(), Fail> {
    match asks_views(&rt, rt.alloc(), true, at(0, 0), at(0, 1)) {
        Err(Refusal::OutOfMemory) => asks_views(&rt, rt.alloc(), false, at(0, 0), at(0, 1))?,
        done => done?,
    };
    Ok(())
}
