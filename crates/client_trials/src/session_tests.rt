//! A session as a caller embeds it: two workers and two clients, a late correction, and a schedule
//! that is drawn.
use crate::caller::{Caller, Crew, callers};
use session::{Move, drive};
use std::alloc::Global;
use std::process::Abort;
use std::sync::Wait;
use std::test::Fail;
use trials::{Draws, at};
use update::Refusal;

// A schedule of so many moves: which worker steps, and which of its pieces it takes, is drawn.
fn schedule(alloc: Global, draws: &mut Draws, moves: u64) -> Result<Vec<Move>, Refusal> {
    let mut schedule = Vec::new(alloc);
    for _ in 0..moves {
        schedule.push(Move::Step {
            worker: draws.below(2) as usize,
            pick: draws.below(20) as usize,
        })?;
    }
    Ok(schedule)
}

// Drives the crew by drawn schedules until the client finds the session quiet.
fn settle<R: Wait + Abort>(
    rt: &R,
    alloc: Global,
    crew: &mut Crew,
    client: &mut Caller,
    draws: &mut Draws,
) -> Result<(), Refusal> {
    for _ in 0..1_000 {
        if client.quiet(rt)? {
            return Ok(());
        }
        drive(alloc, crew, &schedule(alloc, draws, 5)?)?;
    }
    panic!(rt; "the session does not come to an end")
}

// Two clients feed, and one of them corrects what the other has fed, once it was read. What was
// read before stays as it was.
fn corrects<R: Wait + Abort>(rt: &R, alloc: Global, seed: u64) -> Result<(), Refusal> {
    let mut draws = Draws::new(seed);
    let mut crew: Crew = Vec::new(alloc);
    let mut clients = callers(rt, alloc, 2, 2, &mut crew)?;
    let (Some(mut audit), Some(mut shop)) = (clients.pop(), clients.pop()) else {
        panic!(rt; "there are two clients")
    };
    shop.feed(rt, alloc, &[7], at(0, 0), 1)?;
    audit.feed(rt, alloc, &[9], at(1, 0), 1)?;
    shop.advance(rt, alloc, at(0, 1))?;
    settle(rt, alloc, &mut crew, &mut shop, &mut draws)?;
    assert_eq!(rt;
        shop.read(rt, at(1, 0))?.to_string(alloc)?.as_str(),
        "1 7\n1 9\n"
    );
    audit.feed(rt, alloc, &[7], at(0, 1), -1)?;
    audit.feed(rt, alloc, &[8], at(0, 1), 1)?;
    shop.advance(rt, alloc, at(0, 2))?;
    settle(rt, alloc, &mut crew, &mut audit, &mut draws)?;
    assert_eq!(rt;
        audit.read(rt, at(1, 1))?.to_string(alloc)?.as_str(),
        "1 8\n1 9\n"
    );
    assert_eq!(rt;
        shop.read(rt, at(1, 0))?.to_string(alloc)?.as_str(),
        "1 7\n1 9\n"
    );
    Ok(())
}

// No clause says that workers ever come to an end.
#[test]
fn a_late_correction_by_any_schedule(rt: HostRuntime) -> Result<(), Fail> {
    for seed in 0..10 {
        corrects(&rt, rt.alloc(), seed)?;
    }
    Ok(())
}

// One client reads at (4, 4), while the other gives up times up to there, and then beyond.
fn reads_beside_allows<R: Wait + Abort>(rt: &R, alloc: Global) -> Result<(), Refusal> {
    let mut draws = Draws::new(1);
    let mut crew: Crew = Vec::new(alloc);
    let mut clients = callers(rt, alloc, 2, 2, &mut crew)?;
    let (Some(mut audit), Some(mut shop)) = (clients.pop(), clients.pop()) else {
        panic!(rt; "there are two clients")
    };
    shop.feed(rt, alloc, &[7], at(0, 0), 1)?;
    shop.feed(rt, alloc, &[8], at(4, 4), 2)?;
    shop.close_input(rt)?;
    settle(rt, alloc, &mut crew, &mut shop, &mut draws)?;
    for given_up in [at(1, 1), at(4, 4)] {
        audit.allow(rt, alloc, given_up)?;
        assert_eq!(rt;
            shop.read(rt, at(4, 4))?.to_string(alloc)?.as_str(),
            "1 7\n2 8\n"
        );
    }
    audit.allow(rt, alloc, at(5, 4))?;
    assert!(rt; matches!(shop.read(rt, at(4, 4)), Err(Refusal::GivenUp)));
    Ok(())
}

#[test]
fn reads_go_on_up_to_what_is_given_up(rt: HostRuntime) -> Result<(), Fail> {
    reads_beside_allows(&rt, rt.alloc())?;
    Ok(())
}

// The numbers of workers and clients that a session has, or how it was refused.
fn counts<R: Wait>(
    rt: &R,
    alloc: Global,
    workers: usize,
    clients: usize,
) -> Result<(usize, usize), Refusal> {
    let mut crew: Crew = Vec::new(alloc);
    let seats = callers(rt, alloc, workers, clients, &mut crew)?;
    Ok((crew.len(), seats.len()))
}

// No clause says that a session is not refused memory each time.
#[test]
fn sessions_have_one_to_sixteen_of_both(rt: HostRuntime) -> Result<(), Fail> {
    let alloc = rt.alloc();
    assert!(rt; counts(&rt, alloc, 1, 1)? == (1, 1));
    assert!(rt; counts(&rt, alloc, 16, 16)? == (16, 16));
    for (workers, clients) in [(0, 1), (17, 1), (1, 0), (1, 17)] {
        assert_eq!(rt;
            counts(&rt, alloc, workers, clients),
            Err(Refusal::BadWorkers)
        );
    }
    Ok(())
}

// A move of a worker that is not there does nothing.
#[test]
fn moves_of_nobody_are_passed_over(rt: HostRuntime) -> Result<(), Fail> {
    let mut crew: Crew = Vec::new(rt.alloc());
    let mut clients = callers(&rt, rt.alloc(), 1, 1, &mut crew)?;
    let Some(mut client) = clients.pop() else {
        panic!(rt; "there is a client")
    };
    client.feed(&rt, rt.alloc(), &[7], at(0, 0), 1)?;
    let moves = [
        Move::Step { worker: 1, pick: 0 },
        Move::Tidy {
            worker: 16,
            fuel: 9,
        },
    ];
    drive(rt.alloc(), &mut crew, &moves)?;
    assert!(rt; !client.quiet(&rt)?);
    Ok(())
}
