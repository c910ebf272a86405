//! A run ends when the board is quiet, and what it leaves does not depend on the number of workers.
use antichain::Antichain;
use plan::{Kind, NodeId};
use players::{BoardClient, Crew, opened};
use row::Row;
use session::{OpenGate, run_threads};
use std::alloc::Global;
use std::process::Abort;
use std::sync::Wait;
use std::test::Fail;
use std::thread::Threads;
use trials::sketches::{Change, arrange, at, built, input, join, list, reduction, view};
use update::{Refusal, Update};

// A row of one column comes at a time, so many times.
fn feed<R: Wait>(
    rt: &R,
    alloc: Global,
    client: &mut BoardClient,
    input: usize,
    time: (u64, u64),
    column: i64,
    diff: i64,
) -> Result<(), Refusal> {
    let update = Update {
        time: at(time),
        row: Row::new(alloc, &[column])?,
        diff,
    };
    client.feed(rt, NodeId::new(input), update)
}

// 7 comes at two times that cannot be compared, and the distinct rows change at a time that no
// change has.
fn sevens<R: Threads + Wait + Abort + Sync>(
    rt: &R,
    alloc: Global,
    workers: usize,
) -> Result<(), Refusal> {
    let plan = reduction(alloc, 1, Kind::Distinct)?;
    let mut crew: Crew = Vec::new(alloc);
    let mut client = opened(rt, alloc, &plan, workers, &mut crew)?;
    feed(rt, alloc, &mut client, 0, (0, 3), 7, 1)?;
    feed(rt, alloc, &mut client, 0, (3, 0), 7, 1)?;
    client.advance(rt, NodeId::new(0), &Antichain::from_elem(alloc, at((4, 4))))?;
    run_threads(rt, alloc, &mut crew, &OpenGate)?;
    assert!(rt; client.is_quiet(rt)?);
    let want: [Change; 3] = [((0, 3), &[7], 1), ((3, 0), &[7], 1), ((3, 3), &[7], -1)];
    let changes = client.changes(rt, NodeId::new(3))?;
    assert!(rt; changes.as_slice() == list(alloc, &want)?.as_slice());
    Ok(())
}

#[test]
fn any_number_of_workers_comes_to_the_same(rt: HostRuntime) -> Result<(), Fail> {
    for workers in [1, 2, 3, 16] {
        sevens(&rt, rt.alloc(), workers)?;
    }
    Ok(())
}

// Who finds the board quiet merges what it keeps, so of a hundred changes of one row one is left.
#[test]
fn a_run_tidies_at_its_end(rt: HostRuntime) -> Result<(), Fail> {
    let alloc = rt.alloc();
    let plan = reduction(alloc, 1, Kind::Distinct)?;
    let mut crew: Crew = Vec::new(alloc);
    let mut client = opened(&rt, alloc, &plan, 1, &mut crew)?;
    for i in 0..100 {
        feed(&rt, alloc, &mut client, 0, (i, 0), 7, 1)?;
        client.advance(
            &rt,
            NodeId::new(0),
            &Antichain::from_elem(alloc, at((i + 1, 0))),
        )?;
        run_threads(&rt, alloc, &mut crew, &OpenGate)?;
    }
    let Some(worker) = crew.first() else {
        panic!(rt; "there is a worker")
    };
    assert_eq!(rt; worker.kept(NodeId::new(1)), 1);
    Ok(())
}

// On a quiet board a second run has nothing to do, and what was read stays.
#[test]
fn a_second_run_changes_nothing(rt: HostRuntime) -> Result<(), Fail> {
    let alloc = rt.alloc();
    let plan = built(alloc, &[input(1), view(0)])?;
    let mut crew: Crew = Vec::new(alloc);
    let mut client = opened(&rt, alloc, &plan, 2, &mut crew)?;
    feed(&rt, alloc, &mut client, 0, (0, 0), 7, 2)?;
    feed(&rt, alloc, &mut client, 0, (0, 0), 8, 1)?;
    client.advance(&rt, NodeId::new(0), &Antichain::new(alloc))?;
    run_threads(&rt, alloc, &mut crew, &OpenGate)?;
    assert!(rt; client.is_quiet(&rt)?);
    let rows = client.read(&rt, NodeId::new(1), at((0, 0)))?;
    assert_eq!(rt; rows.to_string(alloc)?.as_str(), "2 7\n1 8\n");
    assert_eq!(rt; run_threads(&rt, alloc, &mut crew, &OpenGate), Ok(()));
    assert!(rt; client.is_quiet(&rt)?);
    assert!(rt; client.read(&rt, NodeId::new(1), at((0, 0)))? == rows);
    Ok(())
}

// Whether a worker has failed, and each that has is refused all steps and tidying.
fn fails_from_now_on(alloc: Global, crew: &mut Crew) -> bool {
    let mut has_failed = false;
    for worker in crew.iter_mut() {
        if worker.has_failed() {
            has_failed = true;
            let steps = matches!(worker.step(alloc), Err(Refusal::Failed));
            let tidies = matches!(worker.tidy(alloc, u64::MAX), Err(Refusal::Failed));
            if !steps || !tidies {
                return false;
            }
        }
    }
    has_failed
}

// A worker that meets a number which 64 bits cannot say ends the run. It has failed, so the next
// run ends too. The view of the second join never passes, and that of the first one is right if it
// has.
#[test]
fn a_number_that_is_too_large_ends_the_run(rt: HostRuntime) -> Result<(), Fail> {
    let alloc = rt.alloc();
    let nodes = [
        input(1),
        input(1),
        input(1),
        arrange(0, 1),
        arrange(1, 1),
        arrange(2, 1),
        join(3, 4),
        view(6),
        arrange(6, 1),
        join(8, 5),
        view(9),
    ];
    let plan = built(alloc, &nodes)?;
    let mut crew: Crew = Vec::new(alloc);
    let mut client = opened(&rt, alloc, &plan, 2, &mut crew)?;
    for input in 0..3 {
        feed(&rt, alloc, &mut client, input, (0, 0), 1, 2_147_483_647)?;
        client.advance(&rt, NodeId::new(input), &Antichain::new(alloc))?;
    }
    assert_eq!(rt;
        run_threads(&rt, alloc, &mut crew, &OpenGate),
        Err(Refusal::Overflow)
    );
    assert_eq!(rt;
        run_threads(&rt, alloc, &mut crew, &OpenGate),
        Err(Refusal::Failed)
    );
    assert!(rt; fails_from_now_on(alloc, &mut crew));
    assert!(rt;
        matches!(
            client.read(&rt, NodeId::new(10), at((0, 0))),
            Err(Refusal::NotPassed)
        )
    );
    match client.read(&rt, NodeId::new(7), at((0, 0))) {
        Ok(rows) => {
            assert_eq!(rt; rows.to_string(alloc)?.as_str(), "4611686014132420609 1\n");
        }
        Err(refusal) => assert_eq!(rt; refusal, Refusal::NotPassed),
    }
    Ok(())
}

// A crew of nobody comes to its end at once.
#[test]
fn nobody_runs(rt: HostRuntime) -> Result<(), Fail> {
    let mut crew: Crew = Vec::new(rt.alloc());
    run_threads(&rt, rt.alloc(), &mut crew, &OpenGate)?;
    Ok(())
}
