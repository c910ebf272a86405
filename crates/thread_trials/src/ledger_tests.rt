//! A ledger with corrections, counted by account: after each run the client reads what the plain
//! query has, at pairs that can be compared and at pairs that cannot.
use antichain::Antichain;
use lattice::Bitime;
use oracle::{are_wide, evaluate};
use plan::{Kind, NodeId, Plan};
use players::{BoardClient, Crew, opened};
use row::Row;
use session::{OpenGate, run_threads};
use std::alloc::Global;
use std::process::Abort;
use std::sync::Wait;
use std::test::Fail;
use std::thread::Threads;
use trials::Draws;
use trials::sketches::{at, reduction};
use update::{Refusal, Update};

// An entry of this system time: an account, a valid time, and whether it comes or goes are drawn.
fn entry(alloc: Global, draws: &mut Draws, system: u64) -> Result<Update<Bitime>, Refusal> {
    let account = draws.below(20) as i64;
    let amount = draws.below(3) as i64;
    let diff = if draws.below(4) == 0 { -1 } else { 1 };
    Ok(Update {
        time: at((draws.below(10), system)),
        row: Row::new(alloc, &[account, amount])?,
        diff,
    })
}

// The client reads the view at this pair as the plain query has it.
fn assert_read<R: Wait + Abort>(
    rt: &R,
    alloc: Global,
    plan: &Plan,
    changes: &Vec<Vec<Update<Bitime>>>,
    client: &mut BoardClient,
    time: Bitime,
) -> Result<(), Refusal> {
    let view = NodeId::new(3);
    assert!(rt; view.number() < plan.len());
    assert!(rt; are_wide(plan, changes));
    let want = evaluate(alloc, plan, view, changes, time)?;
    assert!(rt; client.read(rt, view, time)? == want);
    Ok(())
}

// Ten system times with fifty entries each. After each of them the workers run.
fn ledger<R: Threads + Wait + Abort + Sync>(
    rt: &R,
    alloc: Global,
    workers: usize,
    seed: u64,
) -> Result<(), Refusal> {
    let mut draws = Draws::new(seed);
    let plan = reduction(alloc, 2, Kind::Count)?;
    let mut crew: Crew = Vec::new(alloc);
    let mut client = opened(rt, alloc, &plan, workers, &mut crew)?;
    let mut entries = Vec::new(alloc);
    let mut changes = Vec::new(alloc);
    for system in 0..10 {
        for _ in 0..50 {
            let update = entry(alloc, &mut draws, system)?;
            client.feed(rt, NodeId::new(0), update.copy())?;
            entries.push(update)?;
        }
        let frontier = Antichain::from_elem(alloc, at((0, system + 1)));
        client.advance(rt, NodeId::new(0), &frontier)?;
        run_threads(rt, alloc, &mut crew, &OpenGate)?;
        assert!(rt; client.is_quiet(rt)?);
    }
    changes.push(entries)?;
    for pair in [(0, 9), (4, 3), (3, 4), (9, 0), (9, 9)] {
        assert_read(rt, alloc, &plan, &changes, &mut client, at(pair))?;
    }
    Ok(())
}

#[test]
fn a_ledger_by_any_number_of_workers(rt: HostRuntime) -> Result<(), Fail> {
    for workers in [1, 2, 3, 4, 16] {
        ledger(&rt, rt.alloc(), workers, workers as u64)?;
    }
    Ok(())
}
