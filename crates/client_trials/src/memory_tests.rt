//! A row of calls of which each may be refused for want of memory. It is made again then, and each
//! answer is that of a row that was refused nothing: so nothing is lost, and nothing is done twice.
use crate::caller::{Caller, Crew, callers};
use lattice::Bitime;
use session::{Move, drive};
use std::alloc::Global;
use std::process::Abort;
use std::sync::Wait;
use std::test::Fail;
use trials::at;
use update::Refusal;

// Who makes a call.
#[derive(Clone, Copy)]
enum Who {
    Shop,
    Audit,
}

// What is done next, and what is answered.
#[derive(Clone, Copy)]
enum Call {
    Feed(Who, i64, Bitime, i64),
    Advance(Who, Bitime),
    Close(Who),
    // The workers carry on until the client finds the session quiet.
    Settle(Who),
    Probe(Who, Bitime),
    Read(Who, Bitime, &'static str),
    ReadCounts(Who, Bitime, &'static str),
    // A read that is refused, since the view may still change there.
    ReadTooEarly(Who, Bitime),
    // How many changes there are.
    Changes(Who, usize),
    Allow(Who, Bitime),
}

// Two clients and two workers.
#[derive(Drop)]
struct Row {
    crew: Crew,
    shop: Caller,
    audit: Caller,
}

impl Row {
    fn opened<R: Wait + Abort>(rt: &R, alloc: Global, waits: bool) -> Result<Row, Refusal> {
        let mut crew: Crew = Vec::new(alloc);
        let mut clients = callers(rt, alloc, 2, 2, &mut crew)?;
        let (Some(mut audit), Some(mut shop)) = (clients.pop(), clients.pop()) else {
            panic!(rt; "there are two clients")
        };
        audit.waits = waits;
        shop.waits = waits;
        Ok(Row { crew, shop, audit })
    }

    fn caller(&mut self, who: Who) -> &mut Caller {
        match who {
            Who::Shop => &mut self.shop,
            Who::Audit => &mut self.audit,
        }
    }

    // The workers step and merge until the client finds the session quiet.
    fn settle<R: Wait + Abort>(&mut self, rt: &R, alloc: Global, who: Who) -> Result<(), Refusal> {
        let moves = [
            Move::Step { worker: 0, pick: 0 },
            Move::Step { worker: 1, pick: 3 },
            Move::Tidy { worker: 0, fuel: 2 },
            Move::Tidy { worker: 1, fuel: 9 },
        ];
        for _ in 0..1_000 {
            if self.caller(who).quiet(rt)? {
                return Ok(());
            }
            drive(alloc, &mut self.crew, &moves)?;
        }
        panic!(rt; "the session does not come to an end")
    }

    fn make<R: Wait + Abort>(&mut self, rt: &R, alloc: Global, call: &Call) -> Result<(), Refusal> {
        match *call {
            Call::Feed(who, row, time, diff) => {
                self.caller(who).feed(rt, alloc, &[row], time, diff)
            }
            Call::Advance(who, time) => self.caller(who).advance(rt, alloc, time),
            Call::Close(who) => self.caller(who).close_input(rt),
            Call::Settle(who) => self.settle(rt, alloc, who),
            Call::Allow(who, time) => self.caller(who).allow(rt, alloc, time),
            _ => self.ask(rt, alloc, call),
        }
    }

    fn ask<R: Wait + Abort>(&mut self, rt: &R, alloc: Global, call: &Call) -> Result<(), Refusal> {
        match *call {
            Call::Probe(who, time) => {
                let found = self.caller(who).probe(rt)?;
                assert!(rt; found.elements() == [time].as_slice());
            }
            Call::Read(who, time, rows) => {
                let found = self.caller(who).read(rt, time)?;
                assert_eq!(rt; found.to_string(alloc)?.as_str(), rows);
            }
            Call::ReadCounts(who, time, rows) => {
                let found = self.caller(who).read_counts(rt, time)?;
                assert_eq!(rt; found.to_string(alloc)?.as_str(), rows);
            }
            Call::ReadTooEarly(who, time) => match self.caller(who).read(rt, time) {
                Err(Refusal::NotPassed) => (),
                told => {
                    told?;
                    panic!(rt; "the view was read while it may change")
                }
            },
            Call::Changes(who, count) => assert_eq!(rt; self.caller(who).changes(rt)?.len(), count),
            _ => (),
        }
        Ok(())
    }

    // Makes the call, and once more if it is refused for want of memory.
    fn make_at_last<R: Wait + Abort>(
        &mut self,
        rt: &R,
        alloc: Global,
        call: &Call,
    ) -> Result<(), Refusal> {
        match self.make(rt, alloc, call) {
            Err(Refusal::OutOfMemory) => self.make(rt, alloc, call),
            told => told,
        }
    }
}

// Makes these calls in a new session. One that is refused memory is made again.
fn make_all<R: Wait + Abort>(
    rt: &R,
    alloc: Global,
    waits: bool,
    calls: &[Call],
) -> Result<(), Refusal> {
    let mut row = match Row::opened(rt, alloc, waits) {
        Err(Refusal::OutOfMemory) => Row::opened(rt, alloc, waits)?,
        told => told?,
    };
    for call in calls {
        row.make_at_last(rt, alloc, call)?;
    }
    Ok(())
}

// A correction of what was read, and what is read before and after it. The times are (0, 0), (1,
// 0), (0, 1), (1, 1) and (0, 2).
fn correction(times: [Bitime; 5]) -> [Call; 20] {
    let [first, next, corrected, both, end] = times;
    [
        Call::Feed(Who::Shop, 7, first, 1),
        Call::Feed(Who::Audit, 9, next, 1),
        Call::Advance(Who::Shop, corrected),
        Call::Settle(Who::Shop),
        Call::Read(Who::Shop, next, "1 7\n1 9\n"),
        Call::ReadCounts(Who::Audit, next, "1 7 1\n1 9 1\n"),
        Call::Feed(Who::Audit, 7, corrected, -1),
        Call::Feed(Who::Audit, 8, corrected, 1),
        Call::Advance(Who::Shop, end),
        Call::Settle(Who::Audit),
        Call::Probe(Who::Audit, end),
        Call::Read(Who::Audit, both, "1 8\n1 9\n"),
        Call::Read(Who::Shop, next, "1 7\n1 9\n"),
        Call::ReadCounts(Who::Shop, both, "1 8 1\n1 9 1\n"),
        Call::Changes(Who::Audit, 4),
        Call::Allow(Who::Audit, corrected),
        Call::Read(Who::Shop, both, "1 8\n1 9\n"),
        Call::Close(Who::Audit),
        Call::Settle(Who::Shop),
        Call::ReadCounts(Who::Audit, both, "1 8 1\n1 9 1\n"),
    ]
}

// What was fed is in flight until a worker carries it on. The times are (0, 0) and (0, 1).
fn in_flight(first: Bitime, next: Bitime) -> [Call; 7] {
    [
        Call::Feed(Who::Shop, 7, first, 1),
        Call::Advance(Who::Shop, next),
        Call::Probe(Who::Shop, first),
        Call::ReadTooEarly(Who::Shop, first),
        Call::Settle(Who::Shop),
        Call::Probe(Who::Shop, next),
        Call::Read(Who::Shop, first, "1 7\n"),
    ]
}

// No clause says that a call that was refused memory succeeds once there is some.
#[test]
fn a_correction_takes_memory(rt: HostRuntime) -> Result<(), Fail> {
    for waits in [false, true] {
        let times = [at(0, 0), at(1, 0), at(0, 1), at(1, 1), at(0, 2)];
        make_all(&rt, rt.alloc(), waits, &correction(times))?;
    }
    Ok(())
}

#[test]
fn what_is_in_flight_takes_memory(rt: HostRuntime) -> Result<(), Fail> {
    for waits in [false, true] {
        make_all(&rt, rt.alloc(), waits, &in_flight(at(0, 0), at(0, 1)))?;
    }
    Ok(())
}
