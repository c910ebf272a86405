//! Runs in which an allocation is refused. They end with a fault, a beginning of the text was
//! taken, and the same script runs once there is memory.
use grammar::{Fault, Script, parse};
use script::{MemoryOut, RunFault, plain_script, run_script};
use session::OpenGate;
use std::alloc::Global;
use std::process::Abort;
use std::sync::Wait;
use std::test::Fail;
use std::thread::Threads;

// The text of the script below.
const TEXT: &str = "refused 5 8\nread v 0 0 1\n1 7\n";

// A script with a refused read and an answered one.
const SCRIPT: &[u8] =
    b"input a 1\nview v a\nstart\nchange a 0 0 1 7\nread v 0 0\nadvance a 1 1\nread v 0 0\n";

// A script with a node of every kind. The sum `all` has two rows of key 7, and `b` has one.
const EVERY_KIND: &[u8] = b"input a 2\n\
    input b 2\n\
    node f filter a c1 gt =0\n\
    node m map f c0 c1\n\
    node n negate b\n\
    node g negate n\n\
    node all concat m g\n\
    node r arrange all 1\n\
    node s arrange b 1\n\
    node j join r s\n\
    node c count r\n\
    node d distinct r\n\
    node lo min r\n\
    node hi max r\n\
    view vj j\n\
    view vc c\n\
    view vd d\n\
    view vl lo\n\
    view vh hi\n\
    start\n\
    change a 0 0 1 7 5\n\
    change b 0 0 1 7 3\n\
    advance a 0 1\n\
    advance b 0 1\n\
    read vj 0 0\n\
    read vc 0 0\n\
    read vd 0 0\n\
    read vl 0 0\n\
    read vh 0 0\n";

// Its text, worked out by hand.
const EVERY_KIND_TEXT: &str = "read vj 0 0 2\n\
    1 7 3 3\n\
    1 7 5 3\n\
    read vc 0 0 1\n\
    1 7 2\n\
    read vd 0 0 2\n\
    1 7 3\n\
    1 7 5\n\
    read vl 0 0 1\n\
    1 7 3\n\
    read vh 0 0 1\n\
    1 7 5\n";

// The script of these bytes, parsed again if memory was refused the first time.
fn script(alloc: Global, bytes: &[u8]) -> Result<Script, Fault> {
    match parse(alloc, bytes) {
        Err(_refused) => parse(alloc, bytes),
        done => done,
    }
}

// A run by so many workers. Its contract says no more than the tests use, which keeps their proofs
// short.
fn run<R: Threads + Wait + Sync>(
    rt: &R,
    alloc: Global,
    script: &Script,
    workers: u64,
    out: &mut MemoryOut,
) -> Result<(), RunFault> {
    run_script(rt, alloc, script, workers, out, &OpenGate)
}

// Runs the script of these bytes, again if memory was refused. The output then has the text, and a
// refused run leaves a beginning of it.
fn writes<R: Threads + Wait + Abort + Sync>(
    rt: &R,
    alloc: Global,
    workers: u64,
    bytes: &[u8],
    text: &str,
) -> Result<(), Fail> {
    let script = script(alloc, bytes)?;
    let mut out = MemoryOut::new(alloc);
    if run(rt, alloc, &script, workers, &mut out).is_err() {
        assert!(rt; text.as_bytes().starts_with(out.bytes()));
        out = MemoryOut::new(alloc);
        run(rt, alloc, &script, workers, &mut out)?;
    }
    assert_eq!(rt; out.bytes(), text.as_bytes());
    Ok(())
}

#[test]
fn runs_take_memory(rt: HostRuntime) -> Result<(), Fail> {
    writes(&rt, rt.alloc(), 1, SCRIPT, TEXT)
}

#[test]
fn runs_of_every_kind_take_memory(rt: HostRuntime) -> Result<(), Fail> {
    writes(&rt, rt.alloc(), 1, EVERY_KIND, EVERY_KIND_TEXT)
}

#[test]
fn runs_on_threads_take_memory(rt: HostRuntime) -> Result<(), Fail> {
    for workers in [2, 3, 16] {
        writes(&rt, rt.alloc(), workers, EVERY_KIND, EVERY_KIND_TEXT)?;
    }
    Ok(())
}

#[test]
fn plain_runs_take_memory(rt: HostRuntime) -> Result<(), Fail> {
    let script = script(rt.alloc(), SCRIPT)?;
    let mut out = MemoryOut::new(rt.alloc());
    if plain_script(rt.alloc(), &script, &mut out).is_err() {
        assert!(rt; TEXT.as_bytes().starts_with(out.bytes()));
        out = MemoryOut::new(rt.alloc());
        plain_script(rt.alloc(), &script, &mut out)?;
    }
    assert_eq!(rt; out.bytes(), TEXT.as_bytes());
    Ok(())
}
