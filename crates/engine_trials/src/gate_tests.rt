//! Two workers of a script meet at a gate: neither goes on before the other has taken a piece too.
//! So they run at once, and not one after another, and it is they who find the answer.
use grammar::parse;
use script::{MemoryOut, run_script};
use session::Gate;
use std::sync::atomic::{AtomicBool, AtomicU64, Ordering};
use std::test::Fail;
use std::thread::yield_now;

// The rows 0 and 1 go to different workers.
const SCRIPT: &[u8] = b"input a 1\nview v a\nstart\n\
    change a 0 0 1 0\nchange a 0 0 1 1\nclose a\nread v 0 0\n";

// Its text, worked out by hand.
const TEXT: &str = "read v 0 0 2\n1 0\n1 1\n";

// Where two workers meet after the first step of each that took something.
#[derive(Drop)]
struct Meeting {
    first: AtomicU64,
    second: AtomicU64,
    missed: AtomicBool,
}

impl Gate for Meeting {
    fn pass(&self, worker: usize, done: u64) {
        let (own, other) = if worker == 0 {
            (&self.first, &self.second)
        } else {
            (&self.second, &self.first)
        };
        own.store(done, Ordering::SeqCst);
        if done != 1 {
            return;
        }
        for _ in 0..1_000_000 {
            if other.load(Ordering::SeqCst) >= 1 {
                return;
            }
            yield_now();
        }
        self.missed.store(true, Ordering::SeqCst);
    }
}

#[test]
fn two_workers_of_a_script_run_at_once(rt: HostRuntime) -> Result<(), Fail> {
    let script = parse(rt.alloc(), SCRIPT)?;
    let mut out = MemoryOut::new(rt.alloc());
    let meeting = Meeting {
        first: AtomicU64::new(0),
        second: AtomicU64::new(0),
        missed: AtomicBool::new(false),
    };
    run_script(&rt, rt.alloc(), &script, 2, &mut out, &meeting)?;
    assert!(rt; !meeting.missed.load(Ordering::SeqCst));
    assert!(rt; meeting.first.load(Ordering::SeqCst) >= 1);
    assert!(rt; meeting.second.load(Ordering::SeqCst) >= 1);
    assert_eq!(rt; out.bytes(), TEXT.as_bytes());
    Ok(())
}
