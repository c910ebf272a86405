//! The signals of one run: what its threads tell one another beside the board.
//!
//! A worker for which there is nothing to do sleeps until the bell rings, and does not look again
//! before: a look holds the board. If the board was not quiet at its look, then a worker that does
//! not sleep has something in hand or can take something, and rings once it has given that. It
//! rings after the give, and who sleeps has read the count before its look. So no ring is missed.
//! No contract names any of this: if a ring were lost, a run would hang, and no answer would be
//! wrong.
use std::sync::atomic::{AtomicBool, AtomicU64, Ordering};
use std::sync::{Condvar, Mutex, Wait};

/// The signals of one run.
#[derive(Drop)]
pub(crate) struct Signals {
    stopped: AtomicBool,
    // How often the bell was rung.
    rings: AtomicU64,
    // Held while a worker that wants to sleep tests the bell, and while sleepers are woken. So
    // nobody falls asleep between a ring and its wake-up.
    asleep: Mutex<()>,
    woken: Condvar,
}

impl Signals {
    /// Signals of a run that goes on.
    pub(crate) fn new() -> Signals {
        Signals {
            stopped: AtomicBool::new(false),
            rings: AtomicU64::new(0),
            asleep: Mutex::new(()),
            woken: Condvar::new(),
        }
    }

    /// Ends the run: each worker stops before its next step.
    pub(crate) fn stop<R: Wait>(&self, rt: &R) {
        self.stopped.store(true, Ordering::SeqCst);
        self.wake(rt);
    }

    /// Whether the run is to end.
    pub(crate) fn has_stopped(&self) -> bool {
        self.stopped.load(Ordering::SeqCst)
    }

    /// Rings the bell: something was given.
    pub(crate) fn ring<R: Wait>(&self, rt: &R) {
        self.rings.fetch_add(1, Ordering::SeqCst);
        self.wake(rt);
    }

    /// How often the bell was rung.
    pub(crate) fn rings(&self) -> u64 {
        self.rings.load(Ordering::SeqCst)
    }

    /// Sleeps until the bell was rung since this count, or the run is to end.
    pub(crate) fn sleep<R: Wait>(&self, rt: &R, heard: u64) {
        let lying = self.asleep.lock(rt);
        let _up = self.woken.wait_while(rt, lying, |_| self.is_still(heard));
    }

    // Whether nothing was rung since this count, and the run goes on.
    fn is_still(&self, heard: u64) -> bool {
        self.rings() == heard && !self.has_stopped()
    }

    // Wakes all who sleep.
    fn wake<R: Wait>(&self, rt: &R) {
        let _lying = self.asleep.lock(rt);
        self.woken.notify_all();
    }
}
