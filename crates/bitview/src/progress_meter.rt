//! Progress of a run, told on standard error.
use crate::writers::{StandardError, Told};
use grammar::{Command, CommandLine};
use script::Watch;
use std::fmt::Write;
use std::time::{Clock, Duration, Instant};

// The least time between two lines, in milliseconds.
const PAUSE: u128 = 100;

/// Counts the lines of a run and its reads, and tells them now and then.
#[derive(Drop)]
pub(crate) struct Progress<'r, R> {
    runtime: &'r R,
    // When the run began, if the clock can be read.
    began: Option<Instant>,
    // The milliseconds at which it was told last.
    told: u128,
    lines: u64,
    reads: u64,
}

impl<'r, R: Clock + Eprint> Progress<'r, R> {
    /// The progress of a run that begins now.
    pub(crate) fn new(runtime: &'r R) -> Progress<'r, R> {
        Progress {
            runtime,
            began: Instant::now(runtime).ok(),
            told: 0,
            lines: 0,
            reads: 0,
        }
    }

    // How long the run took so far.
    fn elapsed(&self) -> Duration {
        match self.began {
            Some(began) => began.elapsed(self.runtime).unwrap_or(Duration::ZERO),
            None => Duration::ZERO,
        }
    }

    /// Tells how far the run is.
    pub(crate) fn tell(&self) {
        let lines = self.lines;
        let reads = self.reads;
        let elapsed = self.elapsed();
        let seconds = elapsed.as_secs();
        let tenths = elapsed.subsec_millis() / 100;
        let mut error = StandardError {
            runtime: self.runtime,
        };
        let _told = writeln!(
            Told { error: &mut error },
            "lines {lines}, reads {reads}, {seconds}.{tenths} s"
        );
    }
}

impl<R: Clock + Eprint> Watch for Progress<'_, R> {
    fn done(&mut self, line: &CommandLine) {
        self.lines = self.lines.saturating_add(1);
        if let Command::View(_) = line.command {
            self.reads = self.reads.saturating_add(1);
        }
        let now = self.elapsed().as_millis();
        if now >= self.told.saturating_add(PAUSE) {
            self.told = now;
            self.tell();
        }
    }
}
