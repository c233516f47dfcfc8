//! Progress on standard error.
use std::rt::Clock;
use std::time::Instant;

/// The progress of a command. A line on standard error shows the percentage that is done.
#[derive(Drop)]
pub struct Progress {
    shown: bool,
    total: u64,
    done: u64,
    percent: u64,
    start: Option<Instant>,
}

impl Progress {
    /// Returns a progress of 0 of `total` bytes. If `shown` is false, nothing is printed.
    pub fn new<R: Clock>(rt: &R, shown: bool, total: u64) -> Progress {
        let start = if shown { Instant::now(rt).ok() } else { None };
        Progress {
            shown,
            total,
            done: 0,
            percent: 0,
            start,
        }
    }

    /// Subtracts bytes from the total, because they will not be read.
    pub fn skip(&mut self, bytes: u64) {
        self.total = self.total.saturating_sub(bytes);
    }

    /// Counts more bytes as done, and prints the line if the percentage has grown.
    pub fn advance<R: Clock + Eprint>(&mut self, rt: &R, bytes: u64) {
        self.done = self.done.saturating_add(bytes);
        if !self.shown || self.total == 0 {
            return;
        }
        let percent = (self.done.saturating_mul(100) / self.total).min(100);
        if percent > self.percent {
            self.percent = percent;
            self.print(rt);
        }
    }

    fn print<R: Clock + Eprint>(&self, rt: &R) {
        let percent = self.percent;
        let Some(start) = self.start else {
            return;
        };
        let Ok(elapsed) = start.elapsed(rt) else {
            return;
        };
        let millis = (elapsed.as_millis().min(1_000_000_000_000) as u64).max(1);
        let rate = self.done / millis / 1000;
        let left = (millis / 1000).saturating_mul(100 - percent.min(100)) / percent.max(1);
        let _ = eprint!(rt; "\r{percent}%, {rate} MB/s, {left} s left   ");
    }

    /// Prints a line end on standard error, if the percentage was printed.
    pub fn end<R: Eprint>(&self, rt: &R) {
        if self.shown && self.percent > 0 {
            let _ = eprintln!(rt; "");
        }
    }
}
