//! The line that shows how far a run is: it is printed on standard error while the capture is read, overwritten with
//! newer numbers, and erased at the end.

mod record_count;

use crate::other_format::FirstBytes;
use crate::progress::record_count::RecordCount;
use std::io::{self, Read, Write};
use std::time::{Clock, Instant};

/// How long a run takes at a terminal before it prints the line, in milliseconds.
const PATIENCE: u64 = 2000;

/// The time between two lines, in milliseconds.
const PAUSE: u64 = 500;

/// Erases the line of a terminal, and returns to its start.
const ERASE: &[u8] = b"\r\x1b[K";

/// What the line says, and when it is due.
#[derive(Drop)]
pub(crate) struct Progress<'a, C, E> {
    clock: &'a C,
    err: &'a mut E,
    /// When the run began; `None` if no line is wanted, or there is no time.
    began: Option<Instant>,
    /// The milliseconds after which the next line is due.
    due: u64,
    shown: bool,
    bytes: u64,
    records: RecordCount,
}

impl<'a, C: Clock, E: Write> Progress<'a, C, E> {
    /// A line that is printed from the first read on if it is asked for, and otherwise, at a terminal, once the run has
    /// taken two seconds.
    pub(crate) fn new(
        clock: &'a C,
        err: &'a mut E,
        asked: bool,
        at_terminal: bool,
    ) -> Progress<'a, C, E> {
        let began = match asked || at_terminal {
            true => Instant::now(clock).ok(),
            false => None,
        };
        Progress {
            clock,
            err,
            began,
            due: if asked { 0 } else { PATIENCE },
            shown: false,
            bytes: 0,
            records: RecordCount::new(),
        }
    }

    /// These bytes of the capture were read.
    fn read(&mut self, bytes: &[u8]) {
        let Some(began) = self.began else {
            return;
        };
        self.bytes = self.bytes.saturating_add(bytes.len() as u64);
        self.records.pass(bytes);
        let Ok(elapsed) = began.elapsed(self.clock) else {
            return;
        };
        let now = elapsed
            .as_secs()
            .saturating_mul(1000)
            .saturating_add(u64::from(elapsed.subsec_millis()));
        if now >= self.due {
            self.due = now.saturating_add(PAUSE);
            self.print(now);
        }
    }

    /// Prints the line, `now` milliseconds after the run began. A run goes on if it can't be printed.
    fn print(&mut self, now: u64) {
        self.shown = true;
        let megabytes = self.bytes / 1_000_000;
        let rate = self.bytes / 1000 / now.max(1);
        let _ = self.err.write_all(ERASE);
        let _ = write!(
            self.err,
            "{} records, {megabytes} MB, {rate} MB/s",
            self.records.records()
        );
    }

    /// Erases the line, if there is one.
    pub(crate) fn erase(&mut self) {
        if self.shown {
            self.shown = false;
            let _ = self.err.write_all(ERASE);
        }
    }
}

/// The file of a capture, whose reads the progress line counts, and whose first bytes are kept.
#[derive(Drop)]
pub(crate) struct Watched<'p, 'a, D, C, E> {
    pub(crate) device: D,
    pub(crate) progress: &'p mut Progress<'a, C, E>,
    pub(crate) first: &'p mut FirstBytes,
}

impl<D: Read, C: Clock, E: Write> Read for Watched<'_, '_, D, C, E> {
    // what is read is what the device has, byte for byte
    ghost remaining = { λ w. D.remaining w.device };

    fn read(&mut self, buf: &mut [u8]) -> io::Result<usize> {
        let count = self.device.read(buf)?;
        self.progress.read(&buf[..count]);
        self.first.pass(&buf[..count]);
        Ok(count)
    }
}
