//! How far a document has come, for whoever sits at the terminal.

use documents::Progress;
use std::io::IsTerminal;
use std::time::{Duration, Instant};

/// Nothing is written before so many milliseconds.
const PATIENCE: u64 = 500;

/// Nothing is written again before so many milliseconds.
const PAUSE: u64 = 100;

/// Writes to standard error how many bytes were moved, where that is a terminal and it takes long.
#[derive(Drop)]
pub(crate) struct Meter<'a> {
    rt: &'a HostRuntime,
    what: &'a str,
    /// How many bytes there are in all, where that is known.
    all: Option<u64>,
    /// Since when it goes on; no line is written where nobody is to learn of it.
    start: Option<Instant>,
    last: Duration,
    shown: bool,
}

impl<'a> Meter<'a> {
    /// Of so many bytes, where that is known.
    pub(crate) fn new(
        rt: &'a HostRuntime,
        what: &'a str,
        all: Option<u64>,
        quiet: bool,
    ) -> Meter<'a> {
        let start = if quiet || !rt.stderr().is_terminal() {
            None
        } else {
            Instant::now(rt).ok()
        };
        Meter {
            rt,
            what,
            all,
            start,
            last: Duration::ZERO,
            shown: false,
        }
    }

    /// Wipes the line, if one was written.
    pub(crate) fn finish(&mut self) {
        if self.shown {
            let _ = eprint!(self.rt; "\r\x1b[K");
            self.shown = false;
        }
    }

    // Whether it is time for a line.
    fn is_due(&mut self) -> bool {
        let Some(start) = self.start else {
            return false;
        };
        let Ok(passed) = start.elapsed(self.rt) else {
            return false;
        };
        let rested = passed.saturating_sub(self.last);
        let due = passed >= Duration::from_millis(PATIENCE)
            && rested >= Duration::from_millis(PAUSE);
        if due {
            self.last = passed;
        }
        due
    }
}

impl Progress for Meter<'_> {
    fn moved(&mut self, bytes: u64) {
        if self.is_due() {
            self.shown = true;
            let what = self.what;
            let _ = match self.all {
                Some(all) => eprint!(self.rt; "\r\x1b[K{what:?}: {bytes} of {all} bytes"),
                None => eprint!(self.rt; "\r\x1b[K{what:?}: {bytes} bytes"),
            };
        }
    }
}
