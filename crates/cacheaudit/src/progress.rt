//! The progress that a terminal shows while a long recording is read.
use std::io::{self, IsTerminal, Read};

const MEBIBYTE: u64 = 1024 * 1024;

// The number of bytes before the first line, and between two lines.
const STEP: u64 = 16 * MEBIBYTE;

/// A reader that reports its progress on standard error, if that is a terminal.
#[derive(Drop)]
pub struct Watched<'a, R> {
    rt: &'a HostRuntime,
    reader: R,
    is_watched: bool,
    count: u64,
}

impl<R: Read> Watched<'_, R> {
    /// Returns a reader that has read nothing yet.
    pub fn new(rt: &HostRuntime, reader: R) -> Watched<'_, R> {
        Watched {
            rt,
            reader,
            is_watched: rt.stderr().is_terminal(),
            count: 0,
        }
    }

    // Writes a line if standard error is a terminal.
    fn tell(&self, what: &str) {
        if self.is_watched {
            let mebibytes = self.count / MEBIBYTE;
            // If it can't be written, the audit goes on.
            let _ = eprintln!(self.rt; "cacheaudit: {mebibytes} MiB {what}");
        }
    }
}

impl<R: Read> Read for Watched<'_, R> {
    fn read(&mut self, buf: &mut [u8]) -> io::Result<usize> {
        let count = self.reader.read(buf)?;
        let steps = self.count / STEP;
        self.count = self.count.saturating_add(count as u64);
        if count == 0 && steps > 0 {
            self.tell("read; the audit begins");
        } else if self.count / STEP > steps {
            self.tell("read");
        }
        Ok(count)
    }
}
