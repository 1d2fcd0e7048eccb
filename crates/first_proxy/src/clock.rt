//! A clock that shows the same times in each run of the program.
use std::cell::Cell;
use std::io;
use std::time::{Clock, Duration};

// 2024-01-01T00:00:00Z in seconds since 1970.
const START: u64 = 1_704_067_200;

/// A clock that starts in 2024, and advances by two seconds at each look.
#[derive(Drop)]
pub struct StepClock {
    seconds: Cell<u64>,
}

impl StepClock {
    /// Returns a clock at its start.
    pub fn new() -> StepClock {
        StepClock {
            seconds: Cell::new(START),
        }
    }
}

impl Clock for StepClock {
    fn monotonic(&self) -> io::Result<Duration> {
        self.since_1970()
    }

    fn since_1970(&self) -> io::Result<Duration> {
        let shown = self.seconds.get();
        self.seconds.set(shown.saturating_add(2));
        Ok(Duration::from_secs(shown))
    }
}
