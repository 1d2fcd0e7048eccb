//! The source of a proxy's time of day.
ghost use Rattle.std.specs.Prelude.{ℤ, Option, option_map};

use jiff::Timestamp;
use std::time::Clock;

/// Shows the time of day.
pub trait TimeSource {
    // The first state showed the time, or None, and the second state follows.
    ghost shown: { Self → Option ℤ → Self → Type 0 };

    /// Returns the time, or `None` if it can't be read.
    fn now(&mut self) -> Option<Timestamp>
        ensures { shown self.old (option_map (λ t. t.nanosecond) result) self.new };
}

/// The time of a clock of std, such as the runtime. No contract says what such a clock shows.
#[derive(Clone, Copy, Drop)]
pub struct ClockTime<'a, C> {
    clock: &'a C,
}

impl<'a, C: Clock> ClockTime<'a, C> {
    /// Returns the time source of a clock.
    pub fn new(clock: &'a C) -> ClockTime<'a, C> {
        ClockTime { clock }
    }
}

impl<C: Clock> TimeSource for ClockTime<'_, C> {
    ghost use Rattle.std.specs.Prelude.{⊤};

    ghost shown = { λ before time after. ⊤ };

    fn now(&mut self) -> Option<Timestamp> {
        Timestamp::now(self.clock).ok()
    }
}
