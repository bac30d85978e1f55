//! The limits, the clock and the readings of a caller.
ghost use Rattle.std.specs.Prelude.{◌≡◌};
ghost use Rattle.channel_core.specs.Readings.{Reads, counted};

use pcc_io::Clock;
use rate_limit::Limits;

/// A reading in microseconds, and its number among those that were taken, from 0.
#[derive(Clone, Copy, Debug, PartialEq, Eq)]
pub struct Reading {
    pub at: u64,
    pub number: u64,
}

/// The limits on posts, a clock, and the number of readings taken from it, which stays at the greatest u64.
#[derive(Debug, Drop)]
pub struct Caller<K: Clock> {
    pub limits: Limits,
    pub clock: K,
    pub readings: u64,
}

impl<K: Clock> Caller<K> {
    /// No reading was taken.
    pub fn new(limits: Limits, clock: K) -> Caller<K>
        ensures { result ≡ record { limits = limits; clock = clock; readings = 0 } }
    {
        Caller {
            limits,
            clock,
            readings: 0,
        }
    }

    /// Takes the next reading of the clock.
    pub fn read(&mut self) -> Reading
        ensures clock { Reads K.taken K.tells self.old.clock self.new.clock result.at }
        ensures number { result.number ≡ self.old.readings }
        ensures count { self.new.readings ≡ counted self.old.readings }
        ensures limits { self.new.limits ≡ self.old.limits }
    {
        let at = self.clock.now();
        self.count(at)
    }

    /// Counts a reading that was taken of the clock.
    pub fn count(&mut self, at: u64) -> Reading
        ensures reading { result ≡ record { at = at; number = self.old.readings } }
        ensures count { self.new ≡ record self.old { readings = counted self.old.readings } }
    {
        let number = self.readings;
        self.readings = number.saturating_add(1);
        Reading { at, number }
    }
}
