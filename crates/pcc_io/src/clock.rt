//! Clocks that number their readings, and the clock of a script, whose readings lie on a line.
ghost use Rattle.std.specs.Prelude.{◌≡◌, ◌+◌, ◌-◌, ◌^◌, ◌<◌, ◌≤◌, ℕ, Option, IfSome, min};
ghost use Rattle.pcc_causes.specs.Clock.{line_reading};
ghost use Rattle.pcc_io.specs.LineClocks.{line_tells};

use std::marker::Model;

/// A clock with numbered readings in microseconds. A reading can't fail.
pub trait Clock: Drop {
    /// How many readings were taken. The count stops at the greatest u64.
    ghost taken: { Self → ℕ };

    /// The reading of a number, from 0, if the clock shows it.
    ghost tells: { Self → ℕ → Option ℕ };

    /// Takes the next reading.
    fn now(&mut self) -> u64
        ensures count { taken self.new ≡ min (taken self.old + 1) (2 ^ 64 - 1) }
        ensures reading { taken self.old < 2 ^ 64 - 1 → IfSome (tells self.old (taken self.old)) (λ t. result ≡ t) }
        ensures told { (k : ℕ) → tells self.new k ≡ tells self.old k };
}

/// A clock whose readings lie on a line: the reading number k is `start + k * step`, moved up by what was added, at most the greatest u64.
#[derive(Debug, Drop)]
pub struct LineClock {
    start: u64,
    step: u64,
    added: u128,
    taken: u64,
    told_from: u64,
}

impl Model for LineClock {
    ghost use Rattle.pcc_io.specs.LineClocks.{LineState};

    ghost Value = { LineState };

    ghost view = { λ c. record { start = c.start; step = c.step; added = c.added; taken = c.taken; told_from = c.told_from } };
}

impl LineClock {
    /// A clock that has given no reading.
    pub fn new(start: u64, step: u64) -> LineClock
        ensures { result ≡ record { start = start; step = step; added = 0; taken = 0; told_from = 0 } }
    {
        LineClock {
            start,
            step,
            added: 0,
            taken: 0,
            told_from: 0,
        }
    }

    /// Moves the next readings up by `n` microseconds. What was added in all stops at the greatest u128. Earlier readings aren't shown any more.
    pub fn add(&mut self, n: u64)
        ensures { self.new ≡ record self.old { added = min (self.old.added + n) (2 ^ 128 - 1); told_from = self.old.taken } }
    {
        self.added = self.added.saturating_add(u128::from(n));
        self.told_from = self.taken;
    }
}

impl Clock for LineClock {
    ghost taken = { λ c. c.taken };

    ghost tells = { line_tells };

    fn now(&mut self) -> u64
        ensures count { self.new.taken ≡ min (self.old.taken + 1) (2 ^ 64 - 1) }
        ensures reading { self.old.taken < 2 ^ 64 - 1 → IfSome (line_tells self.old self.old.taken) (λ t. result ≡ t) }
        ensures told { (k : ℕ) → line_tells self.new k ≡ line_tells self.old k }

        // The clock of a script shows each reading, and a reading changes its count alone.
        ensures exact { result ≡ line_reading self.old.start self.old.step self.old.added self.old.taken }
        ensures rest { self.new ≡ record self.old { taken = self.new.taken } }
    {
        let line = u128::from(self.start) + u128::from(self.taken) * u128::from(self.step);
        let at = line.saturating_add(self.added);
        self.taken = self.taken.saturating_add(1);
        u64::try_from(at).unwrap_or(u64::MAX)
    }
}
