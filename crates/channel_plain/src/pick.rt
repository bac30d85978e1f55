//! What a pick of an end did.

ghost use Rattle.std.specs.Prelude.{◌≡◌};

use crate::trace::{Side, TraceEnd, TraceLine};
use pcc_steps::Action;

/// A word step, or none, and what ended with it.
#[derive(Clone, Copy, Debug, PartialEq, Eq)]
pub(crate) struct Pick {
    pub action: Action,
    pub value: u64,
    pub end: TraceEnd,
}

impl Pick {
    pub fn rest(end: TraceEnd) -> Pick
        ensures { result ≡ record { action = Action.Rest; value = 0; end = end } }
    {
        Pick {
            action: Action::Rest,
            value: 0,
            end,
        }
    }

    /// The line of a trace.
    pub fn line(self, side: Side) -> TraceLine
        ensures { result ≡ record { side = side; action = self.action; value = self.value; end = self.end } }
    {
        TraceLine {
            side,
            action: self.action,
            value: self.value,
            end: self.end,
        }
    }
}
