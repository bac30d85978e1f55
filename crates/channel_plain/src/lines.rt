//! Where the lines of a trace go: into a list, or as text to the end of a text.

ghost use Rattle.std.specs.Prelude.{◌≡◌, ◌++◌, ◌∷◌, [], List, OnOk};
ghost use Rattle.channel_plain.specs.declared.trace.TraceLine.{TraceLine};
ghost use Rattle.channel_plain.specs.TraceText.{trace_text};

use crate::text::put_line;
use crate::trace::{Trace, TraceLine};
use pcc_io::NoMemory;

/// The room that is taken ahead for the text of a line, in bytes: most lines are shorter.
const LINE_ROOM: usize = 64;

/// What takes the lines of a trace, one after the other.
pub(crate) trait LineSink {
    /// From the first of two states to the second, these lines were taken, in order.
    ghost took: { Self → List TraceLine → Self → Type 0 };

    /// Makes room for N lines. It takes none.
    fn expect(&mut self, lines: usize) -> Result<(), NoMemory>
        ensures { OnOk result (took self.old [] self.new) };

    /// Takes a line.
    fn add(&mut self, line: TraceLine) -> Result<(), NoMemory>
        ensures { OnOk result ((first : Self) (lines : List TraceLine) → took first lines self.old → took first (lines ++ line ∷ []) self.new) };
}

impl LineSink for Trace {
    ghost took = { λ first lines now. now ≡ first ++ lines };

    #[tactic(auto, using(crate::proofs::LinesOut::none_listed))]
    fn expect(&mut self, _lines: usize) -> Result<(), NoMemory> {
        Ok(())
    }

    #[tactic(auto, using(crate::proofs::LinesOut::one_listed))]
    fn add(&mut self, line: TraceLine) -> Result<(), NoMemory> {
        self.push(line)
    }
}

impl LineSink for Vec<u8> {
    ghost took = { λ first lines now. now.items ≡ first.items ++ trace_text lines };

    #[tactic(auto, using(crate::proofs::LinesOut::none_written))]
    fn expect(&mut self, lines: usize) -> Result<(), NoMemory> {
        self.reserve(lines.saturating_mul(LINE_ROOM))?;
        Ok(())
    }

    #[tactic(auto, using(crate::proofs::LinesOut::one_written))]
    fn add(&mut self, line: TraceLine) -> Result<(), NoMemory> {
        put_line(self, &line)
    }
}
