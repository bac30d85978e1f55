//! Sinks of bytes.
ghost use Rattle.std.specs.Prelude.{◌≡◌, ◌<◌, ◌^◌, List, ℕ, Option, length, IfOk, OnOk, OnErr};
ghost use Rattle.std.specs.Io.{WritesAtMost};
ghost use Rattle.std.specs.Io.KnownBytes.{Appends, WriteAppends};
ghost use Rattle.pcc_causes.specs.Causes.{AppendsPrefix, HasCause, Rose};

use crate::Failed;

pub trait Sink {
    /// The bytes that the sink holds, if it shows them.
    ghost held: { Self → Option (List ℕ) };

    /// How often the sink has failed. The count stops at the greatest u64. Only a call that fails, or that takes no byte of a piece that
    /// isn't empty, raises it.
    ghost faults: { Self → ℕ };

    fn write(&mut self, piece: &[u8]) -> Result<usize, Failed>
        ensures bound { WritesAtMost result piece.now }
        ensures bytes { WriteAppends (held self.old) (held self.new) result piece.now }
        ensures cause { HasCause (faults self.old) (faults self.new) result }
        ensures nothing { IfOk result (λ n. n ≡ 0 → 0 < length piece.now → Rose (faults self.old) (faults self.new)) }
        ensures calm { IfOk result (λ n. 0 < n → faults self.new ≡ faults self.old) }
        ensures calm_empty { IfOk result (λ _. length piece.now ≡ 0 → faults self.new ≡ faults self.old) }
        ensures most { faults self.new < 2 ^ 64 };
}

/// A text wasn't written whole.
#[derive(Clone, Copy, Debug, PartialEq, Eq)]
pub struct WriteFault;

/// Writes all of the text, or a prefix of it if the sink fails.
#[tactic(auto, using(crate::proofs::Known::progress_start, crate::proofs::Known::progress_more, crate::proofs::Known::progress_end))]
pub fn write_whole<W: Sink>(sink: &mut W, text: &[u8]) -> Result<(), WriteFault>
    ensures ok { OnOk result (Appends (W.held sink.old) (W.held sink.new) text.now) }
    ensures prefix { OnErr result (AppendsPrefix (W.held sink.old) (W.held sink.new) text.now) }
    ensures cause { HasCause (W.faults sink.old) (W.faults sink.new) result }
    ensures calm { OnOk result (W.faults sink.new ≡ W.faults sink.old) }
{
    let mut rest = text;
    while !rest.is_empty() {
        match sink.write(rest) {
            Err(Failed) | Ok(0) => return Err(WriteFault),
            Ok(n) => rest = &rest[n..],
        }
    }
    Ok(())
}
