//! Sources of bytes.
ghost use Rattle.std.specs.Prelude.{◌≡◌, ◌+◌, ◌^◌, ◌<◌, ◌≤◌, List, ℕ, Option, length, vec_len, IfOk, IsErrOf};
ghost use Rattle.std.specs.Io.{ReadsAtMost};
ghost use Rattle.std.specs.Io.KnownBytes.{Consumes, IsAtEnd, ReadConsumes};
ghost use Rattle.pcc_causes.specs.Causes.{HasCause, Rose, TakesAtMost};
ghost use Rattle.pcc_io.specs.declared.source.ReadEnd.TheVariants.{NoMemory as OutOfMemory};

use crate::{Failed, NoMemory};
use std::alloc::{AllocError, Global};

/// How many bytes one read asks for at most.
const CHUNK: usize = 16_384;

/// A stream of bytes that counts its faults.
pub trait Source {
    /// The bytes that reads will give from here on, if the source shows them.
    ghost left: { Self → Option (List ℕ) };

    /// How often the source has failed. The count stops at the greatest u64, and only a call that fails raises it.
    ghost faults: { Self → ℕ };

    /// Moves the first bytes of what is left into the buffer, and answers how many. It gives a buffer that isn't empty no byte
    /// only at the end of the stream. If it fails, no byte is moved.
    fn read(&mut self, buf: &mut [u8]) -> Result<usize, Failed>
        ensures bound { ReadsAtMost result buf.new }
        ensures bytes { ReadConsumes (left self.old) (left self.new) result buf.new }
        ensures cause { HasCause (faults self.old) (faults self.new) result }
        ensures calm { IfOk result (λ _. faults self.new ≡ faults self.old) }
        ensures most { faults self.new < 2 ^ 64 };
}

/// Why a source wasn't read to its end.
#[derive(Clone, Copy, Debug, PartialEq, Eq)]
pub enum ReadEnd {
    /// The source failed.
    ReadFault,
    /// The source has more bytes than the limit.
    TooLong { limit: usize },
    /// Memory ran out.
    NoMemory,
}

impl From<AllocError> for ReadEnd {
    ghost from_gives = { λ _ e. e ≡ OutOfMemory };

    fn from(_: AllocError) -> ReadEnd {
        ReadEnd::NoMemory
    }
}

/// All bytes of the source, which is then at its end. After a refusal the bytes that were read are gone.
#[tactic(auto, using(crate::proofs::Known::consumes_none, crate::proofs::Known::consumes_more, crate::proofs::Known::taken_kept))]
pub fn read_to_end<S: Source>(
    alloc: Global,
    source: &mut S,
    limit: usize,
) -> Result<Vec<u8>, ReadEnd>
    requires { limit < 2 ^ 32 }
    ensures bytes { IfOk result (λ v. Consumes (S.left source.old) (S.left source.new) v.items) }
    ensures end { IfOk result (λ _. IsAtEnd (S.left source.new)) }
    ensures within { IfOk result (λ v. vec_len v ≤ limit) }

    // It is too long exactly when one byte more than the limit was read.
    ensures too_long { (n : ℕ) → IsErrOf result (ReadEnd.TooLong n) → (n ≡ limit)
        × ((bs : List ℕ) × Consumes (S.left source.old) (S.left source.new) bs × (length bs ≡ limit + 1)) }

    // Only the source can make it a fault, and its count never falls. It rises with that fault alone.
    ensures fault { IsErrOf result ReadEnd.ReadFault → Rose (S.faults source.old) (S.faults source.new) }
    ensures calm { (IsErrOf result ReadEnd.ReadFault → ⊥) → S.faults source.new ≡ S.faults source.old }
    ensures most { S.faults source.new < 2 ^ 64 }
    ensures later { S.faults source.old ≤ S.faults source.new }
    ensures gone { TakesAtMost (S.left source.old) (S.left source.new) (limit + 1) }
{
    let mut bytes = Vec::new(alloc);
    let mut buf = [0u8; CHUNK];
    loop {
        let want = CHUNK.min(limit + 1 - bytes.len());
        match source.read(&mut buf[..want]) {
            Err(Failed) => return Err(ReadEnd::ReadFault),
            Ok(0) => return Ok(bytes),
            Ok(n) => bytes.extend_from_slice(&buf[..n])?,
        }
        if bytes.len() > limit {
            return Err(ReadEnd::TooLong { limit });
        }
    }
}
