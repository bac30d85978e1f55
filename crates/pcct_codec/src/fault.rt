//! Why bytes are no table, and why a table isn't written.
ghost use Rattle.std.specs.Prelude.{◌≡◌};
ghost use Rattle.pcct_codec.specs.declared.fault.TableFault.TheVariants.{NoMemory as OutOfMemory};
ghost use Rattle.pcct_codec.specs.declared.fault.TableWriteFault.TheVariants.{
  NoMemory as NoMemoryToWrite,
  WriteFault as NotWritten,
};

use pcc_io::{NoMemory, WriteFault};
use std::alloc::AllocError;

/// The first check that fails on bytes or on those of a source, in this order, with its place from the table's first byte.
#[derive(Clone, Copy, Debug, PartialEq, Eq)]
pub enum TableFault {
    /// The bytes or the source end after this many, fewer than a header's 48 or than the header states.
    Short { at: u32 },
    /// The first four bytes aren't `PCCT`.
    Signature,
    /// The header states a length below 48 or above 65,328.
    LengthOutside { len: u32 },
    /// The revision is neither 1 nor 2.
    Revision { found: u8 },
    /// A structure begins here, after 256.
    TooMany { at: u32 },
    /// Of the structure that begins here one byte is left, or it passes the table's end.
    Overrun { at: u32 },
    /// The structure that begins here states another size than its type's, or one below 2 where the type is unknown.
    SubspaceLength { at: u32, kind: u8, found: u8 },
    /// All bytes have this sum modulo 256, and it isn't 0.
    Checksum { sum: u8 },
    /// The source failed.
    ReadFault,
    /// Memory ran out.
    NoMemory,
}

impl From<NoMemory> for TableFault {
    ghost from_gives = { λ _ e. e ≡ OutOfMemory };

    fn from(_: NoMemory) -> TableFault {
        TableFault::NoMemory
    }
}

impl From<AllocError> for TableFault {
    ghost from_gives = { λ _ e. e ≡ OutOfMemory };

    fn from(_: AllocError) -> TableFault {
        TableFault::NoMemory
    }
}

/// Why a table isn't written.
#[derive(Clone, Copy, Debug, PartialEq, Eq)]
pub enum TableWriteFault {
    /// The sink failed.
    WriteFault,
    /// Memory ran out.
    NoMemory,
}

impl From<WriteFault> for TableWriteFault {
    ghost from_gives = { λ _ e. e ≡ NotWritten };

    fn from(_: WriteFault) -> TableWriteFault {
        TableWriteFault::WriteFault
    }
}

impl From<NoMemory> for TableWriteFault {
    ghost from_gives = { λ _ e. e ≡ NoMemoryToWrite };

    fn from(_: NoMemory) -> TableWriteFault {
        TableWriteFault::NoMemory
    }
}
