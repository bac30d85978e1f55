//! What is wrong where bytes begin with no item.
ghost use Rattle.std.specs.Prelude.{◌≡◌};
ghost use Rattle.aml_pkg.specs.declared.fault.ReadError.TheVariants.{NoMemory as OutOfMemory};

use pcc_io::NoMemory;
use std::alloc::{AllocError, AllocFailed};

/// What is wrong. Bytes are tested from left to right, and the place is that of the first byte that fails, or the end that is passed.
#[derive(Clone, Copy, Debug, PartialEq, Eq)]
pub enum AmlKind {
    /// The bytes end before one that is wanted, or before the end that a length states.
    Short,
    /// The first byte of a length with bytes that follow it has bit 4 or 5 set (ACPI 6.5, 20.2.4).
    BadLead,
    /// A length is less than its own bytes, something in a buffer or a package passes its end, or bytes are left before the end of a
    /// package.
    BadLength,
    /// The byte begins no integer, buffer or package.
    UnknownOp,
    /// A package is in a package.
    TooDeep,
}

/// The first thing that is wrong.
#[derive(Clone, Copy, Debug, PartialEq, Eq)]
pub struct AmlFault {
    /// Its place, in bytes.
    pub at: u32,
    pub kind: AmlKind,
    /// How many elements of the package were whole before it; 0 outside a package.
    pub whole: u8,
}

/// Why an item wasn't read, with the number of whole elements.
#[derive(Clone, Copy, Debug, PartialEq, Eq)]
pub enum ReadError {
    Fault(AmlFault),
    NoMemory,
}

impl From<NoMemory> for ReadError {
    ghost from_gives = { λ _ e. e ≡ OutOfMemory };

    fn from(_: NoMemory) -> ReadError {
        ReadError::NoMemory
    }
}

impl From<AllocError> for ReadError {
    ghost from_gives = { λ _ e. e ≡ OutOfMemory };

    fn from(_: AllocError) -> ReadError {
        ReadError::NoMemory
    }
}

impl<T: Drop> From<AllocFailed<T>> for ReadError {
    ghost from_gives = { λ _ e. e ≡ OutOfMemory };

    fn from(_: AllocFailed<T>) -> ReadError {
        ReadError::NoMemory
    }
}

/// Why an item wasn't read.
#[derive(Clone, Copy, Debug, PartialEq, Eq)]
pub enum AmlError {
    /// What is wrong first, and its place in bytes.
    Fault { at: u32, kind: AmlKind },
    /// Memory ran out.
    NoMemory,
}
