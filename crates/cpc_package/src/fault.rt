//! What is wrong where bytes begin with no package.
ghost use Rattle.std.specs.Prelude.{◌≡◌};
ghost use Rattle.aml_pkg.specs.declared.fault.ReadError.{ReadError};
ghost use Rattle.aml_pkg.specs.declared.fault.ReadError.TheVariants as read;
ghost use Rattle.cpc_package.specs.Packages.{error_of_fault, error_of_read, kind_of_aml};
ghost use Rattle.cpc_package.specs.PackageText.{kind_text};

use aml_pkg::{AmlKind, ReadError};

/// What is wrong. The kinds of AML are tested first, over the whole item; then the item itself; then each entry in order.
#[derive(Clone, Copy, Debug, PartialEq, Eq)]
pub enum CpcKind {
    /// The bytes end within the item, or its length passes their end.
    Short,
    /// The first byte of a length with bytes that follow it has bit 4 or 5 set.
    BadLead,
    /// A length is less than its own bytes, something inside passes the item's end, or bytes are left before that end.
    BadLength,
    /// The byte begins no integer, buffer or package.
    UnknownOp,
    /// An element of the package is a package.
    TooDeep,
    /// The item is an integer or a buffer.
    NotPackage,
    /// The number of entries is another than a package of this kind has.
    EntryCount,
    /// Entry 0 or 1 is a buffer.
    NotInteger,
    /// Entry 0 isn't the number of entries.
    WrongCount,
    /// Entry 1 isn't the revision that goes with the number of entries.
    WrongRevision,
    /// A register is wanted and the entry is an integer, or it is a buffer whose size or number of bytes isn't 17.
    NotRegister,
    /// The register doesn't begin with `82 0c 00` (ACPI 6.5, 6.4.3.7).
    BadDescriptor,
    /// Byte 15 of the register isn't `79` (ACPI 6.5, 6.4.2.9).
    BadEndTag,
    /// The checksum isn't 0, and the sum of the register's bytes isn't 0 modulo 256.
    BadChecksum,
}

impl CpcKind {
    /// The words for it in a refusal.
    pub fn text(self) -> &'static [u8]
        ensures { result.now ≡ kind_text self }
    {
        match self {
            CpcKind::Short => b"short",
            CpcKind::BadLead => b"bad lead",
            CpcKind::BadLength => b"bad length",
            CpcKind::UnknownOp => b"unknown op",
            CpcKind::TooDeep => b"too deep",
            CpcKind::NotPackage => b"not package",
            CpcKind::EntryCount => b"entry count",
            CpcKind::NotInteger => b"not integer",
            CpcKind::WrongCount => b"wrong count",
            CpcKind::WrongRevision => b"wrong revision",
            CpcKind::NotRegister => b"not register",
            CpcKind::BadDescriptor => b"bad descriptor",
            CpcKind::BadEndTag => b"bad end tag",
            CpcKind::BadChecksum => b"bad checksum",
        }
    }
}

impl From<AmlKind> for CpcKind {
    ghost from_gives = { λ kind result. result ≡ kind_of_aml kind };

    fn from(kind: AmlKind) -> CpcKind {
        match kind {
            AmlKind::Short => CpcKind::Short,
            AmlKind::BadLead => CpcKind::BadLead,
            AmlKind::BadLength => CpcKind::BadLength,
            AmlKind::UnknownOp => CpcKind::UnknownOp,
            AmlKind::TooDeep => CpcKind::TooDeep,
        }
    }
}

/// The first thing that is wrong.
#[derive(Clone, Copy, Debug, PartialEq, Eq)]
pub struct CpcFault {
    /// The number of the entry, or of the entries that are whole elements of AML before a fault of AML.
    pub entry: u8,
    /// The place in bytes: that of the entry's first byte, of the byte that holds the number of entries, or of a fault of AML.
    pub at: u32,
    pub kind: CpcKind,
}

/// Why no package was read.
#[derive(Clone, Copy, Debug, PartialEq, Eq)]
pub enum CpcError {
    /// What is wrong first, with its entry and its place, as in `CpcFault`.
    Fault { entry: u8, at: u32, kind: CpcKind },
    /// Memory ran out.
    NoMemory,
}

impl From<CpcFault> for CpcError {
    ghost from_gives = { λ fault result. result ≡ error_of_fault fault };

    fn from(fault: CpcFault) -> CpcError {
        CpcError::Fault {
            entry: fault.entry,
            at: fault.at,
            kind: fault.kind,
        }
    }
}

impl From<ReadError> for CpcError {
    ghost from_gives = { λ error result. result ≡ error_of_read error };

    fn from(error: ReadError) -> CpcError {
        match error {
            ReadError::NoMemory => CpcError::NoMemory,
            ReadError::Fault(fault) => CpcError::Fault {
                entry: fault.whole,
                at: fault.at,
                kind: CpcKind::from(fault.kind),
            },
        }
    }
}
