//! Why a subspace can't be opened.

/// The side that is to ask for commands.
#[derive(Clone, Copy, Debug, PartialEq, Eq)]
pub enum Asks {
    /// The operating system.
    System,
    /// The platform.
    Platform,
}

/// What a register of a subspace is for.
#[derive(Clone, Copy, Debug, PartialEq, Eq)]
pub enum Role {
    /// The asking side writes it, to say that a command is there (the answering side on type 4, that one is complete).
    Doorbell,
    /// A write acknowledges the interrupt (types 2 to 4).
    Acknowledge,
    /// It says whether the last command is complete (types 3 to 5).
    Check,
    /// A write changes what the check register says (types 3 and 4).
    Update,
    /// It says whether the last command failed (types 3 to 5).
    Error,
}

/// Why a subspace can't be opened.
#[derive(Clone, Copy, Debug, PartialEq, Eq)]
pub enum WiringFault {
    /// The structure is of a type of a later release.
    UnknownType { kind: u8 },
    /// The platform asks on type 4, the operating system on the types 0 to 3 and 5.
    WrongRole,
    /// The shared memory has no room for its header and 8 bytes; `len` is its length in bytes.
    SpaceTooSmall { len: u64 },
    /// The register lies neither in System Memory nor in System I/O.
    RegisterSpace { role: Role },
    /// The register doesn't begin at bit 0, or hasn't 8, 16, 32 or 64 bits.
    RegisterWidth { role: Role },
    /// No bit of the check register says that a command is complete.
    NoCheckMask,
    /// The check register is the update register, and its write may leave completion set (type 3).
    NeverClears,
    /// The check register is the update register, and its write doesn't set completion (type 4).
    NeverSets,
}
