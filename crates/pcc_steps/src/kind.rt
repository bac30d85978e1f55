//! The types of subspaces, by what sets them apart (ACPI 6.5, 14.1 to 14.4). Each type number is written here once.
ghost use Rattle.std.specs.Prelude.{◌≡◌};
ghost use Rattle.pcc_steps.specs.Kinds.{is_extended, is_headed, is_initiator, is_reduced, is_responder, may_acknowledge};

/// Types 0 to 2: the header holds the status of a command, and its code has one byte.
#[inline(always)]
pub fn is_headed(kind: u8) -> bool
    ensures { result ≡ is_headed kind }
{
    kind < 3
}

/// Type 3: an extended header, and the operating system asks.
#[inline(always)]
pub fn is_initiator(kind: u8) -> bool
    ensures { result ≡ is_initiator kind }
{
    kind == 3
}

/// Type 4: an extended header, and the platform asks.
#[inline(always)]
pub fn is_responder(kind: u8) -> bool
    ensures { result ≡ is_responder kind }
{
    kind == 4
}

/// Types 3 and 4: a header of 16 bytes.
#[inline(always)]
pub fn is_extended(kind: u8) -> bool
    ensures { result ≡ is_extended kind }
{
    is_initiator(kind) || is_responder(kind)
}

/// Type 5: a header that has no place to ask for a notification.
#[inline(always)]
pub fn is_reduced(kind: u8) -> bool
    ensures { result ≡ is_reduced kind }
{
    kind == 5
}

// Types 2 and 3: the asking side acknowledges the interrupt, where there is a register for that.
#[inline(always)]
pub(crate) fn may_acknowledge(kind: u8) -> bool
    ensures { result ≡ may_acknowledge kind }
{
    kind == 2 || is_initiator(kind)
}
