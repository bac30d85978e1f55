//! The bits of header words by name, and a command's header as a word.

ghost use Rattle.std.specs.Prelude.{◌≡◌, ◌<◌, ◌+◌, ◌%◌, ◌^◌, ℕ, Bool, slice_index};
ghost use Rattle.shmem_header.specs.HeaderBits.{IsCommand, code_in, command_in, header_word, is_set, notify_part, with_status};
ghost use Rattle.shmem_header.specs.Layout.{IsExtended, IsGeneric, IsReduced};
ghost use Rattle.shmem_header.specs.Packing.{extended_words, generic_word, reduced_word};

use crate::{Extended, Generic, Reduced, generic_from, generic_to, signature_of};

/// The bit of a generic header's word that asks to notify when the command has completed (ACPI 6.5, 14.2.1).
pub const NOTIFY_BIT: u32 = 47;

/// The bit of a generic header's word that says that the command has completed (ACPI 6.5, 14.2.2).
pub const COMPLETE_BIT: u32 = 48;

/// The bit of a generic header's word that says that the command ended with an error (ACPI 6.5, 14.2.2).
pub const ERROR_BIT: u32 = 50;

/// The bit of an extended header's first word that asks to notify when the command has completed (ACPI 6.5, 14.3).
pub const EXTENDED_NOTIFY_BIT: u32 = 32;

/// The word of a generic header: the code of the command, whether to notify when it has completed, a status, and the
/// number of the subspace.
pub fn header_word(code: u8, notify: bool, status: u16, id: u8) -> u64
    ensures { result ≡ header_word code notify status id }
{
    generic_to(Generic {
        signature: signature_of(id),
        command: u16::from(code) | notify_part(notify),
        status,
    })
}

/// What a command has besides its code.
fn notify_part(notify: bool) -> u16
    ensures { result ≡ notify_part notify }
{
    if notify { Generic::NOTIFY } else { 0 }
}

/// The word of a generic header with another status.
pub fn with_status(word: u64, status: u16) -> u64
    ensures { result ≡ with_status word status }
{
    generic_to(Generic {
        status,
        ..generic_from(word)
    })
}

/// The code of the command in the word of a generic header.
pub fn code_in(word: u64) -> u8
    ensures { result ≡ code_in word }
{
    (word >> 32 & 0xff) as u8
}

/// The command in the second word of an extended header, or in the word of a reduced one.
pub fn command_in(word: u64) -> u32
    ensures { result ≡ command_in word }
{
    (word >> 32) as u32
}

/// Whether a bit of a word is 1.
pub fn is_set(word: u64, bit: u32) -> bool
    requires { bit < 64 }
    ensures { result ≡ is_set word bit }
{
    word >> bit & 1 == 1
}

/// What is in the bits of a header's word. It does nothing.
pub fn bit_laws()
    ensures code { (h : Generic) → IsGeneric h → code_in (generic_word h) ≡ h.command % 2 ^ 8 }
    ensures notify { (h : Generic) → IsGeneric h → is_set (generic_word h) NOTIFY_BIT ≡ is_set h.command 15 }
    ensures complete { (h : Generic) → IsGeneric h → is_set (generic_word h) COMPLETE_BIT ≡ is_set h.status 0 }
    ensures error { (h : Generic) → IsGeneric h → is_set (generic_word h) ERROR_BIT ≡ is_set h.status 2 }
    ensures status { (h : Generic) (status : ℕ) → IsGeneric h → with_status (generic_word h) status ≡ generic_word (record h { status = status }) }

    // The same bits in the fields, as masks.
    ensures notify_mask { Generic.NOTIFY ≡ 2 ^ 15 }
    ensures complete_mask { Generic.COMPLETE ≡ 2 ^ 0 }
    ensures error_mask { Generic.ERROR ≡ 2 ^ 2 }
    ensures extended_notify_mask { Extended.NOTIFY ≡ 2 ^ 0 }

    // The first word of an extended header has its flags, and the second one its command.
    ensures extended_notify { (h : Extended) → IsExtended h → is_set (slice_index (extended_words h) 0) EXTENDED_NOTIFY_BIT ≡ is_set h.flags 0 }
    ensures extended_command { (h : Extended) → IsExtended h → command_in (slice_index (extended_words h) 1) ≡ h.command }
    ensures reduced_command { (h : Reduced) → IsReduced h → command_in (reduced_word h) ≡ h.command }
{}

/// What is in the bits of a command's header. It does nothing.
pub fn command_laws()
    ensures fits { (code : ℕ) (notify : Bool) (status id : ℕ) → IsCommand code status id → header_word code notify status id < 2 ^ 64 }
    ensures code { (code : ℕ) (notify : Bool) (status id : ℕ) → IsCommand code status id → code_in (header_word code notify status id) ≡ code }
    ensures notify { (code : ℕ) (notify : Bool) (status id : ℕ) → IsCommand code status id
        → is_set (header_word code notify status id) NOTIFY_BIT ≡ notify }
    ensures complete { (code : ℕ) (notify : Bool) (status id : ℕ) → IsCommand code status id
        → is_set (header_word code notify status id) COMPLETE_BIT ≡ is_set status 0 }
    ensures error { (code : ℕ) (notify : Bool) (status id : ℕ) → IsCommand code status id
        → is_set (header_word code notify status id) ERROR_BIT ≡ is_set status 2 }

    // Another status leaves all else, in a command's header and in each word.
    ensures status { (code : ℕ) (notify : Bool) (before status id : ℕ) → IsCommand code before id
        → with_status (header_word code notify before id) status ≡ header_word code notify status id }
    ensures low_bits { (word status bit : ℕ) → bit < 48 → is_set (with_status word status) bit ≡ is_set word bit }
    ensures high_bits { (word status bit : ℕ) → is_set (with_status word status) (48 + bit) ≡ is_set status bit }
    ensures same_code { (word status : ℕ) → code_in (with_status word status) ≡ code_in word }
{}
