//! The definitions on worked cases.

ghost use Rattle.std.specs.Prelude.{◌≡◌, [], ◌∷◌, true};
ghost use Rattle.shmem_header.specs.HeaderBits.{header_word};
ghost use Rattle.shmem_header.specs.Layout.{extended_in, generic_in, reduced_in, signature_of};
ghost use Rattle.shmem_header.specs.Packing.{extended_words, reduced_word};
ghost use Rattle.shmem_header.specs.Spelling.{bytes_of, words_of};

use crate::{Extended, Generic, Reduced};

/// The header of subspace 3 with the command 0x10, which asks to notify and has not completed.
const POSTED: Generic = Generic {
    signature: 0x5043_4303,
    command: 0x8010,
    status: 0,
};

const POSTED_BYTES: [u8; 8] = [3, 0x43, 0x43, 0x50, 0x10, 0x80, 0, 0];

/// The same when the command has completed.
const COMPLETED_BYTES: [u8; 8] = [3, 0x43, 0x43, 0x50, 0x10, 0x80, 1, 0];

/// The header of subspace 2 with the command 0x11 and eight bytes of payload, which asks to notify.
const EXTENDED: Extended = Extended {
    signature: 0x5043_4302,
    flags: 1,
    length: 12,
    command: 0x11,
};

const EXTENDED_BYTES: [u8; 16] = [2, 0x43, 0x43, 0x50, 1, 0, 0, 0, 12, 0, 0, 0, 0x11, 0, 0, 0];

/// The header of subspace 5, which is reduced, with the command 0x12345678.
const REDUCED: Reduced = Reduced {
    signature: 0x5043_4305,
    command: 0x1234_5678,
};

const REDUCED_BYTES: [u8; 8] = [5, 0x43, 0x43, 0x50, 0x78, 0x56, 0x34, 0x12];

/// Headers as bytes. It does nothing.
#[tactic(auto, unfolding(crate::specs::Layout::generic_in, crate::specs::Layout::extended_in, crate::specs::Layout::reduced_in, crate::specs::HeaderBits::header_word, crate::specs::Spelling::word_of, crate::specs::Spelling::word_bytes, pcc_bytes::specs::Bytes::number_at))]
pub fn worked_headers()
    ensures posted { generic_in POSTED_BYTES ≡ POSTED }
    ensures posted_word { bytes_of (header_word 0x10 true 0 3 ∷ []) ≡ POSTED_BYTES }
    ensures completed { generic_in COMPLETED_BYTES ≡ record POSTED { status = Generic.COMPLETE } }
    ensures completed_word { bytes_of (header_word 0x10 true Generic.COMPLETE 3 ∷ []) ≡ COMPLETED_BYTES }
    ensures extended { extended_in EXTENDED_BYTES ≡ EXTENDED }
    ensures extended_words { bytes_of (extended_words EXTENDED) ≡ EXTENDED_BYTES }
    ensures reduced { reduced_in REDUCED_BYTES ≡ REDUCED }
    ensures reduced_word { bytes_of (reduced_word REDUCED ∷ []) ≡ REDUCED_BYTES }
    ensures words { words_of EXTENDED_BYTES ≡ 0x0000000150434302 ∷ 0x000000110000000c ∷ [] }
    ensures signature { signature_of 2 ≡ EXTENDED.signature }
{}
