//! The headers that shared memory begins with, as values and as words.

ghost use Rattle.std.specs.Prelude.{◌≡◌, ◌<◌, ◌+◌, ◌*◌, ◌/◌, ◌%◌, ◌^◌, ℕ, [], ◌∷◌};
ghost use Rattle.shmem_header.specs.Layout.{IsExtended, IsGeneric, IsReduced, extended_in, generic_in, reduced_in, signature_of};
ghost use Rattle.shmem_header.specs.Packing.{extended_words, generic_word, reduced_word};
ghost use Rattle.shmem_header.specs.Spelling.{bytes_of, word_bytes};

/// The header of the subspaces of types 0 to 2: eight bytes (ACPI 6.5, 14.2).
#[derive(Clone, Copy, Debug, PartialEq, Eq)]
pub struct Generic {
    /// The mark of the subspace, as `signature_of` gives it.
    pub signature: u32,
    /// Bits 0 to 7 the command's code, bit 15 whether the platform is to notify when it has completed (14.2.1).
    pub command: u16,
    /// Bit 0 command complete, bit 1 platform interrupt, bit 2 error, bit 3 platform notification (14.2.2).
    pub status: u16,
}

impl Generic {
    /// The bit of the command that asks to notify when it has completed (14.2.1).
    pub const NOTIFY: u16 = 1 << 15;

    /// The bit of the status that says that the command has completed (14.2.2).
    pub const COMPLETE: u16 = 1;

    /// The bit of the status that says that the command ended with an error (14.2.2).
    pub const ERROR: u16 = 1 << 2;
}

/// The header of the subspaces of types 3 and 4: sixteen bytes (ACPI 6.5, 14.3).
#[derive(Clone, Copy, Debug, PartialEq, Eq)]
pub struct Extended {
    /// The mark of the subspace, as `signature_of` gives it.
    pub signature: u32,
    /// Bit 0 whether to notify on completion.
    pub flags: u32,
    /// Bytes from the command on: 4, and those of the payload.
    pub length: u32,
    /// The command's code.
    pub command: u32,
}

impl Extended {
    /// The bit of the flags that asks to notify when the command has completed (14.3).
    pub const NOTIFY: u32 = 1;
}

/// The header of the subspaces of type 5: eight bytes (ACPI 6.5, 14.4).
#[derive(Clone, Copy, Debug, PartialEq, Eq)]
pub struct Reduced {
    /// The mark of the subspace, as `signature_of` gives it.
    pub signature: u32,
    /// The command's code.
    pub command: u32,
}

/// The word of a generic header.
pub fn generic_to(header: Generic) -> u64
    ensures word { result ≡ generic_word header }
    ensures fields { generic_in (word_bytes result) ≡ header }
{
    u64::from(header.signature) | u64::from(header.command) << 32 | u64::from(header.status) << 48
}

/// The generic header that a word is.
pub fn generic_from(word: u64) -> Generic
    ensures { result ≡ generic_in (word_bytes word) }
{
    Generic {
        signature: (word & 0xffff_ffff) as u32,
        command: (word >> 32 & 0xffff) as u16,
        status: (word >> 48) as u16,
    }
}

/// The two words of an extended header.
pub fn extended_to(header: Extended) -> [u64; 2]
    ensures words { result ≡ extended_words header }
    ensures fields { extended_in (bytes_of result) ≡ header }
{
    [
        pair_to(header.signature, header.flags),
        pair_to(header.length, header.command),
    ]
}

/// The extended header that two words are.
pub fn extended_from(words: [u64; 2]) -> Extended
    ensures { result ≡ extended_in (bytes_of words) }
{
    let [first, second] = words;
    let (signature, flags) = pair_from(first);
    let (length, command) = pair_from(second);
    Extended {
        signature,
        flags,
        length,
        command,
    }
}

/// The word of a reduced header.
pub fn reduced_to(header: Reduced) -> u64
    ensures word { result ≡ reduced_word header }
    ensures fields { reduced_in (word_bytes result) ≡ header }
{
    pair_to(header.signature, header.command)
}

/// The reduced header that a word is.
pub fn reduced_from(word: u64) -> Reduced
    ensures { result ≡ reduced_in (word_bytes word) }
{
    let (signature, command) = pair_from(word);
    Reduced { signature, command }
}

/// The word of two numbers of four bytes each.
fn pair_to(low: u32, high: u32) -> u64
    ensures { result ≡ low + high * 2 ^ 32 }
{
    u64::from(low) | u64::from(high) << 32
}

/// The two numbers of four bytes each that a word is.
fn pair_from(word: u64) -> (u32, u32)
    ensures low { result.0 ≡ word % 2 ^ 32 }
    ensures high { result.1 ≡ word / 2 ^ 32 }
{
    ((word & 0xffff_ffff) as u32, (word >> 32) as u32)
}

/// The mark of a subspace: the letters "PCC" in the three upper bytes, and its number in the table in the lowest one
/// (ACPI 6.5, 14.2).
pub fn signature_of(id: u8) -> u32
    ensures { result ≡ signature_of id }
{
    0x5043_4300 | u32::from(id)
}

/// Headers of each kind are their words: each header has one word or two, and each word or two words are one header.
/// It does nothing.
pub fn header_laws()
    ensures generic { (h : Generic) → IsGeneric h → (generic_word h < 2 ^ 64) × (generic_in (word_bytes (generic_word h)) ≡ h) }
    ensures generic_back { (word : ℕ) → word < 2 ^ 64
        → IsGeneric (generic_in (word_bytes word)) × (generic_word (generic_in (word_bytes word)) ≡ word) }
    ensures extended { (h : Extended) → IsExtended h → extended_in (bytes_of (extended_words h)) ≡ h }
    ensures extended_back { (a b : ℕ) → a < 2 ^ 64 → b < 2 ^ 64
        → IsExtended (extended_in (bytes_of (a ∷ b ∷ []))) × (extended_words (extended_in (bytes_of (a ∷ b ∷ []))) ≡ a ∷ b ∷ []) }
    ensures reduced { (h : Reduced) → IsReduced h → (reduced_word h < 2 ^ 64) × (reduced_in (word_bytes (reduced_word h)) ≡ h) }
    ensures reduced_back { (word : ℕ) → word < 2 ^ 64
        → IsReduced (reduced_in (word_bytes word)) × (reduced_word (reduced_in (word_bytes word)) ≡ word) }
{}
