//! Numbers as bytes, lowest first, and pieces of bytes one after the other.
ghost use Rattle.std.specs.Prelude.{◌≡◌, ◌++◌, OnOk};
ghost use Rattle.std.specs.List.{flat_map};
ghost use Rattle.pcct_table.specs.Values.{number_bytes};

use pcc_io::NoMemory;

/// Puts the pieces at the end. If memory runs out some of them may have been put.
pub fn put_all(out: &mut Vec<u8>, pieces: &[&[u8]]) -> Result<(), NoMemory>
    ensures { OnOk result (out.new.items ≡ out.old.items ++ flat_map (λ p. p.now) pieces.now) }
{
    for piece in pieces {
        out.extend_from_slice(piece)?;
    }
    Ok(())
}

#[tactic(auto, unfolding(crate::specs::Values::number_bytes))]
pub fn u8_bytes(n: u8) -> [u8; 1]
    ensures { result ≡ number_bytes 1 n }
{
    [n]
}

#[tactic(auto, unfolding(crate::specs::Values::number_bytes))]
pub fn u16_bytes(n: u16) -> [u8; 2]
    ensures { result ≡ number_bytes 2 n }
{
    n.to_le_bytes()
}

#[tactic(auto, unfolding(crate::specs::Values::number_bytes))]
pub fn u32_bytes(n: u32) -> [u8; 4]
    ensures { result ≡ number_bytes 4 n }
{
    n.to_le_bytes()
}

#[tactic(auto, unfolding(crate::specs::Values::number_bytes))]
pub fn u64_bytes(n: u64) -> [u8; 8]
    ensures { result ≡ number_bytes 8 n }
{
    n.to_le_bytes()
}
