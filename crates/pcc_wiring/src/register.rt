//! What the address of a register says.
ghost use Rattle.std.specs.Prelude.{◌≡◌};
ghost use Rattle.pcc_wiring.specs.Registers.{cut, is_absent, is_plain, is_reachable};

use pcc_gas::Gas;

/// Whether all twelve bytes of an address are 0.
pub fn is_absent(gas: Gas) -> bool
    ensures { result ≡ is_absent gas }
{
    gas.space == 0 && gas.width == 0 && gas.offset == 0 && gas.access == 0 && gas.address == 0
}

/// Whether a register lies in System Memory or System I/O.
pub fn is_reachable(gas: Gas) -> bool
    ensures { result ≡ is_reachable gas }
{
    gas.space == 0 || gas.space == 1
}

/// Whether a register begins at bit 0 and has 8, 16, 32 or 64 bits.
pub fn is_plain(gas: Gas) -> bool
    ensures { result ≡ is_plain gas }
{
    gas.offset == 0 && (gas.width == 8 || gas.width == 16 || gas.width == 32 || gas.width == 64)
}

/// A mask without the bits that a register of this width doesn't have.
#[tactic(auto, using(crate::proofs::Rights::wide))]
pub fn cut(width: u8, mask: u64) -> u64
    ensures { result ≡ cut width mask }
{
    if width < 64 {
        mask % (1 << width)
    } else {
        mask
    }
}
