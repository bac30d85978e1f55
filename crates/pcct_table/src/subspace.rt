//! A structure of any type.
ghost use Rattle.std.specs.Prelude.{◌≡◌, ◌++◌, ℕ, List, Some, length, slice_index, IfOk, OnOk};
ghost use Rattle.pcc_bytes.specs.Bytes.{IsBytes};
ghost use Rattle.pcct_table.specs.declared.subspace.Subspace.{Subspace};
ghost use Rattle.pcct_table.specs.Rows.{size_of_kind};
ghost use Rattle.pcct_table.specs.Subspaces.{
  IsSubspace,
  SubspaceBytes,
  base_of,
  doorbell_of,
  kind_of,
  memory_len_of,
  rate_of,
  subspace_bytes,
  turnaround_of,
};

use crate::extended::Type34;
use crate::generic::Type0;
use crate::hw_reduced::{Type1, Type2};
use crate::hw_register::Type5;
use crate::other::Other;
use pcc_gas::Gas;
use pcc_io::NoMemory;
use std::alloc::Global;

#[derive(Debug, Drop)]
pub enum Subspace {
    /// Type 0.
    Generic(Type0),
    /// Type 1.
    HwReduced1(Type1),
    /// Type 2.
    HwReduced2(Type2),
    /// Type 3.
    Initiator(Type34),
    /// Type 4.
    Responder(Type34),
    /// Type 5.
    HwRegister(Type5),
    /// A type of a later release.
    Other(Other),
}

/// An address of twelve zero bytes.
const NO_REGISTER: Gas = Gas {
    space: 0,
    width: 0,
    offset: 0,
    access: 0,
    address: 0,
};

impl Subspace {
    /// The type's number.
    pub fn kind(&self) -> u8
        ensures { result ≡ kind_of self.now }
    {
        match self {
            Subspace::Generic(_) => 0,
            Subspace::HwReduced1(_) => 1,
            Subspace::HwReduced2(_) => 2,
            Subspace::Initiator(_) => 3,
            Subspace::Responder(_) => 4,
            Subspace::HwRegister(_) => 5,
            Subspace::Other(other) => other.kind,
        }
    }

    /// The address of the shared memory. Of an unknown type it is 0, as what the next four tell.
    pub fn base(&self) -> u64
        ensures { result ≡ base_of self.now }
    {
        match self {
            Subspace::Generic(t) => t.base,
            Subspace::HwReduced1(t) => t.base,
            Subspace::HwReduced2(t) => t.base,
            Subspace::Initiator(t) | Subspace::Responder(t) => t.base,
            Subspace::HwRegister(t) => t.base,
            Subspace::Other(_) => 0,
        }
    }

    /// The bytes of the shared memory, its header included.
    pub fn memory_len(&self) -> u64
        ensures { result ≡ memory_len_of self.now }
    {
        match self {
            Subspace::Generic(t) => t.length,
            Subspace::HwReduced1(t) => t.length,
            Subspace::HwReduced2(t) => t.length,
            Subspace::Initiator(t) | Subspace::Responder(t) => u64::from(t.length),
            Subspace::HwRegister(t) => t.length,
            Subspace::Other(_) => 0,
        }
    }

    /// How many commands a minute the platform takes, or 0 for no limit. Type 5 has no limit.
    pub fn rate(&self) -> u32
        ensures { result ≡ rate_of self.now }
    {
        match self {
            Subspace::Generic(t) => t.rate,
            Subspace::HwReduced1(t) => t.rate,
            Subspace::HwReduced2(t) => t.rate,
            Subspace::Initiator(t) | Subspace::Responder(t) => t.rate,
            Subspace::HwRegister(_) | Subspace::Other(_) => 0,
        }
    }

    /// The least time from a command's end to the next command, in microseconds.
    pub fn turnaround(&self) -> u32
        ensures { result ≡ turnaround_of self.now }
    {
        match self {
            Subspace::Generic(t) => u32::from(t.turnaround),
            Subspace::HwReduced1(t) => u32::from(t.turnaround),
            Subspace::HwReduced2(t) => u32::from(t.turnaround),
            Subspace::Initiator(t) | Subspace::Responder(t) => t.turnaround,
            Subspace::HwRegister(t) => t.turnaround,
            Subspace::Other(_) => 0,
        }
    }

    /// The doorbell register.
    pub fn doorbell(&self) -> Gas
        ensures { result ≡ doorbell_of self.now }
    {
        match self {
            Subspace::Generic(t) => t.doorbell,
            Subspace::HwReduced1(t) => t.doorbell,
            Subspace::HwReduced2(t) => t.doorbell,
            Subspace::Initiator(t) | Subspace::Responder(t) => t.doorbell,
            Subspace::HwRegister(t) => t.doorbell,
            Subspace::Other(_) => NO_REGISTER,
        }
    }
}

/// The number of bytes of a structure of this type whose second byte is `found`: on a known type that of all its structures, on an unknown
/// one `found`, if it is 2 or more.
pub fn size_of_kind(kind: u8, found: u8) -> Option<u8>
    ensures { result ≡ size_of_kind kind found }
{
    match kind {
        0 | 1 => Some(62),
        2 => Some(90),
        3 | 4 => Some(164),
        5 => Some(96),
        _ => { if found < 2 { None } else { Some(found) } }
    }
}

/// The structure that the bytes spell.
#[tactic(auto, using(crate::proofs::Laws::kept_is))]
pub fn subspace_from(alloc: Global, bytes: &[u8]) -> Result<Subspace, NoMemory>
    requires size { size_of_kind (slice_index bytes.now 0) (length bytes.now) ≡ Some (length bytes.now) }
    requires told { slice_index bytes.now 1 ≡ length bytes.now }
    ensures { IfOk result (SubspaceBytes bytes.now) }
{
    match bytes[0] {
        0 => Ok(Subspace::Generic(Type0::from_bytes(bytes))),
        1 => Ok(Subspace::HwReduced1(Type1::from_bytes(bytes))),
        2 => Ok(Subspace::HwReduced2(Type2::from_bytes(bytes))),
        3 => Ok(Subspace::Initiator(Type34::from_bytes(bytes))),
        4 => Ok(Subspace::Responder(Type34::from_bytes(bytes))),
        5 => Ok(Subspace::HwRegister(Type5::from_bytes(bytes))),
        _ => Ok(Subspace::Other(Other::from_bytes(alloc, bytes)?)),
    }
}

/// Puts the bytes that spell the structure at the end. If memory runs out some of them may have been put.
#[tactic(auto, using(crate::proofs::Laws::kept_few))]
pub fn put_subspace(out: &mut Vec<u8>, subspace: &Subspace) -> Result<(), NoMemory>
    requires { IsSubspace subspace.now }
    ensures { OnOk result (out.new.items ≡ out.old.items ++ subspace_bytes subspace.now) }
{
    match subspace {
        Subspace::Generic(t) => t.put(out),
        Subspace::HwReduced1(t) => t.put(out),
        Subspace::HwReduced2(t) => t.put(out),
        Subspace::Initiator(t) => t.put(3, out),
        Subspace::Responder(t) => t.put(4, out),
        Subspace::HwRegister(t) => t.put(out),
        Subspace::Other(other) => other.put(out),
    }
}

/// Bytes that spell a structure are those that `put_subspace` puts.
pub fn one_spelling()
    ensures { (bytes : List ℕ) (s : Subspace) → IsBytes bytes → SubspaceBytes bytes s → bytes ≡ subspace_bytes s }
{}

/// Bytes spell one structure at most.
pub fn one_subspace()
    ensures { (bytes : List ℕ) (s u : Subspace) → SubspaceBytes bytes s → SubspaceBytes bytes u → s ≡ u }
{}
