//! The structures after a table's header.
ghost use Rattle.std.specs.Prelude.{◌≡◌, ◌++◌, ◌≤◌, ◌<◌, ◌^◌, All, length, drop, MatchResult, OnOk};
ghost use Rattle.std.specs.List.{flat_map};
ghost use Rattle.pcct_table.specs.Subspaces.{IsSubspace, subspace_bytes};
ghost use Rattle.pcct_codec.specs.Tables.{Structures};
ghost use Rattle.pcct_codec.specs.Faults.{FaultIs, Right, structure_size, structures_decision};

use crate::fault::TableFault;
use crate::header::HEADER_BYTES;
use pcc_io::NoMemory;
use pcct_table::{MAX_SUBSPACES, Subspace, Subspaces, put_subspace, size_of_kind, subspace_from};
use std::alloc::Global;

/// The size of the structure at the front, or what is wrong with it.
#[tactic(auto, unfolding(crate::specs::Faults::structure_size))]
fn structure_size(at: u32, rest: &[u8]) -> Result<usize, TableFault>
    requires { 0 < length rest.now }
    ensures { result ≡ structure_size at rest.now }
{
    let kind = rest[0];
    if rest.len() == 1 {
        return Err(TableFault::Overrun { at });
    }
    let found = rest[1];
    let Some(size) = size_of_kind(kind, found) else {
        return Err(TableFault::SubspaceLength { at, kind, found });
    };
    if found != size {
        return Err(TableFault::SubspaceLength { at, kind, found });
    }
    if rest.len() < usize::from(size) {
        return Err(TableFault::Overrun { at });
    }
    Ok(usize::from(size))
}

#[tactic(auto, using(std::proofs::lemmas::List::take_rest))]
fn behind(bytes: &[u8], at: usize) -> &[u8]
    requires { at ≤ length bytes.now }
    ensures { result.now ≡ drop at bytes.now }
{
    &bytes[at..]
}

/// The structures of a table, all its bytes after the header, or the first check that fails on them.
pub(crate) fn structures_from(alloc: Global, bytes: &[u8]) -> Result<Subspaces, TableFault>
    requires header { 48 ≤ length bytes.now }
    requires short { length bytes.now < 2 ^ 32 }
    ensures { MatchResult result
        (λ v. Structures (drop 48 bytes.now) v × (length v ≤ 256) × (structures_decision 256 48 (drop 48 bytes.now) ≡ Right))
        (λ f. FaultIs f (structures_decision 256 48 (drop 48 bytes.now))) }
{
    let mut subspaces = Subspaces::new(alloc);
    let mut at = HEADER_BYTES;
    while at < bytes.len() {
        if subspaces.len() >= MAX_SUBSPACES {
            return Err(TableFault::TooMany { at: at as u32 });
        }
        let rest = behind(bytes, at);
        let size = structure_size(at as u32, rest)?;
        subspaces.push(subspace_from(alloc, &rest[..size])?)?;
        at += size;
    }
    Ok(subspaces)
}

/// Puts the structures' bytes at the end. If memory runs out some of them may have been put.
pub(crate) fn put_structures(out: &mut Vec<u8>, subspaces: &[Subspace]) -> Result<(), NoMemory>
    requires { All IsSubspace subspaces.now }
    ensures { OnOk result (out.new.items ≡ out.old.items ++ flat_map subspace_bytes subspaces.now) }
{
    for subspace in subspaces {
        put_subspace(out, subspace)?;
    }
    Ok(())
}
