//! Each type's structure of bytes that count their places, and the list.
ghost use Rattle.std.specs.Prelude.{◌≡◌, ◌≤◌, IfOk, Some, length, slice_index};
ghost use Rattle.pcct_table.specs.Rows.{size_of_kind};
ghost use Rattle.pcct_table.specs.Subspaces.{IsSubspace};

use pcc_bytes::are_bytes;
use pcc_gas::Gas;
use pcc_io::NoMemory;
use pcct_table::{
    Kind, Row, Subspace, Subspaces, put_subspace, rows_of_kind, size_of_kind, subspace_from,
};
use std::alloc::Global;
use std::test::Fail;

// Gives each byte its own place.
fn count(bytes: &mut [u8])
    requires { length bytes.old ≤ 255 }
{
    for place in 0..bytes.len() {
        bytes[place] = place as u8;
    }
}

// The type, the size, and bytes that count their places.
fn counted<const N: usize>(kind: u8) -> [u8; N]
    requires few { N ≤ 255 }
    requires head { 2 ≤ N }
    ensures kind { slice_index result 0 ≡ kind }
    ensures size { slice_index result 1 ≡ N }
{
    let mut bytes = [0; N];
    count(&mut bytes);
    bytes[0] = kind;
    bytes[1] = N as u8;
    bytes
}

// An address of such bytes.
fn gas_of(place: u8, address: u64) -> Gas
    requires { place ≤ 100 }
{
    Gas {
        space: place,
        width: place + 1,
        offset: place + 2,
        access: place + 3,
        address,
    }
}

// What a structure says: its type, base, length, rate, turnaround and doorbell.
fn told(subspace: &Subspace) -> (u8, u64, u64, u32, u32, Gas) {
    (
        subspace.kind(),
        subspace.base(),
        subspace.memory_len(),
        subspace.rate(),
        subspace.turnaround(),
        subspace.doorbell(),
    )
}

// The structure that the bytes spell.
#[tactic(auto, using(crate::proofs::Spelled::is_subspace))]
fn read(alloc: Global, bytes: &[u8]) -> Result<Subspace, NoMemory>
    requires size { size_of_kind (slice_index bytes.now 0) (length bytes.now) ≡ Some (length bytes.now) }
    requires told { slice_index bytes.now 1 ≡ length bytes.now }
    ensures { IfOk result IsSubspace }
{
    are_bytes(bytes);
    subspace_from(alloc, bytes)
}

// Whether it is written as these bytes, and has as many as its type and its second byte say.
fn spelled_again(alloc: Global, subspace: &Subspace, bytes: &[u8]) -> Result<bool, NoMemory>
    requires right { IsSubspace subspace.now }
    requires head { 2 ≤ length bytes.now }
{
    let mut out = Vec::new(alloc);
    put_subspace(&mut out, subspace)?;
    let size = size_of_kind(subspace.kind(), bytes[1]).map(usize::from);
    Ok(out.as_slice() == bytes && size == Some(out.len()))
}

#[test]
fn types_0_to_2_are_read_and_written(rt: HostRuntime) -> Result<(), Fail> {
    let memory = (0x0f0e0d0c0b0a0908, 0x1716151413121110, 0x3b3a3938, 0x3d3c);
    let (base, len, rate, turnaround) = memory;
    let doorbell = gas_of(0x18, 0x232221201f1e1d1c);
    let bytes = counted::<62>(0);
    let generic = read(rt.alloc(), &bytes)?;
    assert_eq!(rt; told(&generic), (0, base, len, rate, turnaround, doorbell));
    assert!(rt; spelled_again(rt.alloc(), &generic, &bytes)?);

    let bytes = counted::<62>(1);
    let reduced = read(rt.alloc(), &bytes)?;
    assert_eq!(rt; told(&reduced), (1, base, len, rate, turnaround, doorbell));
    assert!(rt; spelled_again(rt.alloc(), &reduced, &bytes)?);

    let bytes = counted::<90>(2);
    let reduced = read(rt.alloc(), &bytes)?;
    assert_eq!(rt; told(&reduced), (2, base, len, rate, turnaround, doorbell));
    assert!(rt; spelled_again(rt.alloc(), &reduced, &bytes)?);
    Ok(())
}

#[test]
fn types_3_to_5_are_read_and_written(rt: HostRuntime) -> Result<(), Fail> {
    let doorbell = gas_of(0x14, 0x1f1e1d1c1b1a1918);
    let (base, len, rate, turnaround) = (0x0f0e0d0c0b0a0908, 0x13121110, 0x37363534, 0x3b3a3938);
    let bytes = counted::<164>(3);
    let extended = read(rt.alloc(), &bytes)?;
    assert_eq!(rt; told(&extended), (3, base, len, rate, turnaround, doorbell));
    assert!(rt; spelled_again(rt.alloc(), &extended, &bytes)?);

    let bytes = counted::<164>(4);
    let extended = read(rt.alloc(), &bytes)?;
    assert_eq!(rt; told(&extended), (4, base, len, rate, turnaround, doorbell));
    assert!(rt; spelled_again(rt.alloc(), &extended, &bytes)?);

    let bytes = counted::<96>(5);
    let register = read(rt.alloc(), &bytes)?;
    let (base, len) = (0x0b0a090807060504, 0x131211100f0e0d0c);
    assert_eq!(rt; told(&register), (5, base, len, 0, 0x5f5e5d5c, doorbell));
    assert!(rt; spelled_again(rt.alloc(), &register, &bytes)?);
    Ok(())
}

#[test]
fn types_of_later_releases_are_kept(rt: HostRuntime) -> Result<(), Fail> {
    let no_register = Gas {
        space: 0,
        width: 0,
        offset: 0,
        access: 0,
        address: 0,
    };
    let bytes = counted::<5>(6);
    let later = read(rt.alloc(), &bytes)?;
    assert_eq!(rt; told(&later), (6, 0, 0, 0, 0, no_register));
    assert!(rt; spelled_again(rt.alloc(), &later, &bytes)?);
    let Subspace::Other(other) = later else {
        return Err("a known type")?;
    };
    assert_eq!(rt; other.bytes.as_slice(), [2, 3, 4].as_slice());

    let bytes = counted::<2>(255);
    let empty = read(rt.alloc(), &bytes)?;
    assert_eq!(rt; empty.kind(), 255);
    assert!(rt; spelled_again(rt.alloc(), &empty, &bytes)?);
    assert_eq!(rt; size_of_kind(6, 1), None);
    Ok(())
}

#[test]
fn a_list_of_structures_grows_at_the_end(rt: HostRuntime) -> Result<(), Fail> {
    let first = read(rt.alloc(), &counted::<62>(0))?;
    let second = read(rt.alloc(), &counted::<96>(5))?;
    let mut subspaces = Subspaces::new(rt.alloc());
    subspaces.push(first)?;
    subspaces.push(second)?;
    assert_eq!(rt; subspaces.len(), 2);
    assert_eq!(rt; subspaces.at(1).kind(), 5);
    let [first, second] = subspaces.as_slice() else {
        return Err("another number")?;
    };
    assert_eq!(rt; (first.kind(), second.kind()), (0, 5));
    Ok(())
}

#[test]
fn rows_name_the_places(rt: HostRuntime) {
    let rows = rows_of_kind(4);
    assert_eq!(rt; rows.len(), 22);
    let Row(name, at, kind) = rows[21];
    assert!(rt; name == b"error_mask".as_slice() && at == 156 && kind == Kind::Qword);
    assert!(rt; rows_of_kind(6).is_empty());
}
