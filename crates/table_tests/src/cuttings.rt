//! Random tables that are cut at random places.
ghost use Rattle.std.specs.Prelude.{◌<◌, IfOk};
ghost use Rattle.pcct_codec.specs.Tables.{IsTableValue};

use pcc_io::{MemSource, NoMemory};
use pcct_codec::{NO_SUBSPACES, Piece, TableFault, TableReader, table_bytes, table_from};
use pcct_table::{Table, size_of_kind};
use std::alloc::{AllocError, Global};
use std::test::Fail;

// Numbers without an order that a reader could know, the same in each run.
#[derive(Drop)]
struct Numbers {
    last: u64,
}

impl Numbers {
    fn below(&mut self, limit: usize) -> usize
        requires { 0 < limit }
        ensures { result < limit }
    {
        self.last = self
            .last
            .wrapping_mul(0x5851_f42d_4c95_7f2d)
            .wrapping_add(0x1405_7b7e_f767_814f);
        (self.last >> 33) as usize % limit
    }
}

fn sum_of(bytes: &[u8]) -> u8 {
    let mut sum = 0u8;
    for byte in bytes {
        sum = sum.wrapping_add(*byte);
    }
    sum
}

// Up to four structures of types 0 to 8, with random bytes.
fn random_structures(alloc: Global, numbers: &mut Numbers) -> Result<Vec<u8>, AllocError> {
    let mut bytes = Vec::new(alloc);
    for _ in 0..numbers.below(5) {
        let kind = numbers.below(9) as u8;
        let found = numbers.below(256) as u8;
        let size = size_of_kind(kind, found).unwrap_or(found);
        bytes.push(kind)?;
        bytes.push(size)?;
        for _ in 2..size {
            bytes.push(numbers.below(256) as u8)?;
        }
    }
    Ok(bytes)
}

// A table of such structures. In every other one a byte is changed, and up to three bytes follow.
fn random_bytes(alloc: Global, numbers: &mut Numbers) -> Result<Vec<u8>, AllocError> {
    let structures = random_structures(alloc, numbers)?;
    let mut header = NO_SUBSPACES;
    let [low, high, ..] = (48 + structures.len()).to_le_bytes();
    header[4] = low;
    header[5] = high;
    header[9] = 0;
    header[9] = sum_of(&header)
        .wrapping_add(sum_of(&structures))
        .wrapping_neg();
    let mut bytes = Vec::from_slice(alloc, &header)?;
    bytes.extend_from_slice(&structures)?;
    if numbers.below(2) == 1 {
        let place = numbers.below(bytes.len());
        bytes[place] = numbers.below(256) as u8;
    }
    for _ in 0..numbers.below(4) {
        bytes.push(0x5a)?;
    }
    Ok(bytes)
}

// The table that is read from the bytes in random pieces, and how many bytes are left after it.
fn read_cut(
    alloc: Global,
    bytes: &[u8],
    numbers: &mut Numbers,
) -> Result<(Table, usize), TableFault>
    ensures { IfOk result (λ x. IsTableValue x.0) }
{
    let mut reader = TableReader::new(alloc);
    let mut rest = bytes;
    while !rest.is_empty() {
        let (piece, after) = rest.split_at(1 + numbers.below(rest.len()));
        match reader.push(piece)? {
            Piece::More => rest = after,
            Piece::Whole { used, table } => return Ok((table, rest.len() - used)),
        }
    }
    Err(reader.finish())
}

// The same from a source.
fn read_whole(alloc: Global, bytes: &[u8]) -> Result<(Table, usize), TableFault>
    ensures { IfOk result (λ x. IsTableValue x.0) }
{
    let mut source = MemSource::new(alloc, bytes, 1000, &[])?;
    let table = table_from(alloc, &mut source)?;
    Ok((table, source.bytes_left().len()))
}

// Whether both are read alike, and to a table or a fault.
fn are_alike(
    alloc: Global,
    cut: Result<(Table, usize), TableFault>,
    whole: Result<(Table, usize), TableFault>,
) -> Result<bool, NoMemory>
    requires cut { IfOk cut (λ x. IsTableValue x.0) }
    requires whole { IfOk whole (λ x. IsTableValue x.0) }
{
    match (cut, whole) {
        (Ok((table, left)), Ok((same, still))) => {
            Ok(left == still && table_bytes(alloc, &table)? == table_bytes(alloc, &same)?)
        }
        (Err(fault), Err(same)) => Ok(fault == same),
        _ => Ok(false),
    }
}

#[test]
fn every_cutting_is_read_as_the_whole(rt: HostRuntime) -> Result<(), Fail> {
    let alloc = rt.alloc();
    let mut numbers = Numbers { last: 1 };
    let (mut tables, mut faults) = (false, false);
    for _ in 0..1000 {
        let bytes = random_bytes(alloc, &mut numbers)?;
        let cut = read_cut(alloc, &bytes, &mut numbers);
        let whole = read_whole(alloc, &bytes);
        tables |= whole.is_ok();
        faults |= whole.is_err();
        assert!(rt; are_alike(alloc, cut, whole)?);
    }
    assert!(rt; tables && faults);
    Ok(())
}
