//! Worked tables and what is reported of wrong ones.
use crate::changing::{changed, repeated};
use pcc_io::{MemSink, MemSource, NoMemory};
use pcct_codec::{
    NO_SUBSPACES, ONE_GENERIC_SUBSPACE, TableFault, TableWriteFault, table_bytes, table_from,
    table_of_bytes, table_to,
};
use pcct_table::Subspace;
use std::alloc::{AllocError, Global};
use std::test::Fail;

// What is reported of the bytes, read in pieces of 7, and how many of them are left.
fn told(alloc: Global, bytes: &[u8]) -> Result<(Option<TableFault>, usize), NoMemory> {
    let mut source = MemSource::new(alloc, bytes, 7, &[])?;
    let fault = table_from(alloc, &mut source).err();
    Ok((fault, source.bytes_left().len()))
}

// Whether the bytes are a table's and are written again.
fn written_again(alloc: Global, bytes: &[u8]) -> Result<bool, NoMemory> {
    let mut source = MemSource::new(alloc, bytes, 1000, &[])?;
    let mut sink = MemSink::new(alloc, bytes.len(), 1000, &[])?;
    let Ok(table) = table_from(alloc, &mut source) else {
        return Ok(false);
    };
    let written = table_to(alloc, &table, &mut sink);
    Ok(written.is_ok() && sink.bytes_held() == bytes)
}

// This many copies of the worked structure after a header that states this length.
fn structures(alloc: Global, count: usize, len: u16, checksum: u8) -> Result<Vec<u8>, AllocError> {
    let [low, high] = len.to_le_bytes();
    let header = changed(alloc, &NO_SUBSPACES, &[(4, low), (5, high), (9, checksum)])?;
    repeated(alloc, &header, &ONE_GENERIC_SUBSPACE[48..], count, b"")
}

#[test]
fn right_tables_are_read_and_written_alike(rt: HostRuntime) -> Result<(), Fail> {
    let alloc = rt.alloc();
    assert!(rt; written_again(alloc, &NO_SUBSPACES)?);
    assert!(rt; written_again(alloc, &ONE_GENERIC_SUBSPACE)?);
    // Reserved bytes are kept.
    let reserved = changed(alloc, &ONE_GENERIC_SUBSPACE, &[(50, 0x07), (9, 0x67)])?;
    assert!(rt; written_again(alloc, &reserved)?);
    let full = structures(alloc, 256, 15_920, 0x1c)?;
    assert_eq!(rt; full.len(), 15_920);
    assert!(rt; written_again(alloc, &full)?);
    Ok(())
}

#[test]
fn a_table_says_its_fields(rt: HostRuntime) -> Result<(), Fail> {
    let alloc = rt.alloc();
    let mut source = MemSource::new(alloc, &ONE_GENERIC_SUBSPACE, 7, &[])?;
    let table = table_from(alloc, &mut source).ok().ok_or("refused")?;
    assert!(rt;
        table.revision == 2 && table.oem_id == *b"PCCRUN" && table.oem_table == *b"EXAMPLE1"
    );
    assert!(rt;
        table.oem_revision == 1 && table.creator == *b"TEST" && table.creator_revision == 1
    );
    assert!(rt; table.flags == 0 && table.reserved == [0; 8] && table.subspaces.len() == 1);
    let Subspace::Generic(generic) = table.subspaces.at(0) else {
        return Err(Fail::from("another type"));
    };
    assert!(rt; generic.base == 0x8000_0000 && generic.length == 24 && generic.latency == 1000);
    assert!(rt;
        generic.preserve == 0xffff_fffe
            && generic.write == 1
            && generic.doorbell.address == 0xfed0_0000
    );
    Ok(())
}

#[test]
fn a_part_of_a_table_is_short(rt: HostRuntime) -> Result<(), Fail> {
    let alloc = rt.alloc();
    for at in 0..48u32 {
        let part = &ONE_GENERIC_SUBSPACE[..at as usize];
        assert_eq!(rt; told(alloc, part)?, (Some(TableFault::Short { at }), 0));
    }
    let part = &ONE_GENERIC_SUBSPACE[..100];
    assert_eq!(rt;
        told(alloc, part)?,
        (Some(TableFault::Short { at: 100 }), 0)
    );
    Ok(())
}

#[test]
fn the_first_check_that_fails_is_told(rt: HostRuntime) -> Result<(), Fail> {
    let alloc = rt.alloc();
    let size = TableFault::SubspaceLength {
        at: 48,
        kind: 2,
        found: 62,
    };
    let no_size = TableFault::SubspaceLength {
        at: 48,
        kind: 6,
        found: 1,
    };
    // The changes to a table with one generic subspace, what is reported, and how many of its 110 bytes are left.
    let cases: [(&[(usize, u8)], TableFault, usize); 14] = [
        (&[(0, 0x51)], TableFault::Signature, 62),
        (&[(4, 47)], TableFault::LengthOutside { len: 47 }, 62),
        (
            &[(4, 0x31), (5, 0xff)],
            TableFault::LengthOutside { len: 65_329 },
            62,
        ),
        (&[(8, 3)], TableFault::Revision { found: 3 }, 62),
        (&[(4, 0x6f), (8, 0)], TableFault::Revision { found: 0 }, 62),
        (&[(4, 0x6f)], TableFault::Short { at: 110 }, 0),
        (&[(48, 2), (9, 0x6c)], size, 0),
        (&[(48, 6), (49, 1)], no_size, 0),
        (&[(48, 6)], TableFault::Checksum { sum: 6 }, 0),
        (&[(4, 50), (48, 2)], size, 60),
        (&[(4, 109)], TableFault::Overrun { at: 48 }, 1),
        (&[(4, 49)], TableFault::Overrun { at: 48 }, 61),
        (&[(50, 7)], TableFault::Checksum { sum: 7 }, 0),
        (&[(9, 0x6f)], TableFault::Checksum { sum: 1 }, 0),
    ];
    for (changes, fault, left) in cases {
        let bytes = changed(alloc, &ONE_GENERIC_SUBSPACE, changes)?;
        assert_eq!(rt; told(alloc, &bytes)?, (Some(fault), left));
    }
    Ok(())
}

#[test]
fn a_structure_after_256_is_too_many(rt: HostRuntime) -> Result<(), Fail> {
    let alloc = rt.alloc();
    let many = TableFault::TooMany { at: 15_920 };
    let bytes = structures(alloc, 257, 15_982, 0)?;
    assert_eq!(rt; told(alloc, &bytes)?, (Some(many), 0));
    let bytes = structures(alloc, 257, 15_921, 0)?;
    assert_eq!(rt; told(alloc, &bytes)?, (Some(many), 61));
    Ok(())
}

#[test]
fn bytes_after_a_table_are_left(rt: HostRuntime) -> Result<(), Fail> {
    let alloc = rt.alloc();
    let mut bytes = Vec::from_slice(alloc, &ONE_GENERIC_SUBSPACE)?;
    bytes.push(0)?;
    assert_eq!(rt; told(alloc, &bytes)?, (None, 1));
    Ok(())
}

#[test]
fn bytes_are_a_table_or_none(rt: HostRuntime) -> Result<(), Fail> {
    let alloc = rt.alloc();
    let mut bytes = Vec::from_slice(alloc, &ONE_GENERIC_SUBSPACE)?;
    bytes.push(0)?;
    let (table, len) = table_of_bytes(alloc, &bytes).ok().ok_or("refused")?;
    assert_eq!(rt; len, 110);
    assert_eq!(rt; table.subspaces.len(), 1);
    let written = table_bytes(alloc, &table).ok().ok_or("no memory")?;
    assert!(rt; written.as_slice() == ONE_GENERIC_SUBSPACE.as_slice());

    let short = |at| Some(TableFault::Short { at });
    assert_eq!(rt; table_of_bytes(alloc, &bytes[..47]).err(), short(47));
    assert_eq!(rt; table_of_bytes(alloc, &bytes[..109]).err(), short(109));
    bytes[50] = 7;
    assert_eq!(rt;
        table_of_bytes(alloc, &bytes).err(),
        Some(TableFault::Checksum { sum: 7 })
    );
    Ok(())
}

#[test]
fn a_source_or_a_sink_that_fails_is_told(rt: HostRuntime) -> Result<(), Fail> {
    let alloc = rt.alloc();
    let mut failing = MemSource::new(alloc, &ONE_GENERIC_SUBSPACE, 20, &[2])?;
    assert_eq!(rt;
        table_from(alloc, &mut failing).err(),
        Some(TableFault::ReadFault)
    );
    assert_eq!(rt; failing.bytes_left().len(), 90);

    let mut source = MemSource::new(alloc, &ONE_GENERIC_SUBSPACE, 200, &[])?;
    let mut sink = MemSink::new(alloc, 110, 10, &[2])?;
    let table = table_from(alloc, &mut source).ok().ok_or("refused")?;
    assert_eq!(rt;
        table_to(alloc, &table, &mut sink),
        Err(TableWriteFault::WriteFault)
    );
    assert_eq!(rt; sink.bytes_held(), &ONE_GENERIC_SUBSPACE[..10]);
    Ok(())
}
