//! A worked package with some of its bytes changed.
use crate::changing::changed;
use cpc_package::{
    BindFault, Binding, Cpc, CpcError, CpcKind, Entry, SIX_FIELDS_PACKAGE, Source1, bind, cpc_from,
    cpc_lines, cpc_to, cpus_apart,
};
use pcc_gas::Field;
use pcc_io::NoMemory;
use std::alloc::{AllocError, Global};
use std::test::Fail;

// The package with one entry spelled in other bytes, and with another length.
fn with_entry(
    alloc: Global,
    start: usize,
    end: usize,
    entry: &[u8],
    len: u8,
) -> Result<Vec<u8>, AllocError> {
    let mut bytes = Vec::new(alloc);
    bytes.extend_from_slice(SIX_FIELDS_PACKAGE.get(..start).unwrap_or(b""))?;
    bytes.extend_from_slice(entry)?;
    bytes.extend_from_slice(SIX_FIELDS_PACKAGE.get(end..).unwrap_or(b""))?;
    if let Some(byte) = bytes.get_mut(1) {
        *byte = len;
    }
    Ok(bytes)
}

// What is read of bytes that are few enough.
fn read(alloc: Global, bytes: &[u8]) -> Result<(Cpc, usize), CpcError> {
    let few = bytes.get(..300).unwrap_or(bytes);
    if few.len() > 300 {
        return Err(CpcError::NoMemory);
    }
    cpc_from(alloc, few)
}

// The entry, the place and the kind that are reported.
fn reported(alloc: Global, bytes: &[u8]) -> Option<(u8, u32, CpcKind)> {
    match read(alloc, bytes) {
        Err(CpcError::Fault { entry, at, kind }) => Some((entry, at, kind)),
        _ => None,
    }
}

// Whether the bytes are a package's, all of them, and are written again.
fn written_again(alloc: Global, bytes: &[u8]) -> Result<bool, NoMemory> {
    let Ok((cpc, used)) = read(alloc, bytes) else {
        return Ok(false);
    };
    let written = cpc_to(alloc, &cpc)?;
    Ok(used == bytes.len() && written.as_slice() == bytes)
}

#[test]
fn a_package_is_read_and_written_alike(rt: HostRuntime) -> Result<(), Fail> {
    let alloc = rt.alloc();
    assert!(rt; written_again(alloc, &SIX_FIELDS_PACKAGE)?);
    // The revision in a word.
    assert!(rt; written_again(alloc, &with_entry(alloc, 6, 8, b"\x0b\x03\x00", 0x47)?)?);
    // A checksum, also of an absent register.
    assert!(rt; written_again(alloc, &changed(alloc, &SIX_FIELDS_PACKAGE, &[(58, 0xcf)])?)?);
    assert!(rt; written_again(alloc, &changed(alloc, &SIX_FIELDS_PACKAGE, &[(37, 0xf9)])?)?);
    Ok(())
}

#[test]
fn a_package_has_a_line_for_each_entry(rt: HostRuntime) -> Result<(), Fail> {
    let alloc = rt.alloc();
    let (cpc, _) = read(alloc, &SIX_FIELDS_PACKAGE).ok().ok_or("refused")?;
    assert_eq!(rt; cpc.entries(), 23);
    assert!(rt; cpc.entry(2) == Entry::Integer(300));
    assert!(rt; cpc.entry(6) == Entry::Absent { checksum: 0 });
    let text = cpc_lines(alloc, &cpc)?;
    let lines: [(usize, &[u8]); 5] = [
        (0, b"0 NumEntries integer 23 byte"),
        (2, b"2 HighestPerformance integer 300 word"),
        (6, b"6 GuaranteedPerformance absent checksum 0"),
        (7, b"7 DesiredPerformance register 10:32:0:0:0 checksum 0"),
        (22, b"22 NominalFrequency integer 2000 word"),
    ];
    for (place, line) in lines {
        let found = text.as_slice().split(|byte| *byte == b'\n').nth(place);
        assert!(rt; found == Some(line));
    }
    assert_eq!(rt;
        text.as_slice()
            .iter()
            .filter(|byte| **byte == b'\n')
            .count(),
        23
    );
    Ok(())
}

#[test]
fn the_first_test_that_fails_is_reported(rt: HostRuntime) -> Result<(), Fail> {
    let alloc = rt.alloc();
    // The changes to the package, and what is reported.
    let cases: [(&[(usize, u8)], u8, u32, CpcKind); 10] = [
        (&[(1, 0x47)], 0, 279, CpcKind::Short),
        (&[(3, 22)], 22, 276, CpcKind::BadLength),
        (&[(13, 0x12)], 4, 13, CpcKind::TooDeep),
        (&[(15, 0x09)], 5, 15, CpcKind::UnknownOp),
        (&[(5, 22)], 0, 4, CpcKind::WrongCount),
        (&[(7, 2)], 1, 6, CpcKind::WrongRevision),
        (&[(20, 16)], 6, 17, CpcKind::NotRegister),
        (&[(43, 0x0d), (57, 0)], 7, 38, CpcKind::BadDescriptor),
        (&[(57, 0x78), (58, 1)], 7, 38, CpcKind::BadEndTag),
        (&[(37, 1)], 6, 17, CpcKind::BadChecksum),
    ];
    for (changes, entry, at, kind) in cases {
        let bytes = changed(alloc, &SIX_FIELDS_PACKAGE, changes)?;
        assert_eq!(rt; reported(alloc, &bytes), Some((entry, at, kind)));
    }
    // An integer in the place of a register, an item that is no package, and a package of one entry.
    let bytes = with_entry(alloc, 38, 59, b"\x0a\x05", 0x43)?;
    let bytes = changed(alloc, &bytes, &[(2, 0x10)])?;
    assert_eq!(rt;
        reported(alloc, &bytes),
        Some((7, 38, CpcKind::NotRegister))
    );
    assert_eq!(rt;
        reported(alloc, b"\x0a\x17\x00"),
        Some((0, 0, CpcKind::NotPackage))
    );
    assert_eq!(rt;
        reported(alloc, b"\x12\x43\x00\x00"),
        Some((0, 3, CpcKind::EntryCount))
    );
    Ok(())
}

// What binding the package with some of its bytes changed answers.
fn bound(
    alloc: Global,
    changes: &[(usize, u8)],
    space_len: u32,
) -> Result<Option<Result<Binding, BindFault>>, AllocError> {
    let bytes = changed(alloc, &SIX_FIELDS_PACKAGE, changes)?;
    if space_len > 1000 {
        return Ok(None);
    }
    Ok(
        read(alloc, &bytes)
            .ok()
            .map(|found| bind(&found.0, space_len)),
    )
}

#[test]
fn the_first_reason_not_to_bind_is_reported(rt: HostRuntime) -> Result<(), Fail> {
    let alloc = rt.alloc();
    let scale = BindFault::BadScale {
        lowest: 4,
        nominal: 3,
        highest: 300,
    };
    // The changes to the package, the bytes of the space, and what is reported.
    let cases: [(&[(usize, u8)], u32, BindFault); 8] = [
        (&[], 31, BindFault::FieldOutside { entry: 14 }),
        (&[(91, 6)], 32, BindFault::FieldsOverlap { a: 8, b: 9 }),
        (&[(45, 0), (46, 0)], 32, BindFault::NoDesired),
        (&[(12, 3), (16, 4)], 32, scale),
        (&[(66, 0), (91, 6)], 32, BindFault::NotPcc { entry: 8 }),
        (
            &[(69, 1), (67, 65)],
            32,
            BindFault::TwoSubspaces { entry: 8 },
        ),
        (&[(67, 65), (91, 6)], 32, BindFault::BadWidth { entry: 8 }),
        (
            &[(173, 64), (174, 1)],
            32,
            BindFault::FieldOutside { entry: 14 },
        ),
    ];
    for (changes, space_len, fault) in cases {
        assert!(rt; bound(alloc, changes, space_len)? == Some(Err(fault)));
    }
    Ok(())
}

#[test]
fn a_binding_has_each_entry_by_its_number(rt: HostRuntime) -> Result<(), Fail> {
    let alloc = rt.alloc();
    let Some(Ok(binding)) = bound(alloc, &[], 32)? else {
        return Err(Fail::from("not bound"));
    };
    let counter = Field {
        at_bit: 128,
        width: 64,
    };
    assert_eq!(rt; binding.subspace, 0);
    assert!(rt; binding.sources[0] == Source1::Missing && binding.sources[1] == Source1::Missing);
    assert!(rt;
        binding.sources[2] == Source1::Number(300) && binding.sources[6] == Source1::Missing
    );
    assert!(rt; binding.sources[13] == Source1::At(counter));
    assert!(rt; !cpus_apart(&binding, &binding));
    let elsewhere = Binding {
        subspace: 1,
        ..binding
    };
    assert!(rt; cpus_apart(&binding, &elsewhere));
    Ok(())
}
