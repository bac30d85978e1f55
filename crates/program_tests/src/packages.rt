//! Packages of performance control as texts.
use crate::commands::{changed, joined, status_of, status_of_long};
use cpc_package::SIX_FIELDS_PACKAGE;
use pcc_io::NoMemory;
use std::alloc::Global;
use std::test::Fail;

const SIX_FIELDS_TEXT: &[u8] = b"0 NumEntries integer 23 byte\n\
1 Revision integer 3 byte\n\
2 HighestPerformance integer 300 word\n\
3 NominalPerformance integer 200 byte\n\
4 LowestNonlinearPerformance integer 80 byte\n\
5 LowestPerformance integer 10 byte\n\
6 GuaranteedPerformance absent checksum 0\n\
7 DesiredPerformance register 10:32:0:0:0 checksum 0\n\
8 MinimumPerformance register 10:32:0:0:4 checksum 0\n\
9 MaximumPerformance register 10:32:0:0:8 checksum 0\n\
10 PerformanceReductionTolerance absent checksum 0\n\
11 TimeWindow absent checksum 0\n\
12 CounterWraparoundTime integer 0 zero\n\
13 ReferencePerformanceCounter register 10:64:0:0:16 checksum 0\n\
14 DeliveredPerformanceCounter register 10:64:0:0:24 checksum 0\n\
15 PerformanceLimited register 10:32:0:0:12 checksum 0\n\
16 Enable absent checksum 0\n\
17 AutonomousSelectionEnable integer 0 zero\n\
18 AutonomousActivityWindow absent checksum 0\n\
19 EnergyPerformancePreference absent checksum 0\n\
20 ReferencePerformance integer 100 byte\n\
21 LowestFrequency integer 400 word\n\
22 NominalFrequency integer 2000 word\n";

#[test]
fn packages_are_printed(rt: HostRuntime) -> Result<(), Fail> {
    let alloc = rt.alloc();
    let mut followed = Vec::from_slice(alloc, &SIX_FIELDS_PACKAGE)?;
    followed.push(0)?;
    let rows: [(&[u8], u8, &[u8]); 4] = [
        (&SIX_FIELDS_PACKAGE, 0, SIX_FIELDS_TEXT),
        (
            &SIX_FIELDS_PACKAGE[..278],
            3,
            b"refused package short 0 278\n",
        ),
        (&followed, 3, b"refused package trailing 279\n"),
        (b"", 3, b"refused package short 0 0\n"),
    ];
    for (input, status, text) in rows {
        assert_eq!(rt; status_of(alloc, "cpc", input, text)?, Some(status));
    }
    let package = changed(alloc, &SIX_FIELDS_PACKAGE, &[(20, 16)])?;
    assert_eq!(rt;
        status_of(
            alloc,
            "cpc",
            &package,
            b"refused package not register 6 17\n"
        )?,
        Some(3)
    );
    Ok(())
}

// An entry that has to be a register and is an integer, and the revision as a word of two bytes.
#[test]
fn other_entries_of_a_package(rt: HostRuntime) -> Result<(), Fail> {
    let alloc = rt.alloc();
    let six = &SIX_FIELDS_PACKAGE;
    let integer = joined(
        alloc,
        &[b"\x12\x43\x10", &six[3..38], b"\x0a\x05", &six[59..]],
    )?;
    let line = b"refused package not register 7 38\n";
    assert_eq!(rt; status_of_long(alloc, "cpc", &integer, line)?, Some(3));
    let word = joined(
        alloc,
        &[b"\x12\x47\x11", &six[3..6], b"\x0b\x03\x00", &six[8..]],
    )?;
    let text = joined(
        alloc,
        &[
            &SIX_FIELDS_TEXT[..29],
            b"1 Revision integer 3 word\n",
            &SIX_FIELDS_TEXT[55..],
        ],
    )?;
    assert_eq!(rt; status_of_long(alloc, "cpc", &word, &text)?, Some(0));
    Ok(())
}

// The same package as one of revision 2: 21 entries, of which those from 2 on are as they were.
fn of_revision_two(alloc: Global) -> Result<Vec<u8>, NoMemory> {
    let head = b"\x12\x40\x11\x15\x0a\x15\x0a\x02";
    joined(alloc, &[head, &SIX_FIELDS_PACKAGE[8..273]])
}

#[test]
fn packages_of_revision_two_are_printed(rt: HostRuntime) -> Result<(), Fail> {
    let alloc = rt.alloc();
    let package = of_revision_two(alloc)?;
    let text = joined(
        alloc,
        &[
            b"0 NumEntries integer 21 byte\n1 Revision integer 2 byte\n",
            &SIX_FIELDS_TEXT[55..927],
        ],
    )?;
    assert_eq!(rt; status_of_long(alloc, "cpc", &package, &text)?, Some(0));
    let wrong = changed(alloc, &package, &[(7, 3)])?;
    let line = b"refused package wrong revision 1 6\n";
    assert_eq!(rt; status_of_long(alloc, "cpc", &wrong, line)?, Some(3));
    assert_eq!(rt; status_of_long(alloc, "raise", &wrong, line)?, Some(3));
    Ok(())
}

#[test]
fn packages_are_raised(rt: HostRuntime) -> Result<(), Fail> {
    let alloc = rt.alloc();
    let package = of_revision_two(alloc)?;
    let head = b"\x12\x42\x11\x17\x0a\x17\x0a\x03";
    let raised = joined(alloc, &[head, &SIX_FIELDS_PACKAGE[8..273], b"\0\0"])?;
    let followed = joined(alloc, &[&package, b"\0"])?;
    let rows: [(&[u8], u8, &[u8]); 4] = [
        (&package, 0, &raised),
        (&raised, 0, &raised),
        (&SIX_FIELDS_PACKAGE, 0, &SIX_FIELDS_PACKAGE),
        (&followed, 3, b"refused package trailing 273\n"),
    ];
    for (input, status, bytes) in rows {
        assert_eq!(rt; status_of_long(alloc, "raise", input, bytes)?, Some(status));
    }
    Ok(())
}
