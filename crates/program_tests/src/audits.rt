//! `audit`: verdicts, each flaw, the order of all faults, the longest journals, and journals that `step` prints.
use crate::commands::{TABLE, changed, joined, status_of, status_of_long, words_of};
use crate::controllers::{
    HEAD as CPPC_HEAD, OPENED as CPPC_OPENED, READ_AND_SET_JOURNAL, cpu_line, script,
};
use crate::subspaces::TWO_SUBSPACES;
use cpc_package::SIX_FIELDS_PACKAGE;
use pcc_io::{MemSink, MemSource, NoMemory};
use pcc_text::{put, put_hex, put_number};
use pccrun_core::run;
use pcct_codec::ONE_GENERIC_SUBSPACE;
use std::alloc::Global;
use std::test::Fail;

const OPENED: &[u8] = b"clock 0 10\nopen 0 bank\n";

const HEAD: &[u8] = b"journal 0 type 0 bank room 16 turnaround 0 rate 0 errors yes\n";

const SWAP: &[u8] =
    b"record 0 caller 0 code 16 ok post 0 done 10 timely in 00112233445566778899aabbccddeeff out 00000000000000000000000000000000\n";

const FETCH: &[u8] =
    b"record 1 caller 0 code 17 ok post 20 done 30 timely in ffeeddccbbaa99887766554433221100 out 00112233445566778899aabbccddeeff\n";

// The Bank holds an `ff` as its last byte.
const WRONG_FETCH: &[u8] =
    b"record 1 caller 0 code 17 ok post 20 done 30 timely in ffeeddccbbaa99887766554433221100 out 00112233445566778899aabbccddeefe\n";

// The Bank held zeros.
const WRONG_SWAP: &[u8] =
    b"record 0 caller 0 code 16 ok post 0 done 10 timely in 00112233445566778899aabbccddeeff out 00112233445566778899aabbccddeeff\n";

const PENDING: &[u8] = b"pending caller 0 code 17 post 40 in 00000000000000000000000000000000\n";

const END: &[u8] = b"end 0\n";

// What a record of a Bank of zeros ends with.
const NOTHING: &[u8] =
    b" timely in 00000000000000000000000000000000 out 00000000000000000000000000000000\n";

/// The status of `audit`, if it writes this text of these parts, which follow a table of one generic subspace.
fn status(alloc: Global, parts: &[&[u8]], text: &[u8]) -> Result<Option<u8>, NoMemory> {
    let script = joined(alloc, parts)?;
    let input = joined(alloc, &[TABLE, &script])?;
    status_of(alloc, "audit", &input, text)
}

// A pending command has the number after the records, and nothing is asked of its reply.
#[test]
fn verdicts_on_a_bank(rt: HostRuntime) -> Result<(), Fail> {
    let alloc = rt.alloc();
    let rows: [(&[&[u8]], u8, &[u8]); 8] = [
        (&[HEAD, SWAP, FETCH, END], 0, b"yes 0 2\n"),
        (&[HEAD, END], 0, b"yes 0 0\n"),
        (&[HEAD, SWAP, FETCH, PENDING, END], 0, b"yes 0 2\n"),
        (&[HEAD, SWAP, WRONG_FETCH, END], 1, b"no 0 1 legal\n"),
        (&[HEAD, SWAP, PENDING, END], 0, b"yes 0 1\n"),
        (
            &[HEAD, b"pending caller 0 code 17 post 0 in -\n", END],
            1,
            b"no 0 0 size\n",
        ),
        (
            &[
                HEAD,
                SWAP,
                b"pending caller 0 code 17 post 9 in 00000000000000000000000000000000\n",
                END,
            ],
            1,
            b"no 0 1 limits\n",
        ),
        (
            &[
                b"journal 0 type 0 bank room 16 turnaround 1 rate 0 errors yes\n",
                SWAP,
                WRONG_FETCH,
                END,
            ],
            1,
            b"no 0 0 head\n",
        ),
    ];
    for (journal, status_is, text) in rows {
        let journal = joined(alloc, journal)?;
        assert_eq!(rt; status(alloc, &[OPENED, &journal], text)?, Some(status_is));
    }
    Ok(())
}

// A turnaround of 500 microseconds: a post at the earliest reading, and one that is one below it.
#[test]
fn verdicts_on_a_turnaround(rt: HostRuntime) -> Result<(), Fail> {
    let alloc = rt.alloc();
    let table = changed(
        alloc,
        &ONE_GENERIC_SUBSPACE,
        &[(108, 0xf4), (109, 0x01), (9, 0x79)],
    )?;
    let rows: [(&[u8], u8, &[u8]); 2] = [
        (b"1510", 0, b"yes 0 2\n"),
        (b"1509", 1, b"no 0 1 limits\n"),
    ];
    for (post, status_is, text) in rows {
        let mut input = Vec::from_slice(alloc, b"table ")?;
        put_hex(&mut input, &table)?;
        for part in [
            b"\nclock 1000 10\nopen 0 bank\njournal 0 type 0 bank room 16 turnaround 500 rate 0 errors yes\n".as_slice(),
            b"record 0 caller 0 code 17 ok post 1000 done 1010",
            NOTHING,
            b"record 1 caller 0 code 17 ok post ",
            post,
            b" done 1529",
            NOTHING,
            END,
        ] {
            put(&mut input, part)?;
        }
        assert_eq!(rt;
            status_of_long(alloc, "audit", &input, text)?,
            Some(status_is)
        );
    }
    Ok(())
}

// What is wrong in a text, first in its script part and then in its journals.
#[test]
fn refused_audits(rt: HostRuntime) -> Result<(), Fail> {
    let alloc = rt.alloc();
    let rows: [(&[&[u8]], &[u8]); 14] = [
        (&[HEAD, SWAP, FETCH], b"refused line 7 text\n"),
        (&[HEAD, SWAP, FETCH, b"end 0"], b"refused line 7 text\n"),
        (&[HEAD, SWAP, FETCH, b"end 1\n"], b"refused line 7 text\n"),
        (&[HEAD, SWAP, FETCH, END, b"\n"], b"refused line 8 text\n"),
        (&[HEAD, SWAP, FETCH, END, HEAD], b"refused line 8 text\n"),
        (&[HEAD, FETCH, END], b"refused line 5 text\n"),
        (&[HEAD, PENDING, SWAP, END], b"refused line 6 text\n"),
        (
            &[
                HEAD,
                SWAP,
                b"pending caller 4294967296 code 17 post 40 in -\n",
                END,
            ],
            b"refused line 6 text\n",
        ),
        (&[b"journal\n", SWAP, END], b"refused line 4 text\n"),
        (&[b"journals 0\n", HEAD, END], b"refused line 4 unknown\n"),
        (&[], b"refused line 4 text\n"),
        (&[b"open 1 bank\n"], b"refused open 1 no subspace\n"),
        (
            &[b"call 0 0 17 - 1 0\n", HEAD, SWAP],
            b"refused use audit\n",
        ),
        (&[b"pick o\n", HEAD, SWAP], b"refused use audit\n"),
    ];
    for (parts, text) in rows {
        let parts = joined(alloc, parts)?;
        assert_eq!(rt; status(alloc, &[OPENED, &parts], text)?, Some(3));
    }
    Ok(())
}

const EMPTY: &[u8] = b"journal 1 type 0 bank room 16 turnaround 0 rate 0 errors yes\nend 1\n";

const FIRST: &[u8] = b"journal 1 type 0 bank room 16 turnaround 0 rate 0 errors yes\n\
record 0 caller 0 code 17 error post 0 done 10 timely in 00000000000000000000000000000000 out 00000000000000000000000000000000\nend 1\n";

// All journals are read before the first one is judged, and each stands for its `open` line.
#[test]
fn audits_of_two_journals(rt: HostRuntime) -> Result<(), Fail> {
    let alloc = rt.alloc();
    let rows: [(&[&[u8]], u8, &[u8]); 6] = [
        (&[EMPTY, HEAD, SWAP, END], 0, b"yes 1 0\nyes 0 1\n"),
        (&[FIRST, HEAD, SWAP, END], 1, b"no 1 0 legal\n"),
        (&[EMPTY, HEAD, WRONG_SWAP, END], 1, b"no 0 0 legal\n"),
        (&[FIRST, HEAD, FETCH, END], 3, b"refused line 9 text\n"),
        (&[HEAD, SWAP, END, EMPTY], 1, b"no 1 0 head\n"),
        (&[FIRST], 3, b"refused line 8 text\n"),
    ];
    for (journals, status_is, text) in rows {
        let journals = joined(alloc, journals)?;
        let input = joined(
            alloc,
            &[
                TWO_SUBSPACES,
                b"clock 0 10\nopen 1 bank\nopen 0 bank\n",
                &journals,
            ],
        )?;
        assert_eq!(rt;
            status_of_long(alloc, "audit", &input, text)?,
            Some(status_is)
        );
    }
    Ok(())
}

/// The lines of this many fetches from a Bank of zeros.
fn records(alloc: Global, count: u64) -> Result<Vec<u8>, NoMemory> {
    let mut lines = Vec::new(alloc);
    for k in 0..count {
        put(&mut lines, b"record ")?;
        put_number(&mut lines, k)?;
        put(&mut lines, b" caller 0 code 17 ok post 0 done 0")?;
        put(&mut lines, NOTHING)?;
    }
    Ok(lines)
}

// A journal has 4,096 records at most, and a pending command besides.
#[test]
fn the_longest_journals(rt: HostRuntime) -> Result<(), Fail> {
    let alloc = rt.alloc();
    let rows: [(u64, &[u8], u8, &[u8]); 4] = [
        (4_096, END, 0, b"yes 0 4096\n"),
        (
            4_096,
            b"pending caller 0 code 17 post 0 in 00000000000000000000000000000000\nend 0\n",
            0,
            b"yes 0 4096\n",
        ),
        (4_097, END, 3, b"refused line 4101 many\n"),
        (
            4_096,
            b"record 4096\nend 0\n",
            3,
            b"refused line 4101 text\n",
        ),
    ];
    for (count, rest, status_is, text) in rows {
        let records = records(alloc, count)?;
        let mut input = joined(alloc, &[TABLE, OPENED, HEAD])?;
        put(&mut input, &records)?;
        put(&mut input, rest)?;
        assert_eq!(rt;
            status_of_long(alloc, "audit", &input, text)?,
            Some(status_is)
        );
    }
    Ok(())
}

const HELD: &[u8] =
    b"call 0 0 16 01 2 5\ncall 1 0 18 - 2 0\ncall 1 0 18 - 2 0\ncall 0 0 17 - 3 100\n";

const REPLIES: &[u8] =
    b"4 timed out 2\n5 still pending 2\n6 error 00000000000000000000000000000000\n7 timed out 3\n";

// The journal of a late record, an error and a pending command is right as it is printed.
#[test]
fn journals_that_step_prints(rt: HostRuntime) -> Result<(), Fail> {
    let alloc = rt.alloc();
    let words = words_of(alloc, "step")?;
    let opening = joined(alloc, &[TABLE, OPENED])?;
    let mut source = MemSource::new(alloc, &joined(alloc, &[&opening, HELD])?, 100, &[])?;
    let mut sink = MemSink::new(alloc, 2000, 100, &[])?;
    assert_eq!(rt; run(alloc, &words, &mut source, &mut sink).status, 0);
    let journal = sink
        .bytes_held()
        .strip_prefix(REPLIES)
        .ok_or("other replies")?;
    let input = joined(alloc, &[&opening, journal])?;
    assert_eq!(rt; status_of(alloc, "audit", &input, b"yes 0 2\n")?, Some(0));
    Ok(())
}

// One command of a controller whose registers hold 100, 10 and 300. A wish of 400 is out of range, and the thirteenth byte is in no wish.
#[test]
fn verdicts_on_a_controller(rt: HostRuntime) -> Result<(), Fail> {
    let alloc = rt.alloc();
    let cpu = cpu_line(alloc, &SIX_FIELDS_PACKAGE)?;
    let rows: [(&[u8], &[u8], u8, &[u8]); 6] = [
        (b"1", b"960000000a0000002c01000000", 0, b"yes 0 1\n"),
        (b"1", b"960000000a0000002c01000001", 1, b"no 0 0 touched\n"),
        (b"1", b"900100000a0000002c01000000", 1, b"no 0 0 range\n"),
        (b"1", b"900100000a0000002c01000001", 1, b"no 0 0 touched\n"),
        (b"0", b"960000000a0000002c01000000", 1, b"no 0 0 touched\n"),
        (b"0", b"640000000a0000002c01000000", 1, b"no 0 0 legal\n"),
    ];
    for (code, front, status_is, text) in rows {
        let rest = b"00000000000000000000000000000000000000".as_slice();
        let journal = joined(
            alloc,
            &[
                CPPC_HEAD,
                b"record 0 caller 0 code ",
                code,
                b" ok post 0 done 1 timely in ",
                front,
                rest,
                b" out ",
                front,
                rest,
                b"\nend 0\n",
            ],
        )?;
        let input = script(alloc, &[CPPC_OPENED, &cpu, &journal])?;
        assert_eq!(rt;
            status_of_long(alloc, "audit", &input, text)?,
            Some(status_is)
        );
    }
    Ok(())
}

// The journal of two reads and a wish is right as `step` prints it.
#[test]
fn a_journal_of_a_controller(rt: HostRuntime) -> Result<(), Fail> {
    let alloc = rt.alloc();
    let cpu = cpu_line(alloc, &SIX_FIELDS_PACKAGE)?;
    let input = script(alloc, &[CPPC_OPENED, &cpu, READ_AND_SET_JOURNAL])?;
    assert_eq!(rt;
        status_of_long(alloc, "audit", &input, b"yes 0 3\n")?,
        Some(0)
    );
    Ok(())
}
