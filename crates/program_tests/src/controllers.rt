//! Controllers of processor performance: reads, wishes and their refusals, caps, wishes that are held, and scripts that are refused.
use crate::commands::{changed, joined, status_of_long};
use cpc_package::SIX_FIELDS_PACKAGE;
use pcc_io::NoMemory;
use pcc_text::put_hex;
use pcct_codec::ONE_GENERIC_SUBSPACE;
use std::alloc::Global;
use std::test::Fail;

/// Registers of a desired performance of 100, a minimum of 10 and a maximum of 300.
pub const OPENED: &[u8] = b"open 0 cppc 640000000a0000002c010000\n";

/// A script whose table has one generic subspace with 32 bytes of space.
pub fn script(alloc: Global, rest: &[&[u8]]) -> Result<Vec<u8>, NoMemory> {
    let table = changed(alloc, &ONE_GENERIC_SUBSPACE, &[(64, 0x28), (9, 0x5e)])?;
    let mut text = Vec::from_slice(alloc, b"table ")?;
    put_hex(&mut text, &table)?;
    text.extend_from_slice(b"\nclock 0 1\n")?;
    for part in rest {
        text.extend_from_slice(part)?;
    }
    Ok(text)
}

pub fn cpu_line(alloc: Global, package: &[u8]) -> Result<Vec<u8>, NoMemory> {
    let mut line = Vec::from_slice(alloc, b"cpu ")?;
    put_hex(&mut line, package)?;
    line.push(b'\n')?;
    Ok(line)
}

/// The status of `step` on a controller with one processor, if it writes this text.
fn status(
    alloc: Global,
    package: &[u8],
    lines: &[u8],
    text: &[u8],
) -> Result<Option<u8>, NoMemory> {
    let cpu = cpu_line(alloc, package)?;
    let input = script(alloc, &[OPENED, &cpu, lines])?;
    status_of_long(alloc, "step", &input, text)
}

pub const HEAD: &[u8] = b"journal 0 type 0 cppc room 32 turnaround 0 rate 0 errors yes\n";

const READ_AND_SET: &[u8] = b"read 0 0 3 0\nset 0 0 10 150 300 3 0\nread 0 0 3 0\n";

const FIRST_READ: &[u8] =
    b"5 values 2=300 3=200 4=80 5=10 7=100 8=10 9=300 12=0 13=100 14=100 15=0 17=0 20=100";

const WISH_SET: &[u8] = b"6 ok 960000000a0000002c0100000000000064000000000000006400000000000000\n";

const LAST_READ: &[u8] =
    b"7 values 2=300 3=200 4=80 5=10 7=150 8=10 9=300 12=0 13=200 14=250 15=0 17=0 20=100";

/// What entries 21 and 22 add to a line of values.
const FREQUENCIES: &[u8] = b" 21=400 22=2000";

pub const READ_AND_SET_JOURNAL: &[u8] =
    b"journal 0 type 0 cppc room 32 turnaround 0 rate 0 errors yes\n\
record 0 caller 0 code 0 ok post 0 done 1 timely in 640000000a0000002c0100000000000000000000000000000000000000000000 \
out 640000000a0000002c0100000000000064000000000000006400000000000000\n\
record 1 caller 0 code 1 ok post 2 done 3 timely in 960000000a0000002c0100000000000064000000000000006400000000000000 \
out 960000000a0000002c0100000000000064000000000000006400000000000000\n\
record 2 caller 0 code 0 ok post 4 done 5 timely in 960000000a0000002c0100000000000064000000000000006400000000000000 \
out 960000000a0000002c01000000000000c800000000000000fa00000000000000\n\
end 0\n";

// Each wish but the last one is refused, and makes no record.
const WISHES: &[u8] =
    b"set 0 0 20 15 300 3 0\nset 0 0 - 9 - 3 0\nset 0 0 - 301 - 3 0\nset 0 0 - 4294967296 - 3 0\n\
set 0 0 - 100 99 3 0\nset 0 0 10 10 10 3 0\n";

const WISHES_TEXT: &[u8] =
    b"5 min above desired 20 15\n6 below lowest 9 10\n7 above highest 301 300\n8 too wide 7\n\
9 desired above max 100 99\n10 ok 0a0000000a0000000a0000000000000000000000000000000000000000000000\n\
journal 0 type 0 cppc room 32 turnaround 0 rate 0 errors yes\n\
record 0 caller 0 code 1 ok post 0 done 1 timely in 0a0000000a0000000a0000000000000000000000000000000000000000000000 \
out 0a0000000a0000000a0000000000000000000000000000000000000000000000\n\
end 0\n";

// A cap of 90 begins after the first command.
const CAPPED: &[u8] = b"cap 0 1 90\nread 0 0 3 0\nread 0 0 3 0\n";

const CAPPED_TEXT: &[u8] =
    b"6 values 2=300 3=200 4=80 5=10 7=100 8=10 9=300 12=0 13=100 14=100 15=0 17=0 20=100 21=400 22=2000\n\
7 values 2=300 3=200 4=80 5=10 7=100 8=10 9=300 12=0 13=200 14=190 15=1 17=0 20=100 21=400 22=2000\n\
journal 0 type 0 cppc room 32 turnaround 0 rate 0 errors yes\n\
record 0 caller 0 code 0 ok post 0 done 1 timely in 640000000a0000002c0100000000000000000000000000000000000000000000 \
out 640000000a0000002c0100000000000064000000000000006400000000000000\n\
record 1 caller 0 code 0 ok post 2 done 3 timely in 640000000a0000002c0100000000000064000000000000006400000000000000 \
out 640000000a0000002c01000001000000c800000000000000be00000000000000\n\
end 0\n";

// A wish is held for all of its polls. The next line completes it first, is refused after it, and takes no reading.
const HELD: &[u8] =
    b"set 2 0 - 150 - 3 3\nset 1 0 200 150 - 3 0\nset 1 0 - 301 - 3 0\nread 0 0 1 4\nset 1 0 - 9 - 3 0\n";

const HELD_TEXT: &[u8] =
    b"5 timed out 3\n6 min above desired 200 150\n7 above highest 301 300\n8 timed out 1\n9 still pending 3\n\
journal 0 type 0 cppc room 32 turnaround 0 rate 0 errors yes\n\
record 0 caller 2 code 1 ok post 0 done 1 late in 960000000a0000002c0100000000000000000000000000000000000000000000 \
out 960000000a0000002c0100000000000000000000000000000000000000000000\n\
pending caller 0 code 0 post 2 in 960000000a0000002c0100000000000000000000000000000000000000000000\n\
end 0\n";

/// What `step` writes for a read, a wish and a read, where the last entries add this to a line of values.
fn read_and_set_text(alloc: Global, last: &[u8]) -> Result<Vec<u8>, NoMemory> {
    joined(
        alloc,
        &[
            FIRST_READ,
            last,
            b"\n",
            WISH_SET,
            LAST_READ,
            last,
            b"\n",
            READ_AND_SET_JOURNAL,
        ],
    )
}

// A package of revision 2 has no entries 21 and 22. All else is as with one of revision 3.
#[test]
fn processors_of_revision_two(rt: HostRuntime) -> Result<(), Fail> {
    let alloc = rt.alloc();
    let head = b"\x12\x40\x11\x15\x0a\x15\x0a\x02";
    let package = joined(alloc, &[head, &SIX_FIELDS_PACKAGE[8..273]])?;
    let text = read_and_set_text(alloc, b"")?;
    assert_eq!(rt; status(alloc, &package, READ_AND_SET, &text)?, Some(0));
    Ok(())
}

#[test]
fn reads_and_wishes(rt: HostRuntime) -> Result<(), Fail> {
    let alloc = rt.alloc();
    let read_and_set = read_and_set_text(alloc, FREQUENCIES)?;
    let rows: [(&[u8], &[u8]); 4] = [
        (READ_AND_SET, &read_and_set),
        (WISHES, WISHES_TEXT),
        (CAPPED, CAPPED_TEXT),
        (HELD, HELD_TEXT),
    ];
    for (lines, text) in rows {
        assert_eq!(rt; status(alloc, &SIX_FIELDS_PACKAGE, lines, text)?, Some(0));
    }
    let unlimited = changed(alloc, &SIX_FIELDS_PACKAGE, &[(87, 0), (88, 0), (91, 0)])?;
    let text = joined(alloc, &[b"5 no register 9\n", HEAD, b"end 0\n"])?;
    assert_eq!(rt;
        status(alloc, &unlimited, b"set 0 0 - 100 200 3 0\n", &text)?,
        Some(0)
    );
    Ok(())
}

/// Whether `step` refuses a script of these parts by this line.
fn refuses(alloc: Global, rest: &[&[u8]], line: &[u8]) -> Result<bool, NoMemory> {
    let input = script(alloc, rest)?;
    let status = status_of_long(alloc, "step", &input, line)?;
    Ok(status == Some(3))
}

const CAPS: &[u8] = b"cap 0 5 90\ncap 0 5 80\n";

const LATER_PROCESSOR: &[u8] = b"read 0 0 3 0\nset 0 1 - 100 - 3 0\n";

const LONG_IMAGE: &[u8] =
    b"open 0 cppc 640000000a0000002c0100000000000000000000000000000000000000000000ff\n";

// The checks of processors.
#[test]
fn refused_processors(rt: HostRuntime) -> Result<(), Fail> {
    let alloc = rt.alloc();
    let cpu = cpu_line(alloc, &SIX_FIELDS_PACKAGE)?;
    let short = cpu_line(alloc, &SIX_FIELDS_PACKAGE[..278])?;
    assert!(rt; refuses(alloc, &[OPENED, &cpu, &cpu], b"refused cpu 1 shares 0\n")?);
    assert!(rt;
        refuses(
            alloc,
            &[b"open 0 bank\n", &cpu],
            b"refused cpu 0 not opened\n"
        )?
    );
    assert!(rt; refuses(alloc, &[OPENED, &short], b"refused cpu 0 short 0 278\n")?);
    assert!(rt; refuses(alloc, &[b"open 0 cppc -\n", &cpu], b"refused start 0\n")?);
    Ok(())
}

// The checks of images, caps and actions.
#[test]
fn refused_lines(rt: HostRuntime) -> Result<(), Fail> {
    let alloc = rt.alloc();
    let cpu = cpu_line(alloc, &SIX_FIELDS_PACKAGE)?;
    assert!(rt; refuses(alloc, &[LONG_IMAGE], b"refused open 0 image long\n")?);
    assert!(rt; refuses(alloc, &[OPENED, &cpu, CAPS], b"refused cap 1\n")?);
    assert!(rt; refuses(alloc, &[OPENED, &cpu, b"cap 1 5 90\n"], b"refused cap 0\n")?);
    assert!(rt;
        refuses(
            alloc,
            &[OPENED, &cpu, b"read 0 1 3 0\n"],
            b"refused line 5 no cpu\n"
        )?
    );
    assert!(rt;
        refuses(
            alloc,
            &[OPENED, &cpu, LATER_PROCESSOR],
            b"refused line 6 no cpu\n"
        )?
    );
    assert!(rt;
        refuses(
            alloc,
            &[OPENED, &cpu, b"call 0 0 0 - 3 0\n"],
            b"refused line 5 not bank\n"
        )?
    );
    Ok(())
}

// A controller without processors, and a script that `weave` can't be used with.
#[test]
fn other_uses(rt: HostRuntime) -> Result<(), Fail> {
    let alloc = rt.alloc();
    let bare = script(alloc, &[b"open 0 cppc -\n"])?;
    let text = joined(alloc, &[HEAD, b"end 0\n"])?;
    assert_eq!(rt; status_of_long(alloc, "step", &bare, &text)?, Some(0));
    let cpu = cpu_line(alloc, &SIX_FIELDS_PACKAGE)?;
    let input = script(alloc, &[OPENED, &cpu, READ_AND_SET, b"pick o\n"])?;
    assert_eq!(rt;
        status_of_long(alloc, "weave", &input, b"refused use bank\n")?,
        Some(3)
    );
    Ok(())
}
