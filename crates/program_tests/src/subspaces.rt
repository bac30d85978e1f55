//! What a script opens: structures of each type, several subspaces, and none that can be opened.
use crate::commands::{TABLE, changed, joined, status_of, status_of_long};
use pcc_io::NoMemory;
use pcc_text::put_hex;
use pcct_codec::ONE_GENERIC_SUBSPACE;
use std::alloc::Global;
use std::test::Fail;

#[test]
fn the_table_of_a_script_is_tested_after_its_lines(rt: HostRuntime) -> Result<(), Fail> {
    let alloc = rt.alloc();
    let rows: [(&[u8], &[u8]); 3] = [
        (
            b"table 50\nclock 0 10\nopen 0 bank\n",
            b"refused table short 1\n",
        ),
        (
            b"table 50\nclock 0 10\nopen 1 bank\n",
            b"refused table short 1\n",
        ),
        (
            b"table 50434354300000000\
            25a50434352554e4558414d504c45310100000054455354010000000000000000000000000000\
            00\nclock 0 10\nopen 0 bank\n",
            b"refused open 0 no subspace\n",
        ),
    ];
    for (input, text) in rows {
        assert_eq!(rt; status_of(alloc, "step", input, text)?, Some(3));
    }
    Ok(())
}

// One structure of type 5, with an error register.
const HARDWARE_REGISTERS: &[u8] =
    b"5043435490000000025350434352554e4558414d504c4531010000005445535401000000000000000000000000000000056000000000008000000000\
100000000000000001080001b200000000000000fe000000000000000100000000000000002000030000d1fe00000000010000000000000000200003\
0010d1fe0000000002000000000000000000000000000000";

// One structure of type 3, whose update register is the check register and keeps each bit.
const NEVER_CLEARS: &[u8] =
    b"50434354d400000002b650434352554e4558414d504c453101000000544553540100000000000000000000000000000003a400000000000000000080\
0000000020000000002000030000d0fe00000000feffffff000000000100000000000000e80300000000000000000000000000000000000000000000\
000000000000000000000000000000000000000000000000002000030000d1fe000000000100000000000000002000030000d1fe00000000ffffffff\
0000000000000000000000000000000000000000000000000000000000000000";

// The same with an update register that clears completion. It has no error register.
const NO_ERRORS: &[u8] =
    b"50434354d400000002b750434352554e4558414d504c453101000000544553540100000000000000000000000000000003a400000000000000000080\
0000000020000000002000030000d0fe00000000feffffff000000000100000000000000e80300000000000000000000000000000000000000000000\
000000000000000000000000000000000000000000000000002000030000d1fe000000000100000000000000002000030000d1fe00000000feffffff\
0000000000000000000000000000000000000000000000000000000000000000";

const WOVEN: &[u8] =
    b"o store 8 0000001250434300\no store 9 0000000000000001\no load 1 0000000000000000\no store 1 0000000000000001\n\
o load 0 0000000000000001\no store 0 0000000000000000\no store 2 0000000000000001 -> posted\n\
p swap 2 0000000000000000 0000000000000001\np load 8 0000001250434300\np load 9 0000000000000001\n\
p store 3 0000000000000002\np load 0 0000000000000000\n\
p store 0 0000000000000001 -> served\no load 0 0000000000000001\no load 3 0000000000000002\n\
o load 8 0000001250434300\no load 9 0000000000000001 -> done error\n\
journal 0 type 5 bank room 8 turnaround 0 rate 0 errors yes\n\
record 0 caller 0 code 18 error post 0 done 10 timely in 0100000000000000 out 0100000000000000\nend 0\n";

#[test]
fn subspaces_of_the_types_three_to_five(rt: HostRuntime) -> Result<(), Fail> {
    let alloc = rt.alloc();
    let call: &[u8] = b"\nclock 0 10\nopen 0 bank\ncall 0 0 18 01 1 0\n";
    let rows: [(&str, &[u8], &[u8], &[u8], u8); 4] = [
        (
            "step",
            HARDWARE_REGISTERS,
            b"",
            b"4 error 0100000000000000\njournal 0 type 5 bank room 8 turnaround 0 rate 0 errors yes\n\
record 0 caller 0 code 18 error post 0 done 10 timely in 0100000000000000 out 0100000000000000\nend 0\n",
            0,
        ),
        (
            "weave",
            HARDWARE_REGISTERS,
            b"pick oooooooppppppoooo\n",
            WOVEN,
            0,
        ),
        (
            "step",
            NEVER_CLEARS,
            b"",
            b"refused open 0 never clears\n",
            3,
        ),
        (
            "step",
            NO_ERRORS,
            b"",
            b"4 ok 01000000000000000000000000000000\njournal 0 type 3 bank room 16 turnaround 0 rate 0 errors no\n\
record 0 caller 0 code 18 ok post 0 done 10 timely in 01000000000000000000000000000000 out 01000000000000000000000000000000\n\
end 0\n",
            0,
        ),
    ];
    for (words, table, picks, text, status) in rows {
        let mut script = Vec::from_slice(alloc, b"table ")?;
        for part in [table, call, picks] {
            script.extend_from_slice(part)?;
        }
        assert_eq!(rt; status_of(alloc, words, &script, text)?, Some(status));
    }
    Ok(())
}

// One structure of type 4, whose update register is the check register.
const PLATFORM_ASKS: &[u8] =
    b"50434354d4000000029550434352554e4558414d504c453101000000544553540100000000000000000000000000000004a400000000000000000080\
000000001800000000000000000000000000000000000000000000000000000000000000000000000000000000000000000000000000000000000000\
000000000000000000000000000000000000000000000000002000030000d1fe000000000100000000000000002000030000d1fe00000000feffffff\
0000000001000000000000000000000000000000000000000000000000000000";

// The same with an update register that never sets completion.
const NEVER_SETS: &[u8] =
    b"50434354d4000000029650434352554e4558414d504c453101000000544553540100000000000000000000000000000004a400000000000000000080\
000000001800000000000000000000000000000000000000000000000000000000000000000000000000000000000000000000000000000000000000\
000000000000000000000000000000000000000000000000002000030000d1fe000000000100000000000000002000030000d1fe00000000feffffff\
0000000000000000000000000000000000000000000000000000000000000000";

// The platform asks for a swap, and the operating system answers.
const ANSWERED: &[u8] =
    b"p store 9 0000001000000005\np store 10 0000000000000001\np load 0 0000000000000001\n\
p store 0 0000000000000000\np store 2 0000000000000001 -> posted\no swap 2 0000000000000000 0000000000000001\n\
o load 8 0000000050434300\no load 9 0000001000000005\no load 10 0000000000000001\no store 10 0000000000000000\n\
o load 0 0000000000000000\no store 0 0000000000000001 -> served\np load 0 0000000000000001\n\
p load 8 0000000050434300\np load 9 0000001000000005\np load 10 0000000000000000 -> done ok\n\
journal 0 type 4 bank room 8 turnaround 0 rate 0 errors no\n\
record 0 caller 0 code 16 ok post 0 done 10 timely in 0100000000000000 out 0000000000000000\nend 0\n";

#[test]
fn the_platform_asks_on_type_four(rt: HostRuntime) -> Result<(), Fail> {
    let alloc = rt.alloc();
    let rows: [(&str, &[u8], &[u8], &[u8], u8); 4] = [
        (
            "weave",
            PLATFORM_ASKS,
            b"\nclock 0 10\nopen 0 bank\ncall 0 0 16 01 3 0\npick pppppooooooopppp\n",
            ANSWERED,
            0,
        ),
        (
            "step",
            PLATFORM_ASKS,
            b"\nclock 0 10\nopen 0 bank\ncall 0 0 16 01 2 2\ncall 1 0 17 - 1 0\n",
            b"4 timed out 2\n5 ok 0100000000000000\njournal 0 type 4 bank room 8 turnaround 0 rate 0 errors no\n\
record 0 caller 0 code 16 ok post 0 done 10 late in 0100000000000000 out 0000000000000000\n\
record 1 caller 1 code 17 ok post 20 done 30 timely in 0000000000000000 out 0100000000000000\nend 0\n",
            0,
        ),
        (
            "step",
            NEVER_SETS,
            b"\nclock 0 10\nopen 0 bank\n",
            b"refused open 0 never sets\n",
            3,
        ),
        (
            "step",
            PLATFORM_ASKS,
            b"\nclock 0 10\nopen 0 cppc -\n",
            b"refused open 0 wrong role\n",
            3,
        ),
    ];
    for (words, table, lines, text, status) in rows {
        let mut script = Vec::from_slice(alloc, b"table ")?;
        for part in [table, lines] {
            script.extend_from_slice(part)?;
        }
        assert_eq!(rt; status_of(alloc, words, &script, text)?, Some(status));
    }
    Ok(())
}

// Two structures of type 0 whose memories lie apart.
pub const TWO_SUBSPACES: &[u8] =
    b"table 50434354ac000000027250434352554e4558414d504c4531010000005445535401000000000000000000000000000000003e00000000000000000080\
000000001800000000000000002000030000d0fe00000000feffffff000000000100000000000000e8030000000000000000003e0000000000000010\
0080000000001800000000000000002000030000d0fe00000000feffffff000000000100000000000000e8030000000000000000\n";

const BOTH: &[u8] =
    b"5 ok 00000000000000000000000000000000\n6 ok 00000000000000000000000000000000\n\
journal 1 type 0 bank room 16 turnaround 0 rate 0 errors yes\n\
record 0 caller 0 code 17 ok post 0 done 10 timely in 00000000000000000000000000000000 out 00000000000000000000000000000000\n\
end 1\njournal 0 type 0 bank room 16 turnaround 0 rate 0 errors yes\n\
record 0 caller 0 code 17 ok post 0 done 10 timely in 00000000000000000000000000000000 out 00000000000000000000000000000000\n\
end 0\n";

// A wait moves both clocks, and each clock counts its own readings.
const WAITED: &[u8] =
    b"5 ok 00000000000000000000000000000000\n7 ok 00000000000000000000000000000000\n\
journal 0 type 0 bank room 16 turnaround 0 rate 0 errors yes\n\
record 0 caller 0 code 17 ok post 0 done 10 timely in 00000000000000000000000000000000 out 00000000000000000000000000000000\nend 0\n\
journal 1 type 0 bank room 16 turnaround 0 rate 0 errors yes\n\
record 0 caller 0 code 17 ok post 100 done 110 timely in 00000000000000000000000000000000 out 00000000000000000000000000000000\nend 1\n";

#[test]
fn several_subspaces(rt: HostRuntime) -> Result<(), Fail> {
    let alloc = rt.alloc();
    let rows: [(&str, &[u8], u8, &[u8]); 6] = [
        (
            "step",
            b"open 1 bank\nopen 0 bank\ncall 0 0 17 - 1 0\ncall 0 1 17 - 1 0\n",
            0,
            BOTH,
        ),
        (
            "step",
            b"open 0 bank\nopen 1 bank\ncall 0 0 17 - 1 0\nwait 100\ncall 0 1 17 - 1 0\n",
            0,
            WAITED,
        ),
        (
            "step",
            b"open 1 bank\nopen 1 bank\n",
            3,
            b"refused open 1 opened twice\n",
        ),
        ("step", b"open 0 bank\npick o\n", 3, b"refused use pick\n"),
        (
            "weave",
            b"open 0 bank\nopen 1 bank\npick o\n",
            3,
            b"refused use many\n",
        ),
        (
            "weave",
            b"open 0 bank\nwait 1\npick o\n",
            3,
            b"refused use wait\n",
        ),
    ];
    for (word, rest, status, text) in rows {
        let mut script = Vec::from_slice(alloc, TWO_SUBSPACES)?;
        script.extend_from_slice(b"clock 0 10\n")?;
        script.extend_from_slice(rest)?;
        assert_eq!(rt; status_of(alloc, word, &script, text)?, Some(status));
    }
    Ok(())
}

// One structure of type 3 without an error register, and two of type 0 whose memories meet.
const EXTENDED: &[u8] =
    b"table 50434354d400000002b750434352554e4558414d504c453101000000544553540100000000000000000000000000000003a400000000000000000080\
0000000020000000002000030000d0fe00000000feffffff000000000100000000000000e80300000000000000000000000000000000000000000000\
000000000000000000000000000000000000000000000000002000030000d1fe000000000100000000000000002000030000d1fe00000000feffffff\
0000000000000000000000000000000000000000000000000000000000000000\n";

const MEETING: &[u8] =
    b"table 50434354ac000000027250434352554e4558414d504c4531010000005445535401000000000000000000000000000000003e00000000000000000080\
000000001800000000000000002000030000d0fe00000000feffffff000000000100000000000000e8030000000000000000003e00000000000010000080\
000000001800000000000000002000030000d0fe00000000feffffff000000000100000000000000e8030000000000000000\n";

#[test]
fn scripts_without_calls(rt: HostRuntime) -> Result<(), Fail> {
    let alloc = rt.alloc();
    let rows: [(&[u8], &[u8], u8, &[u8]); 4] = [
        (b"", b"", 3, b"refused line 1 missing\n"),
        (
            EXTENDED,
            b"clock 0 10\nopen 0 bank\n",
            0,
            b"journal 0 type 3 bank room 16 turnaround 0 rate 0 errors no\nend 0\n",
        ),
        (
            MEETING,
            b"clock 0 10\nopen 0 bank\nopen 1 bank\n",
            3,
            b"refused overlap 0 1\n",
        ),
        (
            TABLE,
            b"clock 0 10\nopen 0 bank\nopen 0 bank\n",
            3,
            b"refused open 0 opened twice\n",
        ),
    ];
    for (table, lines, status, text) in rows {
        let input = joined(alloc, &[table, lines])?;
        assert_eq!(rt; status_of_long(alloc, "step", &input, text)?, Some(status));
    }
    Ok(())
}

/// A script with this table.
fn script_with(alloc: Global, table: &[u8], lines: &[u8]) -> Result<Vec<u8>, NoMemory> {
    let mut text = Vec::from_slice(alloc, b"table ")?;
    put_hex(&mut text, table)?;
    text.extend_from_slice(lines)?;
    Ok(text)
}

const BEHIND_UNKNOWN_TEXT: &[u8] = b"4 error 00000000000000000000000000000000\n\
journal 1 type 0 bank room 16 turnaround 0 rate 0 errors yes\n\
record 0 caller 0 code 0 error post 0 done 10 timely in 00000000000000000000000000000000 out 00000000000000000000000000000000\n\
end 1\n";

// A structure of a type of a later release takes an ID, and can't be opened.
#[test]
fn structures_of_unknown_types_are_counted(rt: HostRuntime) -> Result<(), Fail> {
    let alloc = rt.alloc();
    let unknown = changed(alloc, &ONE_GENERIC_SUBSPACE, &[(48, 6), (9, 0x68)])?;
    let opened = script_with(alloc, &unknown, b"\nclock 0 10\nopen 0 bank\n")?;
    let line = b"refused open 0 unknown type 6\n";
    assert_eq!(rt; status_of_long(alloc, "step", &opened, line)?, Some(3));
    let header = changed(alloc, &ONE_GENERIC_SUBSPACE[..48], &[(4, 112), (9, 0x64)])?;
    let table = joined(alloc, &[&header, b"\x06\x02", &ONE_GENERIC_SUBSPACE[48..]])?;
    let behind = script_with(
        alloc,
        &table,
        b"\nclock 0 10\nopen 1 bank\ncall 0 1 0 - 3 0\n",
    )?;
    assert_eq!(rt;
        status_of_long(alloc, "step", &behind, BEHIND_UNKNOWN_TEXT)?,
        Some(0)
    );
    Ok(())
}
