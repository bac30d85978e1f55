//! Traces of the words of both ends.
use crate::commands::{changed, status_of, status_of_long};
use pcc_text::{put, put_hex};
use pcct_codec::ONE_GENERIC_SUBSPACE;
use std::test::Fail;

const POSTED: &str =
    "o store 8 0000000000000201\no store 0 0000001050434300\no load 1 0000000000000000\n\
o store 1 0000000000000001\no store 2 0000000000000001 -> posted\n";

const ANSWERED: &str =
    "p swap 2 0000000000000000 0000000000000001\np load 0 0000001050434300\np load 8 0000000000000201\n\
p store 8 0000000000000000\np store 0 0001001050434300 -> served\no load 0 0001001050434300\n\
o load 8 0000000000000000 -> done ok\n";

// The words of a space of 8 bytes: the reply is taken, and the command is looked for and not complete.
#[test]
fn traces_of_scripts(rt: HostRuntime) -> Result<(), Fail> {
    let alloc = rt.alloc();
    let table = changed(alloc, &ONE_GENERIC_SUBSPACE, &[(64, 0x10), (9, 0x76)])?;
    let rows = [
        (
            "ooooopppppoo",
            ANSWERED,
            "record 0 caller 0 code 16 ok post 0 done 10 timely in 0102000000000000 out 0000000000000000\n",
        ),
        (
            "oooooo",
            "o load 0 0000001050434300 -> clear 1\n",
            "pending caller 0 code 16 post 0 in 0102000000000000\n",
        ),
    ];
    for (letters, steps, kept) in rows {
        let mut script = Vec::from_slice(alloc, b"table ")?;
        put_hex(&mut script, &table)?;
        for part in [
            "\nclock 0 10\nopen 0 bank\ncall 0 0 16 0102 3 0\npick ",
            letters,
            "\n",
        ] {
            script.extend_from_slice(part.as_bytes())?;
        }
        let mut text = Vec::new(alloc);
        let head = "journal 0 type 0 bank room 8 turnaround 0 rate 0 errors yes\n";
        for part in [POSTED, steps, head, kept, "end 0\n"] {
            text.extend_from_slice(part.as_bytes())?;
        }
        assert_eq!(rt; status_of(alloc, "weave", &script, &text)?, Some(0));
    }
    Ok(())
}

const NOTIFIED: &[u8] =
    b"o store 8 0000000000000201\no store 0 0000801050434300\no load 1 0000000000000000\n\
o store 1 0000000000000001\no store 2 0000000000000001 -> posted\n\
p swap 2 0000000000000000 0000000000000001\np load 0 0000801050434300\np load 8 0000000000000201\n\
p store 8 0000000000000000\np store 0 0001801050434300\np store 4 0000000000000001 -> served\n\
p swap 2 0000000000000000 0000000000000000 -> idle\n\
o load 0 0001801050434300\no load 8 0000000000000000\no load 4 0000000000000001\n\
o store 4 0000000000000000 -> done ok\n\
journal 0 type 0 bank room 8 turnaround 0 rate 0 errors yes\n\
record 0 caller 0 code 16 ok post 0 done 10 timely in 0102000000000000 out 0000000000000000\nend 0\n";

// The platform interrupt is raised after the reply, and put down by the look that takes it.
#[test]
fn a_trace_with_the_platform_interrupt(rt: HostRuntime) -> Result<(), Fail> {
    let alloc = rt.alloc();
    let table = changed(
        alloc,
        &ONE_GENERIC_SUBSPACE,
        &[(64, 0x10), (36, 0x01), (9, 0x75)],
    )?;
    let mut script = Vec::from_slice(alloc, b"table ")?;
    put_hex(&mut script, &table)?;
    put(
        &mut script,
        b"\nclock 0 10\nopen 0 bank\ncall 0 0 16 0102 3 0\n",
    )?;
    put(&mut script, b"pick ooooopppppppoooo\n")?;
    assert_eq!(rt; status_of_long(alloc, "weave", &script, NOTIFIED)?, Some(0));
    Ok(())
}

const NOTHING_CHANGED: &[u8] =
    b"o store 0 0000001150434300\no load 1 0000000000000000\no store 1 0000000000000001\n\
o store 2 0000000000000001 -> posted\n\
p swap 2 0000000000000000 0000000000000001\np load 0 0000001150434300\np load 8 0000000000000000\n\
p store 0 0001001150434300 -> served\no load 0 0001001150434300\no load 8 0000000000000000 -> done ok\n\
journal 0 type 0 bank room 8 turnaround 0 rate 0 errors yes\n\
record 0 caller 0 code 17 ok post 0 done 10 timely in 0000000000000000 out 0000000000000000\nend 0\n";

// A command without bytes, whose reply is its input: neither side stores a word of the space.
#[test]
fn a_trace_without_a_changed_word(rt: HostRuntime) -> Result<(), Fail> {
    let alloc = rt.alloc();
    let table = changed(alloc, &ONE_GENERIC_SUBSPACE, &[(64, 0x10), (9, 0x76)])?;
    let mut script = Vec::from_slice(alloc, b"table ")?;
    put_hex(&mut script, &table)?;
    put(
        &mut script,
        b"\nclock 0 10\nopen 0 bank\ncall 0 0 17 - 1 0\n",
    )?;
    put(&mut script, b"pick ooooppppoo\n")?;
    assert_eq!(rt;
        status_of_long(alloc, "weave", &script, NOTHING_CHANGED)?,
        Some(0)
    );
    Ok(())
}
