//! Scripts, read and written, and made-up ones.
use crate::changing::repeated;
use pcc_script::{
    CapLine, Device, Letter, Line, MAX_MADE_CALLS, ScriptError, ScriptKind, Wish1, made_scenario,
    scenario_from, scenario_to,
};
use std::test::Fail;

const TEN_WORDS: &[u8] =
    b"table 0a1b\nclock 5 10\nopen 0 bank\nopen 255 cppc 00ff\ncpu 1246\ncpu -\ncap 255 3 50\n\
    call 15 0 4294967295 a0b1 1000000 4000000000\nread 0 15 1 0\nset 1 2 - 18446744073709551615 7 3 4\nwait 9\npick opp\n";

#[test]
fn reads_all_ten_words(rt: HostRuntime) -> Result<(), Fail> {
    let scenario = scenario_from(rt.alloc(), TEN_WORDS).ok().ok_or("refused")?;
    assert_eq!(rt; scenario.table.as_slice(), [0x0a, 0x1b].as_slice());
    assert_eq!(rt; (scenario.start, scenario.step), (5, 10));

    assert_eq!(rt; scenario.opens.len(), 2);
    let bank = scenario.opens.at(0);
    assert!(rt; bank.id == 0 && matches!(bank.device, Device::Bank));
    let cppc = scenario.opens.at(1);
    assert!(rt;
        cppc.id == 255
            && matches!(&cppc.device, Device::Cppc { image } if image.as_slice() == [0x00, 0xff].as_slice())
    );

    assert_eq!(rt; scenario.cpus.len(), 2);
    assert_eq!(rt; scenario.cpus.at(0).as_slice(), [0x12, 0x46].as_slice());
    assert_eq!(rt; scenario.cpus.at(1).as_slice(), [].as_slice());
    let cap = CapLine {
        id: 255,
        count: 3,
        value: 50,
    };
    assert_eq!(rt; scenario.caps.as_slice(), [cap].as_slice());

    assert_eq!(rt; scenario.actions.len(), 4);
    assert!(rt;
        matches!(scenario.actions.at(0), Line::Call { worker: 15, subspace: 0, code: 4_294_967_295, bytes, polls: 1_000_000, hold: 4_000_000_000 } if bytes.as_slice() == [0xa0, 0xb1].as_slice())
    );
    assert!(rt;
        matches!(
            scenario.actions.at(1),
            Line::Read {
                worker: 0,
                cpu: 15,
                polls: 1,
                hold: 0
            }
        )
    );
    let wish = Wish1 {
        cpu: 2,
        min: None,
        desired: u64::MAX,
        max: Some(7),
    };
    assert!(rt;
        matches!(scenario.actions.at(2), Line::Set { worker: 1, wish: asked, polls: 3, hold: 4 } if *asked == wish)
    );
    assert!(rt; matches!(scenario.actions.at(3), Line::Wait { n: 9 }));
    let picks = scenario.picks.ok_or("no picks")?;
    assert_eq!(rt;
        picks.as_slice(),
        [Letter::O, Letter::P, Letter::P].as_slice()
    );
    Ok(())
}

#[test]
fn tells_the_first_fault(rt: HostRuntime) {
    use ScriptKind::*;
    let faults = [
        // An empty text has no table; a line that is skipped is missing after the last line.
        ("", 1, Missing),
        ("table -\n", 2, Missing),
        ("table -\nclock 0 10\n", 3, Missing),
        ("open 0 bank\n", 2, Missing),
        // The line feed is looked for before the word.
        ("x", 1, Newline),
        ("table -\nclock 0 10", 2, Newline),
        ("\n", 1, Unknown),
        ("table -\n\n", 2, Unknown),
        (" table -\n", 1, Unknown),
        ("tables -\n", 1, Unknown),
        ("täble -\n", 1, Unknown),
        // The place is tested before the number of lines, and both before the fields.
        ("table -\ntable -\n", 2, Misplaced),
        ("clock 0 10\ntable -\n", 2, Misplaced),
        ("clock 0 10\nclock\n", 2, Misplaced),
        ("open 0 bank\nwait 1\nopen\n", 3, Misplaced),
        ("pick o\npick\n", 2, Misplaced),
        ("pick o\nwait 1\n", 2, Misplaced),
        // A second space makes an empty field.
        ("table\n", 1, Fields),
        ("table  -\n", 1, Fields),
        ("table - \n", 1, Fields),
        ("clock 0\n", 1, Fields),
        ("clock  10\n", 1, Number),
        ("clock 0 10\r\n", 1, Number),
        ("clock 00 10\n", 1, Number),
        ("clock 0 18446744073709551616\n", 1, Number),
        ("table \n", 1, Hex),
        ("table 0A\n", 1, Hex),
        ("table 0a1\n", 1, Hex),
        // The name of the device says how many fields there are.
        ("open 1\n", 1, Fields),
        ("open 256 x y z\n", 1, Number),
        ("open 1 x y z\n", 1, Name),
        ("open 1 cppc\n", 1, Fields),
        ("open 1 cppc zz 1\n", 1, Fields),
        ("open 1 cppc zz\n", 1, Hex),
        ("open 1 bank 00\n", 1, Fields),
        ("cap 256 0 0\n", 1, Number),
        // The first field from the left that isn't right.
        ("call 16 0 16 zz 0 0\n", 1, Number),
        ("call 0 0 16 zz 0 0\n", 1, Hex),
        ("call 0 0 16 - 0 0\n", 1, Number),
        ("call 0 0 4294967296 - 1 0\n", 1, Number),
        ("call 0 0 16 - 1000001 0\n", 1, Number),
        ("call 0 0 16 - 1 4000000001\n", 1, Number),
        ("read 0 16 1 0\n", 1, Number),
        ("set 0 0 - - - 1 0\n", 1, Number),
        ("wait 1 1\n", 1, Fields),
        ("pick\n", 1, Fields),
        ("pick o p\n", 1, Fields),
        ("pick \n", 1, Name),
        ("pick ox\n", 1, Name),
    ];
    for (text, line, kind) in faults {
        let told = scenario_from(rt.alloc(), text.as_bytes()).err();
        assert_eq!(rt;
            told,
            Some(ScriptError::Fault { line, kind }),
            "of {text:?}"
        );
    }
}

#[test]
fn counts_lines_and_letters(rt: HostRuntime) -> Result<(), Fail> {
    use ScriptKind::*;
    let faults = [
        ("", "open 0 bank\n", 8, "open\n", 9, Many),
        ("", "cpu -\n", 16, "cpu\n", 17, Many),
        ("", "cap 0 0 0\n", 64, "cap\n", 65, Many),
        (
            "call 0 0 0 - 1 0\nread 0 0 1 0\nset 0 0 - 0 - 1 0\n",
            "wait 0\n",
            65_533,
            "wait\n",
            65_537,
            Many,
        ),
        // As many letters as there may be are right, and the table is missing after them.
        ("pick ", "p", 65_536, "\n", 2, Missing),
        ("pick ", "p", 65_537, "\n", 1, Many),
        ("pick ", "p", 65_537, "x\n", 1, Name),
        ("clock ", "9", 5_000, " 0\n", 1, Number),
    ];
    for (front, part, times, back, line, kind) in faults {
        let text = repeated(
            rt.alloc(),
            front.as_bytes(),
            part.as_bytes(),
            times,
            back.as_bytes(),
        )?;
        let told = scenario_from(rt.alloc(), &text).err();
        assert_eq!(rt;
            told,
            Some(ScriptError::Fault { line, kind }),
            "{times} of {part:?}"
        );
    }
    Ok(())
}

#[test]
fn writes_all_ten_words(rt: HostRuntime) -> Result<(), Fail> {
    let alloc = rt.alloc();
    let scenario = match scenario_from(alloc, TEN_WORDS) {
        Ok(scenario) => scenario,
        Err(_) => return Err(Fail::from("refused")),
    };
    assert_eq!(rt; scenario_to(alloc, &scenario)?.as_slice(), TEN_WORDS);
    Ok(())
}

// The bytes of the calls are computed by hand.
#[test]
fn makes_calls(rt: HostRuntime) -> Result<(), Fail> {
    let alloc = rt.alloc();
    let few = made_scenario(alloc, 5)?;
    let text =
        b"table 504343546e000000026e50434352554e4558414d504c453101000000544553540100000000000000000000000000000\
        0003e00000000000000000080000000001800000000000000002000030000d0fe00000000feffffff000000000100000000000000e8030000000000000000\n\
        clock 0 10\nopen 0 bank\n\
        call 0 0 16 0100000000000000 3 0\n\
        call 1 0 16 7c00fd43ac6f576c 3 1\n\
        call 2 0 16 1b1b4a86b3866882 3 2\n\
        call 3 0 16 0eaa972099e1faa5 3 3\n\
        call 0 0 17 c5579311cd550362 3 0\n";
    assert_eq!(rt; scenario_to(alloc, &few)?.as_slice(), text.as_slice());

    let many = made_scenario(alloc, MAX_MADE_CALLS)?;
    assert_eq!(rt; many.actions.len(), 4_096);
    assert!(rt;
        matches!(many.actions.at(4_095), Line::Call { worker: 3, subspace: 0, code: 16, bytes, polls: 3, hold: 3 } if bytes.as_slice() == 3_903_375_340_357_830_842u64.to_le_bytes().as_slice())
    );
    Ok(())
}
