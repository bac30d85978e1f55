//! The checks of a set-up in their order, and the lines of refusals.
use cpc_package::{CpcFault, CpcKind};
use pcc_io::Bytes;
use pcc_script::{ScriptKind, scenario_from};
use pcc_setup::{
    ActionFault, InputError, OpenFault, Refusal, SetUpError, UseFault, first_action, refused_line,
    set_up, whole_table,
};
use pcc_text::put_hex;
use pcc_wiring::{Overlap, Role, WiringFault};
use pcct_codec::{ONE_GENERIC_SUBSPACE, TableFault};
use pcct_table::BuildKind;
use std::alloc::Global;
use std::test::Fail;

// The text of a script with this table and these lines after the clock's.
fn script(alloc: Global, table: &[u8], lines: &[u8]) -> Result<Vec<u8>, Fail> {
    let mut text = Vec::from_slice(alloc, b"table ")?;
    put_hex(&mut text, table)?;
    text.extend_from_slice(b"\nclock 0 10\n")?;
    text.extend_from_slice(lines)?;
    Ok(text)
}

// What becomes of the set-up of a script without processors.
#[derive(Debug, Drop)]
enum Ending {
    Opened(usize),
    Refused(Bytes),
    Other,
}

#[tactic(auto, using(crate::proofs::Short::none_long))]
fn ending_of(alloc: Global, text: &[u8]) -> Ending {
    let Ok(scenario) = scenario_from(alloc, text) else {
        return Ending::Other;
    };
    if scenario.cpus.len() != 0 {
        return Ending::Other;
    }
    match set_up(alloc, &scenario) {
        Ok(set_up) => Ending::Opened(set_up.opened.len()),
        Err(SetUpError::Refused { text }) => Ending::Refused(text),
        Err(SetUpError::NoMemory) => Ending::Other,
    }
}

fn first_action_of(alloc: Global, text: &[u8]) -> Option<u64> {
    match scenario_from(alloc, text) {
        Ok(scenario) => Some(first_action(&scenario)),
        Err(_) => None,
    }
}

#[test]
fn one_subspace_is_opened(rt: HostRuntime) -> Result<(), Fail> {
    let alloc = rt.alloc();
    let text = script(
        alloc,
        &ONE_GENERIC_SUBSPACE,
        b"open 0 bank\ncall 0 0 17 - 1 0\n",
    )?;
    assert_eq!(rt; first_action_of(alloc, &text), Some(4));
    match ending_of(alloc, &text) {
        Ending::Opened(count) => assert_eq!(rt; count, 1),
        _ => assert!(rt; false),
    }
    Ok(())
}

#[test]
fn the_first_check_that_fails(rt: HostRuntime) -> Result<(), Fail> {
    let alloc = rt.alloc();
    let rows: [(&[u8], &[u8], &[u8]); 8] = [
        (
            &ONE_GENERIC_SUBSPACE,
            b"open 0 bank\nopen 0 bank\ncall 0 3 17 - 1 0\n",
            b"refused open 0 opened twice\n",
        ),
        (
            &ONE_GENERIC_SUBSPACE,
            b"open 1 bank\nopen 0 bank\n",
            b"refused open 1 no subspace\n",
        ),
        (
            &ONE_GENERIC_SUBSPACE,
            b"open 0 bank\ncall 0 3 17 - 1 0\n",
            b"refused line 4 not bank\n",
        ),
        (
            &ONE_GENERIC_SUBSPACE[..100],
            b"open 1 bank\n",
            b"refused table short 100\n",
        ),
        (
            &ONE_GENERIC_SUBSPACE,
            b"open 0 cppc 0000000000000000000000000000000000\n",
            b"refused open 0 image long\n",
        ),
        (
            &ONE_GENERIC_SUBSPACE,
            b"open 0 cppc -\ncap 0 5 90\ncap 0 5 80\n",
            b"refused cap 1\n",
        ),
        (
            &ONE_GENERIC_SUBSPACE,
            b"open 0 bank\ncap 0 5 90\n",
            b"refused cap 0\n",
        ),
        (
            &ONE_GENERIC_SUBSPACE,
            b"open 0 cppc -\nread 0 0 3 0\n",
            b"refused line 4 no cpu\n",
        ),
    ];
    for (table, lines, line) in rows {
        let text = script(alloc, table, lines)?;
        match ending_of(alloc, &text) {
            Ending::Refused(found) => assert_eq!(rt; found.as_slice(), line),
            _ => assert!(rt; false),
        }
    }
    Ok(())
}

#[test]
fn bytes_after_a_table(rt: HostRuntime) -> Result<(), Fail> {
    let alloc = rt.alloc();
    let mut bytes = Vec::from_slice(alloc, &ONE_GENERIC_SUBSPACE)?;
    bytes.push(0)?;
    match whole_table(alloc, &bytes) {
        Err(error) => {
            assert_eq!(rt; error, InputError::Refused(Refusal::Trailing { at: 110 }));
        }
        Ok(_) => assert!(rt; false),
    }
    Ok(())
}

#[test]
fn lines_of_refusals(rt: HostRuntime) -> Result<(), Fail> {
    let alloc = rt.alloc();
    let register = WiringFault::RegisterWidth {
        role: Role::Acknowledge,
    };
    let rows: [(Refusal, &[u8]); 13] = [
        (Refusal::Long, b"refused long\n"),
        (
            Refusal::Script {
                line: 65_000,
                kind: ScriptKind::Misplaced,
            },
            b"refused line 65000 misplaced\n",
        ),
        (
            Refusal::TableText {
                line: 2,
                kind: BuildKind::Many,
            },
            b"refused line 2 many\n",
        ),
        (
            Refusal::Action {
                line: 9,
                fault: ActionFault::NoCpu,
            },
            b"refused line 9 no cpu\n",
        ),
        (
            Refusal::Table(TableFault::SubspaceLength {
                at: 48,
                kind: 2,
                found: 62,
            }),
            b"refused table size 48 2 62\n",
        ),
        (
            Refusal::Package(CpcFault {
                entry: 7,
                at: 38,
                kind: CpcKind::NotRegister,
            }),
            b"refused package not register 7 38\n",
        ),
        (
            Refusal::PackageTrailing { at: 279 },
            b"refused package trailing 279\n",
        ),
        (
            Refusal::Open {
                id: 7,
                fault: OpenFault::Unwired(register),
            },
            b"refused open 7 register width acknowledge\n",
        ),
        (
            Refusal::Open {
                id: 0,
                fault: OpenFault::Unwired(WiringFault::SpaceTooSmall { len: 15 }),
            },
            b"refused open 0 space 15\n",
        ),
        (
            Refusal::Open {
                id: 255,
                fault: OpenFault::Unwired(WiringFault::UnknownType { kind: 6 }),
            },
            b"refused open 255 unknown type 6\n",
        ),
        (
            Refusal::Meet(Overlap { a: 1, b: 0 }),
            b"refused overlap 1 0\n",
        ),
        (Refusal::Use(UseFault::Wait), b"refused use wait\n"),
        (Refusal::Use(UseFault::Audit), b"refused use audit\n"),
    ];
    for (refusal, text) in rows {
        let line = refused_line(alloc, refusal)?;
        assert_eq!(rt; line.as_slice(), text);
    }
    Ok(())
}
