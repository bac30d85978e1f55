//! Whether a command can be used with a script.
ghost use Rattle.std.specs.Prelude.{◌≡◌, Some, None};
ghost use Rattle.std.specs.List.{list_any};
ghost use Rattle.pccrun_core.specs.Uses.{audit_fault, is_wait, use_fault, weave_fault};

use crate::command::Command;
use pcc_script::{Line, Scenario};
use pcc_setup::{UseFault, are_banks};

fn is_wait(action: &Line) -> bool
    ensures { result ≡ is_wait action.now }
{
    matches!(action, Line::Wait { .. })
}

fn have_wait(actions: &[Line]) -> bool
    ensures { result ≡ list_any is_wait actions.now }
{
    actions.iter().any(|action| is_wait(action))
}

fn weave_fault(scenario: &Scenario) -> Option<UseFault>
    ensures { result ≡ weave_fault scenario.now }
{
    if scenario.opens.len() != 1 {
        return Some(UseFault::Many);
    }
    if !are_banks(scenario.opens.as_slice()) {
        return Some(UseFault::Bank);
    }
    if scenario.picks.is_none() {
        return Some(UseFault::Pick);
    }
    if have_wait(scenario.actions.as_slice()) {
        return Some(UseFault::Wait);
    }
    None
}

fn audit_fault(scenario: &Scenario) -> Option<UseFault>
    ensures { result ≡ audit_fault scenario.now }
{
    if scenario.actions.len() == 0 && scenario.picks.is_none() {
        None
    } else {
        Some(UseFault::Audit)
    }
}

/// Why a command can't be used with a script, if it can't.
pub fn use_fault(command: Command, scenario: &Scenario) -> Option<UseFault>
    ensures { result ≡ use_fault command scenario.now }
{
    match command {
        Command::Step => {
            if scenario.picks.is_some() {
                Some(UseFault::Pick)
            } else {
                None
            }
        }
        Command::Weave => weave_fault(scenario),
        Command::Audit => audit_fault(scenario),
        Command::Show | Command::Build | Command::Cpc | Command::Raise => None,
    }
}
