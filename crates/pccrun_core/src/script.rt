//! A script with its set-up, as far as a command serves it.
ghost use Rattle.std.specs.Prelude.{◌<◌, ◌≤◌, ◌^◌, IfOk, MatchResult, length};
ghost use Rattle.std.specs.List.{AllByRecursion};
ghost use Rattle.pcc_script.specs.Limits.{IsWithin};
ghost use Rattle.pcc_setup.specs.SetUps.{IsSetUpOf};
ghost use Rattle.pccrun_core.specs.Answers.{input_limit};
ghost use Rattle.pccrun_core.specs.CommandErrors.{IsRefusedBy};
ghost use Rattle.pccrun_core.specs.Refusals.{NotServed, ScriptRefused};
ghost use Rattle.pccrun_core.specs.Serving.{IsSetUpFor, IsSpelled, Serves};

use crate::command::Command;
use crate::error::CommandError;
use crate::uses::use_fault;
use pcc_script::{Scenario, ScriptError, scenario_from, within_limits};
use pcc_setup::{InputError, Refusal, SetUp, set_up};
use std::alloc::Global;

/// A script that is served, and its set-up.
#[derive(Drop)]
pub struct Served {
    pub scenario: Scenario,
    pub set_up: SetUp,
}

// The scenario that a text spells.
fn script_of(alloc: Global, command: Command, text: &[u8]) -> Result<Scenario, CommandError>
    ensures { MatchResult result (λ s. IsSpelled text.now s × IsWithin s) (IsRefusedBy (ScriptRefused command text.now)) }
{
    within_limits();
    match scenario_from(alloc, text) {
        Ok(scenario) => Ok(scenario),
        Err(ScriptError::NoMemory) => Err(CommandError::Input(InputError::NoMemory)),
        Err(ScriptError::Fault { line, kind }) => {
            let line = line as u64;
            let refusal = Refusal::Script { line, kind };
            Err(CommandError::Input(InputError::Refused(refusal)))
        }
    }
}

// The set-up of a script, where the command can be used with it.
#[tactic(auto, using(crate::proofs::Refused::used_by, crate::proofs::Refused::not_used))]
fn used(command: Command, scenario: &Scenario, set_up: SetUp) -> Result<SetUp, CommandError>
    requires { IsSetUpOf scenario.now set_up }
    ensures { MatchResult result (IsSetUpFor command scenario.now) (IsRefusedBy (NotServed command scenario.now)) }
{
    match use_fault(command, scenario) {
        Some(fault) => Err(CommandError::Input(InputError::Refused(Refusal::Use(fault)))),
        None => Ok(set_up),
    }
}

// Sets up what a script opens, where the command can be used with it.
#[tactic(auto, using(crate::proofs::Refused::not_set_up))]
fn set_up_for(alloc: Global, command: Command, scenario: &Scenario) -> Result<SetUp, CommandError>
    requires { AllByRecursion (λ bytes. length bytes < 2 ^ 32) scenario.now.cpus }
    ensures { MatchResult result (IsSetUpFor command scenario.now) (IsRefusedBy (NotServed command scenario.now)) }
{
    match set_up(alloc, scenario) {
        Ok(set_up) => used(command, scenario, set_up),
        Err(error) => Err(CommandError::SetUp(error)),
    }
}

/// The script that a text spells, with its set-up, where the command serves it. The condition is a text of at most 4,194,304 bytes.
#[tactic(auto, using(crate::proofs::Small::small_packages, crate::proofs::Refused::serving))]
pub fn served_script(alloc: Global, command: Command, text: &[u8]) -> Result<Served, CommandError>
    requires { length text.now ≤ input_limit }
    ensures script { MatchResult result (λ x. Serves command text.now x.scenario x.set_up.opened) (IsRefusedBy (ScriptRefused command text.now)) }
    ensures set_up { IfOk result (λ x. IsSetUpOf x.scenario x.set_up) }
    ensures within { IfOk result (λ x. IsWithin x.scenario) }
{
    match script_of(alloc, command, text) {
        Ok(scenario) => match set_up_for(alloc, command, &scenario) {
            Ok(set_up) => Ok(Served { scenario, set_up }),
            Err(error) => Err(error),
        },
        Err(error) => Err(error),
    }
}
