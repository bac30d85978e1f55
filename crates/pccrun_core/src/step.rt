//! The command `step`: the lines of a script are run in one thread, and their replies and the journals are printed.
ghost use Rattle.std.specs.Prelude.{◌≤◌, MatchResult, length};
ghost use Rattle.pccrun_core.specs.Answers.{Makes, input_limit};
ghost use Rattle.pccrun_core.specs.CommandErrors.{IsRefusedBy};
ghost use Rattle.pccrun_core.specs.Refusals.{Refuses};

use crate::command::Command;
use crate::error::CommandError;
use crate::script::served_script;
use script_run::run_text;
use std::alloc::Global;

/// The replies and the journals of the script that a text spells. The condition is a text of at most 4,194,304 bytes.
pub fn step(alloc: Global, text: &[u8]) -> Result<Vec<u8>, CommandError>
    requires { length text.now ≤ input_limit }
    ensures { MatchResult result (λ v. Makes Command.Step text.now v.items) (IsRefusedBy (Refuses Command.Step text.now)) }
{
    match served_script(alloc, Command::Step, text) {
        Ok(served) => Ok(run_text(alloc, &served.scenario, &served.set_up)?),
        Err(error) => Err(error),
    }
}
