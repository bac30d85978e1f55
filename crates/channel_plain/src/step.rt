//! The device's turn, and what a step needs to know of its bytes.

ghost use Rattle.std.specs.Prelude.{◌≡◌, ◌<◌, ◌^◌, []};
ghost use Rattle.pcc_steps.specs.Agree.{settle};
ghost use Rattle.channel_plain.specs.Picks.{started_at};
ghost use Rattle.channel_plain.specs.Steps.{IsSettled, SettlesIf};

use crate::trace::Asked;
use channel_core::Executed;
use pcc_exec::Executor;
use pcc_steps::{Action, AnswerState, answer_next, answer_ran, answer_space, answer_start};

/// A code has 32 bits. It does nothing.
pub(crate) fn fit_code(call: &Asked)
    ensures { call.now.code < 2 ^ 32 }
{
    let _code = call.code;
}

/// Begins an answering run where none is under way.
pub(crate) fn start(answer: &mut AnswerState)
    ensures { answer.new ≡ started_at answer.old.stage answer.old }
{
    if answer_next(answer) == Action::Rest {
        answer_start(answer);
    }
}

/// Has the device execute the command that the answering machine has loaded, if it has.
pub(crate) fn settle<E: Executor>(
    answer: &mut AnswerState,
    device: &mut E,
    executed: &mut Executed,
    reports: bool,
)
    requires ready { SettlesIf answer.old.stage executed.old.ready }
    requires long { executed.old.room ≡ answer.old.wiring.room }
    requires room { E.room_of (E.state device.old) ≡ answer.old.wiring.room }
    requires reports { reports ≡ answer.old.wiring.reports }
    ensures { IsSettled (settle E.exec_of (record { m = answer.old; device = E.state device.old; done = [] }))
        answer.old.stage executed.old answer.new (E.state device.new) executed.new }
{
    let Action::Execute { code } = answer_next(answer) else {
        return;
    };
    let status = executed.execute(device, code, reports, answer_space(answer));
    answer_ran(answer, status);
}
