//! The commands that the answering end has executed.
ghost use Rattle.std.specs.Prelude.{◌≡◌, [], true, false, length, replicate, IfOk, OnOk, OnErr};
ghost use Rattle.pcc_history.specs.Channel.{exchange_of};
ghost use Rattle.pcc_exec.specs.Execution.{Executes};
ghost use Rattle.channel_core.specs.Executions.{executed_by};

use pcc_exec::{ExecStatus, Executor};
use pcc_io::{Bytes, NoMemory};
use pcc_journal::{Command, Commands};
use std::alloc::Global;
use std::marker::Model;

/// The memory for the spaces of a command that is executed next.
#[derive(Debug, Drop)]
pub(crate) struct Ahead {
    pub input: Vec<u8>,
    pub output: Vec<u8>,
}

/// The executed commands in order, and the memory for one more where it was taken.
#[derive(Debug, Drop)]
pub struct Executed {
    commands: Commands,
    ahead: Option<Ahead>,
    room: u32,
}

impl Model for Executed {
    ghost use Rattle.channel_core.specs.Executions.{Executions, HasAhead, is_ready};

    ghost Value = { Executions };

    ghost view = { λ r. record { commands = r.commands.items; ready = is_ready r.ahead; room = r.room } };

    ghost invariant = { λ r. HasAhead r.ahead r.room r.commands.spare };
}

impl Executed {
    /// Nothing was executed. Takes no memory.
    pub fn new(alloc: Global, room: u32) -> Executed
        ensures { result ≡ record { commands = []; ready = false; room = room } }
    {
        Executed {
            commands: Commands::new(alloc),
            ahead: None,
            room,
        }
    }

    /// The commands in their order.
    pub fn commands(&self) -> &Commands
        ensures { result.now.items ≡ self.now.commands }
    {
        &self.commands
    }

    /// Takes the memory for one more command.
    pub fn reserve(&mut self, alloc: Global) -> Result<(), NoMemory>
        ensures ok { OnOk result (self.new ≡ record self.old { ready = true }) }
        ensures err { OnErr result (self.new ≡ self.old) }
    {
        let input = zeros(alloc, self.room)?;
        let output = zeros(alloc, self.room)?;
        match self.commands.reserve() {
            Ok(()) => {}
            Err(_) => return Err(NoMemory),
        }
        self.ahead = Some(Ahead { input, output });
        Ok(())
    }

    /// Has the device execute a command on a space, and puts it last, into the memory that was taken. A bad command is recorded as an
    /// error where errors are reported.
    pub fn execute<E: Executor>(
        &mut self,
        device: &mut E,
        code: u32,
        reports: bool,
        space: &mut [u8],
    ) -> ExecStatus
        requires ready { self.old.ready ≡ true }
        requires long { length space.old ≡ self.old.room }
        requires room { E.room_of (E.state device.old) ≡ self.old.room }
        ensures executes { Executes E.exec_of (E.state device.old) code space.old result (E.state device.new) space.new }
        ensures commands { self.new ≡ executed_by (exchange_of E.exec_of reports (E.state device.old) code space.old) self.old }
    {
        match self.ahead.take() {
            Some(mut ahead) => {
                ahead.input.copy_from_slice(space);
                let status = device.exec(code, space);
                ahead.output.copy_from_slice(space);
                self.commands.append(Command {
                    code,
                    input: Bytes::from_vec(ahead.input),
                    error: reports && status == ExecStatus::Bad,
                    output: Bytes::from_vec(ahead.output),
                });
                status
            }
            None => unreachable!(),
        }
    }
}

/// A space of this room, all zeros.
pub fn zeros(alloc: Global, room: u32) -> Result<Vec<u8>, NoMemory>
    ensures { IfOk result (λ v. v.items ≡ replicate room 0) }
{
    Ok(vec![in alloc; 0; room as usize]?)
}
