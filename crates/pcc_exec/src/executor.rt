//! Devices that execute commands on the communication space of a channel (ACPI 6.5, chapter 14).
ghost use Rattle.std.specs.Prelude.{◌≡◌, List, ℕ, length};
ghost use Rattle.pcc_history.specs.Devices.{Device};
ghost use Rattle.pcc_exec.specs.Execution.{Executes, IsSpace, Leaves};

/// What a device makes of a command.
#[derive(Clone, Copy, Debug, PartialEq, Eq)]
pub enum ExecStatus {
    /// The command was executed.
    Good,
    /// The command is none that the device can execute.
    Bad,
}

/// A device. Its state decides how many bytes the communication space has.
pub trait Executor: Drop {
    /// The state as a list of numbers, with its part that never changes.
    ghost state: { Self → List ℕ };

    /// What a command makes of the state and of the space.
    ghost exec_of: { Device };

    /// The number of bytes of the space, by the state.
    ghost room_of: { List ℕ → ℕ };

    /// The lists that are states of such devices.
    ghost is_state: { List ℕ → Type 0 };

    /// Executes the command of a code. The space holds its input, and then its output.
    fn exec(&mut self, code: u32, space: &mut [u8]) -> ExecStatus
        requires { length space.old ≡ room_of (state self.old) }
        ensures exec { Executes exec_of (state self.old) code space.old result (state self.new) space.new }
        ensures room { room_of (state self.new) ≡ room_of (state self.old) };

    /// The number of bytes of the space.
    fn room(&self) -> u32
        ensures room { result ≡ room_of (state self.now) }
        ensures state { is_state (state self.now) };

    /// Each command leaves a space of the same size, and a state of such a device.
    ghost keeps: { (before : List ℕ) (code : ℕ) (space : List ℕ) → is_state before → IsSpace (room_of before) space
        → Leaves is_state room_of before (exec_of before code space) };
}
