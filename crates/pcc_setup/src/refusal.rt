//! Why an input is refused.
ghost use Rattle.std.specs.Prelude.{◌≡◌};
ghost use Rattle.pcc_setup.specs.declared.refusal.InputError.TheVariants.{NoMemory as OutOfMemory};

use crate::action::ActionFault;
use crate::opening::OpenFault;
use cpc_package::{BindFault, CpcFault};
use journal_reading::AuditKind;
use pcc_io::NoMemory;
use pcc_script::ScriptKind;
use pcc_wiring::Overlap;
use pcct_codec::TableFault;
use pcct_table::BuildKind;
use std::alloc::AllocFailed;

/// What a command needs of a script.
#[derive(Clone, Copy, Debug, PartialEq, Eq)]
pub enum UseFault {
    /// A `pick` line where none may be, or none where one has to be.
    Pick,
    /// More than one subspace is opened.
    Many,
    /// The opened subspace isn't a Bank.
    Bank,
    /// A `wait` line where none may be.
    Wait,
    /// An action or a `pick` line before the journals.
    Audit,
}

/// Why a processor isn't bound.
#[derive(Clone, Copy, Debug, PartialEq, Eq)]
pub enum CpuFault {
    /// The bytes begin with no package: the first thing that is wrong.
    Package(CpcFault),
    /// Bytes follow the package, from this place on.
    Trailing { at: usize },
    /// No register lies in the space of communication channels, or the subspace of the first one that does isn't opened for a controller.
    NotOpened,
    /// The registers don't fit the controller's communication space: the first fault.
    Unfit(BindFault),
    /// A register shares a bit with one of an earlier processor, the first of these.
    Shares { cpu: usize },
}

/// Why an input is refused. Lines count from 1, processors and caps from 0.
#[derive(Clone, Copy, Debug, PartialEq, Eq)]
pub enum Refusal {
    /// More bytes than the program reads.
    Long,
    /// The text is no script: its first line that is wrong.
    Script { line: u64, kind: ScriptKind },
    /// The text is no table's: its first line that is wrong.
    TableText { line: u64, kind: BuildKind },
    /// The text is no journal's: its first line that is wrong.
    JournalText { line: u64, kind: AuditKind },
    /// The action of this line names nothing that the script opens.
    Action { line: u64, fault: ActionFault },
    /// The bytes are no table: the first check that fails.
    Table(TableFault),
    /// Bytes follow a table, from this place on.
    Trailing { at: usize },
    /// The bytes begin with no package: the first thing that is wrong.
    Package(CpcFault),
    /// Bytes follow a package, from this place on.
    PackageTrailing { at: usize },
    /// The subspace with this ID can't be opened.
    Open { id: u8, fault: OpenFault },
    /// The memories of two opened subspaces meet.
    Meet(Overlap),
    /// The processor of this number can't be bound.
    Cpu { cpu: usize, fault: CpuFault },
    /// The cap of this number is on no opened controller, or doesn't begin after each earlier cap on the same one.
    Cap { index: usize },
    /// The processor of this number is out of its range at first.
    Start { cpu: usize },
    /// The command can't be used with the script.
    Use(UseFault),
}

/// Why a command makes nothing of its input.
#[derive(Clone, Copy, Debug, PartialEq, Eq)]
pub enum InputError {
    Refused(Refusal),
    NoMemory,
}

impl From<NoMemory> for InputError {
    ghost from_gives = { λ _ e. e ≡ OutOfMemory };

    fn from(_: NoMemory) -> InputError {
        InputError::NoMemory
    }
}

impl<T: Drop> From<AllocFailed<T>> for InputError {
    ghost from_gives = { λ _ e. e ≡ OutOfMemory };

    fn from(_: AllocFailed<T>) -> InputError {
        InputError::NoMemory
    }
}
