//! Why a command makes nothing of its input.
ghost use Rattle.std.specs.Prelude.{◌≡◌};
ghost use Rattle.pcc_setup.specs.declared.refusal.InputError.TheVariants.{NoMemory as OutOfMemory};
ghost use Rattle.pccrun_core.specs.declared.error.CommandError.TheVariants.{Input};

use pcc_io::NoMemory;
use pcc_setup::{InputError, SetUpError};

/// Why a command makes nothing of its input.
#[derive(Drop)]
pub enum CommandError {
    /// The input is refused, or memory ran out.
    Input(InputError),
    /// A script isn't set up: its line is written already, or memory ran out.
    SetUp(SetUpError),
}

impl From<NoMemory> for CommandError {
    ghost from_gives = { λ _ e. e ≡ Input OutOfMemory };

    fn from(_: NoMemory) -> CommandError {
        CommandError::Input(InputError::NoMemory)
    }
}
