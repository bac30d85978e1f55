//! What may be wrong with a script.
ghost use Rattle.std.specs.Prelude.{◌≡◌};
ghost use Rattle.pcc_script.specs.declared.fault.Stop.TheVariants.{NoMemory as OutOfMemory};

use pcc_io::NoMemory;

/// What is wrong with a line.
#[derive(Clone, Copy, Debug, PartialEq, Eq)]
pub enum ScriptKind {
    /// The last line doesn't end with a line feed.
    Newline,
    /// The first field is none of the ten words.
    Unknown,
    /// An earlier line is later in the order of the lines, or the word may occur only once and has occurred already.
    Misplaced,
    /// There is one line more of this kind, or one letter more, than a script may have.
    Many,
    /// There are too few or too many fields.
    Fields,
    /// A field is no number within its limit.
    Number,
    /// A field is no bytes in lower-case hexadecimal.
    Hex,
    /// A field names no device, or is no letters.
    Name,
    /// The text ended without a line that has to be: `table`, `clock` or `open`.
    Missing,
}

/// Why a text gives no scenario.
#[derive(Clone, Copy, Debug, PartialEq, Eq)]
pub enum ScriptError {
    /// The first line that is wrong, counted from 1, and its first fault. If a line is missing, it is the line after the last.
    Fault { line: u32, kind: ScriptKind },
    NoMemory,
}

/// Why a line isn't read.
#[derive(Clone, Copy)]
pub enum Stop {
    Wrong(ScriptKind),
    NoMemory,
}

impl From<NoMemory> for Stop {
    ghost from_gives = { λ _ stop. stop ≡ OutOfMemory };

    fn from(_: NoMemory) -> Stop {
        Stop::NoMemory
    }
}

impl From<NoMemory> for ScriptError {
    ghost use Rattle.pcc_script.specs.declared.fault.ScriptError.TheVariants.{NoMemory as Exhausted};

    ghost from_gives = { λ _ error. error ≡ Exhausted };

    fn from(_: NoMemory) -> ScriptError {
        ScriptError::NoMemory
    }
}
