//! What a script says: a table, a clock, the subspaces that are opened, processors, caps, actions and picks. All times are in microseconds.
use pcc_io::{Bytes, Items};

/// What answers commands on a subspace.
#[derive(Debug, Drop)]
pub enum Device {
    /// `bank`: a device that keeps bytes.
    Bank,
    /// `cppc HEX`: registers of collaborative processor performance control (ACPI 6.5, 8.4.6), which first hold the bytes of the image.
    Cppc { image: Bytes },
}

/// `open ID bank` or `open ID cppc HEX`: the subspace of this ID is opened, with this device.
#[derive(Debug, Drop)]
pub struct OpenLine {
    pub id: u8,
    pub device: Device,
}

/// `cap ID COUNT VALUE`: from `count` executed commands on, the device of the subspace delivers no more performance than `value`.
#[derive(Clone, Copy, Debug, PartialEq, Eq)]
pub struct CapLine {
    pub id: u8,
    pub count: u64,
    pub value: u64,
}

/// What a `set` line asks of a processor: its desired performance, and the least and the greatest where they are asked for.
#[derive(Clone, Copy, Debug, PartialEq, Eq)]
pub struct Wish1 {
    pub cpu: u32,
    pub min: Option<u64>,
    pub desired: u64,
    pub max: Option<u64>,
}

/// An action of a worker. `polls` says how often it looks for completion, and `hold` how many turns the answering side lets pass before it
/// executes the command.
#[derive(Debug, Drop)]
pub enum Line {
    /// `call WORKER ID CODE HEX POLLS HOLD`: a command of these bytes on a subspace.
    Call {
        worker: u32,
        subspace: u32,
        code: u32,
        bytes: Bytes,
        polls: u32,
        hold: u32,
    },
    /// `read WORKER CPU POLLS HOLD`: reads the registers of a processor.
    Read {
        worker: u32,
        cpu: u32,
        polls: u32,
        hold: u32,
    },
    /// `set WORKER CPU MIN DESIRED MAX POLLS HOLD`: writes the registers of a processor. MIN and MAX may be `-`.
    Set {
        worker: u32,
        wish: Wish1,
        polls: u32,
        hold: u32,
    },
    /// `wait N`: n microseconds pass.
    Wait {
        n: u64,
    },
}

/// The side that makes a step: `o`, the operating system, or `p`, the platform.
#[derive(Clone, Copy, Debug, PartialEq, Eq)]
pub enum Letter {
    O,
    P,
}

/// The subspaces that are opened.
pub type Opens = Items<OpenLine>;

/// The processors' packages, each as its bytes. Processors are numbered from 0.
pub type Packages = Items<Bytes>;

/// The caps on performance.
pub type CapLines = Items<CapLine>;

/// The actions, in the order of their lines.
pub type Actions = Items<Line>;

/// The side of each step.
pub type Picks = Items<Letter>;

/// All that a script says.
#[derive(Debug, Drop)]
pub struct Scenario {
    /// The bytes of the PCC table (ACPI 6.5, 14.1).
    pub table: Bytes,
    /// The first reading of each clock.
    pub start: u64,
    /// By how much each reading of a clock is above the one before.
    pub step: u64,
    pub opens: Opens,
    pub cpus: Packages,
    pub caps: CapLines,
    pub actions: Actions,
    pub picks: Option<Picks>,
}
