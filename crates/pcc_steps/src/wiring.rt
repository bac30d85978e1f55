//! How a subspace is wired: what both ends need of its structure for their word steps (ACPI 6.5, 14.1).
ghost use Rattle.std.specs.Prelude.{◌≡◌, ◌+◌};
ghost use Rattle.pcc_steps.specs.Wires.{style_of, heads_of, block_of};

use crate::kind::{is_headed, is_initiator, is_responder};
use pcc_gas::Masks;

/// A subspace as its two ends see it. Masks are cut to the width of their register.
#[derive(Clone, Copy, Debug, PartialEq, Eq)]
pub struct Wiring {
    /// The type of the subspace, from 0 to 5.
    pub kind: u8,
    /// The subspace's ID, which its signature carries.
    pub id: u8,
    /// Commands ask for a notification when they are complete.
    pub notify: bool,
    /// The check register and the update register are one (types 3 and 4).
    pub joined: bool,
    /// There is a doorbell register.
    pub has_bell: bool,
    /// There is an acknowledge register.
    pub has_ack: bool,
    /// The answering side reports errors.
    pub reports: bool,
    /// The bytes of the communication space that are used: a multiple of 8, from 8 to 4,096.
    pub room: u32,
    /// How the doorbell register is written.
    pub bell: Masks,
    /// How the acknowledge register is written.
    pub ack: Masks,
    /// How the update register is written.
    pub update: Masks,
    /// The bits of the check register that say that a command is complete (types 3 to 5).
    pub check_mask: u64,
    /// The bits of the error register that say that a command failed (types 3 to 5).
    pub error_mask: u64,
}

/// How the ends of a subspace signal that a command is complete.
#[derive(Clone, Copy, Debug, PartialEq, Eq)]
pub enum Style {
    /// Types 0 to 2: by the status in the generic header.
    Headed,
    /// Type 3, where the update register is the check register.
    Joined3,
    /// Type 3 with an update register of its own.
    Separate3,
    /// Type 4, where the update register is the check register.
    Joined4,
    /// Type 4 with an update register of its own.
    Separate4,
    /// Type 5: by the check register, which the doorbell clears.
    Reduced5,
}

/// What an end does next with one word of the subspace. Places count words.
#[derive(Clone, Copy, Debug, PartialEq, Eq)]
pub enum Action {
    /// Load the word at a place.
    Load(u32),
    /// Store a word at a place.
    Store(u32, u64),
    /// Store a word at a place, and take the one that was there.
    Swap(u32, u64),
    /// Execute the command of this code.
    Execute { code: u32 },
    /// Nothing: no run is under way.
    Rest,
}

/// The places of a subspace's words. The words of the block begin at `BLOCK`.
pub mod place {
    /// The generic header (types 0 to 2) or the check register (types 3 to 5).
    pub const COMPLETION: u32 = 0;
    /// The doorbell register.
    pub const BELL: u32 = 1;
    /// The line that the doorbell raises, 0 or 1.
    pub const BELL_LINE: u32 = 2;
    /// The error register.
    pub const ERROR: u32 = 3;
    /// The interrupt line, 0 or 1.
    pub const INTERRUPT: u32 = 4;
    /// The acknowledge register.
    pub const ACK: u32 = 5;
    /// The update register, where it isn't the check register.
    pub const UPDATE: u32 = 6;
    /// The first word of the block: header words of types 3 to 5, then the space.
    pub const BLOCK: u32 = 8;
}

impl Wiring {
    /// The number of words of the block: the header words of types 3 to 5, and the space in words of 8 bytes.
    pub fn block(&self) -> u32
        ensures { result ≡ block_of self.now }
    {
        self.style().heads() + self.room / 8
    }

    /// The number of words of the subspace.
    pub fn words(&self) -> u32
        ensures { result ≡ 8 + block_of self.now }
    {
        place::BLOCK + self.block()
    }

    pub(crate) fn style(&self) -> Style
        ensures { result ≡ style_of self.now }
    {
        if is_headed(self.kind) {
            return Style::Headed;
        }
        if is_initiator(self.kind) {
            return if self.joined {
                Style::Joined3
            } else {
                Style::Separate3
            };
        }
        if is_responder(self.kind) {
            return if self.joined {
                Style::Joined4
            } else {
                Style::Separate4
            };
        }
        Style::Reduced5
    }
}

impl Style {
    /// The number of header words of the block.
    pub(crate) fn heads(self) -> u32
        ensures { result ≡ heads_of self }
    {
        match self {
            Style::Headed => 0,
            Style::Reduced5 => 1,
            Style::Joined3 | Style::Separate3 | Style::Joined4 | Style::Separate4 => 2,
        }
    }
}
