//! A device that keeps one space.
ghost use Rattle.std.specs.Prelude.{◌≡◌, ◌∷◌, replicate, IfOk};

use crate::{ExecStatus, Executor};
use pcc_bytes::are_bytes;
use pcc_io::NoMemory;
use std::alloc::Global;
use std::marker::Model;

/// A store of one space, at first of zero bytes.
#[derive(Drop)]
pub struct Bank {
    held: Vec<u8>,
    room: u32,
}

impl Model for Bank {
    ghost use Rattle.std.specs.Prelude.{◌≡◌, List, ℕ, ◌∷◌, vec_len};

    ghost Value = { List ℕ };

    ghost view = { λ b. 0 ∷ b.held.items };

    ghost invariant = { λ b. vec_len b.held ≡ b.room };
}

impl Bank {
    /// The command that takes the space in and gives out what was held.
    pub const EXCHANGE: u32 = 0x10;

    /// The command that gives out what is held, and keeps it.
    pub const FETCH: u32 = 0x11;

    /// A Bank for spaces of this many bytes.
    pub fn new(alloc: Global, room: u32) -> Result<Bank, NoMemory>
        ensures { IfOk result (λ b. b ≡ 0 ∷ replicate room 0) }
    {
        Ok(Bank {
            held: vec![in alloc; 0; room as usize]?,
            room,
        })
    }
}

impl Executor for Bank {
    ghost use Rattle.pcc_history.specs.Devices.{bank_exec};
    ghost use Rattle.pcc_exec.specs.Execution.{bank_room, IsBank};
    ghost use Rattle.pcc_exec.specs.Banks.{bank_keeps};

    ghost state = { λ b. b };

    ghost exec_of = { bank_exec };

    ghost room_of = { bank_room };

    ghost is_state = { IsBank };

    ghost keeps = { bank_keeps };

    fn exec(&mut self, code: u32, space: &mut [u8]) -> ExecStatus {
        match code {
            Bank::EXCHANGE => {
                self.held.swap_with_slice(space);
                ExecStatus::Good
            }
            Bank::FETCH => {
                space.copy_from_slice(&self.held);
                ExecStatus::Good
            }
            _ => ExecStatus::Bad,
        }
    }

    fn room(&self) -> u32 {
        // What is held are bytes, as each state has it.
        are_bytes(&self.held);
        self.room
    }
}
