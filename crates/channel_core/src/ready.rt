//! A command that is made ready, with all the memory that it takes.
ghost use Rattle.std.specs.Prelude.{◌≡◌, ◌≤◌, ◌<◌, ◌+◌, IfOk, length};
ghost use Rattle.std.specs.Borrow.{sem};
ghost use Rattle.pcc_bytes.specs.Bytes.{IsBytes};
ghost use Rattle.pcc_journal.specs.declared.reserved.TheConstants.{MAX_ITEMS};
ghost use Rattle.channel_core.specs.Readying.{IsReadied, sent_by};
ghost use Rattle.channel_core.specs.Lending.{LendsBytes};

use crate::refusals::refusal;
use crate::{CallRefusal, Flight, History, Reading, Sent};
use pcc_bytes::are_bytes;
use pcc_io::{Bytes, NoMemory};
use pcc_journal::{Note, Pending};
use std::alloc::Global;
use std::marker::Model;

/// A command for subspaces of one type and room: its code, and the bytes that are laid over the front of the communication space.
#[derive(Debug, Drop)]
pub struct Ready {
    kind: u8,
    room: u32,
    code: u32,
    // With the memory for the whole input.
    bytes: Vec<u8>,
    reply: Vec<u8>,
}

impl Model for Ready {
    ghost use Rattle.std.specs.Prelude.{length, vec_capacity};
    ghost use Rattle.channel_core.specs.Readying.{HasRoomFor, ReadyCommand};

    ghost Value = { ReadyCommand };

    ghost view = { λ r. record { kind = r.kind; room = r.room; code = r.code; bytes = r.bytes.items } };

    ghost invariant = { λ r. HasRoomFor r.kind r.room r.code (length r.bytes.items) (vec_capacity r.bytes) (length r.reply.items) };
}

impl Ready {
    /// A command of this code with these bytes.
    pub fn new(
        alloc: Global,
        kind: u8,
        room: u32,
        code: u32,
        bytes: &[u8],
    ) -> Result<Ready, NoMemory>
        requires byte { kind ≤ 2 → code < 256 }
        requires fits { length bytes.now ≤ room }
        ensures { IfOk result (λ r. r ≡ record { kind = kind; room = room; code = code; bytes = bytes.now }) }
    {
        let mut input = Vec::with_capacity(alloc, room as usize)?;
        match input.extend_from_slice(bytes) {
            Ok(()) => {}
            Err(_) => unreachable!(),
        }
        let reply = vec![in alloc; 0; room as usize]?;
        Ok(Ready {
            kind,
            room,
            code,
            bytes: input,
            reply,
        })
    }

    /// The command's code.
    pub fn code(&self) -> u32
        ensures code { result ≡ self.now.code }
        ensures byte { self.now.kind ≤ 2 → result < 256 }
        ensures fits { length self.now.bytes ≤ self.now.room }
    {
        self.code
    }

    /// The bytes that are laid over the front of the space.
    pub fn bytes(&self) -> &[u8]
        ensures value { result.now ≡ self.now.bytes }
        ensures bytes { IsBytes result.now }
    {
        are_bytes(&self.bytes);
        &self.bytes
    }

    /// Lends its bytes.
    pub fn bytes_mut(&mut self) -> &mut [u8]
        ensures* writes_back { sem 𝓛 (LendsBytes self.entry result) }
        ensures value { result.now ≡ self.old.bytes }
    {
        self.bytes.as_mut_slice()
    }

    /// Makes these its bytes.
    pub fn fill(&mut self, bytes: &[u8])
        requires { length bytes.now ≤ self.old.room }
        ensures { self.new ≡ record self.old { bytes = bytes.now } }
    {
        self.bytes.clear();
        match self.bytes.extend_from_slice(bytes) {
            Ok(()) => {}
            Err(_) => unreachable!(),
        }
    }

    /// The command as it is posted by a caller at a reading, over a space.
    pub fn fly(self, caller: u32, post: &Reading, space: &[u8]) -> Flight
        requires { length space.now ≡ self.room }
        ensures sent { result.sent ≡ sent_by caller self post.now space.now }
        ensures reply { length result.reply.items ≡ self.room }
    {
        let code = self.code;
        let mut input = self.bytes;
        let len = input.len();
        match input.extend_from_slice(&space[len..]) {
            Ok(()) => {}
            Err(_) => unreachable!(),
        }
        Flight {
            sent: Sent {
                command: Pending {
                    caller,
                    code,
                    input: Bytes::from_vec(input),
                    post: post.at,
                },
                note: Note {
                    post_at: post.number,
                    done_at: 0,
                    looks: 0,
                },
            },
            reply: self.reply,
        }
    }
}

/// Makes a command ready, with the memory of its record beside that of a command in flight. A code above 255 on types 0 to 2, more bytes than the
/// space has, and 4,096 posts are refused, in this order.
pub fn make_ready(
    history: &mut History,
    alloc: Global,
    kind: u8,
    room: u32,
    code: u32,
    bytes: &[u8],
) -> Result<Ready, CallRefusal>
    ensures readied { IsReadied history.old (record { kind = kind; room = room; code = code; bytes = bytes.now }) history.new result }
    ensures most { length history.new.records + history.new.spare ≤ MAX_ITEMS }
{
    if let Some(refusal) = refusal(kind, room, code, bytes.len(), history.posts()) {
        return Err(refusal);
    }
    let ready = match Ready::new(alloc, kind, room, code, bytes) {
        Ok(ready) => ready,
        Err(_) => return Err(CallRefusal::NoMemory),
    };
    match history.reserve() {
        Ok(()) => Ok(ready),
        Err(_) => Err(CallRefusal::NoMemory),
    }
}
