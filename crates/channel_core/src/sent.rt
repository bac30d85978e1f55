//! The command that is posted or in flight.
ghost use Rattle.std.specs.Prelude.{◌≡◌, length};
ghost use Rattle.channel_core.specs.Sendings.{record_of};

use pcc_io::Bytes;
use pcc_journal::{Note, Pending, Record};

/// A command that is posted or in flight, with its note as far as that is begun. The note's looks are 0 until a caller gives the command up, and its
/// number of the completion is 0.
#[derive(Debug, Drop)]
pub struct Sent {
    pub command: Pending,
    pub note: Note,
}

/// It with the memory for its reply.
#[derive(Debug, Drop)]
pub struct Flight {
    pub sent: Sent,
    pub reply: Vec<u8>,
}

impl Flight {
    /// The record of the command, whose reply came back at a reading.
    pub(crate) fn recorded(self, error: bool, output: &[u8], done: u64) -> Record
        requires { length self.reply.items ≡ length output.now }
        ensures { result ≡ record_of self.sent error output.now done }
    {
        let late = self.sent.note.looks > 0;
        let command = self.sent.command;
        let mut reply = self.reply;
        reply.copy_from_slice(output);
        Record {
            caller: command.caller,
            code: command.code,
            input: command.input,
            error,
            output: Bytes::from_vec(reply),
            post: command.post,
            done,
            late,
        }
    }
}
