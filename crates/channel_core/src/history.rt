//! The commands of an asking end, with their notes.
ghost use Rattle.std.specs.Prelude.{◌≡◌, ◌≤◌, ◌<◌, ◌+◌, ◌↔◌, None, length, IsErrOf, OnOk, OnErr};
ghost use Rattle.std.specs.Option.{option_copied};
ghost use Rattle.pcc_journal.specs.declared.reserved.TheConstants.{MAX_ITEMS};
ghost use Rattle.pcc_journal.specs.declared.reserved.ReserveRefusal.TheVariants as reserving;
ghost use Rattle.channel_core.specs.Sendings.{FliesWith, command_of, is_flying, is_given_up};
ghost use Rattle.channel_core.specs.CommandHistory.{marked_done, marked_late, marked_post, no_commands, posts_of, reserved};

use crate::{Flight, Reading};
use pcc_journal::{Journal, Note, Notes, Pending, ReserveRefusal};
use std::alloc::Global;
use std::marker::Model;

/// The records of the drained commands with their notes, and the command that is posted or in flight. That one has all the memory that it takes.
#[derive(Debug, Drop)]
pub struct History {
    journal: Journal,
    notes: Notes,
    flight: Option<Flight>,
}

impl Model for History {
    ghost use Rattle.std.specs.Prelude.{◌≡◌, ◌≤◌, length};
    ghost use Rattle.channel_core.specs.CommandHistory.{CommandHistory};
    ghost use Rattle.channel_core.specs.Sendings.{HasMemory, sent_of};

    ghost Value = { CommandHistory };

    ghost view = { λ h. record { records = h.journal.items; notes = h.notes.items; sent = sent_of h.flight; spare = h.journal.spare } };

    ghost invariant = { λ h. HasMemory h.flight h.journal.spare × (length h.notes.items ≡ length h.journal.items) × (h.journal.spare ≤ h.notes.spare) };
}

impl History {
    /// Nothing was posted. Takes no memory.
    pub fn new(alloc: Global) -> History
        ensures { result ≡ no_commands }
    {
        History {
            journal: Journal::new(alloc),
            notes: Notes::new(alloc),
            flight: None,
        }
    }

    /// The records, the first one first.
    pub fn journal(&self) -> &Journal
        ensures items { result.now.items ≡ self.now.records }
        ensures spare { result.now.spare ≡ self.now.spare }
        ensures most { length result.now.items + result.now.spare ≤ MAX_ITEMS }
    {
        // Its clause says that there are at most 4,096 records with the spare ones.
        self.journal.len();
        &self.journal
    }

    /// The notes beside the records.
    pub fn notes(&self) -> &Notes
        ensures items { result.now.items ≡ self.now.notes }
        ensures all { length result.now.items ≡ length self.now.records }
    {
        &self.notes
    }

    /// The command that is posted or in flight.
    pub fn pending(&self) -> Option<&Pending>
        ensures { option_copied result ≡ command_of self.now.sent }
    {
        match &self.flight {
            None => None,
            Some(flight) => Some(&flight.sent.command),
        }
    }

    /// Whether a command is posted or in flight.
    pub fn in_flight(&self) -> bool
        ensures { result ≡ is_flying self.now.sent }
    {
        self.flight.is_some()
    }

    /// Whether a command is in flight that was given up.
    pub fn given_up(&self) -> bool
        ensures { result ≡ is_given_up self.now.sent }
    {
        match &self.flight {
            None => false,
            Some(flight) => flight.sent.note.looks > 0,
        }
    }

    /// The commands that were posted, at most 4,096.
    pub fn posts(&self) -> usize
        ensures value { result ≡ posts_of self.now }
        ensures most { result ≤ MAX_ITEMS }
        ensures room { length self.now.records + self.now.spare ≤ MAX_ITEMS }
    {
        match &self.flight {
            None => self.journal.len(),
            Some(_) => self.journal.len() + 1,
        }
    }

    /// Takes the memory of one more record and note, beside that of a command in flight.
    pub fn reserve(&mut self) -> Result<(), ReserveRefusal>
        ensures ok { OnOk result (self.new ≡ reserved self.old) }
        ensures full { IsErrOf result reserving.JournalFull ↔ (posts_of self.old ≡ MAX_ITEMS) }
        ensures err { OnErr result (self.new ≡ self.old) }
        ensures most { length self.new.records + self.new.spare ≤ MAX_ITEMS }
    {
        let wanted = usize::from(self.in_flight()) + 1;
        self.notes.reserve_for(wanted)?;
        self.journal.reserve_for(wanted)
    }

    /// A command is posted, with the memory for its reply.
    pub fn mark_post(&mut self, flight: Flight)
        requires free { self.old.sent ≡ None }
        requires spare { 0 < self.old.spare }
        requires reply { length flight.reply.items ≡ length flight.sent.command.input }
        ensures { self.new ≡ marked_post flight.sent self.old }
    {
        self.flight = Some(flight);
    }

    /// The caller of the command in flight gives it up after N looks. The looks of the first time are kept.
    pub fn mark_late(&mut self, looks: u32)
        ensures { self.new ≡ marked_late looks self.old }
    {
        if let Some(flight) = &mut self.flight {
            if flight.sent.note.looks == 0 {
                flight.sent.note.looks = looks;
            }
        }
    }

    /// The reply of the command in flight came back: its record and its note are put last. Reports the record's place, from 0.
    pub fn mark_done(&mut self, error: bool, output: &[u8], done: &Reading) -> u32
        requires { FliesWith self.old.sent (length output.now) }
        ensures state { self.new ≡ marked_done error output.now done.now.at done.now.number self.old }
        ensures place { result ≡ length self.old.records }
    {
        match self.flight.take() {
            None => unreachable!(),
            Some(flight) => {
                let place = self.journal.len() as u32;
                let note = Note {
                    done_at: done.number,
                    ..flight.sent.note
                };
                self.journal.append(flight.recorded(error, output, done.at));
                self.notes.append(note);
                place
            }
        }
    }
}
