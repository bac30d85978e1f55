//! The records of a subspace, with the times of its commands beside them.
ghost use Rattle.std.specs.Prelude.{◌≡◌, ◌≤◌, ◌<◌, ◌+◌, ◌-◌, ◌++◌, ◌∷◌, [], ◌↔◌, length, max, slice_index_or, IsErrOf, OnOk, OnErr};
ghost use Rattle.pcc_journal.specs.declared.reserved.TheConstants.{MAX_ITEMS};
ghost use Rattle.pcc_journal.specs.Records.{times_of};

use crate::{Record, ReserveRefusal, Reserved};
use rate_limit::Times;
use std::alloc::Global;
use std::marker::Model;

/// A list of 4,096 records at most, in the order of their completion.
#[derive(Debug, Drop)]
pub struct Journal {
    records: Reserved<Record>,
    times: Reserved<Times>,
}

impl Model for Journal {
    ghost use Rattle.std.specs.Prelude.{◌≡◌, ◌≤◌};
    ghost use Rattle.pcc_journal.specs.WithSpare.{WithSpare};
    ghost use Rattle.pcc_journal.specs.declared.record.Record.{Record};
    ghost use Rattle.pcc_journal.specs.Records.{times_of};

    ghost Value = { WithSpare Record };

    ghost view = { λ j. j.records };

    ghost invariant = { λ j. (j.times.items ≡ times_of j.records.items) × (j.records.spare ≤ j.times.spare) };
}

impl Journal {
    /// Takes no memory.
    pub fn new(alloc: Global) -> Journal
        ensures { result ≡ record { items = []; spare = 0 } }
    {
        Journal {
            records: Reserved::new(alloc),
            times: Reserved::new(alloc),
        }
    }

    pub fn len(&self) -> usize
        ensures value { result ≡ length self.now.items }
        ensures most { length self.now.items + self.now.spare ≤ MAX_ITEMS }
    {
        self.records.len()
    }

    pub fn at(&self, place: usize) -> &Record
        requires { place < length self.now.items }
        ensures { result.now ≡ slice_index_or self.now.items place result.now }
    {
        self.records.at(place)
    }

    pub fn as_slice(&self) -> &[Record]
        ensures { result.now ≡ self.now.items }
    {
        self.records.as_slice()
    }

    /// When the commands were posted and done.
    pub fn times(&self) -> &[Times]
        ensures { result.now ≡ times_of self.now.items }
    {
        self.times.as_slice()
    }

    /// Takes memory ahead for one record at least.
    pub fn reserve(&mut self) -> Result<(), ReserveRefusal>
        ensures items { self.new.items ≡ self.old.items }
        ensures ok { OnOk result (self.new.spare ≡ max self.old.spare 1) }
        ensures full { IsErrOf result ReserveRefusal.JournalFull ↔ (length self.old.items ≡ MAX_ITEMS) }
        ensures err { OnErr result (self.new.spare ≡ self.old.spare) }
    {
        self.reserve_for(1)
    }

    /// Takes memory ahead for this many records at least.
    pub fn reserve_for(&mut self, n: usize) -> Result<(), ReserveRefusal>
        ensures items { self.new.items ≡ self.old.items }
        ensures ok { OnOk result (self.new.spare ≡ max self.old.spare n) }
        ensures full { IsErrOf result ReserveRefusal.JournalFull ↔ (MAX_ITEMS < length self.old.items + n) }
        ensures err { OnErr result (self.new.spare ≡ self.old.spare) }
        ensures most { length self.new.items + self.new.spare ≤ MAX_ITEMS }
    {
        self.times.reserve_for(n)?;
        self.records.reserve_for(n)
    }

    /// Puts the record last, into memory that was taken ahead.
    pub fn append(&mut self, entry: Record)
        requires { 0 < self.old.spare }
        ensures items { self.new.items ≡ self.old.items ++ entry ∷ [] }
        ensures spare { self.new.spare ≡ self.old.spare - 1 }
    {
        self.times.append(Times {
            post: entry.post,
            done: entry.done,
        });
        self.records.append(entry);
    }
}
