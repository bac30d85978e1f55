//! A list of 4,096 items at most that takes the memory for its next items ahead, so that they are put last with no memory taken. The journal
//! and the lists beside it are such lists.
ghost use Rattle.std.specs.Prelude.{◌≡◌, ◌≤◌, ◌<◌, ◌+◌, ◌-◌, ◌++◌, ◌∷◌, [], ◌↔◌, length, max, slice_index_or, IsErrOf, OnOk, OnErr};
ghost use Rattle.pcc_journal.specs.declared.reserved.ReserveRefusal.TheVariants.{NoMemory as OutOfMemory};
ghost use Rattle.pcc_journal.specs.declared.reserved.TheConstants.{MAX_ITEMS};

use pcc_io::NoMemory;
use std::alloc::{AllocError, Global};
use std::marker::Model;

/// How many items such a list may have, together with those for which memory is taken ahead.
pub const MAX_ITEMS: usize = 4096;

/// Why no memory was taken ahead.
#[derive(Clone, Copy, Debug, PartialEq, Eq)]
pub enum ReserveRefusal {
    /// There would be more than 4,096 items.
    JournalFull,
    /// Memory ran out.
    NoMemory,
}

impl From<AllocError> for ReserveRefusal {
    ghost from_gives = { λ _ e. e ≡ OutOfMemory };

    fn from(_: AllocError) -> ReserveRefusal {
        ReserveRefusal::NoMemory
    }
}

/// A list with memory for its next `spare` items.
#[derive(Debug, Drop)]
pub struct Reserved<T> {
    items: Vec<T>,
    spare: usize,
}

impl<T> Model for Reserved<T> {
    ghost use Rattle.std.specs.Prelude.{◌≤◌, ◌+◌, vec_len, vec_capacity};
    ghost use Rattle.pcc_journal.specs.WithSpare.{WithSpare, with_spare_code};
    ghost use Rattle.pcc_journal.specs.declared.reserved.TheConstants.{MAX_ITEMS};

    ghost Value = { WithSpare T };

    ghost coded = { with_spare_code T.code };

    ghost view = { λ r. record { items = r.items.items; spare = r.spare } };

    ghost invariant = { λ r. (vec_len r.items + r.spare ≤ vec_capacity r.items) × (vec_len r.items + r.spare ≤ MAX_ITEMS) };
}

impl<T> Reserved<T> {
    /// Takes no memory.
    pub fn new(alloc: Global) -> Reserved<T>
        ensures { result ≡ record { items = []; spare = 0 } }
    {
        Reserved {
            items: Vec::new(alloc),
            spare: 0,
        }
    }

    pub fn len(&self) -> usize
        ensures value { result ≡ length self.now.items }
        ensures most { length self.now.items + self.now.spare ≤ MAX_ITEMS }
    {
        let _ = &self.spare;
        self.items.len()
    }

    pub fn at(&self, place: usize) -> &T
        requires { place < length self.now.items }
        ensures { result.now ≡ slice_index_or self.now.items place result.now }
    {
        &self.items[place]
    }

    pub fn as_slice(&self) -> &[T]
        ensures { result.now ≡ self.now.items }
    {
        self.items.as_slice()
    }

    /// Takes memory ahead for one item at least.
    pub fn reserve(&mut self) -> Result<(), ReserveRefusal>
        ensures items { self.new.items ≡ self.old.items }
        ensures ok { OnOk result (self.new.spare ≡ max self.old.spare 1) }
        ensures full { IsErrOf result ReserveRefusal.JournalFull ↔ (length self.old.items ≡ MAX_ITEMS) }
        ensures err { OnErr result (self.new.spare ≡ self.old.spare) }
    {
        self.reserve_for(1)
    }

    /// Takes memory ahead for this many items at least.
    pub fn reserve_for(&mut self, n: usize) -> Result<(), ReserveRefusal>
        ensures items { self.new.items ≡ self.old.items }
        ensures ok { OnOk result (self.new.spare ≡ max self.old.spare n) }
        ensures full { IsErrOf result ReserveRefusal.JournalFull ↔ (MAX_ITEMS < length self.old.items + n) }
        ensures err { OnErr result (self.new.spare ≡ self.old.spare) }
        ensures most { length self.new.items + self.new.spare ≤ MAX_ITEMS }
    {
        if n > MAX_ITEMS - self.items.len() {
            return Err(ReserveRefusal::JournalFull);
        }
        if n <= self.spare {
            return Ok(());
        }
        self.items.reserve(n)?;
        self.spare = n;
        Ok(())
    }
}

impl<T: Drop> Reserved<T> {
    /// Puts the entry last, into memory that was taken ahead.
    pub fn append(&mut self, entry: T)
        requires { 0 < self.old.spare }
        ensures items { self.new.items ≡ self.old.items ++ entry ∷ [] }
        ensures spare { self.new.spare ≡ self.old.spare - 1 }
    {
        match self.items.push(entry) {
            Ok(()) => self.spare -= 1,
            Err(_) => unreachable!(),
        }
    }

    /// Puts the item last, into memory of its own. A refused item is dropped.
    pub fn push(&mut self, item: T) -> Result<(), NoMemory>
        requires { length self.old.items + self.old.spare < MAX_ITEMS }
        ensures spare { self.new.spare ≡ self.old.spare }
        ensures ok { OnOk result (self.new.items ≡ self.old.items ++ item ∷ []) }
        ensures err { OnErr result (self.new.items ≡ self.old.items) }
    {
        self.items.reserve(self.spare + 1)?;
        match self.items.push(item) {
            Ok(()) => Ok(()),
            Err(_) => unreachable!(),
        }
    }
}
