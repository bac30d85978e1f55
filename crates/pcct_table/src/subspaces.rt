//! The structures of a table.
ghost use Rattle.std.specs.Prelude.{◌≡◌, ◌<◌, ◌≤◌, [], ◌∷◌, ◌++◌, length, slice_index_or, OnOk, OnErr};
ghost use Rattle.pcct_table.specs.declared.subspaces.TheConstants.{MAX_SUBSPACES};

use crate::subspace::Subspace;
use pcc_io::NoMemory;
use std::alloc::Global;
use std::marker::Model;

/// How many structures a table may have (ACPI 6.5, 14.1).
pub const MAX_SUBSPACES: usize = 256;

/// A list of at most `MAX_SUBSPACES` structures. A subspace's ID is its place in it.
#[derive(Debug, Drop)]
pub struct Subspaces {
    items: Vec<Subspace>,
}

impl Model for Subspaces {
    ghost use Rattle.std.specs.Prelude.{List, ◌≤◌, length};
    ghost use Rattle.pcct_table.specs.declared.subspace.Subspace.{Subspace};

    ghost Value = { List Subspace };

    ghost view = { λ s. s.items.items };

    ghost invariant = { λ s. length s.items.items ≤ 256 };
}

impl Subspaces {
    pub fn new(alloc: Global) -> Subspaces
        ensures { result ≡ [] }
    {
        Subspaces {
            items: Vec::new(alloc),
        }
    }

    pub fn len(&self) -> usize
        ensures count { result ≡ length self.now }
        ensures few { result ≤ 256 }
    {
        self.items.len()
    }

    pub fn at(&self, place: usize) -> &Subspace
        requires { place < length self.now }
        ensures { result.now ≡ slice_index_or self.now place result.now }
    {
        &self.items[place]
    }

    /// Puts the structure last.
    pub fn push(&mut self, item: Subspace) -> Result<(), NoMemory>
        requires { length self.old < 256 }
        ensures ok { OnOk result (self.new ≡ self.old ++ item ∷ []) }
        ensures err { OnErr result (self.new ≡ self.old) }
    {
        self.items.push(item)?;
        Ok(())
    }

    pub fn as_slice(&self) -> &[Subspace]
        ensures items { result.now ≡ self.now }
        ensures few { length result.now ≤ 256 }
    {
        self.items.as_slice()
    }
}

/// The limit as a number, so that it doesn't change unseen. It does nothing.
pub fn limits_are()
    ensures subspaces { MAX_SUBSPACES ≡ 256 }
{}
