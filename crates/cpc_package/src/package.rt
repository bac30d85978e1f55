//! Packages, from bytes and into bytes.
ghost use Rattle.std.specs.Prelude.{◌≡◌, ◌⊎◌, ◌<◌, ◌≤◌, ◌^◌, ◌++◌, ℕ, List, length, take, IfOk, IfErr, MatchResult, All};
ghost use Rattle.pcc_bytes.specs.Bytes.{IsBytes};
ghost use Rattle.aml_pkg.specs.declared.item.Item.{Item};
ghost use Rattle.cpc_package.specs.Entries.{elements_of, entries_of, entry_at};
ghost use Rattle.cpc_package.specs.Packages.{CpcBytes, CpcWrong, HasFault, HasPackage, HasSeventeen, IsCount, IsCpc, IsTold, Tells};
ghost use Rattle.cpc_package.specs.Raising.{raised};
ghost use Rattle.cpc_package.specs.declared.fault.CpcFault.{CpcFault};
ghost use Rattle.cpc_package.specs.declared.fault.CpcError.TheVariants.{NoMemory as OutOfMemory};

use crate::entry::Entry;
use crate::fault::CpcError;
use crate::raising::raised_item;
use crate::register::entry_of;
use crate::testing::item_fault;
use aml_pkg::{Element, Item, item_laws, item_to, read_item};
use pcc_io::NoMemory;
use std::alloc::Global;
use std::marker::Model;

/// A package with its spelling, for the continuous performance control of one processor (`_CPC`, ACPI 6.5, 8.4.6.1).
#[derive(Debug, Drop)]
pub struct Cpc {
    item: Item,
}

impl Model for Cpc {
    ghost use Rattle.aml_pkg.specs.declared.item.Item.{Item};
    ghost use Rattle.aml_pkg.specs.Spelling.{IsItem};
    ghost use Rattle.cpc_package.specs.Packages.{IsCpc};

    ghost Value = { Item };

    ghost view = { λ cpc. cpc.item };

    ghost invariant = { λ cpc. IsItem cpc.item × IsCpc cpc.item };
}

impl Cpc {
    /// The elements, each as it is spelled.
    pub(crate) fn elements(&self) -> &[Element]
        ensures value { result.now ≡ elements_of self.now }
        ensures sized { All HasSeventeen result.now }
        ensures count { IsCount (length result.now) }
        ensures right { IsCpc self.now }
    {
        match &self.item {
            Item::Package { items, .. } => items.as_slice(),
            Item::Element(_) => unreachable!(),
        }
    }

    /// How many entries the package has: 21 of revision 2, or 23 of revision 3.
    #[tactic(auto, using(crate::proofs::Sizes::entries_length, crate::proofs::Sizes::count_most))]
    pub fn entries(&self) -> u8
        ensures count { result ≡ length (entries_of self.now) }
        ensures all { IsCount result }
        ensures right { IsCpc self.now }
    {
        self.elements().len() as u8
    }

    /// What an entry says, by its number.
    #[tactic(auto, using(crate::proofs::Sizes::entries_length, crate::proofs::Sizes::entry_read))]
    pub fn entry(&self, n: u8) -> Entry
        requires { n < length (entries_of self.now) }
        ensures { result ≡ entry_at (entries_of self.now) n }
    {
        entry_of(&self.elements()[usize::from(n)])
    }
}

/// The package with which the bytes begin (ACPI 6.5, 8.4.6.1), and how many bytes it has. The bytes after it are not looked at.
pub fn cpc_from(alloc: Global, bytes: &[u8]) -> Result<(Cpc, usize), CpcError>
    requires { length bytes.now < 2 ^ 32 }
    // A package is one that the first bytes spell.
    ensures found { IfOk result (λ x. (x.1 ≤ length bytes.now) × CpcBytes (take x.1 bytes.now) x.0) }
    // What the bytes begin with is read, unless memory runs out.
    ensures only { (cpc : Item) (front rest : List ℕ) → CpcBytes front cpc → bytes.now ≡ front ++ rest
        → MatchResult result (λ x. (x.0 ≡ cpc) × (x.1 ≡ length front)) (λ e. e ≡ OutOfMemory) }
    // What is reported is wrong, and what is wrong is reported, unless memory runs out.
    ensures wrong { IfErr result (λ e. IsTold bytes.now e) }
    ensures exact { (fault : CpcFault) → CpcWrong bytes.now fault → MatchResult result (λ _. ⊥) (λ e. Tells e fault) }
{
    let (item, used) = read_item(alloc, bytes)?;
    match item_fault(&item) {
        None => Ok((Cpc { item }, used)),
        Some(fault) => Err(CpcError::from(fault)),
    }
}

/// The bytes that spell the package.
pub fn cpc_to(alloc: Global, cpc: &Cpc) -> Result<Vec<u8>, NoMemory>
    ensures { IfOk result (λ v. CpcBytes v.items cpc.now) }
{
    item_to(alloc, &cpc.item)
}

/// The package as one of revision 3: itself where it has that revision, and else with entries 2 to 20 as they are spelled, the number of
/// entries and the revision as bytes, the lowest and the nominal frequency as zeros, and its length with as many bytes that follow.
#[tactic(auto, using(crate::proofs::Raised::raised_is, crate::proofs::Raised::raised_cpc))]
pub fn cpc_raise(alloc: Global, cpc: &Cpc) -> Result<Cpc, NoMemory>
    ensures { IfOk result (λ c. c ≡ raised cpc.now) }
{
    let item = raised_item(alloc, &cpc.item)?;
    Ok(Cpc { item })
}

/// Bytes begin with one package, or one thing is wrong first. A package has one spelling. It does nothing.
pub fn package_laws()
    ensures some { (bytes : List ℕ) → IsBytes bytes → HasPackage bytes ⊎ HasFault bytes }
    ensures not_both { (bytes : List ℕ) → HasPackage bytes → HasFault bytes → ⊥ }
    ensures one_package { (front rest other left : List ℕ) (cpc c : Item) → CpcBytes front cpc → CpcBytes other c
        → front ++ rest ≡ other ++ left → cpc ≡ c }
    ensures one_fault { (bytes : List ℕ) (fault other : CpcFault) → CpcWrong bytes fault → CpcWrong bytes other → fault ≡ other }
    ensures one_spelling { (bytes other : List ℕ) (cpc : Item) → CpcBytes bytes cpc → CpcBytes other cpc → bytes ≡ other }
{
    item_laws();
}
