//! Which entries of a package are fields of a communication space.
ghost use Rattle.std.specs.Prelude.{◌≡◌, ◌<◌, ◌≤◌, ◌*◌, ◌^◌, ◌↔◌, List, ℕ, length, take, true, Some, None, IfOk, MatchResult};
ghost use Rattle.aml_pkg.specs.declared.item.Item.{Item};
ghost use Rattle.pcc_gas.specs.declared.address.Gas.{Gas};
ghost use Rattle.cpc_package.specs.declared.entry.Entry.{Entry};
ghost use Rattle.pcc_gas.specs.Fields.{AreApart};
ghost use Rattle.pcc_gas.specs.declared.field.Field.{Field};
ghost use Rattle.cpc_package.specs.Entries.{entries_of, entry_at};
ghost use Rattle.cpc_package.specs.Packages.{IsCpc};
ghost use Rattle.cpc_package.specs.Bindings.{
  CanRead,
  IsBinding,
  IsRight,
  LiesIn,
  bind_fault,
  binding_of,
  bounds_fault,
  end_of,
  field_of,
  first_sharing,
  first_subspace,
  gas_of,
  is_absent,
  number_in,
  number_of,
  register_test,
  registers_fault,
  scale_fault,
  share_bit,
  source_at,
  source_by,
  source_of,
};
ghost use Rattle.cpc_package.specs.declared.rows.TheConstants.{ENTRIES};

use crate::entry::Entry;
use crate::package::Cpc;
use crate::rows::ENTRIES;
use pcc_gas::{Field, Gas, field_get};
use pcc_io::Items;

/// The space of communication channels (ACPI 6.5, 5.2.3.2).
const PCC: u8 = 0x0a;

/// What an entry gives.
#[derive(Clone, Copy, Debug, PartialEq, Eq)]
pub enum Source1 {
    /// Nothing.
    Missing,
    /// A number that never changes.
    Number(u64),
    /// The number in a field of the space.
    At(Field),
}

/// A package in a subspace: what each entry gives, by its number. Entries 0 and 1 and those that a package hasn't are missing.
#[derive(Clone, Copy, Debug, PartialEq, Eq)]
pub struct Binding {
    /// The subspace's index in the table.
    pub subspace: u8,
    pub sources: [Source1; ENTRIES],
}

/// Bindings in order, one for each processor.
pub type Cpus = Items<Binding>;

/// Why a package can't be bound: of each register in order the first test that fails, and then what is missing.
#[derive(Clone, Copy, Debug, PartialEq, Eq)]
pub enum BindFault {
    /// The register lies in another space than that of communication channels.
    NotPcc {
        entry: u8,
    },
    /// The register lies in another subspace than the first one.
    TwoSubspaces {
        entry: u8,
    },
    /// The register has no bit, or more than 64.
    BadWidth {
        entry: u8,
    },
    /// The register ends past the end of the communication space.
    FieldOutside {
        entry: u8,
    },
    /// Entry b has a bit of entry a, the first of those before it that share one.
    FieldsOverlap {
        a: u8,
        b: u8,
    },
    /// The desired performance, entry 7, is absent.
    NoDesired,
    /// The lowest performance, entry 5, is absent, or else the highest, entry 2.
    NoBound {
        entry: u8,
    },
    /// The lowest, the nominal and the highest performance are integers that don't rise in this order.
    BadScale {
        lowest: u64,
        nominal: u64,
        highest: u64,
    },
}

/// The address of a register that is present.
fn gas_of(entry: Entry) -> Option<Gas>
    ensures { result ≡ gas_of entry }
{
    match entry {
        Entry::Register(register) => Some(register.gas),
        Entry::Integer(_) | Entry::Absent { .. } => None,
    }
}

/// The first bit of a register.
fn start_of(gas: Gas) -> u128
    ensures { result ≡ (field_of gas).at_bit }
{
    8 * u128::from(gas.address) + u128::from(gas.offset)
}

/// The first bit after a register.
fn end_of(gas: Gas) -> u128
    ensures { result ≡ end_of (field_of gas) }
{
    start_of(gas) + u128::from(gas.width)
}

/// Whether some bit is in both registers.
fn share_bit(gas: Gas, other: Gas) -> bool
    ensures { result ≡ share_bit (field_of gas) (field_of other) }
{
    start_of(gas) < end_of(gas)
        && start_of(other) < end_of(other)
        && start_of(gas) < end_of(other)
        && start_of(other) < end_of(gas)
}

/// The subspace of the first register that is present.
#[tactic(auto, unfolding(crate::specs::Bindings::first_subspace), using(crate::proofs::First::first_more, crate::proofs::First::first_hit, crate::proofs::First::first_end))]
fn first_subspace(cpc: &Cpc) -> Option<u8>
    ensures { result ≡ first_subspace (entries_of cpc.now) }
{
    for n in 0..cpc.entries() {
        if let Some(gas) = gas_of(cpc.entry(n)) {
            return Some(gas.access);
        }
    }
    None
}

/// The first of the entries before number n whose register shares a bit with another.
#[tactic(auto, unfolding(crate::specs::Bindings::first_sharing), using(crate::proofs::First::front_more, crate::proofs::First::front_hit, crate::proofs::First::front_end))]
fn first_sharing(cpc: &Cpc, n: u8, gas: Gas) -> Option<u8>
    requires { n < length (entries_of cpc.now) }
    ensures { result ≡ first_sharing (field_of gas) (take n (entries_of cpc.now)) }
{
    for a in 0..n {
        if let Some(other) = gas_of(cpc.entry(a)) {
            if share_bit(gas, other) {
                return Some(a);
            }
        }
    }
    None
}

/// The first test of a register that fails, in a space of space_len bytes, where the first one lies in a subspace.
fn register_fault(
    cpc: &Cpc,
    subspace: Option<u8>,
    space_len: u32,
    entry: u8,
    gas: Gas,
) -> Option<BindFault>
    requires first { subspace ≡ first_subspace (entries_of cpc.now) }
    requires within { entry < length (entries_of cpc.now) }
    ensures { result ≡ register_test (entries_of cpc.now) space_len entry (Some gas) }
{
    if gas.space != PCC {
        return Some(BindFault::NotPcc { entry });
    }
    if let Some(subspace) = subspace {
        if subspace != gas.access {
            return Some(BindFault::TwoSubspaces { entry });
        }
    }
    if !(1 <= gas.width && gas.width <= 64) {
        return Some(BindFault::BadWidth { entry });
    }
    if end_of(gas) > 8 * u128::from(space_len) {
        return Some(BindFault::FieldOutside { entry });
    }
    let a = first_sharing(cpc, entry, gas)?;
    Some(BindFault::FieldsOverlap { a, b: entry })
}

/// The first fault of the registers.
#[tactic(auto, unfolding(crate::specs::Bindings::registers_fault), using(crate::proofs::First::first_more, crate::proofs::First::first_hit, crate::proofs::First::first_end))]
fn registers_fault(cpc: &Cpc, space_len: u32) -> Option<BindFault>
    ensures right { IsCpc cpc.now }
    ensures fault { result ≡ registers_fault (entries_of cpc.now) space_len }
{
    let subspace = first_subspace(cpc);
    for n in 0..cpc.entries() {
        if let Some(gas) = gas_of(cpc.entry(n)) {
            if let Some(fault) = register_fault(cpc, subspace, space_len, n, gas) {
                return Some(fault);
            }
        }
    }
    None
}

fn is_absent(entry: Entry) -> bool
    ensures { result ≡ is_absent entry }
{
    matches!(entry, Entry::Absent { .. })
}

fn number_of(entry: Entry) -> Option<u64>
    ensures { result ≡ number_of entry }
{
    match entry {
        Entry::Integer(value) => Some(value),
        Entry::Register(_) | Entry::Absent { .. } => None,
    }
}

fn scale_fault(lowest: Option<u64>, nominal: Option<u64>, highest: Option<u64>) -> Option<BindFault>
    ensures { result ≡ scale_fault lowest nominal highest }
{
    let lowest = lowest?;
    let nominal = nominal?;
    let highest = highest?;
    if lowest <= nominal && nominal <= highest {
        return None;
    }
    Some(BindFault::BadScale {
        lowest,
        nominal,
        highest,
    })
}

/// The first of the entries that must be there and isn't, or a scale that doesn't rise.
fn bounds_fault(desired: Entry, lowest: Entry, nominal: Entry, highest: Entry) -> Option<BindFault>
    ensures { result ≡ bounds_fault desired lowest nominal highest }
{
    if is_absent(desired) {
        return Some(BindFault::NoDesired);
    }
    if is_absent(lowest) {
        return Some(BindFault::NoBound { entry: 5 });
    }
    if is_absent(highest) {
        return Some(BindFault::NoBound { entry: 2 });
    }
    scale_fault(number_of(lowest), number_of(nominal), number_of(highest))
}

#[tactic(auto, unfolding(crate::specs::Bindings::bind_fault), using(crate::proofs::Sizes::entries_least))]
fn bind_fault(cpc: &Cpc, space_len: u32) -> Option<BindFault>
    ensures right { IsCpc cpc.now }
    ensures fault { result ≡ bind_fault (entries_of cpc.now) space_len }
{
    if let Some(fault) = registers_fault(cpc, space_len) {
        return Some(fault);
    }
    bounds_fault(cpc.entry(7), cpc.entry(5), cpc.entry(3), cpc.entry(2))
}

/// What an entry gives whose field lies in a space.
fn source_of(entry: Entry, space_len: u32) -> Source1
    requires small { space_len < 2 ^ 29 }
    requires inside { (gas : Gas) → gas_of entry ≡ Some gas → end_of (field_of gas) ≤ 8 * space_len }
    ensures { result ≡ source_of entry }
{
    match entry {
        Entry::Integer(value) => Source1::Number(value),
        Entry::Absent { .. } => Source1::Missing,
        Entry::Register(register) => Source1::At(Field {
            at_bit: start_of(register.gas) as u32,
            width: register.gas.width,
        }),
    }
}

/// What the entries of a package give that can be bound.
#[tactic(auto, using(crate::proofs::Bound::sources_start, crate::proofs::Bound::sources_more, crate::proofs::Bound::inside, crate::proofs::Sizes::count_most))]
fn sources_of(cpc: &Cpc, space_len: u32) -> [Source1; ENTRIES]
    requires small { space_len < 2 ^ 29 }
    requires right { bind_fault (entries_of cpc.now) space_len ≡ None }
    ensures { result ≡ (binding_of (entries_of cpc.now)).sources }
{
    let mut sources = [Source1::Missing; ENTRIES];
    for n in 2..cpc.entries() {
        sources[usize::from(n)] = source_of(cpc.entry(n), space_len);
    }
    sources
}

/// The package in a communication space of space_len bytes (ACPI 6.5, 8.4.6): a register lies at its address, in bytes from the start
/// of the space, and its offset in bits. The condition is a space below 2^29 bytes, so that its bits are numbers of 32 bits.
#[tactic(auto, unfolding(crate::specs::Bindings::binding_of))]
pub fn bind(cpc: &Cpc, space_len: u32) -> Result<Binding, BindFault>
    requires { space_len < 2 ^ 29 }
    // A fault is the first one, and there is a binding when there is none.
    ensures exact { MatchResult result
        (λ _. bind_fault (entries_of cpc.now) space_len ≡ None)
        (λ fault. bind_fault (entries_of cpc.now) space_len ≡ Some fault) }
    ensures value { IfOk result (λ binding. binding ≡ binding_of (entries_of cpc.now)) }
    ensures bound { IfOk result (λ binding. IsBinding (entries_of cpc.now) binding) }

    // The fields of a binding have 1 to 64 bits, are apart in pairs and lie in the space.
    ensures right { IfOk result (λ binding. IsRight binding) }
    ensures inside { IfOk result (λ binding. LiesIn space_len binding) }
{
    if let Some(fault) = bind_fault(cpc, space_len) {
        return Err(fault);
    }
    Ok(Binding {
        subspace: first_subspace(cpc).unwrap_or(0),
        sources: sources_of(cpc, space_len),
    })
}

/// The number that a source has in a space: the integer, or the number in the field.
pub fn number_in(source: Source1, space: &[u8]) -> Option<u64>
    requires { CanRead (length space.now) source }
    ensures { result ≡ number_in source space.now }
{
    match source {
        Source1::Missing => None,
        Source1::Number(value) => Some(value),
        Source1::At(field) => Some(field_get(space, field)),
    }
}

/// The binding of entries with no fault has what the entries give, is right and lies in the space. It does nothing.
pub fn binding_laws()
    ensures bound { (cpc : Item) (len : ℕ) → IsCpc cpc → bind_fault (entries_of cpc) len ≡ None → IsBinding (entries_of cpc) (binding_of (entries_of cpc)) }
    ensures right { (cpc : Item) (len : ℕ) → IsCpc cpc → bind_fault (entries_of cpc) len ≡ None → IsRight (binding_of (entries_of cpc)) }
    ensures inside { (cpc : Item) (len : ℕ) → IsCpc cpc → bind_fault (entries_of cpc) len ≡ None → LiesIn len (binding_of (entries_of cpc)) }
    ensures whole { (entries : List Entry) → length (binding_of entries).sources ≡ ENTRIES }
    ensures each { (entries : List Entry) (n : ℕ) → n < ENTRIES → source_at (binding_of entries) n ≡ source_by entries n }
{}

/// Two fields share a bit, as the tests of a package see it, exactly when they aren't apart. It does nothing.
pub fn share_law()
    ensures { (f g : Field) → (share_bit f g ≡ true) ↔ (AreApart f g → ⊥) }
{}
