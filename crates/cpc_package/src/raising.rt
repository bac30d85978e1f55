//! A package of revision 2 as one of revision 3.
ghost use Rattle.std.specs.Prelude.{◌≡◌, ◌<◌, ◌≤◌, ◌++◌, ℕ, length, take, drop, IfOk, OnOk};
ghost use Rattle.aml_pkg.specs.declared.item.Element.TheVariants as element;
ghost use Rattle.aml_pkg.specs.declared.item.Item.{Item};
ghost use Rattle.aml_pkg.specs.Spelling.{IsItem, IsPackage};
ghost use Rattle.cpc_package.specs.Bindings.{bind_fault, binding_of, source_at};
ghost use Rattle.cpc_package.specs.Entries.{elements_of, entries_of, entry_at};
ghost use Rattle.cpc_package.specs.Packages.{IsCpc};
ghost use Rattle.cpc_package.specs.Raising.{counted_again, raised, raised_elements};
ghost use Rattle.cpc_package.specs.declared.rows.TheConstants.{ENTRIES, REVISION_2_ENTRIES};

use crate::rows::{ENTRIES, REVISION_2_ENTRIES};
use aml_pkg::{Buffer, Element, Form, Int, Item, Items, Len};
use pcc_io::{Bytes, NoMemory};
use std::alloc::Global;

/// How many bytes an integer of one byte and its first one have.
const BYTE_LEN: u32 = 2;

fn integer(value: u64, form: Form) -> Element
    ensures { result ≡ element.Int (record { value = value; form = form }) }
{
    Element::Int(Int { value, form })
}

fn copy_of(alloc: Global, element: &Element) -> Result<Element, NoMemory>
    ensures { IfOk result (λ e. e ≡ element.now) }
{
    match element {
        Element::Int(int) => Ok(Element::Int(*int)),
        Element::Buffer(buffer) => {
            let mut bytes = Vec::new(alloc);
            bytes.extend_from_slice(buffer.bytes.as_slice())?;
            Ok(Element::Buffer(Buffer {
                len: buffer.len,
                size: buffer.size,
                bytes: Bytes::from_vec(bytes),
            }))
        }
    }
}

fn put_copies(alloc: Global, out: &mut Items, elements: &[Element]) -> Result<(), NoMemory>
    ensures { OnOk result (out.new ≡ out.old ++ elements.now) }
{
    for element in elements {
        out.push(copy_of(alloc, element)?)?;
    }
    Ok(())
}

fn raised_elements(alloc: Global, elements: &[Element]) -> Result<Items, NoMemory>
    requires { 2 < length elements.now }
    ensures { IfOk result (λ items. items ≡ raised_elements elements.now) }
{
    let mut items = Items::new(alloc);
    items.push(integer(ENTRIES as u64, Form::Byte))?;
    items.push(integer(3, Form::Byte))?;
    put_copies(alloc, &mut items, &elements[2..])?;
    items.push(integer(0, Form::Zero))?;
    items.push(integer(0, Form::Zero))?;
    Ok(items)
}

/// The length of the raised package: entries 0 and 1 give way to integers of one byte, and two zeros are added.
#[tactic(auto, using(crate::proofs::Raised::package_small, crate::proofs::Raised::len_parts, crate::proofs::Raised::len_counted))]
fn raised_len(len: Len, elements: &[Element]) -> Len
    requires package { IsPackage len elements.now }
    requires two { 2 < length elements.now }
    ensures { result ≡ counted_again len (raised_elements elements.now) }
{
    let removed = elements[0].byte_len() + elements[1].byte_len();
    Len {
        value: len.value - removed + 2 * BYTE_LEN + 2,
        follow: len.follow,
    }
}

/// A package as one of revision 3.
pub fn raised_item(alloc: Global, item: &Item) -> Result<Item, NoMemory>
    requires is { IsItem item.now }
    requires right { IsCpc item.now }
    ensures { IfOk result (λ i. i ≡ raised item.now) }
{
    match item {
        Item::Element(_) => unreachable!(),
        Item::Package { len, items } => {
            let elements = items.as_slice();
            if elements.len() == REVISION_2_ENTRIES {
                return Ok(Item::Package {
                    len: raised_len(*len, elements),
                    items: raised_elements(alloc, elements)?,
                });
            }
            let mut copies = Items::new(alloc);
            put_copies(alloc, &mut copies, elements)?;
            Ok(Item::Package {
                len: *len,
                items: copies,
            })
        }
    }
}

/// What a package and the one that it is raised to have in common. It does nothing.
pub fn raise_laws()
    // The raised package is one of revision 3, and itself where the package is one.
    ensures item { (cpc : Item) → IsItem cpc → IsCpc cpc → IsItem (raised cpc) }
    ensures right { (cpc : Item) → IsCpc cpc → IsCpc (raised cpc) }
    ensures whole { (cpc : Item) → IsCpc cpc → length (entries_of (raised cpc)) ≡ ENTRIES }
    ensures same { (cpc : Item) → length (entries_of cpc) ≡ ENTRIES → raised cpc ≡ cpc }

    // Entries 2 to 20 say the same before and after, so both are bound alike: with the same fault, or with the same subspace and sources.
    ensures entries { (cpc : Item) (n : ℕ) → IsCpc cpc → 2 ≤ n → n < REVISION_2_ENTRIES
        → entry_at (entries_of (raised cpc)) n ≡ entry_at (entries_of cpc) n }
    ensures fault { (cpc : Item) (len : ℕ) → IsCpc cpc → bind_fault (entries_of (raised cpc)) len ≡ bind_fault (entries_of cpc) len }
    ensures subspace { (cpc : Item) → IsCpc cpc → (binding_of (entries_of (raised cpc))).subspace ≡ (binding_of (entries_of cpc)).subspace }
    ensures sources { (cpc : Item) (n : ℕ) → IsCpc cpc → n < REVISION_2_ENTRIES
        → source_at (binding_of (entries_of (raised cpc))) n ≡ source_at (binding_of (entries_of cpc)) n }

    // Packages of any revision with the same elements 2 to 20 give the same there.
    ensures alike { (a b : Item) (n : ℕ) → take 19 (drop 2 (elements_of a)) ≡ take 19 (drop 2 (elements_of b)) → n < REVISION_2_ENTRIES
        → source_at (binding_of (entries_of a)) n ≡ source_at (binding_of (entries_of b)) n }
{}
