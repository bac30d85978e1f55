//! The tests of an item, in their order.
ghost use Rattle.std.specs.Prelude.{◌≡◌, ◌<◌, ◌≤◌, ◌+◌, ◌%◌, ◌^◌, if◌then◌else◌, length, sum, Some, None};
ghost use Rattle.aml_pkg.specs.declared.item.Element.TheVariants as element;
ghost use Rattle.std.specs.List.{AllByRecursion, flat_map};
ghost use Rattle.aml_pkg.specs.Spelling.{IsElement, IsItem, element_bytes};
ghost use Rattle.cpc_package.specs.Packages.{revision_of};
ghost use Rattle.cpc_package.specs.Testing.{entries_fault, entry_kind, is_count, item_fault, register_kind};
ghost use Rattle.cpc_package.specs.declared.rows.TheConstants.{ENTRIES};

use crate::fault::{CpcFault, CpcKind};
use crate::register::REGISTER_LEN;
use crate::rows::{ENTRIES, REVISION_2_ENTRIES, Role, row_of};
use aml_pkg::{Buffer, Element, Int, Item};

/// Whether a package may have so many entries.
fn is_count(count: usize) -> bool
    ensures { result ≡ is_count count }
{
    count == REVISION_2_ENTRIES || count == ENTRIES
}

/// The revision of a package of count entries.
fn revision_of(count: usize) -> u64
    ensures { result ≡ revision_of count }
{
    if count == REVISION_2_ENTRIES { 2 } else { 3 }
}

fn byte_sum(bytes: &[u8]) -> u32
    requires { length bytes.now ≤ 65536 }
    ensures { result ≡ sum bytes.now }
{
    bytes.iter().map(|byte| u32::from(*byte)).sum()
}

/// The first test of a register that fails.
fn register_kind(buffer: &Buffer) -> Option<CpcKind>
    ensures { result ≡ register_kind buffer.now }
{
    let bytes = buffer.bytes.as_slice();
    if !(buffer.size.value == REGISTER_LEN as u64 && bytes.len() == REGISTER_LEN) {
        return Some(CpcKind::NotRegister);
    }
    if !bytes.starts_with(b"\x82\x0c\x00") {
        return Some(CpcKind::BadDescriptor);
    }
    if bytes[15] != 0x79 {
        return Some(CpcKind::BadEndTag);
    }
    if !(bytes[16] == 0 || byte_sum(bytes) % 256 == 0) {
        return Some(CpcKind::BadChecksum);
    }
    None
}

/// The first test of an integer that fails.
fn integer_kind(count: usize, role: Role, int: Int) -> Option<CpcKind>
    ensures { result ≡ entry_kind count role (element.Int int) }
{
    match role {
        Role::Count => wrong_unless(int.value == count as u64, CpcKind::WrongCount),
        Role::Revision => wrong_unless(int.value == revision_of(count), CpcKind::WrongRevision),
        Role::Either => None,
        Role::Register => Some(CpcKind::NotRegister),
    }
}

fn wrong_unless(right: bool, kind: CpcKind) -> Option<CpcKind>
    ensures { result ≡ (if right then None else Some kind) }
{
    if right { None } else { Some(kind) }
}

/// The first test of an entry that fails, in a package of count entries.
fn entry_kind(count: usize, role: Role, element: &Element) -> Option<CpcKind>
    ensures { result ≡ entry_kind count role element.now }
{
    match element {
        Element::Int(int) => integer_kind(count, role, *int),
        Element::Buffer(buffer) => match role {
            Role::Count | Role::Revision => Some(CpcKind::NotInteger),
            Role::Either | Role::Register => register_kind(buffer),
        },
    }
}

/// The first fault of the entries, which begin at a place.
#[tactic(auto, using(crate::proofs::Tested::entries_hit, crate::proofs::Tested::entries_more, crate::proofs::Tested::entries_end, crate::proofs::Tested::room_more))]
fn entries_fault(elements: &[Element], at: u32) -> Option<CpcFault>
    requires each { AllByRecursion IsElement elements.now }
    requires few { length elements.now ≤ ENTRIES }
    requires room { at + length (flat_map element_bytes elements.now) < 2 ^ 32 }
    ensures { result ≡ entries_fault (length elements.now) 0 at elements.now }
{
    let count = elements.len();
    let mut at = at;
    for (n, element) in elements.iter().enumerate() {
        if let Some(kind) = entry_kind(count, row_of(n).1, element) {
            let entry = n as u8;
            return Some(CpcFault { entry, at, kind });
        }
        at += element.byte_len();
    }
    None
}

/// The first fault of an item that was read.
#[tactic(auto, using(crate::proofs::Tested::package_room, crate::proofs::Tested::tested_count))]
pub fn item_fault(item: &Item) -> Option<CpcFault>
    requires { IsItem item.now }
    ensures { result ≡ item_fault item.now }
{
    match item {
        Item::Element(_) => Some(CpcFault {
            entry: 0,
            at: 0,
            kind: CpcKind::NotPackage,
        }),
        Item::Package { len, items } => {
            let follow = u32::from(len.follow);
            if !is_count(items.len()) {
                return Some(CpcFault {
                    entry: 0,
                    at: 2 + follow,
                    kind: CpcKind::EntryCount,
                });
            }
            entries_fault(items.as_slice(), 3 + follow)
        }
    }
}
