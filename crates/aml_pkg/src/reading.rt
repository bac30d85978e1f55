//! Reading items from left to right.
ghost use Rattle.std.specs.Prelude.{◌≡◌, ◌⊎◌, ◌≤◌, ◌<◌, ◌^◌, ◌++◌, ℕ, List, take, length, IfOk, IfErr, MatchResult};
ghost use Rattle.pcc_bytes.specs.Bytes.{IsBytes};
ghost use Rattle.aml_pkg.specs.Spelling.{AmlBytes};
ghost use Rattle.aml_pkg.specs.Faults.{HasFault, HasItem, ItemWrong};
ghost use Rattle.aml_pkg.specs.Answers.{IsTold, OnFault, Tells};
ghost use Rattle.aml_pkg.specs.declared.item.Item.{Item};
ghost use Rattle.aml_pkg.specs.declared.fault.AmlFault.{AmlFault};
ghost use Rattle.aml_pkg.specs.declared.fault.ReadError.TheVariants as errors;
ghost use Rattle.aml_pkg.specs.declared.fault.AmlError.TheVariants as answers;
ghost use Rattle.aml_pkg.specs.Reading.{Gives, body_at, buffer_at, element_at, elements_at, item_at, lone_at, package_at, used_at};

use crate::fault::{AmlError, AmlKind, ReadError};
use crate::item::{Buffer, Element, Item, Items};
use crate::number::{body_len, int_of, len_of};
use crate::window::Window;
use pcc_io::Bytes;
use std::alloc::Global;

/// The byte that begins a buffer (ACPI 6.5, 20.2.5.4).
pub(crate) const BUFFER: u8 = 0x11;

/// The byte that begins a package (ACPI 6.5, 20.2.5.4).
pub(crate) const PACKAGE: u8 = 0x12;

/// The buffer after its first byte, and the bytes after it.
#[tactic(auto, unfolding(crate::specs::Reading::buffer_at))]
fn buffer_of(alloc: Global, window: Window, bytes: &[u8]) -> Result<(Buffer, &[u8]), ReadError>
    requires { length bytes.now ≤ window.end }
    ensures gives { Gives (λ x. (x.0, x.1.now)) result (buffer_at window bytes.now) }
    ensures shorter { IfOk result (λ x. length x.1.now ≤ length bytes.now) }
{
    let (len, rest) = len_of(window, bytes)?;
    let (body, rest) = rest.split_at(body_len(len));
    let (size, body) = int_of(window.inner(bytes, len.value), body)?;
    let bytes = Bytes::from_vec(Vec::from_slice(alloc, body)?);
    Ok((Buffer { len, size, bytes }, rest))
}

/// The element at the front, and the bytes after it.
#[tactic(auto, unfolding(crate::specs::Reading::element_at))]
fn element_of(alloc: Global, window: Window, bytes: &[u8]) -> Result<(Element, &[u8]), ReadError>
    requires { length bytes.now ≤ window.end }
    ensures gives { Gives (λ x. (x.0, x.1.now)) result (element_at window bytes.now) }
    ensures shorter { IfOk result (λ x. length x.1.now ≤ length bytes.now) }
{
    let [op, rest @ ..] = bytes else {
        return Err(window.ended());
    };
    if *op == PACKAGE {
        return Err(window.fault(bytes, AmlKind::TooDeep));
    }
    if *op == BUFFER {
        let (buffer, rest) = buffer_of(alloc, window, rest)?;
        return Ok((Element::Buffer(buffer), rest));
    }
    let (int, rest) = int_of(window, bytes)?;
    Ok((Element::Int(int), rest))
}

/// So many elements, which all bytes spell.
fn elements_of(alloc: Global, count: u8, window: Window, bytes: &[u8]) -> Result<Items, ReadError>
    requires from { length bytes.now ≤ window.end }
    requires first { window.whole ≡ 0 }
    ensures { Gives (λ x. x) result (elements_at count window bytes.now) }
{
    let mut items = Items::new(alloc);
    let mut rest = bytes;
    let mut window = window;
    for i in 0..count {
        let (element, after) = element_of(alloc, window, rest)?;
        items.push(element)?;
        rest = after;
        window = window.behind_one();
    }
    if rest.is_empty() {
        Ok(items)
    } else {
        Err(window.fault(rest, AmlKind::BadLength))
    }
}

/// The elements of a package's body, after their number.
#[tactic(auto, unfolding(crate::specs::Reading::body_at))]
fn body_of(alloc: Global, window: Window, bytes: &[u8]) -> Result<Items, ReadError>
    requires from { length bytes.now ≤ window.end }
    requires first { window.whole ≡ 0 }
    ensures { Gives (λ x. x) result (body_at window bytes.now) }
{
    let [count, rest @ ..] = bytes else {
        return Err(window.ended());
    };
    elements_of(alloc, *count, window, rest)
}

/// The package after its first byte, and the bytes after it.
#[tactic(auto, unfolding(crate::specs::Reading::package_at))]
fn package_of(alloc: Global, window: Window, bytes: &[u8]) -> Result<(Item, &[u8]), ReadError>
    requires from { length bytes.now ≤ window.end }
    requires first { window.whole ≡ 0 }
    ensures gives { Gives (λ x. (x.0, x.1.now)) result (package_at window bytes.now) }
    ensures shorter { IfOk result (λ x. length x.1.now ≤ length bytes.now) }
{
    let (len, rest) = len_of(window, bytes)?;
    let (body, rest) = rest.split_at(body_len(len));
    let items = body_of(alloc, window.inner(bytes, len.value), body)?;
    Ok((Item::Package { len, items }, rest))
}

/// The integer or buffer at the front, and the bytes after it.
fn lone_of(alloc: Global, window: Window, bytes: &[u8]) -> Result<(Item, &[u8]), ReadError>
    requires { length bytes.now ≤ window.end }
    ensures gives { Gives (λ x. (x.0, x.1.now)) result (lone_at window bytes.now) }
    ensures shorter { IfOk result (λ x. length x.1.now ≤ length bytes.now) }
{
    let (element, rest) = element_of(alloc, window, bytes)?;
    Ok((Item::Element(element), rest))
}

/// The item that the bytes begin with, and the bytes after it.
#[tactic(auto, unfolding(crate::specs::Reading::item_at))]
fn item_of(alloc: Global, bytes: &[u8]) -> Result<(Item, &[u8]), ReadError>
    requires { length bytes.now < 2 ^ 32 }
    ensures gives { Gives (λ x. (x.0, x.1.now)) result (item_at bytes.now) }
    ensures shorter { IfOk result (λ x. length x.1.now ≤ length bytes.now) }
{
    let window = Window {
        end: bytes.len() as u32,
        past: AmlKind::Short,
        whole: 0,
    };
    let [op, rest @ ..] = bytes else {
        return lone_of(alloc, window, bytes);
    };
    if *op == PACKAGE {
        return package_of(alloc, window, rest);
    }
    lone_of(alloc, window, bytes)
}

/// The item that the bytes begin with, and how many bytes it has.
#[tactic(auto, unfolding(crate::specs::Reading::used_at))]
fn used_of(alloc: Global, bytes: &[u8]) -> Result<(Item, usize), ReadError>
    requires { length bytes.now < 2 ^ 32 }
    ensures { Gives (λ x. x) result (used_at bytes.now) }
{
    let (item, rest) = item_of(alloc, bytes)?;
    Ok((item, bytes.len() - rest.len()))
}

/// The item with which the bytes begin, and how many bytes it has. The bytes after it are not looked at. A fault reports how many
/// elements are whole before it.
pub fn read_item(alloc: Global, bytes: &[u8]) -> Result<(Item, usize), ReadError>
    requires { length bytes.now < 2 ^ 32 }
    // An item is one that the first bytes spell.
    ensures found { IfOk result (λ x. (x.1 ≤ length bytes.now) × AmlBytes (take x.1 bytes.now) x.0) }
    // What the bytes begin with is read, unless memory runs out.
    ensures only { (i : Item) (front rest : List ℕ) → AmlBytes front i → bytes.now ≡ front ++ rest
        → MatchResult result (λ x. (x.0 ≡ i) × (x.1 ≡ length front)) (λ e. e ≡ errors.NoMemory) }
    // What is reported is wrong, and what is wrong is reported, unless memory runs out.
    ensures wrong { IfErr result (λ e. OnFault e (ItemWrong bytes.now)) }
    ensures exact { (fault : AmlFault) → ItemWrong bytes.now fault → MatchResult result (λ _. ⊥) (λ e. OnFault e (λ f. f ≡ fault)) }
{
    used_of(alloc, bytes)
}

/// The item with which the bytes begin (ACPI 6.5, 20.2), and how many bytes it has. The bytes after it are not looked at.
pub fn item_from(alloc: Global, bytes: &[u8]) -> Result<(Item, usize), AmlError>
    requires { length bytes.now < 2 ^ 32 }
    // An item is one that the first bytes spell.
    ensures found { IfOk result (λ x. (x.1 ≤ length bytes.now) × AmlBytes (take x.1 bytes.now) x.0) }
    // What the bytes begin with is read, unless memory runs out.
    ensures only { (i : Item) (front rest : List ℕ) → AmlBytes front i → bytes.now ≡ front ++ rest
        → MatchResult result (λ x. (x.0 ≡ i) × (x.1 ≡ length front)) (λ e. e ≡ answers.NoMemory) }
    // What is reported is wrong, and what is wrong is reported, unless memory runs out.
    ensures wrong { IfErr result (λ e. IsTold bytes.now e) }
    ensures exact { (fault : AmlFault) → ItemWrong bytes.now fault → MatchResult result (λ _. ⊥) (λ e. Tells e fault) }
{
    match read_item(alloc, bytes) {
        Ok(found) => Ok(found),
        Err(ReadError::NoMemory) => Err(AmlError::NoMemory),
        Err(ReadError::Fault(fault)) => Err(AmlError::Fault {
            at: fault.at,
            kind: fault.kind,
        }),
    }
}

/// Bytes begin with one item, or one thing is wrong first. An item has one spelling. It does nothing.
pub fn item_laws()
    ensures some { (bytes : List ℕ) → IsBytes bytes → HasItem bytes ⊎ HasFault bytes }
    ensures not_both { (bytes : List ℕ) → HasItem bytes → HasFault bytes → ⊥ }
    ensures one_item { (front rest other left : List ℕ) (i j : Item) → AmlBytes front i → AmlBytes other j
        → front ++ rest ≡ other ++ left → i ≡ j }
    ensures one_fault { (bytes : List ℕ) (fault other : AmlFault) → ItemWrong bytes fault → ItemWrong bytes other → fault ≡ other }
    ensures one_spelling { (bytes other : List ℕ) (i : Item) → AmlBytes bytes i → AmlBytes other i → bytes ≡ other }
{}
