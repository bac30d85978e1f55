//! Writing items. If memory runs out a part of one may have been put.
ghost use Rattle.std.specs.Prelude.{◌≡◌, ◌≤◌, ◌<◌, ◌^◌, ◌++◌, length, OnOk, IfOk};
ghost use Rattle.std.specs.List.{AllByRecursion};
ghost use Rattle.byteorder.specs.Endian.{little_bytes};
ghost use Rattle.aml_pkg.specs.Spelling.{AmlBytes, IsElement, IsInt, IsItem, IsLen, element_bytes, int_bytes, len_bytes, package_body};

use crate::item::{Element, Int, Item, Len};
use crate::reading::{BUFFER, PACKAGE};
use byteorder::{ByteOrder, LittleEndian};
use pcc_io::NoMemory;
use std::alloc::Global;

/// Puts a number at the end, in n bytes, its lowest byte first.
#[tactic(auto, using(crate::proofs::Written::front_of_buffer))]
fn put_number(out: &mut Vec<u8>, n: usize, number: u64) -> Result<(), NoMemory>
    requires some { 1 ≤ n }
    requires most { n ≤ 8 }
    requires fits { number < 256 ^ n }
    ensures { OnOk result (out.new.items ≡ out.old.items ++ little_bytes n number) }
{
    let mut buffer = [0u8; 8];
    LittleEndian::write_uint(&mut buffer, number, n);
    out.extend_from_slice(buffer.split_at(n).0)?;
    Ok(())
}

#[tactic(auto, using(crate::proofs::Written::form_fits, crate::proofs::Written::no_bytes, crate::proofs::Written::op_then))]
fn put_int(out: &mut Vec<u8>, int: &Int) -> Result<(), NoMemory>
    requires { IsInt int.now }
    ensures { OnOk result (out.new.items ≡ out.old.items ++ int_bytes int.now) }
{
    out.push(int.form.op())?;
    let n = int.form.size();
    if n == 0 {
        return Ok(());
    }
    put_number(out, n, int.value)
}

#[tactic(auto, using(crate::proofs::Written::len_high, crate::proofs::Written::len_one, crate::proofs::Lens::spell_more))]
fn put_len(out: &mut Vec<u8>, len: &Len) -> Result<(), NoMemory>
    requires { IsLen len.now }
    ensures { OnOk result (out.new.items ≡ out.old.items ++ len_bytes len.now) }
{
    let value = len.value;
    if len.follow == 0 {
        out.push(value as u8)?;
        return Ok(());
    }
    out.push(64 * len.follow + (value % 16) as u8)?;
    put_number(out, usize::from(len.follow), u64::from(value / 16))
}

#[tactic(auto, using(std::proofs::lemmas::List::append_assoc))]
fn put_element(out: &mut Vec<u8>, element: &Element) -> Result<(), NoMemory>
    requires { IsElement element.now }
    ensures { OnOk result (out.new.items ≡ out.old.items ++ element_bytes element.now) }
{
    match element {
        Element::Int(int) => put_int(out, int),
        Element::Buffer(buffer) => {
            out.push(BUFFER)?;
            put_len(out, &buffer.len)?;
            put_int(out, &buffer.size)?;
            out.extend_from_slice(buffer.bytes.as_slice())?;
            Ok(())
        }
    }
}

fn put_elements(out: &mut Vec<u8>, elements: &[Element]) -> Result<(), NoMemory>
    requires few { length elements.now < 256 }
    requires each { AllByRecursion IsElement elements.now }
    ensures { OnOk result (out.new.items ≡ out.old.items ++ package_body elements.now) }
{
    out.push(elements.len() as u8)?;
    for element in elements {
        put_element(out, element)?;
    }
    Ok(())
}

/// The bytes that spell the item (ACPI 6.5, 20.2).
#[tactic(auto, using(crate::proofs::Written::package_written))]
pub fn item_to(alloc: Global, item: &Item) -> Result<Vec<u8>, NoMemory>
    requires { IsItem item.now }
    ensures { IfOk result (λ v. AmlBytes v.items item.now) }
{
    let mut out = Vec::new(alloc);
    match item {
        Item::Element(element) => put_element(&mut out, element)?,
        Item::Package { len, items } => {
            out.push(PACKAGE)?;
            put_len(&mut out, len)?;
            put_elements(&mut out, items.as_slice())?;
        }
    }
    Ok(out)
}
