//! The text of a package.
ghost use Rattle.std.specs.Prelude.{◌≡◌, ◌<◌, ◌++◌, IfOk, OnOk};
ghost use Rattle.pcc_text.specs.Pieces.{spelled};
ghost use Rattle.cpc_package.specs.Packages.{HasSeventeen};
ghost use Rattle.cpc_package.specs.PackageText.{absent_line, entry_line, form_text, integer_line, package_text, register_line};
ghost use Rattle.cpc_package.specs.declared.rows.TheConstants.{ENTRIES};

use crate::entry::Entry;
use crate::package::Cpc;
use crate::register::entry_in;
use crate::rows::row_of;
use aml_pkg::{Element, Form, Int};
use pcc_gas::Register;
use pcc_io::NoMemory;
use pcc_text::{Piece, put_pieces};
use std::alloc::Global;

fn form_text(form: Form) -> &'static [u8]
    ensures { result.now ≡ form_text form }
{
    match form {
        Form::Zero => b"zero",
        Form::One => b"one",
        Form::Ones => b"ones",
        Form::Byte => b"byte",
        Form::Word => b"word",
        Form::Dword => b"dword",
        Form::Qword => b"qword",
    }
}

fn put_integer(out: &mut Vec<u8>, n: usize, name: &[u8], int: Int) -> Result<(), NoMemory>
    ensures { OnOk result (out.new.items ≡ out.old.items ++ spelled (integer_line n name.now int)) }
{
    put_pieces(
        out,
        &[
            Piece::Number(n as u64),
            Piece::Text(b" "),
            Piece::Text(name),
            Piece::Text(b" integer "),
            Piece::Number(int.value),
            Piece::Text(b" "),
            Piece::Text(form_text(int.form)),
            Piece::Text(b"\n"),
        ],
    )
}

fn put_register(
    out: &mut Vec<u8>,
    n: usize,
    name: &[u8],
    register: Register,
) -> Result<(), NoMemory>
    ensures { OnOk result (out.new.items ≡ out.old.items ++ spelled (register_line n name.now register)) }
{
    put_pieces(
        out,
        &[
            Piece::Number(n as u64),
            Piece::Text(b" "),
            Piece::Text(name),
            Piece::Text(b" register "),
            Piece::Number(register.gas.space as u64),
            Piece::Text(b":"),
            Piece::Number(register.gas.width as u64),
            Piece::Text(b":"),
            Piece::Number(register.gas.offset as u64),
            Piece::Text(b":"),
            Piece::Number(register.gas.access as u64),
            Piece::Text(b":"),
            Piece::Number(register.gas.address),
            Piece::Text(b" checksum "),
            Piece::Number(register.checksum as u64),
            Piece::Text(b"\n"),
        ],
    )
}

fn put_absent(out: &mut Vec<u8>, n: usize, name: &[u8], checksum: u8) -> Result<(), NoMemory>
    ensures { OnOk result (out.new.items ≡ out.old.items ++ spelled (absent_line n name.now checksum)) }
{
    put_pieces(
        out,
        &[
            Piece::Number(n as u64),
            Piece::Text(b" "),
            Piece::Text(name),
            Piece::Text(b" absent checksum "),
            Piece::Number(checksum as u64),
            Piece::Text(b"\n"),
        ],
    )
}

fn put_entry(out: &mut Vec<u8>, n: usize, element: &Element) -> Result<(), NoMemory>
    requires sized { HasSeventeen element.now }
    requires within { n < ENTRIES }
    ensures { OnOk result (out.new.items ≡ out.old.items ++ spelled (entry_line n element.now)) }
{
    let name = row_of(n).0;
    match element {
        Element::Int(int) => put_integer(out, n, name, *int),
        Element::Buffer(buffer) => match entry_in(buffer.bytes.as_slice()) {
            Entry::Register(register) => put_register(out, n, name, register),
            Entry::Absent { checksum } => put_absent(out, n, name, checksum),
            Entry::Integer(_) => unreachable!(),
        },
    }
}

/// The text of the package, a line for each entry in their order: its number and its name, and then an integer with its form
/// (`zero`, `one`, `ones`, `byte`, `word`, `dword` or `qword`), a register's space, width, offset, access and address in decimal with
/// its checksum, or the checksum of an absent register.
#[tactic(auto, unfolding(crate::specs::PackageText::package_text), using(crate::proofs::Lines::lines_start, crate::proofs::Lines::lines_more, crate::proofs::Lines::lines_end, crate::proofs::Sizes::count_most))]
pub fn cpc_lines(alloc: Global, cpc: &Cpc) -> Result<Vec<u8>, NoMemory>
    ensures { IfOk result (λ text. text.items ≡ package_text cpc.now) }
{
    let mut out = Vec::new(alloc);
    let elements = cpc.elements();
    for (n, element) in elements.iter().enumerate() {
        put_entry(&mut out, n, element)?;
    }
    Ok(out)
}
