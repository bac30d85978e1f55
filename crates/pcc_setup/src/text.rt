//! The one line that reports why an input is refused.
ghost use Rattle.std.specs.Prelude.{◌≡◌, ◌++◌, ◌∷◌, [], IfOk, OnOk};
ghost use Rattle.pcc_text.specs.Pieces.{Decimal, Words, spelled};
ghost use Rattle.pcct_codec.specs.declared.fault.TableFault.TheVariants.{SubspaceLength};
ghost use Rattle.cpc_package.specs.declared.binding.BindFault.TheVariants as bind;
ghost use Rattle.pcc_setup.specs.declared.refusal.Refusal.TheVariants as refusal;
ghost use Rattle.pcc_setup.specs.RefusalText.{
  HasLine,
  IsOfBytes,
  action_word,
  bind_pieces,
  cpu_pieces,
  fault_pieces,
  journal_word,
  kind_word,
  line_pieces,
  numbered,
  open_pieces,
  package_pieces,
  refusal_pieces,
  refused_line,
  role_word,
  script_word,
  use_word,
  wiring_pieces,
};

use crate::action::ActionFault;
use crate::opening::OpenFault;
use crate::refusal::{CpuFault, Refusal, UseFault};
use cpc_package::{BindFault, CpcFault};
use journal_reading::AuditKind;
use pcc_io::NoMemory;
use pcc_script::ScriptKind;
use pcc_text::{Piece, put, put_pieces};
use pcc_wiring::{Overlap, Role, WiringFault};
use pcct_codec::TableFault;
use pcct_table::BuildKind;
use std::alloc::Global;

fn put_numbered(out: &mut Vec<u8>, word: &[u8], number: u64) -> Result<(), NoMemory>
    ensures { OnOk result (out.new.items ≡ out.old.items ++ spelled (numbered word.now number)) }
{
    put_pieces(out, &[Piece::Text(word), Piece::Number(number)])
}

fn put_size(out: &mut Vec<u8>, at: u32, kind: u8, found: u8) -> Result<(), NoMemory>
    ensures { OnOk result (out.new.items ≡ out.old.items ++ spelled (fault_pieces (SubspaceLength at kind found))) }
{
    put_pieces(
        out,
        &[
            Piece::Text(b"size "),
            Piece::Number(at as u64),
            Piece::Text(b" "),
            Piece::Number(kind as u64),
            Piece::Text(b" "),
            Piece::Number(found as u64),
        ],
    )
}

fn put_fault(out: &mut Vec<u8>, fault: TableFault) -> Result<(), NoMemory>
    requires { IsOfBytes fault }
    ensures { OnOk result (out.new.items ≡ out.old.items ++ spelled (fault_pieces fault)) }
{
    match fault {
        TableFault::Short { at } => put_numbered(out, b"short ", at as u64),
        TableFault::Signature => put_pieces(out, &[Piece::Text(b"signature")]),
        TableFault::LengthOutside { len } => put_numbered(out, b"length ", len as u64),
        TableFault::Revision { found } => put_numbered(out, b"revision ", found as u64),
        TableFault::TooMany { at } => put_numbered(out, b"many ", at as u64),
        TableFault::Overrun { at } => put_numbered(out, b"overrun ", at as u64),
        TableFault::SubspaceLength { at, kind, found } => put_size(out, at, kind, found),
        TableFault::Checksum { sum } => put_numbered(out, b"checksum ", sum as u64),
        TableFault::ReadFault | TableFault::NoMemory => unreachable!(),
    }
}

fn role_word(role: Role) -> &'static [u8]
    ensures { result.now ≡ role_word role }
{
    match role {
        Role::Doorbell => b"doorbell",
        Role::Acknowledge => b"acknowledge",
        Role::Check => b"check",
        Role::Update => b"update",
        Role::Error => b"error",
    }
}

fn put_wiring_fault(out: &mut Vec<u8>, fault: WiringFault) -> Result<(), NoMemory>
    ensures { OnOk result (out.new.items ≡ out.old.items ++ spelled (wiring_pieces fault)) }
{
    match fault {
        WiringFault::UnknownType { kind } => put_numbered(out, b"unknown type ", kind as u64),
        WiringFault::WrongRole => put_pieces(out, &[Piece::Text(b"wrong role")]),
        WiringFault::SpaceTooSmall { len } => {
            put_pieces(out, &[Piece::Text(b"space "), Piece::Number(len)])
        }
        WiringFault::RegisterSpace { role } => put_pieces(
            out,
            &[
                Piece::Text(b"register space "),
                Piece::Text(role_word(role)),
            ],
        ),
        WiringFault::RegisterWidth { role } => put_pieces(
            out,
            &[
                Piece::Text(b"register width "),
                Piece::Text(role_word(role)),
            ],
        ),
        WiringFault::NoCheckMask => put_pieces(out, &[Piece::Text(b"no check mask")]),
        WiringFault::NeverClears => put_pieces(out, &[Piece::Text(b"never clears")]),
        WiringFault::NeverSets => put_pieces(out, &[Piece::Text(b"never sets")]),
    }
}

fn put_open_fault(out: &mut Vec<u8>, fault: OpenFault) -> Result<(), NoMemory>
    ensures { OnOk result (out.new.items ≡ out.old.items ++ spelled (open_pieces fault)) }
{
    match fault {
        OpenFault::NoSubspace => put_pieces(out, &[Piece::Text(b"no subspace")]),
        OpenFault::OpenedTwice => put_pieces(out, &[Piece::Text(b"opened twice")]),
        OpenFault::Unwired(fault) => put_wiring_fault(out, fault),
        OpenFault::ImageLong => put_pieces(out, &[Piece::Text(b"image long")]),
    }
}

fn put_open(out: &mut Vec<u8>, id: u8, fault: OpenFault) -> Result<(), NoMemory>
    ensures { OnOk result (out.new.items ≡ out.old.items ++ spelled (refusal_pieces (refusal.Open id fault))) }
{
    put_pieces(
        out,
        &[
            Piece::Text(b"open "),
            Piece::Number(id as u64),
            Piece::Text(b" "),
        ],
    )?;
    put_open_fault(out, fault)
}

fn kind_word(kind: BuildKind) -> &'static [u8]
    ensures { result.now ≡ kind_word kind }
{
    match kind {
        BuildKind::Text => b" text",
        BuildKind::Many => b" many",
    }
}

fn journal_word(kind: AuditKind) -> &'static [u8]
    ensures { result.now ≡ journal_word kind }
{
    match kind {
        AuditKind::Text => b" text",
        AuditKind::Many => b" many",
    }
}

fn script_word(kind: ScriptKind) -> &'static [u8]
    ensures { result.now ≡ script_word kind }
{
    match kind {
        ScriptKind::Newline => b" newline",
        ScriptKind::Unknown => b" unknown",
        ScriptKind::Misplaced => b" misplaced",
        ScriptKind::Many => b" many",
        ScriptKind::Fields => b" fields",
        ScriptKind::Number => b" number",
        ScriptKind::Hex => b" hex",
        ScriptKind::Name => b" name",
        ScriptKind::Missing => b" missing",
    }
}

fn action_word(fault: ActionFault) -> &'static [u8]
    ensures { result.now ≡ action_word fault }
{
    match fault {
        ActionFault::NotBank => b" not bank",
        ActionFault::NoCpu => b" no cpu",
    }
}

fn use_word(fault: UseFault) -> &'static [u8]
    ensures { result.now ≡ use_word fault }
{
    match fault {
        UseFault::Pick => b"pick",
        UseFault::Many => b"many",
        UseFault::Bank => b"bank",
        UseFault::Wait => b"wait",
        UseFault::Audit => b"audit",
    }
}

fn put_line(out: &mut Vec<u8>, line: u64, word: &[u8]) -> Result<(), NoMemory>
    ensures { OnOk result (out.new.items ≡ out.old.items ++ spelled (line_pieces line word.now)) }
{
    put_pieces(
        out,
        &[
            Piece::Text(b"line "),
            Piece::Number(line),
            Piece::Text(word),
        ],
    )
}

fn put_overlap(out: &mut Vec<u8>, found: Overlap) -> Result<(), NoMemory>
    ensures { OnOk result (out.new.items ≡ out.old.items ++ spelled (refusal_pieces (refusal.Meet found))) }
{
    put_pieces(
        out,
        &[
            Piece::Text(b"overlap "),
            Piece::Number(found.a as u64),
            Piece::Text(b" "),
            Piece::Number(found.b as u64),
        ],
    )
}

fn put_use(out: &mut Vec<u8>, fault: UseFault) -> Result<(), NoMemory>
    ensures { OnOk result (out.new.items ≡ out.old.items ++ spelled (refusal_pieces (refusal.Use fault))) }
{
    let word = use_word(fault);
    put_pieces(out, &[Piece::Text(b"use "), Piece::Text(word)])
}

fn put_package(out: &mut Vec<u8>, fault: CpcFault) -> Result<(), NoMemory>
    ensures { OnOk result (out.new.items ≡ out.old.items ++ spelled (package_pieces fault)) }
{
    let kind = fault.kind.text();
    put_pieces(
        out,
        &[
            Piece::Text(kind),
            Piece::Text(b" "),
            Piece::Number(fault.entry as u64),
            Piece::Text(b" "),
            Piece::Number(fault.at as u64),
        ],
    )
}

fn put_fields_overlap(out: &mut Vec<u8>, a: u8, b: u8) -> Result<(), NoMemory>
    ensures { OnOk result (out.new.items ≡ out.old.items ++ spelled (bind_pieces (bind.FieldsOverlap a b))) }
{
    put_pieces(
        out,
        &[
            Piece::Text(b"overlap "),
            Piece::Number(a as u64),
            Piece::Text(b" "),
            Piece::Number(b as u64),
        ],
    )
}

fn put_scale(out: &mut Vec<u8>, lowest: u64, nominal: u64, highest: u64) -> Result<(), NoMemory>
    ensures { OnOk result (out.new.items ≡ out.old.items ++ spelled (bind_pieces (bind.BadScale lowest nominal highest))) }
{
    put_pieces(
        out,
        &[
            Piece::Text(b"bad scale "),
            Piece::Number(lowest),
            Piece::Text(b" "),
            Piece::Number(nominal),
            Piece::Text(b" "),
            Piece::Number(highest),
        ],
    )
}

fn put_bind_fault(out: &mut Vec<u8>, fault: BindFault) -> Result<(), NoMemory>
    ensures { OnOk result (out.new.items ≡ out.old.items ++ spelled (bind_pieces fault)) }
{
    match fault {
        BindFault::NotPcc { entry } => put_numbered(out, b"not pcc ", entry as u64),
        BindFault::TwoSubspaces { entry } => put_numbered(out, b"two subspaces ", entry as u64),
        BindFault::BadWidth { entry } => put_numbered(out, b"bad width ", entry as u64),
        BindFault::FieldOutside { entry } => put_numbered(out, b"outside ", entry as u64),
        BindFault::FieldsOverlap { a, b } => put_fields_overlap(out, a, b),
        BindFault::NoDesired => put_pieces(out, &[Piece::Text(b"no desired")]),
        BindFault::NoBound { entry } => put_numbered(out, b"no bound ", entry as u64),
        BindFault::BadScale {
            lowest,
            nominal,
            highest,
        } => put_scale(out, lowest, nominal, highest),
    }
}

fn put_cpu_fault(out: &mut Vec<u8>, fault: CpuFault) -> Result<(), NoMemory>
    ensures { OnOk result (out.new.items ≡ out.old.items ++ spelled (cpu_pieces fault)) }
{
    match fault {
        CpuFault::Package(fault) => put_package(out, fault),
        CpuFault::Trailing { at } => put_numbered(out, b"trailing ", at as u64),
        CpuFault::NotOpened => put_pieces(out, &[Piece::Text(b"not opened")]),
        CpuFault::Unfit(fault) => put_bind_fault(out, fault),
        CpuFault::Shares { cpu } => put_numbered(out, b"shares ", cpu as u64),
    }
}

fn put_cpu(out: &mut Vec<u8>, cpu: usize, fault: CpuFault) -> Result<(), NoMemory>
    ensures { OnOk result (out.new.items ≡ out.old.items ++ spelled (refusal_pieces (refusal.Cpu cpu fault))) }
{
    put_pieces(
        out,
        &[
            Piece::Text(b"cpu "),
            Piece::Number(cpu as u64),
            Piece::Text(b" "),
        ],
    )?;
    put_cpu_fault(out, fault)
}

fn put_refusal(out: &mut Vec<u8>, refusal: Refusal) -> Result<(), NoMemory>
    requires { HasLine refusal }
    ensures { OnOk result (out.new.items ≡ out.old.items ++ spelled (refusal_pieces refusal)) }
{
    match refusal {
        Refusal::Long => put_pieces(out, &[Piece::Text(b"long")]),
        Refusal::Script { line, kind } => put_line(out, line, script_word(kind)),
        Refusal::TableText { line, kind } => put_line(out, line, kind_word(kind)),
        Refusal::JournalText { line, kind } => put_line(out, line, journal_word(kind)),
        Refusal::Action { line, fault } => put_line(out, line, action_word(fault)),
        Refusal::Table(fault) => {
            put(out, b"table ")?;
            put_fault(out, fault)
        }
        Refusal::Trailing { at } => put_pieces(
            out,
            &[Piece::Text(b"table trailing "), Piece::Number(at as u64)],
        ),
        Refusal::Package(fault) => {
            put(out, b"package ")?;
            put_package(out, fault)
        }
        Refusal::PackageTrailing { at } => put_pieces(
            out,
            &[Piece::Text(b"package trailing "), Piece::Number(at as u64)],
        ),
        Refusal::Open { id, fault } => put_open(out, id, fault),
        Refusal::Meet(found) => put_overlap(out, found),
        Refusal::Cpu { cpu, fault } => put_cpu(out, cpu, fault),
        Refusal::Cap { index } => put_numbered(out, b"cap ", index as u64),
        Refusal::Start { cpu } => put_numbered(out, b"start ", cpu as u64),
        Refusal::Use(fault) => put_use(out, fault),
    }
}

/// The whole line, with its line feed.
pub fn refused_line(alloc: Global, refusal: Refusal) -> Result<Vec<u8>, NoMemory>
    requires { HasLine refusal }
    ensures { IfOk result (λ line. line.items ≡ refused_line refusal) }
{
    let mut out = Vec::new(alloc);
    put(&mut out, b"refused ")?;
    put_refusal(&mut out, refusal)?;
    put(&mut out, b"\n")?;
    Ok(out)
}
