//! A scenario is written line by line, each a word and the values of its fields.
ghost use Rattle.std.specs.Prelude.{◌≡◌, ◌∷◌, ◌++◌, [], IfOk, map, OnOk};
ghost use Rattle.pcc_script.specs.Rows.{letter_text, spell};
ghost use Rattle.pcc_script.specs.Text.{action_statement, cap_statement, clock_statement, cpu_statement, IsScenario, open_statement, pick_statements};
ghost use Rattle.pcc_script.specs.Text.{script_text, statements_text, table_statement};
ghost use Rattle.pcc_script.specs.Writing.{spaced, statement_text, statement_with, value_of};

use crate::scenario::{
    Actions, CapLine, CapLines, Device, Letter, Line, OpenLine, Opens, Packages, Picks, Scenario,
};
use crate::word::Word;
use pcc_io::{Bytes, NoMemory};
use pcc_text::{put, put_hex, put_number};
use std::alloc::Global;

/// A field of a line after its word.
#[derive(Clone, Copy)]
enum Field<'a> {
    /// A number in decimal.
    Number(u64),
    /// A number, or `-` for none.
    Optional(Option<u64>),
    /// Bytes in hexadecimal, or `-` for none.
    Bytes(&'a Bytes),
    /// `bank`.
    Bank,
    /// `cppc`.
    Cppc,
    /// A letter for each step.
    Letters(&'a Picks),
}

#[tactic(auto, using(pcc_text::proofs::Appending::appending_start, pcc_text::proofs::Appending::appending_more, pcc_text::proofs::Appending::appending_end, crate::proofs::Written::letters_text))]
fn put_letters(out: &mut Vec<u8>, letters: &[Letter]) -> Result<(), NoMemory>
    ensures { OnOk result (out.new.items ≡ out.old.items ++ map letter_text letters.now) }
{
    for letter in letters {
        let byte = match *letter {
            Letter::O => b'o',
            Letter::P => b'p',
        };
        out.push(byte)?;
    }
    Ok(())
}

fn put_field(out: &mut Vec<u8>, field: &Field) -> Result<(), NoMemory>
    ensures { OnOk result (out.new.items ≡ out.old.items ++ spell (value_of field.now)) }
{
    match *field {
        Field::Number(n) => put_number(out, n),
        Field::Optional(Some(n)) => put_number(out, n),
        Field::Optional(None) => put(out, b"-"),
        Field::Bytes(bytes) => put_hex(out, bytes.as_slice()),
        Field::Bank => put(out, b"bank"),
        Field::Cppc => put(out, b"cppc"),
        Field::Letters(letters) => put_letters(out, letters.as_slice()),
    }
}

#[tactic(auto, using(std::proofs::lemmas::List::append_assoc))]
fn put_spaced(out: &mut Vec<u8>, field: &Field) -> Result<(), NoMemory>
    ensures { OnOk result (out.new.items ≡ out.old.items ++ 32 ∷ spell (value_of field.now)) }
{
    put(out, b" ")?;
    put_field(out, field)
}

#[tactic(auto, using(pcc_text::proofs::Appending::appending_start, pcc_text::proofs::Appending::appending_more, pcc_text::proofs::Appending::appending_end, crate::proofs::Written::spaced_text))]
fn put_fields(out: &mut Vec<u8>, fields: &[Field]) -> Result<(), NoMemory>
    ensures { OnOk result (out.new.items ≡ out.old.items ++ spaced (map value_of fields.now)) }
{
    for field in fields {
        put_spaced(out, field)?;
    }
    Ok(())
}

/// Puts a line of a word and its fields at the end.
#[tactic(auto, using(crate::proofs::Written::line_is))]
fn put_line(out: &mut Vec<u8>, word: Word, fields: &[Field]) -> Result<(), NoMemory>
    ensures { OnOk result (out.new.items ≡ out.old.items ++ statement_text (statement_with word (map value_of fields.now))) }
{
    put(out, word.text())?;
    put_fields(out, fields)?;
    put(out, b"\n")
}

fn put_table(out: &mut Vec<u8>, table: &Bytes) -> Result<(), NoMemory>
    ensures { OnOk result (out.new.items ≡ out.old.items ++ statement_text (table_statement table.now)) }
{
    put_line(out, Word::Table, &[Field::Bytes(table)])
}

fn put_clock(out: &mut Vec<u8>, start: u64, step: u64) -> Result<(), NoMemory>
    ensures { OnOk result (out.new.items ≡ out.old.items ++ statement_text (clock_statement start step)) }
{
    put_line(
        out,
        Word::Clock,
        &[Field::Number(start), Field::Number(step)],
    )
}

fn put_open(out: &mut Vec<u8>, line: &OpenLine) -> Result<(), NoMemory>
    ensures { OnOk result (out.new.items ≡ out.old.items ++ statement_text (open_statement line.now)) }
{
    match &line.device {
        Device::Bank => put_line(
            out,
            Word::Open,
            &[Field::Number(line.id as u64), Field::Bank],
        ),
        Device::Cppc { image } => put_line(
            out,
            Word::Open,
            &[
                Field::Number(line.id as u64),
                Field::Cppc,
                Field::Bytes(image),
            ],
        ),
    }
}

#[tactic(auto, using(pcc_text::proofs::Appending::appending_start, pcc_text::proofs::Appending::appending_more, pcc_text::proofs::Appending::appending_end, crate::proofs::Written::lines_text))]
fn put_opens(out: &mut Vec<u8>, opens: &Opens) -> Result<(), NoMemory>
    ensures { OnOk result (out.new.items ≡ out.old.items ++ statements_text (map open_statement opens.now)) }
{
    for line in opens.as_slice() {
        put_open(out, line)?;
    }
    Ok(())
}

fn put_cpu(out: &mut Vec<u8>, bytes: &Bytes) -> Result<(), NoMemory>
    ensures { OnOk result (out.new.items ≡ out.old.items ++ statement_text (cpu_statement bytes.now)) }
{
    put_line(out, Word::Cpu, &[Field::Bytes(bytes)])
}

#[tactic(auto, using(pcc_text::proofs::Appending::appending_start, pcc_text::proofs::Appending::appending_more, pcc_text::proofs::Appending::appending_end, crate::proofs::Written::lines_text))]
fn put_cpus(out: &mut Vec<u8>, cpus: &Packages) -> Result<(), NoMemory>
    ensures { OnOk result (out.new.items ≡ out.old.items ++ statements_text (map cpu_statement cpus.now)) }
{
    for bytes in cpus.as_slice() {
        put_cpu(out, bytes)?;
    }
    Ok(())
}

fn put_cap(out: &mut Vec<u8>, cap: &CapLine) -> Result<(), NoMemory>
    ensures { OnOk result (out.new.items ≡ out.old.items ++ statement_text (cap_statement cap.now)) }
{
    put_line(
        out,
        Word::Cap,
        &[
            Field::Number(cap.id as u64),
            Field::Number(cap.count),
            Field::Number(cap.value),
        ],
    )
}

#[tactic(auto, using(pcc_text::proofs::Appending::appending_start, pcc_text::proofs::Appending::appending_more, pcc_text::proofs::Appending::appending_end, crate::proofs::Written::lines_text))]
fn put_caps(out: &mut Vec<u8>, caps: &CapLines) -> Result<(), NoMemory>
    ensures { OnOk result (out.new.items ≡ out.old.items ++ statements_text (map cap_statement caps.now)) }
{
    for cap in caps.as_slice() {
        put_cap(out, cap)?;
    }
    Ok(())
}

fn put_action(out: &mut Vec<u8>, action: &Line) -> Result<(), NoMemory>
    ensures { OnOk result (out.new.items ≡ out.old.items ++ statement_text (action_statement action.now)) }
{
    match action {
        Line::Call {
            worker,
            subspace,
            code,
            bytes,
            polls,
            hold,
        } => put_line(
            out,
            Word::Call,
            &[
                Field::Number(*worker as u64),
                Field::Number(*subspace as u64),
                Field::Number(*code as u64),
                Field::Bytes(bytes),
                Field::Number(*polls as u64),
                Field::Number(*hold as u64),
            ],
        ),
        Line::Read {
            worker,
            cpu,
            polls,
            hold,
        } => put_line(
            out,
            Word::Read,
            &[
                Field::Number(*worker as u64),
                Field::Number(*cpu as u64),
                Field::Number(*polls as u64),
                Field::Number(*hold as u64),
            ],
        ),
        Line::Set {
            worker,
            wish,
            polls,
            hold,
        } => put_line(
            out,
            Word::Set,
            &[
                Field::Number(*worker as u64),
                Field::Number(wish.cpu as u64),
                Field::Optional(wish.min),
                Field::Number(wish.desired),
                Field::Optional(wish.max),
                Field::Number(*polls as u64),
                Field::Number(*hold as u64),
            ],
        ),
        Line::Wait { n } => put_line(out, Word::Wait, &[Field::Number(*n)]),
    }
}

#[tactic(auto, using(pcc_text::proofs::Appending::appending_start, pcc_text::proofs::Appending::appending_more, pcc_text::proofs::Appending::appending_end, crate::proofs::Written::lines_text))]
fn put_actions(out: &mut Vec<u8>, actions: &Actions) -> Result<(), NoMemory>
    ensures { OnOk result (out.new.items ≡ out.old.items ++ statements_text (map action_statement actions.now)) }
{
    for action in actions.as_slice() {
        put_action(out, action)?;
    }
    Ok(())
}

#[tactic(auto, using(crate::proofs::Written::picks_none, crate::proofs::Written::picks_some))]
fn put_picks(out: &mut Vec<u8>, picks: &Option<Picks>) -> Result<(), NoMemory>
    ensures { OnOk result (out.new.items ≡ out.old.items ++ statements_text (pick_statements picks.now)) }
{
    match picks {
        None => Ok(()),
        Some(letters) => put_line(out, Word::Pick, &[Field::Letters(letters)]),
    }
}

/// The text of a scenario that a text spells. It is the only one, and `scenario_from` reads it back.
#[tactic(auto, using(crate::proofs::Written::scenario_written))]
pub fn scenario_to(alloc: Global, scenario: &Scenario) -> Result<Vec<u8>, NoMemory>
    requires { IsScenario scenario.now }
    ensures { IfOk result (λ text. text.items ≡ script_text scenario.now) }
{
    let mut text = Vec::new(alloc);
    put_table(&mut text, &scenario.table)?;
    put_clock(&mut text, scenario.start, scenario.step)?;
    put_opens(&mut text, &scenario.opens)?;
    put_cpus(&mut text, &scenario.cpus)?;
    put_caps(&mut text, &scenario.caps)?;
    put_actions(&mut text, &scenario.actions)?;
    put_picks(&mut text, &scenario.picks)?;
    Ok(text)
}
