//! One reader for each word: it tests the fields of a line in the order of the word's row.
ghost use Rattle.std.specs.Prelude.{◌≡◌, ◌≤◌, length, map};
ghost use Rattle.pcc_script.specs.Rows.{device_steps};
ghost use Rattle.pcc_script.specs.Text.{device_values};
ghost use Rattle.pcc_script.specs.Reading.{entry_statement, Gives, read_at, statement_of};
ghost use Rattle.pcc_script.specs.declared.word.Word.TheVariants as word;

use crate::fault::{ScriptKind, Stop};
use crate::field::{bytes_field, letters_field, number_field, optional_field, positive_field};
use crate::limits::{MAX_CODE, MAX_CPU, MAX_HOLD, MAX_ID, MAX_LETTERS, MAX_POLLS, MAX_WORKER};
use crate::scenario::{CapLine, Device, Line, OpenLine, Picks, Wish1};
use crate::word::Word;
use pcc_io::Bytes;
use pcc_text::{is_text, part};
use std::alloc::Global;

/// What a line gives.
#[derive(Drop)]
pub enum Entry {
    Table(Bytes),
    Clock { start: u64, step: u64 },
    Open(OpenLine),
    Cpu(Bytes),
    Cap(CapLine),
    Action(Line),
    Picks(Picks),
}

impl Entry {
    /// The word of its line.
    pub fn word(&self) -> Word
        ensures { result ≡ (entry_statement self.now).word }
    {
        match self {
            Entry::Table(_) => Word::Table,
            Entry::Clock { .. } => Word::Clock,
            Entry::Open(_) => Word::Open,
            Entry::Cpu(_) => Word::Cpu,
            Entry::Cap(_) => Word::Cap,
            Entry::Action(Line::Call { .. }) => Word::Call,
            Entry::Action(Line::Read { .. }) => Word::Read,
            Entry::Action(Line::Set { .. }) => Word::Set,
            Entry::Action(Line::Wait { .. }) => Word::Wait,
            Entry::Picks(_) => Word::Pick,
        }
    }
}

/// What the fields of a line of this word give. The first field is the word.
pub fn entry_of(alloc: Global, word: Word, fields: &[&[u8]]) -> Result<Entry, Stop>
    ensures { Gives entry_statement result (statement_of word (map (λ field. field.now) fields.now)) }
{
    match word {
        Word::Table => table_line(alloc, fields),
        Word::Clock => clock_line(fields),
        Word::Open => open_line(alloc, fields),
        Word::Cpu => cpu_line(alloc, fields),
        Word::Cap => cap_line(fields),
        Word::Call => call_line(alloc, fields),
        Word::Read => read_line(fields),
        Word::Set => set_line(fields),
        Word::Wait => wait_line(fields),
        Word::Pick => pick_line(alloc, fields),
    }
}

#[tactic(auto, unfolding(crate::specs::Reading::read_at, crate::specs::Reading::read_field))]
fn table_line(alloc: Global, fields: &[&[u8]]) -> Result<Entry, Stop>
    ensures { Gives entry_statement result (statement_of word.Table (map (λ field. field.now) fields.now)) }
{
    if fields.len() != 2 {
        return Err(Stop::Wrong(ScriptKind::Fields));
    }
    Ok(Entry::Table(bytes_field(alloc, fields, 1)?))
}

#[tactic(auto, unfolding(crate::specs::Reading::read_at, crate::specs::Reading::read_field))]
fn clock_line(fields: &[&[u8]]) -> Result<Entry, Stop>
    ensures { Gives entry_statement result (statement_of word.Clock (map (λ field. field.now) fields.now)) }
{
    if fields.len() != 3 {
        return Err(Stop::Wrong(ScriptKind::Fields));
    }
    let start = number_field(fields, 1, u64::MAX)?;
    let step = number_field(fields, 2, u64::MAX)?;
    Ok(Entry::Clock { start, step })
}

#[tactic(auto, unfolding(crate::specs::Reading::read_at, crate::specs::Reading::read_field))]
fn open_line(alloc: Global, fields: &[&[u8]]) -> Result<Entry, Stop>
    ensures { Gives entry_statement result (statement_of word.Open (map (λ field. field.now) fields.now)) }
{
    if fields.len() < 3 {
        return Err(Stop::Wrong(ScriptKind::Fields));
    }
    let id = number_field(fields, 1, MAX_ID)?;
    let device = device_fields(alloc, fields)?;
    Ok(Entry::Open(OpenLine {
        id: id as u8,
        device,
    }))
}

/// The device of an `open` line, from its third field on.
#[tactic(auto, unfolding(crate::specs::Reading::read_at, crate::specs::Reading::read_field))]
fn device_fields(alloc: Global, fields: &[&[u8]]) -> Result<Device, Stop>
    requires { 3 ≤ length fields.now }
    ensures { Gives device_values result (read_at 2 (device_steps (map (λ field. field.now) fields.now)) (map (λ field. field.now) fields.now)) }
{
    let name = part(fields, 2);
    if is_text(name, b"cppc") {
        if fields.len() != 4 {
            return Err(Stop::Wrong(ScriptKind::Fields));
        }
        let image = bytes_field(alloc, fields, 3)?;
        return Ok(Device::Cppc { image });
    }
    if !is_text(name, b"bank") {
        return Err(Stop::Wrong(ScriptKind::Name));
    }
    if fields.len() != 3 {
        return Err(Stop::Wrong(ScriptKind::Fields));
    }
    Ok(Device::Bank)
}

#[tactic(auto, unfolding(crate::specs::Reading::read_at, crate::specs::Reading::read_field))]
fn cpu_line(alloc: Global, fields: &[&[u8]]) -> Result<Entry, Stop>
    ensures { Gives entry_statement result (statement_of word.Cpu (map (λ field. field.now) fields.now)) }
{
    if fields.len() != 2 {
        return Err(Stop::Wrong(ScriptKind::Fields));
    }
    Ok(Entry::Cpu(bytes_field(alloc, fields, 1)?))
}

#[tactic(auto, unfolding(crate::specs::Reading::read_at, crate::specs::Reading::read_field))]
fn cap_line(fields: &[&[u8]]) -> Result<Entry, Stop>
    ensures { Gives entry_statement result (statement_of word.Cap (map (λ field. field.now) fields.now)) }
{
    if fields.len() != 4 {
        return Err(Stop::Wrong(ScriptKind::Fields));
    }
    let id = number_field(fields, 1, MAX_ID)?;
    let count = number_field(fields, 2, u64::MAX)?;
    let value = number_field(fields, 3, u64::MAX)?;
    Ok(Entry::Cap(CapLine {
        id: id as u8,
        count,
        value,
    }))
}

#[tactic(auto, unfolding(crate::specs::Reading::read_at, crate::specs::Reading::read_field))]
fn call_line(alloc: Global, fields: &[&[u8]]) -> Result<Entry, Stop>
    ensures { Gives entry_statement result (statement_of word.Call (map (λ field. field.now) fields.now)) }
{
    if fields.len() != 7 {
        return Err(Stop::Wrong(ScriptKind::Fields));
    }
    let worker = number_field(fields, 1, MAX_WORKER)?;
    let subspace = number_field(fields, 2, MAX_ID)?;
    let code = number_field(fields, 3, MAX_CODE)?;
    let bytes = bytes_field(alloc, fields, 4)?;
    let polls = positive_field(fields, 5, MAX_POLLS)?;
    let hold = number_field(fields, 6, MAX_HOLD)?;
    Ok(Entry::Action(Line::Call {
        worker: worker as u32,
        subspace: subspace as u32,
        code: code as u32,
        bytes,
        polls: polls as u32,
        hold: hold as u32,
    }))
}

#[tactic(auto, unfolding(crate::specs::Reading::read_at, crate::specs::Reading::read_field))]
fn read_line(fields: &[&[u8]]) -> Result<Entry, Stop>
    ensures { Gives entry_statement result (statement_of word.Read (map (λ field. field.now) fields.now)) }
{
    if fields.len() != 5 {
        return Err(Stop::Wrong(ScriptKind::Fields));
    }
    let worker = number_field(fields, 1, MAX_WORKER)?;
    let cpu = number_field(fields, 2, MAX_CPU)?;
    let polls = positive_field(fields, 3, MAX_POLLS)?;
    let hold = number_field(fields, 4, MAX_HOLD)?;
    Ok(Entry::Action(Line::Read {
        worker: worker as u32,
        cpu: cpu as u32,
        polls: polls as u32,
        hold: hold as u32,
    }))
}

#[tactic(auto, unfolding(crate::specs::Reading::read_at, crate::specs::Reading::read_field))]
fn set_line(fields: &[&[u8]]) -> Result<Entry, Stop>
    ensures { Gives entry_statement result (statement_of word.Set (map (λ field. field.now) fields.now)) }
{
    if fields.len() != 8 {
        return Err(Stop::Wrong(ScriptKind::Fields));
    }
    let worker = number_field(fields, 1, MAX_WORKER)?;
    let cpu = number_field(fields, 2, MAX_CPU)?;
    let min = optional_field(fields, 3)?;
    let desired = number_field(fields, 4, u64::MAX)?;
    let max = optional_field(fields, 5)?;
    let polls = positive_field(fields, 6, MAX_POLLS)?;
    let hold = number_field(fields, 7, MAX_HOLD)?;
    let wish = Wish1 {
        cpu: cpu as u32,
        min,
        desired,
        max,
    };
    Ok(Entry::Action(Line::Set {
        worker: worker as u32,
        wish,
        polls: polls as u32,
        hold: hold as u32,
    }))
}

#[tactic(auto, unfolding(crate::specs::Reading::read_at, crate::specs::Reading::read_field))]
fn wait_line(fields: &[&[u8]]) -> Result<Entry, Stop>
    ensures { Gives entry_statement result (statement_of word.Wait (map (λ field. field.now) fields.now)) }
{
    if fields.len() != 2 {
        return Err(Stop::Wrong(ScriptKind::Fields));
    }
    let n = number_field(fields, 1, u64::MAX)?;
    Ok(Entry::Action(Line::Wait { n }))
}

#[tactic(auto, unfolding(crate::specs::Reading::read_at, crate::specs::Reading::read_field))]
fn pick_line(alloc: Global, fields: &[&[u8]]) -> Result<Entry, Stop>
    ensures { Gives entry_statement result (statement_of word.Pick (map (λ field. field.now) fields.now)) }
{
    if fields.len() != 2 {
        return Err(Stop::Wrong(ScriptKind::Fields));
    }
    let letters = letters_field(alloc, fields, 1)?;
    if part(fields, 1).len() > MAX_LETTERS {
        return Err(Stop::Wrong(ScriptKind::Many));
    }
    Ok(Entry::Picks(letters))
}
