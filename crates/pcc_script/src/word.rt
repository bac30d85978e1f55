//! The ten words that begin the lines of a script, and the places of their lines.
ghost use Rattle.std.specs.Prelude.{◌≡◌};
ghost use Rattle.pcc_script.specs.Rows.{behind, most, place, text_of};
ghost use Rattle.pcc_script.specs.Reading.{Gives, word_named};

use crate::fault::{ScriptKind, Stop};
use crate::limits::{MAX_ACTIONS, MAX_CAPS, MAX_CPUS, MAX_OPENS};
use pcc_text::is_text;

/// The word that begins a line.
#[derive(Clone, Copy)]
pub enum Word {
    Table,
    Clock,
    Open,
    Cpu,
    Cap,
    Call,
    Read,
    Set,
    Wait,
    Pick,
}

/// The word that a field spells.
#[tactic(auto, unfolding(crate::specs::Reading::word_named))]
pub fn word_of(field: &[u8]) -> Result<Word, Stop>
    ensures { Gives (λ word. word) result (word_named field.now) }
{
    if is_text(field, Word::Table.text()) {
        return Ok(Word::Table);
    }
    if is_text(field, Word::Clock.text()) {
        return Ok(Word::Clock);
    }
    if is_text(field, Word::Open.text()) {
        return Ok(Word::Open);
    }
    if is_text(field, Word::Cpu.text()) {
        return Ok(Word::Cpu);
    }
    if is_text(field, Word::Cap.text()) {
        return Ok(Word::Cap);
    }
    if is_text(field, Word::Call.text()) {
        return Ok(Word::Call);
    }
    if is_text(field, Word::Read.text()) {
        return Ok(Word::Read);
    }
    if is_text(field, Word::Set.text()) {
        return Ok(Word::Set);
    }
    if is_text(field, Word::Wait.text()) {
        return Ok(Word::Wait);
    }
    if is_text(field, Word::Pick.text()) {
        return Ok(Word::Pick);
    }
    Err(Stop::Wrong(ScriptKind::Unknown))
}

impl Word {
    /// The text that begins its lines.
    pub fn text(self) -> &'static [u8]
        ensures { result.now ≡ text_of self }
    {
        match self {
            Word::Table => b"table",
            Word::Clock => b"clock",
            Word::Open => b"open",
            Word::Cpu => b"cpu",
            Word::Cap => b"cap",
            Word::Call => b"call",
            Word::Read => b"read",
            Word::Set => b"set",
            Word::Wait => b"wait",
            Word::Pick => b"pick",
        }
    }

    /// The place of its lines in a script. The four kinds of actions share one.
    pub fn place(self) -> u32
        ensures { result ≡ place self }
    {
        match self {
            Word::Table => 0,
            Word::Clock => 1,
            Word::Open => 2,
            Word::Cpu => 3,
            Word::Cap => 4,
            Word::Call | Word::Read | Word::Set | Word::Wait => 5,
            Word::Pick => 6,
        }
    }

    /// The least place of a line after it. A word that occurs once leaves its place.
    pub fn behind(self) -> u32
        ensures { result ≡ behind self }
    {
        match self {
            Word::Table => 1,
            Word::Clock => 2,
            Word::Pick => 7,
            word => word.place(),
        }
    }

    /// How many lines there may be at its place.
    pub fn most(self) -> u32
        ensures { result ≡ most self }
    {
        match self {
            Word::Table | Word::Clock | Word::Pick => 1,
            Word::Open => MAX_OPENS,
            Word::Cpu => MAX_CPUS,
            Word::Cap => MAX_CAPS,
            Word::Call | Word::Read | Word::Set | Word::Wait => MAX_ACTIONS,
        }
    }
}
