//! A text is read line by line, to the scenario that it spells or to its first fault.
ghost use Rattle.std.specs.Prelude.{◌≡◌, ◌↔◌, ◌⊎◌, ◌<◌, ◌≤◌, ℕ, List, suc, None, IfOk, length};
ghost use Rattle.pcc_bytes.specs.Fields.{split_at};
ghost use Rattle.pcc_script.specs.Rows.{most, place};
ghost use Rattle.pcc_script.specs.Text.{IsScenario, script_text, statements_of};
ghost use Rattle.pcc_script.specs.Faults.{HasFault, HasScenario, IfFault, IsReadAs, IsRefusedAt, TextWrong};
ghost use Rattle.pcc_script.specs.Limits.{IsWithin};
ghost use Rattle.pcc_script.specs.Reading.{count_for, ended, entry_statement, Gives, read_statement, read_text, so_far, Tells};
ghost use Rattle.pcc_script.specs.declared.fault.ScriptKind.{ScriptKind};
ghost use Rattle.pcc_script.specs.declared.scenario.Scenario.{Scenario};

use crate::fault::{ScriptError, Stop};
use crate::field::first_field;
use crate::line::{Entry, entry_of};
use crate::order::Seen;
use crate::partial::{Partial, complete};
use crate::scenario::Scenario;
use crate::word::word_of;
use pcc_text::{cut, split};
use std::alloc::Global;

/// What the next line gives.
#[tactic(auto, unfolding(crate::specs::Reading::read_statement), using(crate::proofs::Sequence::next_placed, crate::proofs::Sequence::next_few))]
fn next_entry(alloc: Global, seen: &Seen, line: &[u8]) -> Result<Entry, Stop>
    ensures read { Gives entry_statement result (read_statement seen.now (split_at 32 line.now)) }
    ensures placed { IfOk result (λ entry. seen.now.next ≤ place (entry_statement entry).word) }
    ensures few { IfOk result (λ entry. count_for seen.now (entry_statement entry).word < most (entry_statement entry).word) }
{
    let fields = split(alloc, line, b' ')?;
    let word = word_of(first_field(&fields))?;
    seen.place_test(word)?;
    entry_of(alloc, word, &fields)
}

/// The scenario of what was read, with `last` after the last line feed. The line after the last has this number.
fn finish(partial: Partial, last: &[u8], line: u32) -> Result<Scenario, ScriptError>
    requires { suc (length (so_far partial)) ≡ line }
    ensures { Tells statements_of result (ended (record { right = so_far partial; fault = None }) last.now) }
{
    match complete(partial, last) {
        Ok(scenario) => Ok(scenario),
        Err(kind) => Err(ScriptError::Fault { line, kind }),
    }
}

/// The scenario that a text spells, or its first fault, as reading finds them.
#[tactic(auto, using(crate::proofs::Going::going_start, crate::proofs::Going::going_empty, crate::proofs::Going::going_more, crate::proofs::Going::going_fault, crate::proofs::Going::going_count, crate::proofs::Going::going_short, crate::proofs::Going::going_end))]
fn read(alloc: Global, text: &[u8]) -> Result<Scenario, ScriptError>
    ensures { Tells statements_of result (read_text text.now) }
{
    let mut partial = Partial::new(alloc);
    let mut seen = Seen::start();
    let mut rest = text;
    let mut line = 1u32;
    while let Some((fields, behind)) = cut(rest, b'\n') {
        match next_entry(alloc, &seen, fields) {
            Ok(entry) => {
                let word = entry.word();
                partial.put(entry)?;
                seen = seen.after(word);
            }
            Err(Stop::Wrong(kind)) => return Err(ScriptError::Fault { line, kind }),
            Err(Stop::NoMemory) => return Err(ScriptError::NoMemory),
        }
        line += 1;
        rest = behind;
    }
    finish(partial, rest, line)
}

/// The scenario that a text spells. A text spells at most one, and each scenario within the limits has one text.
///
/// A line feed ends each line, and one space separates two fields. Numbers are decimal without leading zeros, bytes are lower-case
/// hexadecimal digits, or `-` for none.
///
/// The lines are, in this order: one `table HEX`, one `clock START STEP`, 1 to `MAX_OPENS` lines `open ID bank` or `open ID cppc HEX`, up to
/// `MAX_CPUS` lines `cpu HEX`, up to `MAX_CAPS` lines `cap ID COUNT VALUE`, up to `MAX_ACTIONS` actions (`call WORKER ID CODE HEX POLLS HOLD`,
/// `read WORKER CPU POLLS HOLD`, `set WORKER CPU MIN DESIRED MAX POLLS HOLD`, `wait N`) and at most one `pick LETTERS`.
#[tactic(auto, using(crate::proofs::Public::is_found, crate::proofs::Public::is_only, crate::proofs::Public::is_wrong, crate::proofs::Public::is_first))]
pub fn scenario_from(alloc: Global, text: &[u8]) -> Result<Scenario, ScriptError>
    // What is read is within the limits, and the text spells it.
    ensures found { IfOk result (λ s. IsScenario s × (text.now ≡ script_text s)) }
    // A scenario that the text spells is read, unless memory runs out.
    ensures only { (s : Scenario) → IsScenario s → text.now ≡ script_text s → IsReadAs s result }

    // A fault that is reported is the first of the text.
    ensures fault { IfFault result (TextWrong text.now) }
    // The first fault of the text is reported, unless memory runs out.
    ensures first { (line : ℕ) (kind : ScriptKind) → TextWrong text.now line kind → IsRefusedAt line kind result }
{
    read(alloc, text)
}

/// A scenario has a text exactly when its fields are within the limits.
pub fn within_limits()
    ensures { (s : Scenario) → IsWithin s ↔ IsScenario s }
{}

/// A text spells a scenario or has a fault, never both; it has one first fault at most, and two scenarios have two texts. It does nothing.
pub fn text_laws()
    ensures some { (text : List ℕ) → HasScenario text ⊎ HasFault text }
    ensures not_both { (text : List ℕ) → HasScenario text → HasFault text → ⊥ }
    ensures one_fault { (text : List ℕ) (line other : ℕ) (kind another : ScriptKind) → TextWrong text line kind → TextWrong text other another
        → (line ≡ other) × (kind ≡ another) }
    ensures one_scenario { (s t : Scenario) → IsScenario s → IsScenario t → script_text s ≡ script_text t → s ≡ t }
{}
