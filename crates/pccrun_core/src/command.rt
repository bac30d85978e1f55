//! The commands, as the words after the program's name ask for them.
ghost use Rattle.std.specs.Prelude.{◌≡◌, ◌≤◌, ◌∷◌, [], ℕ, IfSome, MatchOption, Some, codes, decimal, map};
ghost use Rattle.std.specs.String.{string_bytes};
ghost use Rattle.pcc_script.specs.declared.limits.TheConstants.{MAX_MADE_CALLS};
ghost use Rattle.pccrun_core.specs.Answers.{Asks, AsksFor, usage_line};
ghost use Rattle.pccrun_core.specs.declared.command.Command.{Command};
ghost use Rattle.pccrun_core.specs.declared.command.Request.{Request};

use pcc_script::MAX_MADE_CALLS;
use pcc_text::{is_text, number};

/// A command on the whole input that is built.
#[derive(Clone, Copy, Debug, PartialEq, Eq)]
pub enum Command {
    /// Runs a script in one thread.
    Step,
    /// Runs both ends of a channel at single word steps.
    Weave,
    /// Prints the text of a table.
    Show,
    /// Makes the bytes of a table from its text.
    Build,
    /// Prints the text of a package of performance control.
    Cpc,
    /// Writes a package of performance control again, as one of revision 3.
    Raise,
    /// Judges journals.
    Audit,
}

/// The command whose word this is.
fn command_named(word: &[u8]) -> Option<Command>
    ensures { MatchOption result ((c : Command) → AsksFor (word.now ∷ []) c → ⊥) (AsksFor (word.now ∷ [])) }
{
    if is_text(word, b"step") {
        Some(Command::Step)
    } else if is_text(word, b"weave") {
        Some(Command::Weave)
    } else if is_text(word, b"show") {
        Some(Command::Show)
    } else if is_text(word, b"build") {
        Some(Command::Build)
    } else if is_text(word, b"cpc") {
        Some(Command::Cpc)
    } else if is_text(word, b"raise") {
        Some(Command::Raise)
    } else if is_text(word, b"audit") {
        Some(Command::Audit)
    } else {
        None
    }
}

/// What words ask for.
#[derive(Clone, Copy, Debug, PartialEq, Eq)]
pub enum Request {
    /// A command on the whole input.
    Run(Command),
    /// A made-up script of so many calls, from 1 to 4,096. No input is read.
    Make { calls: u32 },
}

// The number of calls that a word tells.
fn calls_told(word: &[u8]) -> Option<u32>
    ensures right { IfSome result (λ n. (1 ≤ n) × (n ≤ MAX_MADE_CALLS) × (word.now ≡ decimal n)) }
    ensures only { (n : ℕ) → 1 ≤ n → n ≤ MAX_MADE_CALLS → word.now ≡ decimal n → result ≡ Some n }
{
    match number(word, u64::from(MAX_MADE_CALLS)) {
        Some(0) | None => None,
        Some(n) => Some(n as u32),
    }
}

/// What these words ask for.
pub fn request_of(words: &[String]) -> Option<Request>
    ensures { let texts = map (λ w. string_bytes w) words.now in MatchOption result ((r : Request) → Asks texts r → ⊥) (Asks texts) }
{
    match words {
        [word] => match command_named(word.as_bytes()) {
            Some(command) => Some(Request::Run(command)),
            None => None,
        },
        [word, count] => {
            if !is_text(word.as_bytes(), b"make") {
                return None;
            }
            match calls_told(count.as_bytes()) {
                Some(calls) => Some(Request::Make { calls }),
                None => None,
            }
        }
        _ => None,
    }
}

/// The line that tells the commands.
pub fn usage() -> &'static [u8]
    ensures { result.now ≡ usage_line }
{
    b"usage: pccrun show|build|cpc|step|weave|threads|audit|make N|raise\n"
}
