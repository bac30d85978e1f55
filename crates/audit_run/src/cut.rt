//! Where the journals of an input begin.
ghost use Rattle.std.specs.Prelude.{◌≡◌, ◌++◌};
ghost use Rattle.audit_run.specs.Cuts.{IsCut, is_journal};

use pcc_text::{cut, is_text};

// Whether a line, without its line feed, begins the journals.
fn is_journal(line: &[u8]) -> bool
    ensures { result ≡ is_journal line.now }
{
    match cut(line, b' ') {
        Some((field, _)) => is_text(field, b"journal"),
        None => is_text(line, b"journal"),
    }
}

/// The script part of an input, and its journals. The first line whose first field is `journal` begins the journals; where there is none, the journals
/// are empty.
#[tactic(auto, using(crate::proofs::Cutting::passes))]
pub fn cut_journals(input: &[u8]) -> (&[u8], &[u8])
    ensures cut { IsCut input.now result.0.now result.1.now }
{
    let mut rest = input;
    loop {
        match cut(rest, b'\n') {
            Some((line, next)) => {
                if is_journal(line) {
                    break;
                }
                rest = next;
            }
            None => {
                if is_journal(rest) {
                    break;
                }
                return (input, b"");
            }
        }
    }
    input.split_at(input.len() - rest.len())
}
