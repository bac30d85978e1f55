//! The words of a subspace as a plain list: those before the first step, and one word step on them.

ghost use Rattle.std.specs.Prelude.{◌≡◌, ◌++◌, length, IfOk, OnOk};
ghost use Rattle.shmem_header.specs.Spelling.{words_of};
ghost use Rattle.pcc_steps.specs.Wires.{IsRight, opening_header, opening_word, opening_words, style_of};
ghost use Rattle.pcc_steps.specs.Asking.{IsWithin};
ghost use Rattle.pcc_steps.specs.Agree.{act, found};

use crate::wiring::{Action, Style, Wiring};
use pcc_io::NoMemory;
use shmem_header::{Generic, header_word, signature_of, words_into};
use std::alloc::Global;

/// The words of a subspace before the first step: word 0 says that nothing is in flight, the block begins with its
/// signature, and the space follows.
#[tactic(auto, using(std::proofs::lemmas::List::append_assoc))]
pub fn opening_words(alloc: Global, wiring: &Wiring, opening: &[u8]) -> Result<Vec<u64>, NoMemory>
    requires right { IsRight wiring.now }
    requires room { length opening.now ≡ wiring.now.room }
    ensures { IfOk result (λ words. words.items ≡ opening_words wiring.now (words_of opening.now)) }
{
    let mut space = vec![in alloc; 0; (wiring.room / 8) as usize]?;
    words_into(opening, &mut space);
    let mut words = Vec::from_slice(alloc, &[opening_word(wiring), 0, 0, 0, 0, 0, 0, 0])?;
    put_header(&mut words, wiring)?;
    words.extend_from_slice(&space)?;
    Ok(words)
}

fn opening_word(wiring: &Wiring) -> u64
    ensures { result ≡ opening_word (style_of wiring.now) wiring.now }
{
    match wiring.style() {
        Style::Headed => header_word(0, false, Generic::COMPLETE, wiring.id),
        _ => wiring.check_mask,
    }
}

// The header words of the block: none for types 0 to 2, two for types 3 and 4, one for type 5.
fn put_header(words: &mut Vec<u64>, wiring: &Wiring) -> Result<(), NoMemory>
    ensures { OnOk result (words.new.items ≡ words.old.items ++ opening_header (style_of wiring.now) wiring.now) }
{
    let signature = u64::from(signature_of(wiring.id));
    match wiring.style() {
        Style::Headed => {}
        Style::Reduced5 => words.push(signature)?,
        _ => words.extend_from_slice(&[signature, 0])?,
    }
    Ok(())
}

/// Makes a word step. Returns the value that was loaded or found, and 0 where there is none.
#[inline(always)]
pub fn perform(words: &mut [u64], action: Action) -> u64
    requires { IsWithin (length words.old) action }
    ensures words { words.new ≡ act action words.old }
    ensures value { result ≡ found action words.old }
{
    match action {
        Action::Load(place) => words[place as usize],
        Action::Store(place, word) => {
            words[place as usize] = word;
            0
        }
        Action::Swap(place, word) => {
            let value = words[place as usize];
            words[place as usize] = word;
            value
        }
        Action::Execute { .. } | Action::Rest => 0,
    }
}
