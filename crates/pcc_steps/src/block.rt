//! The words of a block: its header words, and those of a space.
ghost use Rattle.std.specs.Prelude.{◌≡◌, ◌≤◌, ◌+◌, ◌-◌, ◌/◌, ◌%◌, ◌++◌, length};
ghost use Rattle.pcc_history.specs.Channel.{over};
ghost use Rattle.shmem_header.specs.Spelling.{words_of};
ghost use Rattle.pcc_steps.specs.Changes.{next_changed};
ghost use Rattle.pcc_steps.specs.Moves.{with_loaded};
ghost use Rattle.pcc_steps.specs.Wires.{block_header, block_of, opening_header, style_of};

use crate::wiring::{Style, Wiring, place};
use shmem_header::{Extended, Reduced, extended_to, reduced_to, signature_of, words_into};

// The bytes over the front of the space.
pub(crate) fn lay(space: &[u8], bytes: &[u8], input: &mut [u8])
    requires same { length input.old ≡ length space.now }
    requires fits { length bytes.now ≤ length space.now }
    ensures { input.new ≡ over space.now bytes.now }
{
    join(bytes, space.split_at(bytes.len()).1, input);
}

// One after the other.
fn join(front: &[u8], back: &[u8], whole: &mut [u8])
    requires { length whole.old ≡ length front.now + length back.now }
    ensures { whole.new ≡ front.now ++ back.now }
{
    whole[..front.len()].copy_from_slice(front);
    whole[front.len()..].copy_from_slice(back);
}

// A block begins with its header words.
pub(crate) fn fill(header: &[u64], space: &[u8], block: &mut [u64])
    requires long { length block.old ≡ length header.now + length space.now / 8 }
    requires whole { length space.now % 8 ≡ 0 }
    ensures { block.new ≡ header.now ++ words_of space.now }
{
    block[..header.len()].copy_from_slice(header);
    words_into(space, &mut block[header.len()..]);
}

pub(crate) fn fill_block(wiring: &Wiring, code: u32, asked: u32, space: &[u8], block: &mut [u64])
    requires long { length block.old ≡ block_of wiring.now }
    requires room { length space.now ≡ wiring.now.room }
    requires whole { wiring.now.room % 8 ≡ 0 }
    requires asked { asked ≤ 4096 }
    ensures { block.new ≡ block_header (style_of wiring.now) wiring.now code asked ++ words_of space.now }
{
    let signature = signature_of(wiring.id);
    match wiring.style() {
        Style::Headed => fill(&[], space, block),
        Style::Reduced5 => fill(
            &[reduced_to(Reduced {
                signature,
                command: code,
            })],
            space,
            block,
        ),
        _ => {
            let flags = if wiring.notify { Extended::NOTIFY } else { 0 };
            fill(
                &extended_to(Extended {
                    signature,
                    flags,
                    length: 4 + asked,
                    command: code,
                }),
                space,
                block,
            )
        }
    }
}

pub(crate) fn fill_opening(wiring: &Wiring, space: &[u8], block: &mut [u64])
    requires long { length block.old ≡ block_of wiring.now }
    requires room { length space.now ≡ wiring.now.room }
    requires whole { wiring.now.room % 8 ≡ 0 }
    ensures { block.new ≡ opening_header (style_of wiring.now) wiring.now ++ words_of space.now }
{
    let signature = u64::from(signature_of(wiring.id));
    match wiring.style() {
        Style::Headed => fill(&[], space, block),
        Style::Reduced5 => fill(&[signature], space, block),
        _ => fill(&[signature, 0], space, block),
    }
}

/// The place of the block's first word.
pub(crate) const FIRST: usize = place::BLOCK as usize;

// The first word from the word `from` on that differs from the old one, or the number of words where none does.
#[tactic(auto, using(crate::proofs::Changes::next_same, crate::proofs::Changes::next_other, crate::proofs::Changes::next_none))]
pub(crate) fn next_changed(from: usize, block: &[u64], old: &[u64]) -> usize
    requires order { from ≤ length block.now }
    requires same { length block.now ≡ length old.now }
    ensures order { from ≤ result }
    ensures next { result ≡ next_changed from block.now old.now }
{
    for at in from..block.len() {
        if block[at] != old[at] {
            return at;
        }
    }
    block.len()
}

// Words of the block are loaded from their places, from the word `from` on and before the word `to`.
#[tactic(auto, using(crate::proofs::BlockMoves::loaded_more, crate::proofs::BlockMoves::loaded_done))]
pub(crate) fn load_words(words: &[u64], from: usize, to: usize, block: &mut [u64])
    requires order { from ≤ to }
    requires most { to ≤ length block.old }
    requires long { length words.now ≡ 8 + length block.old }
    ensures { block.new ≡ with_loaded (to - from) from words.now block.old }
{
    for at in from..to {
        block[at] = words[FIRST + at];
    }
}
