//! A text is cut at a byte, one part at a time.
ghost use Rattle.std.specs.Prelude.{◌≡◌, ◌<◌, ◌∷◌, [], MatchOption, IfSome, length};
ghost use Rattle.pcc_bytes.specs.Fields.{split_at};

use memchr::memchr;

/// The part of a text before the first byte `at` and what follows that byte, or None if there is no such byte.
#[tactic(auto, using(crate::proofs::Cuts::uncut, crate::proofs::Cuts::cut_once, std::proofs::lemmas::List::take_rest))]
pub fn cut<'a>(text: &'a [u8], at: u8) -> Option<(&'a [u8], &'a [u8])>
    ensures parts { MatchOption result (split_at at text.now ≡ text.now ∷ []) (λ x. split_at at text.now ≡ x.0.now ∷ split_at at x.1.now) }
    ensures shorter { IfSome result (λ x. length x.1.now < length text.now) }
{
    let place = memchr(at, text)?;
    Some((&text[..place], &text[place + 1..]))
}
