//! What the registers of a subspace say, and their places, by the type of the subspace.
ghost use Rattle.std.specs.Prelude.{◌≡◌};
ghost use Rattle.pcc_steps.specs.Wires.{acknowledges, header_error, meets, sees_done, style_of, tells_error, update_place};

use crate::kind::may_acknowledge;
use crate::wiring::{Style, Wiring, place};
use shmem_header::{COMPLETE_BIT, ERROR_BIT, is_set};

pub(crate) fn update_place(style: Style) -> u32
    ensures { result ≡ update_place style }
{
    match style {
        Style::Joined3 | Style::Joined4 => place::COMPLETION,
        _ => place::UPDATE,
    }
}

// Whether a bit of the mask is set.
pub(crate) fn meets(word: u64, mask: u64) -> bool
    ensures { result ≡ meets word mask }
{
    word & mask != 0
}

pub(crate) fn sees_done(wiring: &Wiring, word: u64) -> bool
    ensures { result ≡ sees_done wiring.now word }
{
    match wiring.style() {
        Style::Headed => is_set(word, COMPLETE_BIT),
        _ => meets(word, wiring.check_mask),
    }
}

pub(crate) fn tells_error(wiring: &Wiring) -> bool
    ensures { result ≡ tells_error wiring.now }
{
    match wiring.style() {
        Style::Headed => false,
        _ => wiring.reports,
    }
}

pub(crate) fn header_error(style: Style, word: u64) -> bool
    ensures { result ≡ header_error style word }
{
    match style {
        Style::Headed => is_set(word, ERROR_BIT),
        _ => false,
    }
}

pub(crate) fn acknowledges(wiring: &Wiring) -> bool
    ensures { result ≡ acknowledges wiring.now }
{
    wiring.has_ack && may_acknowledge(wiring.kind)
}
