//! What refuses a call before it touches a word: its code, its bytes, a full journal, and a post that is too soon.
ghost use Rattle.std.specs.Prelude.{◌≡◌};
ghost use Rattle.channel_core.specs.Refusals.{refusal_of, soon_of};

use crate::CallRefusal;
use pcc_journal::MAX_ITEMS;
use rate_limit::{Limits, Times, earliest};

/// The greatest code that the generic header of types 0 to 2 can carry (ACPI 6.5, 14.2.1).
pub const GREATEST_CODE: u32 = 255;

/// The last of the types whose codes stand in the generic header.
const LAST_GENERIC: u8 = 2;

/// What refuses a command of this code with this many bytes after this many posts: a code above 255 on types 0 to 2, more bytes than the space has, and
/// then 4,096 posts.
pub fn refusal(kind: u8, room: u32, code: u32, len: usize, posts: usize) -> Option<CallRefusal>
    ensures { result ≡ refusal_of kind room code len posts }
{
    if kind <= LAST_GENERIC && code > GREATEST_CODE {
        return Some(CallRefusal::BadCode { code });
    }
    if len > room as usize {
        return Some(CallRefusal::TooLong { len, room });
    }
    if posts >= MAX_ITEMS {
        return Some(CallRefusal::JournalFull);
    }
    None
}

/// What refuses a post at a reading: that it is below the earliest which the limits allow after the commands so far.
pub fn too_soon(limits: &Limits, times: &[Times], now: u64) -> Option<CallRefusal>
    ensures { result ≡ soon_of limits.now times.now now }
{
    let earliest = earliest(limits, times);
    if u128::from(now) < earliest {
        return Some(CallRefusal::TooSoon { now, earliest });
    }
    None
}
