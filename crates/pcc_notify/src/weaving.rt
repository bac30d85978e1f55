//! A whole run of picks on a new channel of type 4.

ghost use Rattle.std.specs.Prelude.{◌≡◌, ◌++◌, List, OnOk, OnErr, ℕ, take};
ghost use Rattle.channel_plain.specs.declared.trace.TraceLine.{TraceLine};
ghost use Rattle.channel_plain.specs.Good.{IsGood, Stays};
ghost use Rattle.channel_plain.specs.News.{opening_of};
ghost use Rattle.channel_plain.specs.Standing.{HavePolls, IsServing};
ghost use Rattle.channel_plain.specs.TraceText.{trace_text};
ghost use Rattle.channel_plain.specs.Weaving.{IsFresh};
ghost use Rattle.channel_plain.specs.Wholes.{IsWhole};
ghost use Rattle.pcc_notify.specs.Notices.{IsNotifying};

use crate::notify::NotifyPlain;
use channel_plain::{Asked, Side};
use pcc_exec::Executor;
use pcc_io::{Clock, NoMemory};

/// Does what `channel_plain::weave_lines` does, on a new channel of type 4.
pub fn weave_lines<E: Executor, K: Clock>(
    out: &mut Vec<u8>,
    notify: &mut NotifyPlain<E, K>,
    calls: &[Asked],
    picks: &[Side],
) -> Result<(), NoMemory>
    requires fresh { IsFresh notify.old.channel }
    requires polls { HavePolls calls.now }
    ensures run { OnOk result ((trace : List TraceLine)
        × IsNotifying K.taken K.tells E.exec_of calls.now E.is_state E.room_of picks.now notify.old trace notify.new
        × (out.new.items ≡ out.old.items ++ trace_text trace)) }
    ensures cut { OnErr result ((n : ℕ) × (trace : List TraceLine)
        × IsNotifying K.taken K.tells E.exec_of calls.now E.is_state E.room_of (take n picks.now) notify.old trace notify.new) }

    // Of all picks, or of those before want of memory.
    ensures good { IsGood E.exec_of notify.new.channel }
    ensures whole { IsWhole (opening_of notify.old.channel.ask.wiring) calls.now notify.new.channel.calls.records }
    ensures stays { Stays notify.old.channel notify.new.channel }
    ensures serving { IsServing calls.now notify.new.channel }
{
    let done = channel_plain::weave_lines(out, &mut notify.plain, calls, picks);
    notify.stand();
    done
}
