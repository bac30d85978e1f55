//! A whole run of picks on a new channel. Its lines go into a list, or as text to the end of a text.

ghost use Rattle.std.specs.Prelude.{◌≡◌, ◌++◌, ℕ, List, [], IfOk, OnErr, OnOk, take};
ghost use Rattle.channel_plain.specs.declared.trace.TraceLine.{TraceLine};
ghost use Rattle.channel_plain.specs.TraceText.{trace_text};
ghost use Rattle.channel_plain.specs.Standing.{HavePolls, IsServing};
ghost use Rattle.channel_plain.specs.News.{opening_of};
ghost use Rattle.channel_plain.specs.Weaving.{Follows, IsFresh, IsWeave};
ghost use Rattle.channel_plain.specs.Wholes.{IsWhole};
ghost use Rattle.channel_plain.specs.Good.{IsGood, Stays};

use crate::lines::LineSink;
use crate::plain::Plain;
use crate::trace::{Asked, Side, Trace};
use pcc_exec::Executor;
use pcc_io::{Clock, Items, NoMemory};
use pcc_steps::{answering_tables, asking_tables, history_laws};
use std::alloc::Global;

// Picks in order, one after the other. Each line goes out.
fn pick_all<O: LineSink, E: Executor, K: Clock>(
    out: &mut O,
    plain: &mut Plain<E, K>,
    calls: &[Asked],
    picks: &[Side],
) -> Result<(), NoMemory>
    requires fresh { IsFresh plain.old.channel }
    requires polls { HavePolls calls.now }
    ensures { (n : ℕ) × (trace : List TraceLine)
        × Follows K.taken K.tells E.exec_of calls.now E.is_state E.room_of (take n picks.now) plain.old trace plain.new
        × OnOk result ((take n picks.now ≡ picks.now) × O.took out.old trace out.new) }
{
    out.expect(picks.len())?;
    for place in 0..picks.len() {
        let line = plain.pick(picks[place], calls)?;
        out.add(line)?;
    }
    Ok(())
}

// Runs the picks in order on a new channel.
fn weave_to<O: LineSink, E: Executor, K: Clock>(
    out: &mut O,
    plain: &mut Plain<E, K>,
    calls: &[Asked],
    picks: &[Side],
) -> Result<(), NoMemory>
    requires fresh { IsFresh plain.old.channel }
    requires polls { HavePolls calls.now }
    ensures run { OnOk result ((trace : List TraceLine)
        × IsWeave K.taken K.tells E.exec_of calls.now E.is_state E.room_of picks.now plain.old trace plain.new × O.took out.old trace out.new) }
    ensures cut { OnErr result ((n : ℕ) × (trace : List TraceLine)
        × IsWeave K.taken K.tells E.exec_of calls.now E.is_state E.room_of (take n picks.now) plain.old trace plain.new) }
    ensures good { IsGood E.exec_of plain.new.channel }
    ensures whole { IsWhole (opening_of plain.old.channel.ask.wiring) calls.now plain.new.channel.calls.records }
    ensures stays { Stays plain.old.channel plain.new.channel }
    ensures serving { IsServing calls.now plain.new.channel }
{
    let done = pick_all(out, plain, calls, picks);
    asking_tables();
    answering_tables();
    history_laws();
    plain.stand();
    done
}

/// Runs the picks in order on a new channel. The trace has a line for each; the steps of each side are runs of the tables, the last one
/// perhaps cut. After `NoMemory` the picks before it stand. More picks can follow either way.
pub fn weave<E: Executor, K: Clock>(
    alloc: Global,
    plain: &mut Plain<E, K>,
    calls: &[Asked],
    picks: &[Side],
) -> Result<Trace, NoMemory>
    requires fresh { IsFresh plain.old.channel }
    requires polls { HavePolls calls.now }
    ensures run { IfOk result (λ trace. IsWeave K.taken K.tells E.exec_of calls.now E.is_state E.room_of picks.now plain.old trace plain.new) }
    ensures cut { OnErr result ((n : ℕ) × (trace : List TraceLine)
        × IsWeave K.taken K.tells E.exec_of calls.now E.is_state E.room_of (take n picks.now) plain.old trace plain.new) }

    // Of all picks, or of those before want of memory.
    ensures good { IsGood E.exec_of plain.new.channel }
    ensures whole { IsWhole (opening_of plain.old.channel.ask.wiring) calls.now plain.new.channel.calls.records }
    ensures stays { Stays plain.old.channel plain.new.channel }
    ensures serving { IsServing calls.now plain.new.channel }
{
    let mut trace = Items::new(alloc);
    weave_to(&mut trace, plain, calls, picks)?;
    Ok(trace)
}

/// Does what `weave` does and puts the text of the trace at the end of a text, as `trace_lines` has it. It keeps no trace. After `NoMemory`
/// nothing is said of the text.
pub fn weave_lines<E: Executor, K: Clock>(
    out: &mut Vec<u8>,
    plain: &mut Plain<E, K>,
    calls: &[Asked],
    picks: &[Side],
) -> Result<(), NoMemory>
    requires fresh { IsFresh plain.old.channel }
    requires polls { HavePolls calls.now }
    ensures run { OnOk result ((trace : List TraceLine)
        × IsWeave K.taken K.tells E.exec_of calls.now E.is_state E.room_of picks.now plain.old trace plain.new
        × (out.new.items ≡ out.old.items ++ trace_text trace)) }
    ensures cut { OnErr result ((n : ℕ) × (trace : List TraceLine)
        × IsWeave K.taken K.tells E.exec_of calls.now E.is_state E.room_of (take n picks.now) plain.old trace plain.new) }

    // Of all picks, or of those before want of memory.
    ensures good { IsGood E.exec_of plain.new.channel }
    ensures whole { IsWhole (opening_of plain.old.channel.ask.wiring) calls.now plain.new.channel.calls.records }
    ensures stays { Stays plain.old.channel plain.new.channel }
    ensures serving { IsServing calls.now plain.new.channel }
{
    weave_to(out, plain, calls, picks)
}
