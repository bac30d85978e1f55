//! A channel on a plain list of words with its clock, and one pick of a side.

ghost use Rattle.std.specs.Prelude.{◌≡◌, IfOk, OnErr};
ghost use Rattle.std.specs.Option.{option_copied};
ghost use Rattle.rate_limit.specs.RateLimits.{WithinLimits};
ghost use Rattle.pcc_journal.specs.Records.{times_of};
ghost use Rattle.pcc_steps.specs.Wires.{IsRight};
ghost use Rattle.channel_plain.specs.Picks.{asks_by, pending_by, picked};
ghost use Rattle.channel_core.specs.Sendings.{post_of};
ghost use Rattle.channel_plain.specs.Standing.{HavePolls, IsServing, Stands};
ghost use Rattle.channel_plain.specs.Steps.{IsPickAt};
ghost use Rattle.channel_plain.specs.News.{IsNew};
ghost use Rattle.channel_plain.specs.Weaving.{PicksOnce};
ghost use Rattle.channel_plain.specs.Good.{IsGood};

use crate::ends::Ends;
use crate::pick::Pick;
use crate::trace::{Asked, Side, TraceLine};
use pcc_exec::Executor;
use pcc_io::{Clock, NoMemory};
use pcc_journal::{Commands, Journal, Notes, Pending};
use pcc_steps::{Wiring, history_laws, is_responder};
use rate_limit::Limits;
use std::alloc::Global;
use std::marker::Model;

/// A channel whose two ends take turns on a plain list of words, with the clock that its asking side reads.
#[derive(Drop)]
pub struct Plain<E: Executor, K: Clock> {
    ends: Ends<E, K>,
}

impl<E: Executor, K: Clock> Model for Plain<E, K> {
    ghost use Rattle.channel_plain.specs.Weaving.{Clocked};

    ghost Value = { Clocked K };

    ghost view = { λ p. p.ends };
}

impl<E: Executor, K: Clock> Plain<E, K> {
    /// A channel that nothing was asked of, with zeros in its space.
    pub fn new(
        alloc: Global,
        wiring: Wiring,
        device: E,
        limits: Limits,
        clock: K,
    ) -> Result<Plain<E, K>, NoMemory>
        requires right { IsRight wiring }
        requires room { E.room_of (E.state device) ≡ wiring.room }
        ensures new { IfOk result (λ p. IsNew wiring limits (E.state device) p.channel) }
        ensures clock { IfOk result (λ p. p.clock ≡ clock) }
    {
        let ends = Ends::new(alloc, wiring, device, limits, clock)?;
        Ok(Plain { ends })
    }

    /// One pick of a side, for the calls, which are the same at each pick: its next word step, or none. It takes all its memory before it
    /// touches a word, a reading or the device: after `NoMemory` everything is as before.
    pub fn pick(&mut self, side: Side, calls: &[Asked]) -> Result<TraceLine, NoMemory>
        requires polls { HavePolls calls.now }
        requires serving { IsServing calls.now self.old.channel }
        ensures ok { IfOk result (λ line. PicksOnce K.taken K.tells E.exec_of calls.now side
            self.old.channel self.old.clock self.new.channel self.new.clock line) }
        ensures err { OnErr result (self.new ≡ self.old) }
        ensures serving { IsServing calls.now self.new.channel }

        // What holds before and after each pick: the relation of the words with both ends and their histories, and what the journal is worth.
        ensures stood { Stands E.exec_of E.is_state E.room_of self.old.channel }
        ensures stands { Stands E.exec_of E.is_state E.room_of self.new.channel }
        ensures good { IsGood E.exec_of self.new.channel }
        ensures limits { WithinLimits self.new.channel.calls.limits (times_of self.new.channel.calls.records) (post_of self.new.channel.calls.sent) }
    {
        history_laws();
        self.stand();
        let picked = self.side_pick(side, calls);
        self.stand();
        let pick = picked?;
        Ok(pick.line(side))
    }

    /// What holds between two picks: the relation of the words with both ends and their histories, and the posts keep the limits. It does
    /// nothing.
    pub fn stand(&self)
        ensures stands { Stands E.exec_of E.is_state E.room_of self.now.channel }
        ensures limits { WithinLimits self.now.channel.calls.limits (times_of self.now.channel.calls.records) (post_of self.now.channel.calls.sent) }
    {
        self.ends.stand();
    }

    fn side_pick(&mut self, side: Side, calls: &[Asked]) -> Result<Pick, NoMemory>
        requires polls { HavePolls calls.now }
        requires serving { IsServing calls.now self.old.channel }
        ensures ok { IfOk result (λ pick. IsPickAt K.taken K.tells self.old.clock self.new.clock
            (λ r. picked E.exec_of calls.now side r self.old.channel) self.new.channel pick) }
        ensures err { OnErr result (self.new ≡ self.old) }
    {
        if asks(self.ends.wiring(), side) {
            return self.ends.ask_pick(calls);
        }
        Ok(self.ends.answer_pick())
    }

    /// The records of the commands that were drained.
    pub fn journal(&self) -> &Journal
        ensures { result.now.items ≡ self.now.channel.calls.records }
    {
        self.ends.journal()
    }

    /// The notes beside the records.
    pub fn notes(&self) -> &Notes
        ensures { result.now.items ≡ self.now.channel.calls.notes }
    {
        self.ends.notes()
    }

    /// The command in flight.
    pub fn pending(&self) -> Option<&Pending>
        ensures { option_copied result ≡ pending_by self.now.channel.ask.in_flight self.now.channel.calls.sent }
    {
        self.ends.pending()
    }

    /// The commands that the answering side has executed, in order.
    pub fn executed(&self) -> &Commands
        ensures { result.now.items ≡ self.now.channel.executed }
    {
        self.ends.executed()
    }
}

// The platform asks on type 4, the operating system on the other types.
fn asks(wiring: &Wiring, side: Side) -> bool
    ensures { result ≡ asks_by wiring.now.kind side }
{
    match side {
        Side::System => !is_responder(wiring.kind),
        Side::Platform => is_responder(wiring.kind),
    }
}
