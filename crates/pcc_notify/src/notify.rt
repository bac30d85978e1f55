//! A channel of type 4 on a plain list of words: the platform asks, and the operating system handles what it posts.

ghost use Rattle.std.specs.Prelude.{◌≡◌, ◌++◌, ◌<◌, ◌⊎◌, ◌+◌, [], Some, true, length, IfOk, OnErr};
ghost use Rattle.std.specs.List.{slice_get};
ghost use Rattle.std.specs.Option.{option_copied};
ghost use Rattle.rate_limit.specs.RateLimits.{WithinLimits};
ghost use Rattle.pcc_journal.specs.Records.{exchanges_of, exchanges_of_commands, times_of};
ghost use Rattle.pcc_steps.specs.Kinds.{is_responder};
ghost use Rattle.pcc_steps.specs.Wires.{IsRight};
ghost use Rattle.channel_core.specs.Sendings.{post_of};
ghost use Rattle.channel_plain.specs.declared.trace.Side.TheVariants.{Platform};
ghost use Rattle.channel_plain.specs.declared.trace.TraceEnd.TheVariants.{Posted};
ghost use Rattle.channel_plain.specs.Good.{IsGood};
ghost use Rattle.channel_plain.specs.News.{IsNew};
ghost use Rattle.channel_plain.specs.Picks.{pending_by};
ghost use Rattle.channel_plain.specs.Standing.{HavePolls, IsServing, Stands};
ghost use Rattle.channel_plain.specs.Weaving.{PicksOnce};
ghost use Rattle.pcc_notify.specs.Notices.{AreNotices, handled_of, posts_by};

use crate::notice::Notice;
use channel_plain::{Asked, Plain, Side, TraceLine};
use pcc_exec::Executor;
use pcc_io::{Bytes, Clock, NoMemory};
use pcc_journal::{Commands, Journal, Notes, Pending};
use pcc_steps::Wiring;
use rate_limit::Limits;
use std::alloc::Global;
use std::marker::Model;

/// A channel of type 4, whose commands the platform posts.
#[derive(Drop)]
pub struct NotifyPlain<E: Executor, K: Clock> {
    alloc: Global,
    pub(crate) plain: Plain<E, K>,
}

impl<E: Executor, K: Clock> Model for NotifyPlain<E, K> {
    ghost use Rattle.std.specs.Prelude.{◌≡◌, true};
    ghost use Rattle.pcc_steps.specs.Kinds.{is_responder};
    ghost use Rattle.pcc_notify.specs.Notices.{Notified, posted_of};

    ghost Value = { Notified K };

    ghost view = { λ n. record { channel = n.plain.channel; clock = n.plain.clock; posted = posted_of n.plain.channel } };

    ghost invariant = { λ n. is_responder n.plain.channel.ask.wiring.kind ≡ true };
}

impl<E: Executor, K: Clock> NotifyPlain<E, K> {
    /// A channel of type 4 that nothing was asked of, with zeros in its space. The platform has posted no command.
    pub fn new(
        alloc: Global,
        wiring: Wiring,
        device: E,
        limits: Limits,
        clock: K,
    ) -> Result<NotifyPlain<E, K>, NoMemory>
        requires right { IsRight wiring }
        requires room { E.room_of (E.state device) ≡ wiring.room }
        requires kind { wiring.kind ≡ 4 }
        ensures new { IfOk result (λ n. IsNew wiring limits (E.state device) n.channel) }
        ensures clock { IfOk result (λ n. n.clock ≡ clock) }
        ensures posted { IfOk result (λ n. n.posted ≡ []) }
    {
        let plain = Plain::new(alloc, wiring, device, limits, clock)?;
        Ok(NotifyPlain { alloc, plain })
    }

    /// One pick of a side, for the calls of the platform, which are the same at each pick: its next word step, or none. It takes all its
    /// memory before it touches a word, a reading or the device: after `NoMemory` everything is as before.
    pub fn pick(&mut self, side: Side, calls: &[Asked]) -> Result<TraceLine, NoMemory>
        requires polls { HavePolls calls.now }
        requires serving { IsServing calls.now self.old.channel }
        ensures ok { IfOk result (λ line. PicksOnce K.taken K.tells E.exec_of calls.now side
            self.old.channel self.old.clock self.new.channel self.new.clock line) }
        ensures err { OnErr result (self.new ≡ self.old) }
        ensures serving { IsServing calls.now self.new.channel }
        ensures stood { Stands E.exec_of E.is_state E.room_of self.old.channel }
        ensures stands { Stands E.exec_of E.is_state E.room_of self.new.channel }
        ensures good { IsGood E.exec_of self.new.channel }
        ensures limits { WithinLimits self.new.channel.calls.limits (times_of self.new.channel.calls.records) (post_of self.new.channel.calls.sent) }

        // A line that ends a post posts the command that the words hold then. Nothing else posts, and only the platform does.
        ensures posted { IfOk result (λ line.
            self.new.posted ≡ self.old.posted ++ posts_by line.end self.old.channel.ask.wiring self.new.channel.words) }
        ensures platform { IfOk result (λ line. line.end ≡ Posted → line.side ≡ Platform) }

        // The operating system has executed the posted commands in order, each once, but that the last may be not yet executed.
        ensures notices { AreNotices self.new.posted (exchanges_of_commands self.new.channel.executed) (exchanges_of self.new.channel.calls.records)
            (pending_by self.new.channel.ask.in_flight self.new.channel.calls.sent) }
    {
        let picked = self.plain.pick(side, calls);
        self.stand();
        picked
    }

    /// What holds between two picks. It does nothing.
    pub fn stand(&self)
        ensures stands { Stands E.exec_of E.is_state E.room_of self.now.channel }
        ensures limits { WithinLimits self.now.channel.calls.limits (times_of self.now.channel.calls.records) (post_of self.now.channel.calls.sent) }
        ensures kind { is_responder self.now.channel.ask.wiring.kind ≡ true }
        ensures notices { AreNotices self.now.posted (exchanges_of_commands self.now.channel.executed) (exchanges_of self.now.channel.calls.records)
            (pending_by self.now.channel.ask.in_flight self.now.channel.calls.sent) }
    {
        self.plain.stand();
    }

    /// How many commands the operating system has executed: all that the platform has posted, or all but the last.
    pub fn handled(&self) -> usize
        ensures value { result ≡ length self.now.channel.executed }
        ensures posted { (length self.now.posted ≡ result) ⊎ (length self.now.posted ≡ result + 1) }
    {
        self.stand();
        self.plain.executed().len()
    }

    /// The code and the input of a handled command: of the one that the platform has posted at this place.
    pub fn notice(&self, place: usize) -> Result<Notice, NoMemory>
        requires handled { place < length self.now.channel.executed }
        ensures handled { IfOk result (λ n. slice_get (handled_of (exchanges_of_commands self.now.channel.executed)) place ≡ Some n) }
        ensures posted { IfOk result (λ n. slice_get self.now.posted place ≡ Some n) }
    {
        self.stand();
        let command = self.plain.executed().at(place);
        let input = Vec::from_slice(self.alloc, command.input.as_slice())?;
        Ok(Notice {
            code: command.code,
            input: Bytes::from_vec(input),
        })
    }

    /// The records of the commands whose reply the platform has taken.
    pub fn journal(&self) -> &Journal
        ensures { result.now.items ≡ self.now.channel.calls.records }
    {
        self.plain.journal()
    }

    /// The notes beside the records.
    pub fn notes(&self) -> &Notes
        ensures { result.now.items ≡ self.now.channel.calls.notes }
    {
        self.plain.notes()
    }

    /// The command in flight.
    pub fn pending(&self) -> Option<&Pending>
        ensures { option_copied result ≡ pending_by self.now.channel.ask.in_flight self.now.channel.calls.sent }
    {
        self.plain.pending()
    }

    /// The commands that the operating system has executed, in order.
    pub fn executed(&self) -> &Commands
        ensures { result.now.items ≡ self.now.channel.executed }
    {
        self.plain.executed()
    }
}
