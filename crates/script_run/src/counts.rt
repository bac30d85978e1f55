//! How many calls got which reply.
ghost use Rattle.std.specs.Prelude.{◌≡◌, Option, length};
ghost use Rattle.pcc_script.specs.declared.limits.TheConstants.{MAX_ACTIONS};
ghost use Rattle.channel_turns.specs.Outcomes.{IsPlaced, StandsFor};
ghost use Rattle.channel_turns.specs.Replies.{Reply};
ghost use Rattle.script_run.specs.Summaries.{IsUnder, added, counted, none_counted};
ghost use Rattle.channel_headline.specs.Asked.{Replied};
ghost use Rattle.script_run.specs.Headlines.{own_reply};
ghost use Rattle.script_run.specs.LineOutcomes.{HasReply, IsOutcomeOf, IsPlacedIn, IsShownAs};
ghost use Rattle.script_run.specs.StepRun.{ShownReply};

use crate::channel::DeviceChannel;
use crate::outcome::{LineAnswer, LineOutcome};
use channel_turns::Outcome;
use pcc_journal::Record;

/// How many calls got which reply.
#[derive(Clone, Copy, Debug, PartialEq, Eq)]
pub struct Counts {
    pub ok: u64,
    pub error: u64,
    pub timed_out: u64,
    pub still_pending: u64,
    pub other: u64,
}

impl Counts {
    /// Nothing is counted yet.
    pub fn new() -> Counts
        ensures { result ≡ none_counted }
    {
        Counts {
            ok: 0,
            error: 0,
            timed_out: 0,
            still_pending: 0,
            other: 0,
        }
    }

    /// Counts the reply of a line, if it has one.
    pub fn count(&mut self, channels: &[DeviceChannel], outcome: Option<LineOutcome>)
        requires reply { HasReply channels.now outcome }
        requires under { IsUnder MAX_ACTIONS self.old }
        ensures { (reply : Option ShownReply) → IsOutcomeOf reply channels.now outcome → self.new ≡ counted self.old reply }
    {
        match outcome {
            None => {}
            Some(LineOutcome { place, answer }) => self.add(answer, channels[place].records()),
        }
    }

    // Counts the reply that an answer stands for.
    fn add(&mut self, answer: LineAnswer, records: &[Record])
        requires placed { IsPlacedIn (length records.now) answer }
        requires under { IsUnder MAX_ACTIONS self.old }
        ensures { (reply : ShownReply) → IsShownAs records.now answer reply → self.new ≡ added self.old (own_reply reply) }
    {
        match answer {
            LineAnswer::Called(outcome) => self.add_call(outcome, records),
            LineAnswer::Read(_) => self.ok += 1,
            LineAnswer::Refused(_) => self.other += 1,
        }
    }

    // Counts the reply that the outcome of a call stands for.
    fn add_call(&mut self, outcome: Outcome, records: &[Record])
        requires placed { IsPlaced (length records.now) outcome }
        requires under { IsUnder MAX_ACTIONS self.old }
        ensures { (reply : Reply) → StandsFor records.now outcome reply → self.new ≡ added self.old (Replied reply) }
    {
        match outcome {
            Outcome::Done { place } => {
                if records[place].error {
                    self.error += 1;
                } else {
                    self.ok += 1;
                }
            }
            Outcome::TimedOut { .. } => self.timed_out += 1,
            Outcome::StillPending { .. } => self.still_pending += 1,
            Outcome::BadCode { .. }
            | Outcome::TooLong { .. }
            | Outcome::JournalFull
            | Outcome::TooSoon { .. } => self.other += 1,
        }
    }
}
