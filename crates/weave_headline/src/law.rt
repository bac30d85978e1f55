//! The headline of a channel whose words both ends step through.
ghost use Rattle.std.specs.Prelude.{◌≡◌, ℕ, List, Option};
ghost use Rattle.pcc_history.specs.Devices.{Device};
ghost use Rattle.pcc_history.specs.Channel.{Exchange};
ghost use Rattle.pcc_history.specs.Histories.{Legal};
ghost use Rattle.rate_limit.specs.declared.Limits.{Limits};
ghost use Rattle.pcc_journal.specs.declared.record.Record.{Record};
ghost use Rattle.pcc_journal.specs.Records.{exchanges_of};
ghost use Rattle.pcc_steps.specs.declared.wiring.Wiring.{Wiring};
ghost use Rattle.channel_core.specs.declared.sent.Sent.{Sent};
ghost use Rattle.channel_plain.specs.declared.trace.Side.{Side};
ghost use Rattle.channel_plain.specs.declared.trace.Asked.{Asked};
ghost use Rattle.channel_plain.specs.declared.trace.TraceLine.{TraceLine};
ghost use Rattle.channel_plain.specs.WordRuns.{WordRun};
ghost use Rattle.weave_headline.specs.WordHeadline.{WordHeadline};

/// Whatever is called and picked: where the records are a legal history of the device, the journal and the trace keep the headline. It does
/// nothing.
pub fn headline_of_weave()
    ensures { (exec : Device) (w : Wiring) (limits : Limits) (start opening : List ℕ) (calls : List Asked) (picks : List Side) (trace : List TraceLine)
        (readings : List ℕ) (records : List Record) (sent : Option Sent) (executed : List Exchange)
        → WordRun exec w limits start opening calls picks trace readings records sent executed
        → Legal exec w.reports start (exchanges_of records)
        → WordHeadline exec w limits start opening calls trace readings records sent }
{}
