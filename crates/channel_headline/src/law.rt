//! The headline of a channel that is called in one thread.
ghost use Rattle.std.specs.Prelude.{◌≡◌, [], ℕ, List, Some, length};
ghost use Rattle.std.specs.List.{slice_get};
ghost use Rattle.pcc_journal.specs.Events.{Event, Own};
ghost use Rattle.channel_turns.specs.ChannelRuns.{ChannelStart, fresh};
ghost use Rattle.channel_headline.specs.Lines.{CallLine, mine_of};
ghost use Rattle.channel_headline.specs.After.{before_all};
ghost use Rattle.channel_headline.specs.Matches.{Matches, Placed, Tied, own_calls, placed};
ghost use Rattle.channel_headline.specs.Runs.{ChannelStep, HeadlineOf, run_from};

/// Whatever is called, and whatever is waited between: the journal and the replies keep the headline. It does nothing.
pub fn headline_of_calls()
    ensures { (start : ChannelStart) (steps : List ChannelStep) → let r = run_from start (fresh start) steps in HeadlineOf start r.lines r.now }
{}

/// What it says that calls are tied to lines. It does nothing.
pub fn tied_calls()
    // The calls of each caller are as many as its lines that were posted.
    ensures owned { (opening : List ℕ) (lines : List CallLine) (events : List Event) → Tied opening lines events → (caller : ℕ)
        → (mine : List Event) × Own events caller mine × (length mine ≡ length (mine_of caller lines)) }
    // Each call of a caller matches the line at its place, and each such line the call at its place.
    ensures calls { (opening : List ℕ) (lines : List CallLine) (events : List Event) → Tied opening lines events → (caller place : ℕ) (p : Placed)
        → slice_get (own_calls caller (placed (before_all opening) events)) place ≡ Some p
        → (l : CallLine) × (slice_get (mine_of caller lines) place ≡ Some l) × Matches l p.before l.reply p.event }
    ensures lines { (opening : List ℕ) (lines : List CallLine) (events : List Event) → Tied opening lines events → (caller place : ℕ) (l : CallLine)
        → slice_get (mine_of caller lines) place ≡ Some l
        → (p : Placed) × (slice_get (own_calls caller (placed (before_all opening) events)) place ≡ Some p) × Matches l p.before l.reply p.event }
    // Who has no such line has no call.
    ensures strangers { (opening : List ℕ) (lines : List CallLine) (events : List Event) → Tied opening lines events → (caller : ℕ)
        → mine_of caller lines ≡ [] → Own events caller [] }
{}
