//! The refusals on worked cases.
ghost use Rattle.std.specs.Prelude.{◌≡◌, [], ◌∷◌, Some, None};
ghost use Rattle.channel_core.specs.Refusals.{refusal_of, soon_of};
ghost use Rattle.channel_core.specs.declared.answers.CallRefusal.TheVariants as refusal;

/// The refusals with their numbers, and their order where several hold. It does nothing.
pub fn worked_refusals()
    ensures none { refusal_of 2 16 255 16 4095 ≡ None }
    ensures code { refusal_of 2 16 256 17 4096 ≡ Some (refusal.BadCode 256) }
    ensures wide { refusal_of 3 16 256 16 4095 ≡ None }
    ensures long { refusal_of 3 16 256 17 4096 ≡ Some (refusal.TooLong 17 16) }
    ensures full { refusal_of 0 16 255 16 4096 ≡ Some refusal.JournalFull }
    ensures free { soon_of (record { turnaround = 500; per_minute = 1 }) [] 0 ≡ None }
    ensures turnaround { soon_of (record { turnaround = 500; per_minute = 0 }) (record { post = 0; done = 10 } ∷ []) 509 ≡ Some (refusal.TooSoon 509 510) }
    ensures after { soon_of (record { turnaround = 500; per_minute = 0 }) (record { post = 0; done = 10 } ∷ []) 510 ≡ None }
    ensures minute { soon_of (record { turnaround = 0; per_minute = 1 }) (record { post = 7; done = 10 } ∷ []) 59 ≡ Some (refusal.TooSoon 59 60000007) }
{}
