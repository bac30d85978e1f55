//! When a command may be posted: a subspace's minimum request turnaround time and its maximum periodic access rate
//! (ACPI 6.5, 14.1.3).
#![tactic(auto)]

ghost use Rattle.std.specs.Prelude.{◌≡◌, ◌≤◌, ◌↔◌, ◌++◌, [], ◌∷◌, List, ℕ, None, Some};
ghost use Rattle.rate_limit.specs.RateLimits.{WithinLimits, after_minute, after_turnaround, earliest_of};
ghost use Rattle.rate_limit.specs.declared.Limits.{Limits};
ghost use Rattle.rate_limit.specs.declared.Times.{Times};

/// The microseconds of a minute.
const MINUTE: u128 = 60_000_000;

/// What the structure of a subspace asks of its posts.
#[derive(Clone, Copy, Debug, PartialEq, Eq)]
pub struct Limits {
    /// Microseconds from the completion of a command to the next post.
    pub turnaround: u32,
    /// Commands that may be posted in a minute. 0 is no limit.
    pub per_minute: u32,
}

/// When a command was posted and when its completion was seen, as readings in microseconds.
#[derive(Clone, Copy, Debug, PartialEq, Eq)]
pub struct Times {
    pub post: u64,
    pub done: u64,
}

// The end of the turnaround after the last completion.
fn after_turnaround(limits: &Limits, times: &[Times]) -> u128
    ensures { result ≡ after_turnaround limits.now times.now }
{
    if times.is_empty() {
        return 0;
    }
    u128::from(times[times.len() - 1].done) + u128::from(limits.turnaround)
}

// A minute after the post that is as many from the end as a minute may have.
fn after_minute(limits: &Limits, times: &[Times]) -> u128
    ensures { result ≡ after_minute limits.now times.now }
{
    let most = limits.per_minute as usize;
    if most == 0 || times.len() < most {
        return 0;
    }
    u128::from(times[times.len() - most].post) + MINUTE
}

/// The least reading at which the next command may be posted, by the times of all commands so far. It looks at two of them at most.
pub fn earliest(limits: &Limits, times: &[Times]) -> u128
    ensures { result ≡ earliest_of limits.now times.now }
{
    after_turnaround(limits, times).max(after_minute(limits, times))
}

/// If posts keep the limits, one more keeps them exactly when its reading is at least the earliest. It does nothing.
pub fn earliest_is_exact()
    ensures { (limits : Limits) (times : List Times) (post : ℕ) → WithinLimits limits times None
        → (WithinLimits limits times (Some post) ↔ (earliest_of limits times ≤ post)) }
{}

/// A post that keeps the limits while it is pending keeps them when it is complete, whenever that is. It does nothing.
pub fn completion_keeps_limits()
    ensures { (limits : Limits) (times : List Times) (last : Times) → WithinLimits limits times (Some last.post)
        → WithinLimits limits (times ++ last ∷ []) None }
{}

/// The definitions on worked cases. It does nothing.
pub fn worked_cases()
    ensures nothing_posted { earliest_of (record { turnaround = 500; per_minute = 2 }) [] ≡ 0 }
    ensures turnaround { earliest_of (record { turnaround = 500; per_minute = 0 }) (record { post = 1000; done = 1010 } ∷ []) ≡ 1510 }
    ensures rate { earliest_of (record { turnaround = 0; per_minute = 2 })
        (record { post = 0; done = 0 } ∷ record { post = 1000; done = 1000 } ∷ []) ≡ 60000000 }
    ensures fewer_than_the_rate { earliest_of (record { turnaround = 0; per_minute = 2 }) (record { post = 0; done = 20 } ∷ []) ≡ 20 }
    ensures the_later { earliest_of (record { turnaround = 7; per_minute = 1 }) (record { post = 5; done = 70000000 } ∷ []) ≡ 70000007 }

    // Of two posts a minute the third may be a minute after the first, and no sooner.
    ensures rate_kept { WithinLimits (record { turnaround = 0; per_minute = 2 })
        (record { post = 0; done = 0 } ∷ record { post = 1000; done = 1000 } ∷ []) (Some 60000000) }
    ensures rate_broken { WithinLimits (record { turnaround = 0; per_minute = 2 })
        (record { post = 0; done = 0 } ∷ record { post = 1000; done = 1000 } ∷ []) (Some 59999999) → ⊥ }

    // The next post may be at the end of the turnaround, and not a microsecond before.
    ensures turnaround_kept { WithinLimits (record { turnaround = 500; per_minute = 0 })
        (record { post = 1000; done = 1010 } ∷ record { post = 1510; done = 1520 } ∷ []) None }
    ensures turnaround_broken { WithinLimits (record { turnaround = 500; per_minute = 0 })
        (record { post = 1000; done = 1010 } ∷ record { post = 1509; done = 1520 } ∷ []) None → ⊥ }
{}
