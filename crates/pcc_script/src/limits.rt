//! How large the numbers of a script may be, and how many lines and letters it may have. The code and the definitions name the same constants.

ghost use Rattle.std.specs.Prelude.{◌≡◌};
ghost use Rattle.pcc_script.specs.declared.limits.TheConstants.{
  MAX_ACTIONS,
  MAX_CAPS,
  MAX_CODE,
  MAX_CPU,
  MAX_CPUS,
  MAX_HOLD,
  MAX_ID,
  MAX_LETTERS,
  MAX_MADE_CALLS,
  MAX_OPENS,
  MAX_POLLS,
  MAX_WORKER,
};

/// The greatest number of a worker.
pub const MAX_WORKER: u64 = 15;

/// The greatest number of a processor.
pub const MAX_CPU: u64 = 15;

/// The greatest ID of a subspace.
pub const MAX_ID: u64 = 255;

/// The greatest command code.
pub const MAX_CODE: u64 = 4_294_967_295;

/// How often an action may look for its command's completion. It looks at least once.
pub const MAX_POLLS: u64 = 1_000_000;

/// How many turns the answering side may hold a command.
pub const MAX_HOLD: u64 = 4_000_000_000;

/// How many `open` lines there may be. There is at least one.
pub const MAX_OPENS: u32 = 8;

/// How many `cpu` lines there may be.
pub const MAX_CPUS: u32 = 16;

/// How many `cap` lines there may be.
pub const MAX_CAPS: u32 = 64;

/// How many `call`, `read`, `set` and `wait` lines there may be, taken together.
pub const MAX_ACTIONS: u32 = 65_536;

/// How many letters a `pick` line may have. It has at least one.
pub const MAX_LETTERS: usize = 65_536;

/// How many calls there may be in a scenario that is made up. There is at least one.
pub const MAX_MADE_CALLS: u32 = 4_096;

/// The limits as numbers, so that none changes unseen. It does nothing.
pub fn limits_are()
    ensures worker { MAX_WORKER ≡ 15 }
    ensures cpu { MAX_CPU ≡ 15 }
    ensures id { MAX_ID ≡ 255 }
    ensures code { MAX_CODE ≡ 4294967295 }
    ensures polls { MAX_POLLS ≡ 1000000 }
    ensures hold { MAX_HOLD ≡ 4000000000 }
    ensures opens { MAX_OPENS ≡ 8 }
    ensures cpus { MAX_CPUS ≡ 16 }
    ensures caps { MAX_CAPS ≡ 64 }
    ensures actions { MAX_ACTIONS ≡ 65536 }
    ensures letters { MAX_LETTERS ≡ 65536 }
    ensures made_calls { MAX_MADE_CALLS ≡ 4096 }
{}
