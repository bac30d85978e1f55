//! The count of word steps of a machine, at most 2^64 - 1.
ghost use Rattle.std.specs.Prelude.{◌≡◌};
ghost use Rattle.pcc_steps.specs.Asking.{rose};
ghost use Rattle.pcc_steps.specs.Moves.{risen};

// One step more.
pub(crate) fn rose(steps: u64) -> u64
    ensures { result ≡ rose steps }
{
    if steps < u64::MAX { steps + 1 } else { steps }
}

// n steps more.
#[tactic(auto, using(crate::proofs::BlockMoves::risen_below, crate::proofs::BlockMoves::risen_full))]
pub(crate) fn rose_by(steps: u64, n: u32) -> u64
    ensures { result ≡ risen n steps }
{
    let n = u64::from(n);
    if n <= u64::MAX - steps {
        steps + n
    } else {
        u64::MAX
    }
}
