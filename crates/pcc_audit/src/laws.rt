//! What a verdict is worth.
ghost use Rattle.std.specs.Prelude.{◌≡◌, ◌↔◌};
ghost use Rattle.journal_reading.specs.declared.told.Told.{Told};
ghost use Rattle.pcc_audit.specs.declared.verdict.Verdict.{Verdict};
ghost use Rattle.pcc_audit.specs.declared.verdict.Verdict.TheVariants.{Yes};
ghost use Rattle.pcc_audit.specs.Verdicts.{Board, HasVerdict, IsVerdict};
ghost use Rattle.pcc_audit.specs.Good.{IsGoodTold};

/// Each journal has one verdict, and it is yes exactly where the journal is good: its head and its sizes are right, it is a legal history
/// of the device, its posts keep the limits, and the inputs of a controller are in their ranges and change no more than they may. It does
/// nothing.
pub fn verdict_laws()
    ensures yes_exactly { (b : Board) (t : Told) → (IsVerdict b t Yes ↔ IsGoodTold b t) }
    ensures some_verdict { (b : Board) (t : Told) → HasVerdict b t }
    ensures one_verdict { (b : Board) (t : Told) (v w : Verdict) → IsVerdict b t v → IsVerdict b t w → v ≡ w }
{}
