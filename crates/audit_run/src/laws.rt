//! What follows from the definitions: an input is cut once, its journals are read or wrong, and they are judged once.
ghost use Rattle.std.specs.Prelude.{◌≡◌, ◌⊎◌, ℕ, Bool, List, length};
ghost use Rattle.std.specs.List.{AllByRecursion};
ghost use Rattle.journal_reading.specs.declared.told.AuditKind.{AuditKind};
ghost use Rattle.journal_reading.specs.declared.told.Told.{Told};
ghost use Rattle.pcc_script.specs.Limits.{IsWithin};
ghost use Rattle.pcc_script.specs.declared.scenario.Scenario.{Scenario};
ghost use Rattle.pcc_setup.specs.SetUps.{Opens};
ghost use Rattle.pcc_setup.specs.declared.opening.Opened.{Opened};
ghost use Rattle.audit_run.specs.Audits.{IsAuditOf};
ghost use Rattle.audit_run.specs.Boards.{CanJudge};
ghost use Rattle.audit_run.specs.Cuts.{HasCut, IsCut};
ghost use Rattle.audit_run.specs.Journals.{AreJournals, HasJournals, HasWrong, JournalsWrong};

use pcc_audit::verdict_laws;
use pcc_setup::set_up_laws;

/// Each input has one script part and its journals. It does nothing.
pub fn cut_laws()
    ensures some { (input : List ℕ) → HasCut input }
    ensures one_cut { (input script journals other another : List ℕ) → IsCut input script journals → IsCut input other another
        → (script ≡ other) × (journals ≡ another) }
{}

/// A text is that of so many journals or has a fault, never both; it has one first fault at most, and spells one list of journals at most. It does
/// nothing.
pub fn journals_laws()
    ensures some { (first count : ℕ) (text : List ℕ) → HasJournals count text ⊎ HasWrong first count text }
    ensures not_both { (first count : ℕ) (text : List ℕ) → HasJournals count text → HasWrong first count text → ⊥ }
    ensures one_fault { (first count : ℕ) (text : List ℕ) (line other : ℕ) (kind another : AuditKind) → JournalsWrong first count text line kind
        → JournalsWrong first count text other another → (line ≡ other) × (kind ≡ another) }
    ensures one_list { (count : ℕ) (text : List ℕ) (ts us : List Told) → AreJournals count text ts → AreJournals count text us → ts ≡ us }
{}

/// What a script opens can judge journals, and as many journals as are opened are judged, in one way. It does nothing.
pub fn audit_laws()
    ensures judges { (s : Scenario) (opened : List Opened) → IsWithin s → Opens s opened → AllByRecursion CanJudge opened }
    ensures some { (opened : List Opened) (text : List ℕ) → HasJournals (length opened) text
        → (flawed : Bool) × (written : List ℕ) × IsAuditOf opened text flawed written }
    ensures one_audit { (opened : List Opened) (text : List ℕ) (flawed other : Bool) (written line : List ℕ)
        → IsAuditOf opened text flawed written → IsAuditOf opened text other line → (flawed ≡ other) × (written ≡ line) }
{
    set_up_laws();
    verdict_laws();
    journals_laws();
}
