//! What the program prints is audited as yes.
ghost use Rattle.std.specs.Prelude.{◌≡◌, ◌≤◌, ◌++◌, ◌∷◌, [], ℕ, List, Option, Some, false, flat_map, length, map};
ghost use Rattle.std.specs.List.{AllZip};
ghost use Rattle.pcc_journal.specs.JournalText.{journal_text};
ghost use Rattle.pcc_script.specs.Text.{IsScenario, script_text};
ghost use Rattle.pcc_script.specs.declared.scenario.Scenario.{Scenario};
ghost use Rattle.pcc_setup.specs.SetUps.{Opens};
ghost use Rattle.pcc_setup.specs.declared.opening.Opened.{Opened};
ghost use Rattle.channel_core.specs.Sendings.{command_of};
ghost use Rattle.channel_turns.specs.ChannelRuns.{pending_of};
ghost use Rattle.script_run.specs.ScriptRuns.{channel_journal, run_of};
ghost use Rattle.audit_run.specs.Audits.{IsAuditOf, yes_text};
ghost use Rattle.pccrun_core.specs.Answers.{Answers, AsksFor, Yields, input_limit};
ghost use Rattle.pccrun_core.specs.Serving.{Serves};
ghost use Rattle.pccrun_core.specs.Weaving.{IsWoven};
ghost use Rattle.pccrun_core.specs.declared.command.Command.TheVariants.{Audit, Weave};
ghost use Rattle.audited_runs.specs.Audited.{IsAuditedAsYes, IsAuditedAlone, told_of, told_on, without_actions};

use pcc_setup::set_up_laws;
use pccrun_core::answer_laws;

/// A journal that the program prints for a script is read back and audited as yes, by what the script opens. It does nothing.
pub fn audited()
    // The head of each journal that `step` prints is that of its subspace,
    ensures heads { (s : Scenario) (opened : List Opened) → IsScenario s → (h : Opens s opened)
        → AllZip (λ o c. c.start.head ≡ o.head) opened (run_of s opened h.checked.cpus).channels }
    // and the journal is audited as yes.
    ensures step { (s : Scenario) (opened : List Opened) → IsScenario s → (h : Opens s opened)
        → AllZip (λ o c. IsAuditedAsYes o c.now.records (pending_of c.now.in_flight)) opened (run_of s opened h.checked.cpus).channels }
    // All journals together are, and one line is written of each.
    ensures step_all { (s : Scenario) (opened : List Opened) → IsScenario s → (h : Opens s opened)
        → IsAuditOf opened (flat_map channel_journal (run_of s opened h.checked.cpus).channels) false
        (yes_text opened (map told_of (run_of s opened h.checked.cpus).channels)) }
    // So `audit` writes these lines, with status 0, of the script's lines before its actions and then the journals.
    ensures step_again { (s : Scenario) (opened : List Opened) → IsScenario s → (h : Opens s opened)
        → Yields Audit (script_text (without_actions s) ++ flat_map channel_journal (run_of s opened h.checked.cpus).channels) 0
        (yes_text opened (map told_of (run_of s opened h.checked.cpus).channels)) }

    // So is the journal that `weave` prints, by the one subspace that is opened,
    ensures weave { (input : List ℕ) (s : Scenario) (opened : List Opened) (text : List ℕ) → (h : Serves Weave input s opened)
        → (w : IsWoven s h.opens.table text) → IsAuditedAlone opened text w.trace w.records (command_of w.sent) }
    // and `audit` writes one line of it.
    ensures weave_again { (input : List ℕ) (s : Scenario) (opened : List Opened) (text : List ℕ) → (h : Serves Weave input s opened)
        → (w : IsWoven s h.opens.table text) → (o : Opened) → opened ≡ o ∷ []
        → Yields Audit (script_text (without_actions s) ++ journal_text o.head w.records (command_of w.sent)) 0
        (yes_text opened (told_on o w.records (command_of w.sent) ∷ [])) }

    // What the program answers to the word `audit` is what the command yields, of an input that isn't too long.
    ensures answered { (words : List (List ℕ)) (input line : List ℕ) (rest : Option (List ℕ)) (status : ℕ) (text : List ℕ)
        → Yields Audit input 0 line → AsksFor words Audit → length input ≤ input_limit → Answers words (Some input) rest status text
        → (status ≡ 0) × (text ≡ line) }
{
    answer_laws();
    set_up_laws();
}
