//! Each input is made or refused, by one line: the laws of the definitions that the top call cites.
ghost use Rattle.std.specs.Prelude.{◌≡◌, ◌≢◌, ◌⊎◌, ℕ, List, Option, Some};
ghost use Rattle.pcc_bytes.specs.Bytes.{IsBytes};
ghost use Rattle.pcc_setup.specs.RefusalText.{refused_line};
ghost use Rattle.pcc_setup.specs.declared.refusal.Refusal.{Refusal};
ghost use Rattle.pccrun_core.specs.Answers.{Answers, AsksFor, IsMade, Yields};
ghost use Rattle.pccrun_core.specs.Inputs.{IsAccepted, IsRefusedInput, IsRejected, Rejects};
ghost use Rattle.pccrun_core.specs.declared.command.Command.{Command};
ghost use Rattle.pccrun_core.specs.declared.command.Command.TheVariants.{Weave};

use cpc_package::package_laws;

/// Each input is made or refused by a command, never both, and by one line. It does nothing.
pub fn input_laws()
    ensures some { (c : Command) (input : List ℕ) → IsBytes input → IsAccepted c input ⊎ IsRejected c input }
    ensures not_both { (c : Command) (input : List ℕ) → IsAccepted c input → IsRejected c input → ⊥ }
    ensures one_refusal { (c : Command) (input : List ℕ) (r q : Refusal) → Rejects c input r → Rejects c input q → r ≡ q }

    // Of an input that is made there is a text, and it is the only one. That `weave` prints one trace alone isn't said here.
    ensures made { (c : Command) (input text : List ℕ) (status : ℕ) → Yields c input status text → IsMade c input }
    ensures some_text { (c : Command) (input : List ℕ) → c ≢ Weave → IsMade c input → (status : ℕ) × (text : List ℕ) × Yields c input status text }
    ensures one_text { (c : Command) (input text other : List ℕ) (status another : ℕ) → c ≢ Weave → Yields c input status text
        → Yields c input another other → (status ≡ another) × (text ≡ other) }
{
    package_laws();
}

/// The words and the input lead to one status and one text; where `weave` makes the text, to one status. It does nothing.
pub fn answer_laws()
    ensures refused { (words : List (List ℕ)) (left rest : Option (List ℕ)) (status : ℕ) (text : List ℕ) (cause : Refusal)
        → Answers words left rest status text → IsRefusedInput words left cause → text ≡ refused_line cause }
    ensures one_status { (words : List (List ℕ)) (input : List ℕ) (left other : Option (List ℕ)) (status another : ℕ) (text line : List ℕ)
        → Answers words (Some input) left status text → Answers words (Some input) other another line → status ≡ another }
    ensures one_answer { (words : List (List ℕ)) (input : List ℕ) (left other : Option (List ℕ)) (status another : ℕ) (text line : List ℕ)
        → Answers words (Some input) left status text → Answers words (Some input) other another line
        → (AsksFor words Weave → status ≢ 0) → text ≡ line }
{
    package_laws();
}
