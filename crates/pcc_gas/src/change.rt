//! Fields of a space that are changed at once.
ghost use Rattle.std.specs.Prelude.{◌≡◌, ◌<◌, ◌≤◌, ◌+◌, ◌*◌, ◌^◌, [], ◌∷◌, ◌++◌, List, ℕ, length};
ghost use Rattle.pcc_bytes.specs.Bytes.{IsBytes};
ghost use Rattle.pcc_gas.specs.Changes.{AreApartFrom, FitIn, IsApartFrom, IsOutside, TakeFrom, change, with_changes};
ghost use Rattle.pcc_gas.specs.Fields.{FieldPut, bit_of, field_value};

use crate::Field;

/// A field, and the number that is put into it.
#[derive(Clone, Copy, Debug, PartialEq, Eq)]
pub struct Change {
    pub field: Field,
    pub value: u64,
}

/// Laws of fields, and of fields that are changed at once. It does nothing.
pub fn field_laws()
    // The number of a field fits into it, and only the bits of the field decide it.
    ensures below { (space : List ℕ) (field : Field) → field_value space field < 2 ^ field.width }
    ensures same { (a b : List ℕ) (field : Field) → ((k : ℕ) → k < field.width → bit_of a (field.at_bit + k) ≡ bit_of b (field.at_bit + k))
        → field_value a field ≡ field_value b field }

    // Changes keep the length, leave bytes, and change no bit outside of their fields.
    ensures len { (changes : List Change) (space : List ℕ) → length (with_changes changes space) ≡ length space }
    ensures bytes { (changes : List Change) (space : List ℕ) → IsBytes (with_changes changes space) }
    ensures outside { (changes : List Change) (space : List ℕ) (bit : ℕ) → IsOutside bit changes → bit_of (with_changes changes space) bit ≡ bit_of space bit }
    ensures apart { (changes : List Change) (space : List ℕ) (field : Field) → IsApartFrom field changes
        → field_value (with_changes changes space) field ≡ field_value space field }

    // No change leaves the space, and one change is a number put into a field.
    ensures none { (space : List ℕ) → IsBytes space → with_changes [] space ≡ space }
    ensures one { (space : List ℕ) (field : Field) (value : ℕ) → FitIn (length space) (change field value)
        → FieldPut space field value (with_changes (change field value ∷ []) space) }

    // One change more, of a field apart from the others, is one number more that is put into a field.
    ensures next { (changes : List Change) (space after : List ℕ) (field : Field) (value : ℕ) → IsBytes after → value < 2 ^ field.width
        → IsApartFrom field changes → FieldPut (with_changes changes space) field value after
        → after ≡ with_changes (changes ++ change field value ∷ []) space }

    // Changes after changes of fields apart from theirs are all of them at once.
    ensures more { (first later : List Change) (space : List ℕ) → AreApartFrom first later
        → with_changes later (with_changes first space) ≡ with_changes (first ++ later) space }

    // A field's own number changes nothing, and numbers that are all taken from another space give that space if it is otherwise the same.
    ensures own { (space : List ℕ) (field : Field) → IsBytes space → with_changes (change field (field_value space field) ∷ []) space ≡ space }
    ensures taken { (changes : List Change) (space other : List ℕ) → IsBytes other → length space ≡ length other → TakeFrom other changes
        → ((bit : ℕ) → IsOutside bit changes → bit_of space bit ≡ bit_of other bit) → with_changes changes space ≡ other }
{}
