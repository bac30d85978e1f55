//! The definitions on worked cases.
ghost use Rattle.std.specs.Prelude.{◌≡◌, [], ◌∷◌};
ghost use Rattle.aml_pkg.specs.Spelling.{AmlBytes, len_bytes};
ghost use Rattle.aml_pkg.specs.Faults.{ItemWrong};
ghost use Rattle.aml_pkg.specs.declared.fault.AmlKind.TheVariants.{BadLead, BadLength, Short, TooDeep, UnknownOp};
ghost use Rattle.aml_pkg.specs.declared.item.Form.TheVariants.{Byte, One, Word};
ghost use Rattle.aml_pkg.specs.declared.item.Element.TheVariants as element;
ghost use Rattle.aml_pkg.specs.declared.item.Item.TheVariants as item;

/// Items as bytes: an integer, a buffer with a length in two, in three and in four bytes, and a package. It does nothing.
pub fn worked_items()
    ensures word { AmlBytes (0x0b ∷ 0x2c ∷ 0x01 ∷ []) (item.Element (element.Int (record { value = 300; form = Word }))) }
    ensures buffer { AmlBytes (0x11 ∷ 0x45 ∷ 0x00 ∷ 0x0a ∷ 0x07 ∷ 0x2a ∷ [])
        (item.Element (element.Buffer (record {
          len = record { value = 5; follow = 1 };
          size = record { value = 7; form = Byte };
          bytes = 0x2a ∷ [];
        }))) }
    ensures package { AmlBytes (0x12 ∷ 0x05 ∷ 0x02 ∷ 0x01 ∷ 0x0a ∷ 0x07 ∷ [])
        (item.Package (record { value = 5; follow = 0 })
        (element.Int (record { value = 1; form = One }) ∷ element.Int (record { value = 7; form = Byte }) ∷ [])) }

    // The same buffer with a length of three and of four bytes, and lengths that fill them.
    ensures two_follow { AmlBytes (0x11 ∷ 0x86 ∷ 0x00 ∷ 0x00 ∷ 0x0a ∷ 0x07 ∷ 0x2a ∷ [])
        (item.Element (element.Buffer (record {
          len = record { value = 6; follow = 2 };
          size = record { value = 7; form = Byte };
          bytes = 0x2a ∷ [];
        }))) }
    ensures three_follow { AmlBytes (0x11 ∷ 0xc7 ∷ 0x00 ∷ 0x00 ∷ 0x00 ∷ 0x0a ∷ 0x07 ∷ 0x2a ∷ [])
        (item.Element (element.Buffer (record {
          len = record { value = 7; follow = 3 };
          size = record { value = 7; form = Byte };
          bytes = 0x2a ∷ [];
        }))) }
    ensures one_byte { len_bytes (record { value = 0x3f; follow = 0 }) ≡ 0x3f ∷ [] }
    ensures two_bytes { len_bytes (record { value = 0xfed; follow = 1 }) ≡ 0x4d ∷ 0xfe ∷ [] }
    ensures three_bytes { len_bytes (record { value = 0xfedcb; follow = 2 }) ≡ 0x8b ∷ 0xdc ∷ 0xfe ∷ [] }
    ensures four_bytes { len_bytes (record { value = 0xfedcba9; follow = 3 }) ≡ 0xc9 ∷ 0xba ∷ 0xdc ∷ 0xfe ∷ [] }
{}

/// Wrong bytes. It does nothing.
pub fn worked_faults()
    ensures byte_missing { ItemWrong (0x0a ∷ []) (record { at = 1; kind = Short; whole = 0 }) }
    ensures lead { ItemWrong (0x11 ∷ 0x50 ∷ 0x00 ∷ []) (record { at = 1; kind = BadLead; whole = 0 }) }
    ensures unknown { ItemWrong (0x08 ∷ []) (record { at = 0; kind = UnknownOp; whole = 0 }) }

    // A length that doesn't count its own two bytes, and one that passes the input.
    ensures own_bytes { ItemWrong (0x12 ∷ 0x41 ∷ 0x00 ∷ []) (record { at = 1; kind = BadLength; whole = 0 }) }
    ensures past_the_input { ItemWrong (0x12 ∷ 0x05 ∷ 0x01 ∷ []) (record { at = 3; kind = Short; whole = 0 }) }

    // Inside a buffer or a package that lies in the input nothing is short.
    ensures size_missing { ItemWrong (0x11 ∷ 0x01 ∷ 0x00 ∷ []) (record { at = 2; kind = BadLength; whole = 0 }) }
    ensures element_missing { ItemWrong (0x12 ∷ 0x03 ∷ 0x02 ∷ 0x01 ∷ 0x00 ∷ []) (record { at = 4; kind = BadLength; whole = 1 }) }
    ensures bytes_left { ItemWrong (0x12 ∷ 0x05 ∷ 0x01 ∷ 0x01 ∷ 0x0a ∷ 0x07 ∷ []) (record { at = 4; kind = BadLength; whole = 1 }) }
    ensures package_inside { ItemWrong (0x12 ∷ 0x04 ∷ 0x01 ∷ 0x12 ∷ 0x00 ∷ []) (record { at = 3; kind = TooDeep; whole = 0 }) }
{}
