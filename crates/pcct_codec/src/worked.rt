//! Worked tables, on which the definitions are evaluated.
ghost use Rattle.std.specs.Prelude.{◌≡◌, [], ◌∷◌, ◌++◌, take, drop, true, false, Err};
ghost use Rattle.pcct_codec.specs.Tables.{TableBytes, most_structures};
ghost use Rattle.pcct_codec.specs.Faults.{Faulty, Right, Undecided, decision, structure_size, structures_decision};
ghost use Rattle.pcct_codec.specs.Pieces.{pieces_decision};
ghost use Rattle.pcct_codec.specs.Worked.{no_subspaces, one_generic, repeated};
ghost use Rattle.pcct_codec.specs.declared.fault.TableFault.TheVariants.{
  Checksum,
  LengthOutside,
  Overrun,
  Revision,
  Short,
  Signature,
  SubspaceLength,
  TooMany,
};

/// A table with one generic subspace: 24 bytes of shared memory at 0x8000_0000, a doorbell register of 32 bits at 0xfed0_0000, no
/// limit of the rate and no turnaround.
pub const ONE_GENERIC_SUBSPACE: [u8; 110] =
    *b"PCCT\x6e\0\0\0\x02\x6ePCCRUNEXAMPLE1\x01\0\0\0TEST\x01\0\0\0\
    \0\0\0\0\0\0\0\0\0\0\0\0\
    \0\x3e\0\0\0\0\0\0\0\0\0\x80\0\0\0\0\x18\0\0\0\0\0\0\0\0\x20\0\x03\0\0\xd0\xfe\0\0\0\0\
    \xfe\xff\xff\xff\0\0\0\0\x01\0\0\0\0\0\0\0\xe8\x03\0\0\0\0\0\0\0\0";

/// A table without a subspace.
pub const NO_SUBSPACES: [u8; 48] = *b"PCCT\x30\0\0\0\x02\x5aPCCRUNEXAMPLE1\x01\0\0\0TEST\x01\0\0\0\
    \0\0\0\0\0\0\0\0\0\0\0\0";

/// What they say, and what a part of one decides. It does nothing.
pub fn worked_tables()
    ensures none { TableBytes NO_SUBSPACES no_subspaces }
    ensures one { TableBytes ONE_GENERIC_SUBSPACE one_generic }
    ensures right { decision false ONE_GENERIC_SUBSPACE ≡ Right }
    ensures unknown { decision false (take 9 ONE_GENERIC_SUBSPACE ++ 0x68 ∷ take 38 (drop 10 ONE_GENERIC_SUBSPACE) ++ 6 ∷ drop 49 ONE_GENERIC_SUBSPACE) ≡ Right }
    ensures wanting { decision false (take 100 ONE_GENERIC_SUBSPACE) ≡ Undecided }
{}

/// What parts of them decide, and what they are read to in pieces. It does nothing.
pub fn worked_pieces()
    ensures header { decision false (take 47 ONE_GENERIC_SUBSPACE) ≡ Undecided }
    ensures stated { decision false (take 48 ONE_GENERIC_SUBSPACE) ≡ Undecided }
    ensures last { decision false (take 109 ONE_GENERIC_SUBSPACE) ≡ Undecided }
    ensures size { decision false (take 50 (take 49 ONE_GENERIC_SUBSPACE ++ 61 ∷ drop 50 ONE_GENERIC_SUBSPACE)) ≡ Undecided }
    ensures signature { decision false (0x51 ∷ take 46 (drop 1 ONE_GENERIC_SUBSPACE)) ≡ Undecided }
    ensures whole { pieces_decision [] (take 47 ONE_GENERIC_SUBSPACE ∷ [] ∷ take 62 (drop 47 ONE_GENERIC_SUBSPACE) ∷ drop 109 ONE_GENERIC_SUBSPACE ∷ []) ≡ Right }
    ensures trailing { pieces_decision [] ((ONE_GENERIC_SUBSPACE ++ 1 ∷ 2 ∷ 3 ∷ []) ∷ []) ≡ Right }
    ensures wrong { pieces_decision [] ((0x51 ∷ take 19 (drop 1 ONE_GENERIC_SUBSPACE)) ∷ take 28 (drop 20 ONE_GENERIC_SUBSPACE) ∷ []) ≡ Faulty Signature }
    ensures short { pieces_decision [] (take 20 ONE_GENERIC_SUBSPACE ∷ take 27 (drop 20 ONE_GENERIC_SUBSPACE) ∷ []) ≡ Faulty (Short 47) }
{}

/// Each fault of a table's bytes: these are the bytes of a table but for one of them, or for the bytes that follow. It does nothing.
pub fn worked_faults()
    ensures short { decision true (take 100 ONE_GENERIC_SUBSPACE) ≡ Faulty (Short 100) }
    ensures signature { decision true (take 3 NO_SUBSPACES ++ 0x55 ∷ drop 4 NO_SUBSPACES) ≡ Faulty Signature }
    ensures length_below { decision true (take 4 NO_SUBSPACES ++ 47 ∷ drop 5 NO_SUBSPACES) ≡ Faulty (LengthOutside 47) }
    ensures length_above { decision true (take 4 NO_SUBSPACES ++ 0x31 ∷ 0xff ∷ drop 6 NO_SUBSPACES) ≡ Faulty (LengthOutside 65329) }
    ensures length_most { decision true (take 4 NO_SUBSPACES ++ 0x30 ∷ 0xff ∷ drop 6 NO_SUBSPACES) ≡ Faulty (Short 48) }
    ensures revision { decision true (take 8 NO_SUBSPACES ++ 3 ∷ drop 9 NO_SUBSPACES) ≡ Faulty (Revision 3) }
    ensures overrun { decision true (take 4 ONE_GENERIC_SUBSPACE ++ 109 ∷ drop 5 ONE_GENERIC_SUBSPACE) ≡ Faulty (Overrun 48) }
    ensures one_byte { decision true (take 4 NO_SUBSPACES ++ 49 ∷ drop 5 NO_SUBSPACES ++ 0 ∷ []) ≡ Faulty (Overrun 48) }
    ensures unknown_size { decision true (take 48 ONE_GENERIC_SUBSPACE ++ 6 ∷ 1 ∷ drop 50 ONE_GENERIC_SUBSPACE) ≡ Faulty (SubspaceLength 48 6 1) }
    ensures unknown_least { structure_size 48 (255 ∷ 2 ∷ []) ≡ Ok 2 }
    ensures size { decision true (take 49 ONE_GENERIC_SUBSPACE ++ 61 ∷ drop 50 ONE_GENERIC_SUBSPACE) ≡ Faulty (SubspaceLength 48 0 61) }
    ensures size_by_type { structure_size 48 (2 ∷ 62 ∷ []) ≡ Err (SubspaceLength 48 2 62) }
    ensures checksum { decision true (take 9 NO_SUBSPACES ++ 0x5b ∷ drop 10 NO_SUBSPACES) ≡ Faulty (Checksum 1) }

    // A table may have 256 structures. If only one is allowed, a byte after it begins one too many.
    ensures many { structures_decision 1 48 (drop 48 ONE_GENERIC_SUBSPACE ++ 0 ∷ []) ≡ Faulty (TooMany 110) }
    ensures most { most_structures ≡ 256 }
{}

/// The same structure 256 times, and once more than a table may have, after a header with the length of the whole. It does nothing.
pub fn worked_many()
    ensures most { decision true (take 4 NO_SUBSPACES ++ 0x30 ∷ 0x3e ∷ 0 ∷ 0 ∷ 2 ∷ 0x1c ∷ drop 10 NO_SUBSPACES
        ++ repeated 256 (drop 48 ONE_GENERIC_SUBSPACE)) ≡ Right }
    ensures many { decision true (take 4 NO_SUBSPACES ++ 0x6e ∷ 0x3e ∷ drop 6 NO_SUBSPACES
        ++ repeated 257 (drop 48 ONE_GENERIC_SUBSPACE)) ≡ Faulty (TooMany 15920) }
{}
