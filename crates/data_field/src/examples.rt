//! Worked examples that the checker computes from the definitions: a PSDU of the one octet 0 with the seed 93.
ghost use Rattle.std.specs.Prelude.{◌≡◌, [], ◌∷◌, codes, take};
ghost use Rattle.bit_lists.specs.Text.{characters_of};
ghost use Rattle.rate_table.specs.declared.Rate.TheVariants.{R6, R9};
ghost use Rattle.data_field.specs.Stages.{field_at, code_at, kept_at, interleaved_at};

/// The DATA field at 6 Mb/s: 16 SERVICE bits, the octet, the tail and 18 bits of pad.
pub fn scrambled_at_6()
    ensures { characters_of (field_at R6 93 (0 ∷ []))
        ≡ codes "011011000001100110101001000000110110100001010101" }
{}

/// Its code, all of which is kept at 6 Mb/s.
pub fn kept_at_6()
    ensures { characters_of (kept_at R6 93 (0 ∷ []))
        ≡ codes "001110101101000100100100101000000011001010110010100100001011111010110100100101101101100010000011" }
{}

/// The kept code at 9 Mb/s.
pub fn kept_at_9()
    ensures { characters_of (kept_at R9 93 (0 ∷ []))
        ≡ codes "001010110000100010100001001011001000001111101100" }
{}

/// The first bits of the first symbol at 6 Mb/s.
pub fn interleaved_at_6()
    ensures { characters_of (take 9 (interleaved_at R6 93 (0 ∷ []))) ≡ codes "000000111" }
{}
