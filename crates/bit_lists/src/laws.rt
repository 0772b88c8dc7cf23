//! What holds of bits, of octets and of texts of bits. Its functions do nothing: what each ensures is the law.

ghost use Rattle.std.specs.Prelude.{◌≡◌, ◌⊎◌, ◌%◌, ℕ, List, length, slice_index};
ghost use Rattle.bit_lists.specs.Bits.{AreBits, AreOctets, IsBit, bits_of_octets, octets_of_bits};
ghost use Rattle.bit_lists.specs.Text.{IsBadPlace, IsTextOf, text_of_bits};

/// An entry of a list of bits is a bit, and so is what is read past its end, which is 0 (own).
pub fn entries_of_bits()
    ensures { (bits : List ℕ) (place : ℕ) → AreBits bits → IsBit (slice_index bits place) }
{}

/// Octets are those of their bits, and bits, eight by eight, those of their octets (own).
pub fn octets_and_bits()
    ensures octets { (octets : List ℕ) → AreOctets octets
        → octets_of_bits (bits_of_octets octets) ≡ octets }
    ensures bits { (bits : List ℕ) → AreBits bits → length bits % 8 ≡ 0
        → bits_of_octets (octets_of_bits bits) ≡ bits }
{}

/// A text has bits or a bad place, one of the two, and only one list of bits or one bad place; what is written of bits
/// has these bits (own).
pub fn bits_or_a_bad_place()
    ensures written { (bits : List ℕ) → IsTextOf (text_of_bits bits) bits }
    ensures some { (text : List ℕ) → ((bits : List ℕ) × (AreBits bits × IsTextOf text bits))
        ⊎ ((at : ℕ) × IsBadPlace text at) }
    ensures one_text { (text a b : List ℕ) → IsTextOf text a → IsTextOf text b → a ≡ b }
    ensures one_place { (text : List ℕ) (a b : ℕ) → IsBadPlace text a → IsBadPlace text b → a ≡ b }
    ensures apart { (text bits : List ℕ) (at : ℕ) → AreBits bits → IsTextOf text bits
        → IsBadPlace text at → ⊥ }
{}
