//! What holds of the sequence itself. Its functions do nothing: what each ensures is the law.

ghost use Rattle.std.specs.Prelude.{◌≡◌, ◌≤◌, ℕ, List, ◌∷◌, [], length};
ghost use Rattle.bit_lists.specs.Bits.{AreBits, IsBit};
ghost use Rattle.ofdm_scrambler.specs.Sequence.{scrambled, scrambler_bit, scrambler_sequence};

/// The first 24 bits of the sequence of the all-ones seed, 127 (18.3.5.5).
pub fn all_ones_sequence()
    ensures { scrambler_sequence 127 24
        ≡ 0 ∷ 0 ∷ 0 ∷ 0 ∷ 1 ∷ 1 ∷ 1 ∷ 0 ∷ 1 ∷ 1 ∷ 1 ∷ 1 ∷ 0 ∷ 0 ∷ 1 ∷ 0 ∷ 1 ∷ 1 ∷ 0 ∷ 0 ∷ 1 ∷ 0 ∷
        0 ∷ 1 ∷ [] }
{}

/// The sequence has bits alone (18.3.5.5).
pub fn sequence_has_bits()
    ensures { (number n : ℕ) → IsBit (scrambler_bit number n) }
{}

/// Scrambling bits twice with one number gives them back (18.3.5.5).
pub fn scrambling_is_undone()
    ensures { (number : ℕ) (bits : List ℕ) → AreBits bits
        → scrambled number (scrambled number bits) ≡ bits }
{}

/// Seven bits are the front of the sequence of one number from 0 to 127 (18.3.5.5; that a number names the seven bits
/// is own).
pub fn fronts_name_numbers()
    ensures one { (m n : ℕ) → m ≤ 127 → n ≤ 127 → scrambler_sequence m 7 ≡ scrambler_sequence n 7
        → m ≡ n }
    ensures some { (front : List ℕ) → AreBits front → length front ≡ 7
        → (number : ℕ) × ((number ≤ 127) × (scrambler_sequence number 7 ≡ front)) }
{}
