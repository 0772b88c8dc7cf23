//! What holds of numbers, names and their bad places. Its functions do nothing: what each ensures is
//! the law.
ghost use Rattle.std.specs.Prelude.{◌^◌, ◌<◌, ◌≤◌, ℕ, List, length};
ghost use Rattle.word_grammar.specs.Names.{IsOneOf, most_shared};
ghost use Rattle.word_grammar.specs.Numbers.{IsNumber, IsWide};
ghost use Rattle.word_grammar.specs.Places.{HasNoPlace, HasOnePlace, IsBadAt, IsDecided};
ghost use Rattle.word_grammar.specs.Signs.{IsSigned};

/// As a number of a range a text has one bad place at most, and a number of it has none; for a wide
/// range each text is a number of it, or has a bad place (own).
pub fn places_of_numbers()
    ensures one { (least most : ℕ) → HasOnePlace (IsNumber least most) }
    ensures none { (least most : ℕ) → HasNoPlace (IsNumber least most) }
    ensures decided { (least most : ℕ) → least ≤ most → most < 2 ^ 64 → IsWide least most
        → IsDecided (IsNumber least most) }
{}

/// The same of numbers with a sign (own).
pub fn places_of_signed()
    ensures one { (below above : ℕ) → HasOnePlace (IsSigned below above) }
    ensures none { (below above : ℕ) → HasNoPlace (IsSigned below above) }
    ensures decided { (below above : ℕ) → below < 2 ^ 64 → above < 2 ^ 64
        → IsDecided (IsSigned below above) }
{}

/// The same of one of some names; a word that is none is bad behind the most bytes that it shares with
/// one of them (own).
pub fn places_of_names()
    ensures one { (names : List (List ℕ)) → HasOnePlace (IsOneOf names) }
    ensures none { (names : List (List ℕ)) → HasNoPlace (IsOneOf names) }
    ensures decided { (names : List (List ℕ)) → 0 < length names → IsDecided (IsOneOf names) }
    ensures bad { (names : List (List ℕ)) (word : List ℕ) → 0 < length names
        → ¬ IsOneOf names word → IsBadAt (IsOneOf names) word (most_shared names word) }
{}
