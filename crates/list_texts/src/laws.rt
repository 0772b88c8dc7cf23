//! What holds of lists and their texts. Its functions do nothing: what each ensures is the law.
ghost use Rattle.std.specs.Prelude.{◌≡◌, ℕ, List};
ghost use Rattle.list_texts.specs.Lists.{IsList, SaysList};
ghost use Rattle.list_texts.specs.declared.Entry.{Entry};
ghost use Rattle.word_grammar.specs.Places.{HasNoPlace, HasOnePlace, IsDecided};

/// As a list a text has one bad place at most, a list has none, and each text is a list or has one (own).
pub fn places_of_lists()
    ensures one { HasOnePlace IsList }
    ensures none { HasNoPlace IsList }
    ensures decided { IsDecided IsList }
{}

/// A text says one list at most (own).
pub fn one_list_a_text()
    ensures { (a b : List Entry) (text : List ℕ) → SaysList a text → SaysList b text → a ≡ b }
{}
