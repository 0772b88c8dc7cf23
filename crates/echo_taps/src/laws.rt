//! What holds of texts of taps. The functions do nothing: what each ensures is the law.
ghost use Rattle.echo_taps.specs.Laws.{EchoAtPlace, EchoBesideFirst, EchoIsLong, EchoIsSamples, EchoOfSize, EchoWithin, OnePairs, PairsAreEcho};
ghost use Rattle.echo_taps.specs.Texts.{IsTapText};
ghost use Rattle.word_grammar.specs.Places.{HasNoPlace, HasOnePlace, IsDecided};

/// A text has at most one bad place, a text of taps has none, and each text is one of taps or has a bad place
/// (own).
pub fn places_of_taps()
    ensures one { HasOnePlace IsTapText }
    ensures none { HasNoPlace IsTapText }
    ensures decided { IsDecided IsTapText }
{}

/// A text says at most one list of pairs (own).
pub fn one_echo_a_text()
    ensures { OnePairs }
{}

/// The pairs that a text says are eight, the first is (1024, 0), and the sizes of the others make at most 256 (own).
pub fn sizes_of_an_echo()
    ensures { PairsAreEcho }
{}

/// What comes together over an echo is at most 1280 times as large as each pair, in size and in each component; without
/// what comes at once it is at most 256 times as large (own).
pub fn sums_over_an_echo()
    ensures size { EchoOfSize }
    ensures within { EchoWithin }
    ensures beside_first { EchoBesideFirst }
{}

/// An echo is seven samples longer than what it is of, and each sample is what comes together at its place, rounded and
/// held, so it has 16 bits (own).
pub fn places_of_an_echo()
    ensures length { EchoIsLong }
    ensures sample { EchoAtPlace }
    ensures of_16_bits { EchoIsSamples }
{}
