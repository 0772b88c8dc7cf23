//! What holds of turned symbols. The functions do nothing: what each ensures is the law.

ghost use Rattle.symbols_turned.specs.Laws.{DecidedTurned, TurnIsTold};

/// The turn that the pilots of a symbol tell is the turn of the symbol, over 2^20 in place of 16384, to within an error
/// that the phase bound of the modulation leaves (own).
pub fn turns_are_told()
    ensures { TurnIsTold }
{}

/// A symbol that is turned by any turn, and that is within the phase bound of its rate of its waveform, as the long
/// training field before it is, is decided as it was sent once it is turned back by its pilots: each of its N_CBPS coded
/// bits (own).
pub fn turned_symbols_are_decided()
    ensures { DecidedTurned }
{}
