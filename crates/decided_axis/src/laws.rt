//! What holds of decisions over a channel. The functions do nothing: what each ensures is the law.

ghost use Rattle.decided_axis.specs.Laws.{CarriedByOne, CarriedByWave, DecidedByBodies, DecidedRightly, EstimatedByBodies, EstimatedByTwo, PointsOfSize, SymbolDecided};

/// The size of a point: at most 648 in BPSK and QPSK, 870 in 16-QAM and 990 in 64-QAM (own).
pub fn sizes_of_whole_points()
    ensures { PointsOfSize }
{}

/// Both bodies of the long training field, each within an error of what the channel makes of it, give an estimate of the
/// channel within twice the error (own).
pub fn estimate_of_a_channel()
    ensures { EstimatedByTwo }
{}

/// The bits of a point that comes back over a channel are decided, where the errors of the carrier and of the estimate are
/// small against the channel. Noise, echoes and turns differ in the scale, the channel and the errors alone (own).
pub fn decisions_over_a_channel()
    ensures { DecidedRightly }
{}

/// A symbol of which each data number comes back over a channel, of its own or one for all, is decided as its coded bits,
/// where the errors and the least of the channels allow its modulation (own).
pub fn symbols_over_a_channel()
    ensures { SymbolDecided }
{}

/// Samples near any wave bring a carrier that was sent, over a channel, as near as the plain sum of the wave has it, and
/// as rounding and noise leave it (own). The wave stands at a scale times 2^21, the channel at a finer one.
pub fn carriers_of_a_wave()
    ensures { CarriedByWave }
{}

/// Samples near a plain body times one pair, at most 1.001 times the scale in size, bring each carrier over this pair, to
/// within 91*B + 70 for a bound B of noise (own).
pub fn carriers_over_one_channel()
    ensures { CarriedByOne }
{}

/// Both bodies of the long training field, come back over a channel of each bin, estimate the channel in the bins that
/// they use, within twice their error (own).
pub fn estimate_by_bodies()
    ensures { EstimatedByBodies }
{}

/// A symbol that comes back, as both bodies of the long training field do, over a channel of each bin, is decided as its
/// coded bits, where the error and the least of the channels allow its modulation (own).
pub fn decisions_by_bodies()
    ensures { DecidedByBodies }
{}
