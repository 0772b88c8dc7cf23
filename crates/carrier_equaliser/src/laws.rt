//! What received carriers are where samples are near those of carriers that were sent. The functions do nothing: what
//! each ensures is the law.

ghost use Rattle.std.specs.Prelude.{ℕ, ◌+◌, ◌*◌, ◌<◌, List, pos};
ghost use Rattle.fixed_complex.specs.Pairs.{IsOfSize, IsWithin, minus, multiple};
ghost use Rattle.fixed_complex.specs.declared.Cx.{Cx};
ghost use Rattle.fixed_complex.specs.declared.Sample.{Sample};
ghost use Rattle.fixed_complex.specs.PairLists.{entry};
ghost use Rattle.plain_waves.specs.Bodies.{all_times, plain_body};
ghost use Rattle.plain_waves.specs.Nearness.{AreNearPlain};
ghost use Rattle.carrier_equaliser.specs.Laws.{ReceivedAreNear, ReceivedAtAnyScale};
ghost use Rattle.carrier_equaliser.specs.Nearness.{AreNearPlainSums};

/// The received carriers of samples of 16 bits are within 40 of the plain forward sums over 2^20, in each component (own).
pub fn received_carriers_are_near()
    ensures { ReceivedAreNear }
{}

/// Where 64 samples are within a bound B, in each component, of any wave over 2^21 times a scale, each received carrier
/// differs from the plain forward sum of the wave, over 2^41 times the scale, by at most 90.53*B + 56.57 in size (own).
pub fn received_at_any_scale()
    ensures { ReceivedAtAnyScale }
{}

/// Carriers that were sent come back times 32. Where the 64 samples of a body are within a bound B of the plain body of
/// carriers with components of at most 954, and received carriers are within 40 of the plain sums of these samples, as
/// those of `carriers_of` are, each is near 32 times the one that was sent: the difference is at most 91*B + 70 in
/// size, and at most 91*B + 49 in each component (own).
pub fn sent_carriers_come_back()
    ensures size { (bound : ℕ) (sent : ℕ → Cx) (body : List Sample) (carriers : List Cx)
        → ((bin : ℕ) → bin < 64 → IsWithin 954 (sent bin))
        → AreNearPlain bound body (all_times (plain_body sent))
        → AreNearPlainSums 40 carriers body → (bin : ℕ) → bin < 64
        → IsOfSize (91 * bound + 70) (minus (entry carriers bin) (multiple (pos 32) (sent bin))) }
    ensures within { (bound : ℕ) (sent : ℕ → Cx) (body : List Sample) (carriers : List Cx)
        → ((bin : ℕ) → bin < 64 → IsWithin 954 (sent bin))
        → AreNearPlain bound body (all_times (plain_body sent))
        → AreNearPlainSums 40 carriers body → (bin : ℕ) → bin < 64
        → IsWithin (91 * bound + 49) (minus (entry carriers bin) (multiple (pos 32) (sent bin))) }
{}
