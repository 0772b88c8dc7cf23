//! A tour for those who build on these crates: each call is a few lines over public calls of the modem, and what it ensures
//! follows from what they ensure (own).
#![tactic(auto)]

ghost use Rattle.std.specs.Prelude.{◌≡◌, ◌≢◌, ◌+◌, ◌*◌, ◌≤◌, ◌^◌, ℕ, List, [], ◌∷◌, ◌++◌, length, None, IfOk, IfErr};
ghost use Rattle.bit_lists.specs.Bits.{AreOctets};
ghost use Rattle.fixed_complex.specs.declared.Sample.{Sample};
ghost use Rattle.frame_findings.specs.declared.Heard.{Heard};
ghost use Rattle.frame_receiver.specs.Receiving.{Stands};
ghost use Rattle.frame_receiver.specs.declared.reception.ReceiveFault.TheVariants.{CutFrame, NoFrame};
ghost use Rattle.frames_in_noise.specs.Laws.{heard_of};
ghost use Rattle.kept_weights.specs.Decisions.{repaired_cost};
ghost use Rattle.ofdm_scrambler.specs.Sequence.{IsSeed};
ghost use Rattle.rate_table.specs.Symbols.{IsLength, symbol_count};
ghost use Rattle.rate_table.specs.Table.{row_of};
ghost use Rattle.soft_trellis.specs.Fields.{sent_cost};
ghost use Rattle.soft_trellis.specs.Values.{AreValues};

use bit_lists::Octets;
use fixed_complex::Sample;
use frame_findings::laws::one_reception;
use frames_in_noise::laws::sent_lists_are_heard;
use modem_links::{ReceiveFault, Receiver, Reception, frame_samples, receive};
use modem_ports::Steps;
use ofdm_scrambler::Seed;
use rate_table::Rate;
use soft_trellis::decode_soft;
use std::alloc::{AllocError, Global};

/// Sends a PSDU of 1 to 4095 octets and receives its samples again (own): `Ok` has just this frame, at sample 0, and no cut.
/// The only error is want of memory.
pub fn there_and_back(
    alloc: Global,
    rate: Rate,
    seed: Seed,
    psdu: &[u8],
    steps: &mut Steps,
) -> Result<Reception, ReceiveFault>
    requires { IsLength (length psdu.now) }
    ensures heard { IfOk result (λ reception. reception.heard ≡ heard_of (record {
      start = 0;
      rate = rate;
      seed = seed;
      psdu = psdu.now;
    }) ∷ []) }
    ensures no_cut { IfOk result (λ reception. reception.cut ≡ None) }
    ensures only_memory { IfErr result (λ fault. (fault ≢ NoFrame)
        × ((start have need : ℕ) → fault ≢ CutFrame start have need)) }
{
    // laws; they do nothing
    sent_lists_are_heard();
    one_reception();
    // the seed is one
    let _number = seed.number();
    let samples = frame_samples(alloc, rate, seed, psdu)?;
    receive(alloc, &samples, steps)
}

/// Hands samples to a receiver one by one, and counts the frames that they make whole (own). With those that came before they
/// are at most 2^24. Takes no memory.
pub fn count_frames(receiver: &mut Receiver, samples: &[Sample], steps: &mut Steps) -> usize
    requires { receiver.old.tail.count + length samples.now ≤ 2 ^ 24 }
    ensures taken { receiver.new.tail.count ≡ receiver.old.tail.count + length samples.now }
    ensures stands { (before : List Sample) (heard : List Heard) → Stands receiver.old before heard
        → (more : List Heard) × (result ≡ length more)
        × Stands receiver.new (before ++ samples.now) (heard ++ more) }
{
    let mut count = 0;
    for k in 0..samples.len() {
        if receiver.push(samples[k], steps).is_some() {
            count += 1;
        }
    }
    count
}

/// The PSDU that a demodulator's values cost least for (own): `decode_soft`, of which the PSDU alone is kept. `octets` is 1 to
/// 4095, and there is a value from 0 to 15 for each coded bit. Where the coded bits that were sent cost little enough, it is
/// the PSDU that was sent. The only error is want of memory.
pub fn surest_psdu(
    alloc: Global,
    rate: Rate,
    octets: u16,
    values: &[u8],
    steps: &mut Steps,
) -> Result<Octets, AllocError>
    requires octets { IsLength octets }
    requires are { AreValues values.now }
    requires whole { length values.now
        ≡ symbol_count (row_of rate).field_bits octets * (row_of rate).coded_bits }
    ensures repaired { IfOk result (λ psdu. (seed : ℕ) (sent : List ℕ) → IsSeed seed → AreOctets sent
        → length sent ≡ octets
        → sent_cost rate seed sent values.now ≤ repaired_cost (row_of rate).code_rate
        → psdu ≡ sent) }
{
    let field = decode_soft(alloc, rate, octets, values, steps)?;
    Ok(field.psdu)
}

#[cfg(test)]
mod tests;
