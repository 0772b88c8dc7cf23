//! Samples of bytes as they come.
ghost use Rattle.std.specs.Prelude.{◌≡◌, ◌≢◌, ◌↔◌, ◌+◌, ◌*◌, ◌<◌, ◌≤◌, [], ◌∷◌, ◌++◌, None, length, take, IfNone, IfSome};
ghost use Rattle.capture_files.specs.Captures.{bytes_of_sample, bytes_of_samples};
ghost use Rattle.fixed_complex.specs.Samples.{AreSamples, IsSample};

use crate::{SAMPLE, put_whole, sample_of};
use fixed_complex::Sample;
use std::marker::Model;

/// Cuts a stream of bytes into samples, four bytes each: I and then Q, signed numbers of 16 bits, the
/// low byte first (own). Contracts see it as the bytes that it holds, of which there are fewer than
/// four.
#[derive(Debug, Drop)]
pub struct Piecer {
    bytes: [u8; SAMPLE],
    count: usize,
}

impl Model for Piecer {
    ghost use Rattle.std.specs.Prelude.{◌<◌, ℕ, List, take};

    ghost Value = { List ℕ };

    ghost view = { λ piecer. take piecer.count piecer.bytes };

    ghost invariant = { λ piecer. piecer.count < 4 };
}

impl Piecer {
    /// A piecer that holds nothing. Takes no memory.
    pub fn new() -> Piecer
        ensures { result ≡ [] }
    {
        Piecer {
            bytes: [0; SAMPLE],
            count: 0,
        }
    }

    /// Takes the next byte, and answers a sample where it is the fourth: that of the bytes held and this
    /// one, of which none is held any longer. None where fewer than three were held: then this one is held,
    /// too. Takes no memory.
    pub fn feed(&mut self, byte: u8) -> Option<Sample>
        ensures none { (result ≡ None) ↔ (length self.old < 3) }
        ensures held { IfNone result (self.new ≡ self.old ++ byte ∷ []) }
        ensures bytes { IfSome result
            (λ sample. bytes_of_sample sample ≡ self.old ++ byte ∷ []) }
        ensures sample { IfSome result IsSample }
        ensures emptied { IfSome result (λ _. self.new ≡ []) }
    {
        self.bytes[self.count] = byte;
        self.count += 1;
        if self.count < SAMPLE {
            return None;
        }
        self.count = 0;
        Some(sample_of(&self.bytes))
    }

    /// Takes the next bytes, writes the samples that they make whole to the front of `out`, in order, and
    /// answers how many these are; the bytes behind the last one are held. `out` has room for a sample of
    /// every four of the bytes held and these. What is behind these samples in `out` is unchanged. Takes
    /// no memory.
    pub fn feed_all(&mut self, bytes: &[u8], out: &mut [Sample]) -> usize
        requires { length self.old + length bytes.now ≤ 4 * length out.old + 3 }
        ensures bytes { bytes_of_samples (take result out.new) ++ self.new ≡ self.old ++ bytes.now }
        ensures samples { AreSamples (take result out.new) }
        ensures within { result ≤ length out.new }
        ensures long { length out.new ≡ length out.old }
    {
        let begun = self.wanted().min(bytes.len());
        let mut count = 0;
        if let Some(sample) = self.feed_some(&bytes[..begun]) {
            out[0] = sample;
            count = 1;
        }
        let whole = (bytes.len() - begun) / SAMPLE;
        let end = begun + SAMPLE * whole;
        put_whole(&bytes[begun..end], &mut out[count..count + whole]);
        let _behind = self.feed_some(&bytes[end..]);
        count + whole
    }

    // How many bytes make a sample whole that is begun: none where none is.
    fn wanted(&self) -> usize
        ensures begun { self.now ≢ [] → result + length self.now ≡ 4 }
        ensures none { self.now ≡ [] → result ≡ 0 }
        ensures few { length self.now < 4 }
    {
        if self.count == 0 {
            0
        } else {
            SAMPLE - self.count
        }
    }

    // Takes the next bytes, which make at most one sample whole.
    fn feed_some(&mut self, bytes: &[u8]) -> Option<Sample>
        requires few { length self.old < 4 }
        requires at_most { length self.old + length bytes.now ≤ 4 }
        ensures none { (result ≡ None) ↔ (length self.old + length bytes.now < 4) }
        ensures held { IfNone result (self.new ≡ self.old ++ bytes.now) }
        ensures bytes { IfSome result
            (λ sample. bytes_of_sample sample ≡ self.old ++ bytes.now) }
        ensures sample { IfSome result IsSample }
        ensures emptied { IfSome result (λ _. self.new ≡ []) }
    {
        for k in 0..bytes.len() {
            let sample = self.feed(bytes[k]);
            if sample.is_some() {
                return sample;
            }
        }
        None
    }

    /// How many bytes are held, 0 to 3. Takes no memory.
    pub fn rest(&self) -> u8
        ensures count { result ≡ length self.now }
        ensures few { result ≤ 3 }
    {
        self.count as u8
    }
}
