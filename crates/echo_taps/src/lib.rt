//! Echoes of a capture: taps, their texts, and what they make of samples (own).
#![tactic(auto)]

ghost use Rattle.std.specs.Prelude.{◌≡◌, ◌^◌, ◌≤◌, List, length, slice_set, vec_len, IfErr, IfOk};
ghost use Rattle.echo_taps.specs.Echoes.{echo_of};
ghost use Rattle.echo_taps.specs.Taps.{no_echo, pair_of_tap, size_of};
ghost use Rattle.echo_taps.specs.Texts.{IsTapText, SaysPairs, place_of};
ghost use Rattle.word_grammar.specs.Places.{IsBadAt};

use fixed_complex::{Cx, Sample};
use std::alloc::{AllocError, Global};
use std::marker::Model;
use thiserror::Error;

mod echoes;
mod lanes;
pub mod laws;
mod reading;

/// A sample comes again `delay` samples later, 1 to 7, times (`re`, `im`) over 1024 (own).
#[derive(Clone, Copy, Debug, PartialEq, Eq)]
pub struct Tap {
    pub delay: u8,
    pub re: i16,
    pub im: i16,
}

/// Why a text is none of taps (own).
#[derive(Clone, Copy, Debug, PartialEq, Eq, Error)]
pub enum TapFault {
    /// The place, in bytes from 0, of the last byte of the shortest front of the text that begins
    /// no text of taps; the text's length, where the whole text begins one.
    #[error("no taps at {at}")]
    BadTaps { at: usize },
}

/// One to seven taps. Contracts see them as eight pairs, by delay from 0 to 7: (1024, 0) first, a tap's
/// numbers at its delay, and else 0 (own).
#[derive(Drop)]
pub struct Taps {
    pairs: [Cx; 8],
}

impl Model for Taps {
    ghost use Rattle.std.specs.Prelude.{List};
    ghost use Rattle.fixed_complex.specs.declared.Cx.{Cx};
    ghost use Rattle.fixed_complex.specs.PairLists.{PairsWithin};

    ghost Value = { List Cx };

    ghost view = { λ taps. taps.pairs };

    ghost invariant = { λ taps. PairsWithin 1024 taps.pairs };
}

impl Taps {
    /// The taps that a text says: one to seven items `DELAY RE IM`, with a semicolon and one space
    /// between two. Delays are from 1 to 7 and rise; the sizes of all numbers make at most 256; no number
    /// has a leading zero (own). Takes no memory.
    pub fn read(text: &str) -> Result<Taps, TapFault>
        ensures taps { IfOk result (λ taps. SaysPairs taps text.now) }
        ensures bad { IfErr result (λ fault. IsBadAt IsTapText text.now (place_of fault)) }
    {
        let mut taps = Taps::new();
        match reading::read_taps(&mut taps, 1, 256, text.as_bytes()) {
            Ok(()) => Ok(taps),
            Err(at) => Err(TapFault::BadTaps { at }),
        }
    }

    // No tap, which no text says.
    fn new() -> Taps
        ensures { result ≡ no_echo }
    {
        let mut pairs = [Cx { re: 0, im: 0 }; 8];
        pairs[0] = Cx { re: 1024, im: 0 };
        Taps { pairs }
    }

    // Puts a tap at its delay.
    fn put(&mut self, tap: Tap)
        requires delay { tap.delay ≤ 7 }
        requires size { size_of tap ≤ 256 }
        ensures { self.new ≡ slice_set self.old tap.delay (pair_of_tap tap) }
    {
        self.pairs[usize::from(tap.delay)] = Cx {
            re: i64::from(tap.re),
            im: i64::from(tap.im),
        };
    }

    /// The echo of at most 2^24 samples: seven samples more. Each is the sum, over the eight delays, of the
    /// delay's pair times the sample so much earlier, over 1024, rounded half up, and held within -32768 to
    /// 32767 in each component (own). The only error is want of memory.
    pub fn apply(&self, alloc: Global, samples: &[Sample]) -> Result<Vec<Sample>, AllocError>
        requires { length samples.now ≤ 2 ^ 24 }
        ensures echo { IfOk result (λ echo. echo.items ≡ echo_of self.now samples.now) }
    {
        echoes::echo(alloc, &self.pairs, samples)
    }
}

#[cfg(test)]
mod tests;
