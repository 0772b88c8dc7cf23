//! Frames that are drawn.
ghost use Rattle.std.specs.Prelude.{◌≡◌, ℕ, ◌+◌, ◌≤◌, IfOk};
ghost use Rattle.frame_drills.specs.Draws.{drawn, drawn_octets, generator_behind, word_of};
ghost use Rattle.frames_in_noise.specs.Laws.{IsFrame};

use bit_lists::Octets;
use ofdm_scrambler::Seed;
use rand_core::utils::NextWord;
use rand_pcg::Lcg64Xsh32;
use rate_table::Rate;
use std::alloc::{AllocError, Global};
use std::marker::Model;

// The stream of the generators.
const STREAM: u64 = 11;

// A frame that is drawn, and how many silent samples stand before it. Contracts see it as a sent frame.
#[derive(Drop)]
pub(crate) struct Drawn {
    pub lead: u32,
    pub rate: Rate,
    pub seed: Seed,
    pub psdu: Octets,
}

impl Model for Drawn {
    ghost use Rattle.frame_lists.specs.Near.{SentFrame};

    ghost Value = { SentFrame };

    ghost view = { λ frame. record {
      start = frame.lead;
      rate = frame.rate;
      seed = frame.seed;
      psdu = frame.psdu;
    } };
}

// The frame of a number. The only error is want of memory.
pub(crate) fn draw(alloc: Global, number: u32) -> Result<Drawn, AllocError>
    ensures drawn { IfOk result (λ frame. frame ≡ drawn number) }
    ensures sendable { IfOk result IsFrame }
    ensures lead { IfOk result (λ frame. frame.start ≤ 2047) }
{
    let mut words = generator(number);
    let rate = Rate::from_index(draw_word(&mut words) % 8);
    let octets = 1 + draw_word(&mut words) % 4095;
    let seed = Seed::new((1 + draw_word(&mut words) % 127) as u8).unwrap();
    let lead = draw_word(&mut words) % 2048;
    let psdu = draw_octets(alloc, &mut words, octets)?;
    Ok(Drawn {
        lead,
        rate,
        seed,
        psdu,
    })
}

// The octets of a frame, from words of which four were drawn.
fn draw_octets(alloc: Global, words: &mut Lcg64Xsh32, count: u32) -> Result<Octets, AllocError>
    ensures { IfOk result (λ octets. (number : ℕ) → words.old ≡ generator_behind number 4
        → octets ≡ drawn_octets number count) }
{
    let mut octets = Vec::with_capacity(alloc, count as usize)?;
    for _ in 0..count {
        octets.push((draw_word(words) % 256) as u8)?;
    }
    Ok(Octets::from_vec(octets))
}

// The generator of a frame's number.
fn generator(number: u32) -> Lcg64Xsh32
    ensures { result ≡ generator_behind number 0 }
{
    Lcg64Xsh32::new(u64::from(number), STREAM)
}

// The next word.
fn draw_word(words: &mut Lcg64Xsh32) -> u32
    ensures word { (number n : ℕ) → words.old ≡ generator_behind number n
        → result ≡ word_of number n }
    ensures behind { (number n : ℕ) → words.old ≡ generator_behind number n
        → words.new ≡ generator_behind number (n + 1) }
{
    words.next_word()
}
