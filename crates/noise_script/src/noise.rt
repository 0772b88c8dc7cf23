//! The noise of uniform items.
ghost use Rattle.std.specs.Prelude.{◌≡◌, ◌≤◌, length};
ghost use Rattle.fixed_complex.specs.declared.Sample.{Sample};
ghost use Rattle.lane_kernels.specs.Kernels.{held_sums};
ghost use Rattle.noise_script.specs.Noise.{behind_sample, behind_samples, generator_of, noise_of, noise_samples, sample_noise};

use crate::applying::SILENT;
use fixed_complex::Sample;
use lane_kernels::add_saturating;
use rand_core::utils::NextWord;
use rand_pcg::Lcg64Xsh32;

// The most samples whose noise is made at once.
const AT_ONCE: usize = 256;

// Adds the noise of a seed to samples.
pub(crate) fn add_noise(samples: &mut [Sample], bound: u16, seed: u64)
    requires { bound ≤ 32767 }
    ensures { samples.new
        ≡ held_sums samples.old (noise_samples bound (length samples.old) (generator_of seed)) }
{
    let mut words = generator(seed);
    let mut from = 0;
    while from < samples.len() {
        let to = samples.len().min(from + AT_ONCE);
        add_piece(&mut samples[from..to], bound, &mut words);
        from = to;
    }
}

// The generator of a seed.
fn generator(seed: u64) -> Lcg64Xsh32
    ensures { result ≡ generator_of seed }
{
    Lcg64Xsh32::new(seed, 0)
}

// Adds noise to at most 256 samples.
fn add_piece(piece: &mut [Sample], bound: u16, words: &mut Lcg64Xsh32)
    requires bound { bound ≤ 32767 }
    requires short { length piece.old ≤ 256 }
    ensures sums { piece.new
        ≡ held_sums piece.old (noise_samples bound (length piece.old) words.old) }
    ensures words { words.new ≡ behind_samples (length piece.old) words.old }
{
    let mut noise = [SILENT; AT_ONCE];
    for n in 0..piece.len() {
        noise[n] = sample_noise(words, bound);
    }
    add_saturating(piece, &noise[..piece.len()]);
}

// What is added to the next sample.
fn sample_noise(words: &mut Lcg64Xsh32, bound: u16) -> Sample
    requires { bound ≤ 32767 }
    ensures noise { result ≡ sample_noise bound words.old }
    ensures words { words.new ≡ behind_sample words.old }
{
    let i = noise_of(words.next_word(), bound);
    let q = noise_of(words.next_word(), bound);
    Sample { i, q }
}

// What a word adds to a component.
fn noise_of(word: u32, bound: u16) -> i16
    requires { bound ≤ 32767 }
    ensures { result ≡ noise_of bound word }
{
    let bound = bound as u32;
    ((word % (2 * bound + 1)) as i32 - bound as i32) as i16
}
