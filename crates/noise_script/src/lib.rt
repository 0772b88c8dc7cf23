//! Noise scripts: what is done to the samples of a capture, item by item, and the texts of scripts
//! (own).
#![tactic(auto)]

ghost use Rattle.std.specs.Prelude.{◌≡◌, [], ◌∷◌, ◌++◌, ◌^◌, ◌<◌, ◌≤◌, length, vec_len, All, IfOk, IfErr, OnErr};
ghost use Rattle.std.specs.Bool.{OnFalse, OnTrue};
ghost use Rattle.noise_script.specs.Effects.{after_items};
ghost use Rattle.noise_script.specs.Items.{IsInRange};
ghost use Rattle.noise_script.specs.Scripts.{IsScript, SaysScript, frame_text, place_of};
ghost use Rattle.noise_script.specs.declared.Item.TheVariants.{Lead, Trail, Uniform};
ghost use Rattle.word_grammar.specs.Places.{IsBadAt};

use crate::applying::{added_by_all, apply_items};
use fixed_complex::Sample;
use std::alloc::AllocError;
use std::marker::Model;
use thiserror::Error;

mod applying;
pub mod laws;
mod noise;
mod reading;
#[cfg(test)]
mod tests;

// The most items of a script.
const MOST_ITEMS: usize = 16;

/// What is done to samples (own).
#[derive(Clone, Copy, Debug, PartialEq, Eq)]
pub enum Item {
    /// `count` silent samples are put in front. `count` is at most 1048576.
    Lead { count: u32 },
    /// `count` silent samples are appended. `count` is at most 1048576.
    Trail { count: u32 },
    /// Pseudo-random numbers from `-bound` to `bound` are added to each sample's components.
    /// `bound` is at most 32767.
    Uniform { bound: u16, seed: u64 },
    /// (`i`, `q`) is added to sample `at`, if there is one. `at` is at most 33554432.
    Spike { at: u32, i: i16, q: i16 },
    /// `count` samples from `at` on are taken out, as far as they exist. Both are at most 33554432.
    Cut { at: u32, count: u32 },
}

/// Why a text is no script (own).
#[derive(Clone, Copy, Debug, PartialEq, Eq, Error)]
pub enum ScriptFault {
    /// The place, in bytes from 0, of the last byte of the shortest front of the text that begins
    /// no script; the text's length, where the whole text begins one.
    #[error("no script at {at}")]
    BadScript { at: usize },
}

/// A noise script of at most 16 items. Contracts see it as the list of its items (own).
#[derive(Drop)]
pub struct Script {
    items: [Item; MOST_ITEMS],
    count: usize,
}

impl Model for Script {
    ghost use Rattle.std.specs.Prelude.{◌≤◌, List, take, All};
    ghost use Rattle.noise_script.specs.declared.Item.{Item};

    ghost Value = { List Item };

    ghost use Rattle.noise_script.specs.Items.{IsInRange};

    ghost view = { λ script. take script.count script.items };

    ghost invariant = { λ script.
        (script.count ≤ 16) × All IsInRange (take script.count script.items) };
}

impl Script {
    // The script of no items, which no text says.
    fn new() -> Script
        ensures { result ≡ [] }
    {
        Script {
            items: [Item::Lead { count: 0 }; MOST_ITEMS],
            count: 0,
        }
    }

    // Adds an item behind the others.
    fn push(&mut self, item: Item)
        requires room { length self.old < 16 }
        requires in_range { IsInRange item }
        ensures { self.new ≡ self.old ++ item ∷ [] }
    {
        self.items[self.count] = item;
        self.count += 1;
    }

    // Whether no other item has room.
    fn is_full(&self) -> bool
        ensures full { OnTrue result (length self.now ≡ 16) }
        ensures room { OnFalse result (length self.now < 16) }
    {
        self.items().len() == MOST_ITEMS
    }

    /// The script that a text says: one to 16 items, with a semicolon and one space between two,
    /// and one space between the words of an item; no number has a leading zero (own). Takes no
    /// memory.
    pub fn read(text: &str) -> Result<Script, ScriptFault>
        ensures script { IfOk result (λ script. SaysScript 16 script text.now) }
        ensures bad { IfErr result (λ fault. IsBadAt (IsScript 16) text.now (place_of fault)) }
    {
        let mut script = Script::new();
        match reading::read_items(&mut script, text.as_bytes()) {
            Ok(()) => Ok(script),
            Err(at) => Err(ScriptFault::BadScript { at }),
        }
    }

    /// The script of the text `lead LEAD; uniform BOUND SEED; trail TRAIL` (own). `lead` and `trail`
    /// are at most 1048576, and `bound` is at most 32767. Takes no memory.
    pub fn of_frame(lead: u32, bound: u16, seed: u64, trail: u32) -> Script
        requires lead { lead ≤ 1048576 }
        requires bound { bound ≤ 32767 }
        requires trail { trail ≤ 1048576 }
        ensures items { result ≡ Lead lead ∷ Uniform bound seed ∷ Trail trail ∷ [] }
        ensures script { SaysScript 16 result (frame_text lead bound seed trail) }
    {
        let mut script = Script::new();
        script.push(Item::Lead { count: lead });
        script.push(Item::Uniform { bound, seed });
        script.push(Item::Trail { count: trail });
        script
    }

    /// The items, in order (own). Takes no memory.
    pub fn items(&self) -> &[Item]
        ensures items { result.now ≡ self.now }
        ensures in_range { All IsInRange self.now }
        ensures few { length self.now ≤ 16 }
    {
        &self.items[..self.count]
    }

    /// Applies the items to samples, one after the other, each to the list as it then is. Every sum
    /// is held within -32768 to 32767 (own). Room for all samples is made first, and the only error
    /// is want of memory, after which the samples are as they were. Before the call there are at
    /// most 2^24.
    pub fn apply(&self, samples: &mut Vec<Sample>) -> Result<(), AllocError>
        requires { vec_len samples.old ≤ 2 ^ 24 }
        ensures after { IfOk result
            (λ _. samples.new.items ≡ after_items self.now samples.old.items) }
        ensures within { IfOk result (λ _. vec_len samples.new ≤ 2 ^ 25) }
        ensures unchanged { OnErr result (samples.new.items ≡ samples.old.items) }
    {
        let items = self.items();
        samples.reserve(added_by_all(items))?;
        apply_items(items, samples);
        Ok(())
    }
}
