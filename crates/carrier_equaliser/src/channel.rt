//! The estimate of a channel.
ghost use Rattle.std.specs.Prelude.{◌≡◌, ℕ, List, slice_index, take, ◌^◌, ◌<◌, ◌≤◌, ◌≤ℤ◌, ◌*ℤ◌, pos, neg_ℤ, replicate, unsigned_abs};
ghost use Rattle.bit_lists.specs.Bits.{AreBits};
ghost use Rattle.rate_table.specs.Table.{row_of};
ghost use Rattle.carrier_equaliser.specs.Decided.{interleaved_decisions};
ghost use Rattle.fixed_complex.specs.Pairs.{IsWithin, multiple, plus, zero_pair};
ghost use Rattle.fixed_complex.specs.PairLists.{PairsWithin, entry};
ghost use Rattle.carrier_bins.specs.Bins.{carrier_in};
ghost use Rattle.carrier_bins.specs.Carriers.{bin_of};
ghost use Rattle.fixed_complex.specs.declared.Cx.{Cx};
ghost use Rattle.training_fields.specs.Training.{long_sign_of};
ghost use Rattle.carrier_equaliser.specs.Estimates.{estimate_at, estimate_of};

use crate::ZERO;
use crate::decisions::decide_all;
use carrier_bins::{bin, carrier_in};
use fixed_complex::{Cx, add, signed};
use rate_table::Rate;
use std::marker::Model;
use training_fields::long_sign;

/// What a channel does to the carriers: 64 pairs by bin, each component at most 2^23 in size (own).
#[derive(Debug, Drop)]
pub struct Estimate {
    bins: [Cx; 64],
}

impl Model for Estimate {
    ghost use Rattle.std.specs.Prelude.{List, ◌^◌};
    ghost use Rattle.fixed_complex.specs.declared.Cx.{Cx};
    ghost use Rattle.fixed_complex.specs.PairLists.{PairsWithin};

    ghost Value = { List Cx };

    ghost view = { λ estimate. estimate.bins };

    ghost invariant = { λ estimate. PairsWithin (2 ^ 23) estimate.bins };
}

impl Estimate {
    /// The estimate from the carriers of both bodies of the long training field: in each bin their sum times L, so
    /// (0, 0) where L has no entry (own). Components are at most 2^22 in size. Takes no memory.
    pub fn from_long(first: &[Cx; 64], second: &[Cx; 64]) -> Estimate
        requires first { PairsWithin (2 ^ 22) first.now }
        requires second { PairsWithin (2 ^ 22) second.now }
        ensures { result ≡ estimate_of first.now second.now }
    {
        let mut bins = [ZERO; 64];
        for bin in 0..64 {
            bins[bin] = estimated(first, second, bin);
        }
        Estimate { bins }
    }

    /// The estimate of a carrier from -32 to 31, so (0, 0) where L has no entry. Each component is at most 2^23 in size
    /// (own). Takes no memory.
    pub fn at(&self, carrier: i32) -> Cx
        requires least { neg_ℤ (pos 32) ≤ℤ carrier }
        requires most { carrier ≤ℤ pos 31 }
        ensures value { result ≡ entry self.now (bin_of carrier) }
        ensures none { (first second : List Cx) → self.now ≡ estimate_of first second
            → long_sign_of carrier ≡ pos 0
            → result ≡ zero_pair }
        ensures within { IsWithin (2 ^ 23) result }
    {
        self.bins[bin(carrier)]
    }

    /// The estimate in a bin below 64, each component at most 2^23 in size (own). Takes no memory.
    pub fn in_bin(&self, bin: usize) -> Cx
        requires { bin < 64 }
        ensures value { result ≡ entry self.now bin }
        ensures within { IsWithin (2 ^ 23) result }
    {
        self.bins[bin]
    }

    /// The decisions of a symbol, in interleaved order, and 0 in the entries past N_CBPS: for each data number those of
    /// what was received on its carrier times the conjugate of the channel, against the square of the channel's size
    /// (own). Components of `symbol` are at most 2^22 in size. Takes no memory.
    pub fn decisions(&self, rate: Rate, symbol: &[Cx; 64], out: &mut [u8; 288])
        requires { PairsWithin (2 ^ 22) symbol.now }
        ensures list { take (row_of rate).coded_bits out.new
            ≡ interleaved_decisions rate self.now symbol.now }
        ensures others { (k : ℕ) → (row_of rate).coded_bits ≤ k → slice_index out.new k ≡ 0 }
        ensures bits { AreBits out.new }
    {
        decide_all(rate, &self.bins, symbol, out);
    }

    /// The estimate of a channel that gives nothing (own). Takes no memory.
    pub fn silent() -> Estimate
        ensures { result ≡ replicate 64 zero_pair }
    {
        Estimate { bins: [ZERO; 64] }
    }
}

// The estimate in a bin.
fn estimated(first: &[Cx; 64], second: &[Cx; 64], bin: usize) -> Cx
    requires first { PairsWithin (2 ^ 22) first.now }
    requires second { PairsWithin (2 ^ 22) second.now }
    requires bin { bin < 64 }
    ensures value { result ≡ estimate_at first.now second.now bin }
    ensures within { IsWithin (2 ^ 23) result }
{
    let (first, second) = (first[bin], second[bin]);
    signed(sign_in(bin), add(first, second))
}

// The sign L of a bin's carrier.
fn sign_in(bin: usize) -> i64
    requires { bin < 64 }
    ensures sign { result ≡ long_sign_of (carrier_in bin) }
    ensures within { unsigned_abs result ≤ 1 }
{
    long_sign(carrier_in(bin))
}
