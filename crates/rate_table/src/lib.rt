//! The eight rates at 20 MHz channel spacing (IEEE Std 802.11-2012, 18.3.2.3 and 18.3.4.2). No call takes memory.
#![tactic(auto)]

ghost use Rattle.std.specs.Prelude.{◌≡◌, ◌≢◌, ◌↔◌, ℕ, ◌*◌, ◌<◌, ◌≤◌, IfSome, IfNone, IsNone};
ghost use Rattle.rate_table.specs.declared.Rate.{Rate};
ghost use Rattle.rate_table.specs.Table.{bits_of_modulation, rate_at, row_of};
ghost use Rattle.rate_table.specs.Symbols.{IsLength, bits_through_tail, symbol_count};

pub mod laws;

/// The most octets that a PSDU has; the fewest is 1 (18.3.4.3).
pub const MOST_OCTETS: u16 = 4095;

/// The modulation of a data carrier (18.3.5.8).
#[derive(Clone, Copy, Debug, PartialEq, Eq)]
pub enum Modulation {
    Bpsk,
    Qpsk,
    Qam16,
    Qam64,
}

impl Modulation {
    /// N_BPSC: the coded bits of a carrier, 1 to 6 (18.3.2.3).
    pub fn bits_per_carrier(self) -> usize
        ensures value { result ≡ bits_of_modulation self }
        ensures at_most { result ≤ 6 }
    {
        match self {
            Modulation::Bpsk => 1,
            Modulation::Qpsk => 2,
            Modulation::Qam16 => 4,
            Modulation::Qam64 => 6,
        }
    }
}

/// The rate of the code once it is punctured (18.3.5.6).
#[derive(Clone, Copy, Debug, PartialEq, Eq)]
pub enum CodeRate {
    Half,
    TwoThirds,
    ThreeQuarters,
}

/// A data rate, named by its megabits a second (18.3.2.3).
#[derive(Clone, Copy, Debug, PartialEq, Eq)]
pub enum Rate {
    R6,
    R9,
    R12,
    R18,
    R24,
    R36,
    R48,
    R54,
}

impl Rate {
    /// The rate of so many megabits a second (18.3.2.3); `None` exactly where no rate has that number.
    pub fn from_mbps(mbps: u32) -> Option<Rate>
        ensures named { IfSome result (λ rate. (row_of rate).mbps ≡ mbps) }
        ensures no_rate { IfNone result ((rate : Rate) → (row_of rate).mbps ≢ mbps) }
    {
        match mbps {
            6 => Some(Rate::R6),
            9 => Some(Rate::R9),
            12 => Some(Rate::R12),
            18 => Some(Rate::R18),
            24 => Some(Rate::R24),
            36 => Some(Rate::R36),
            48 => Some(Rate::R48),
            54 => Some(Rate::R54),
            _ => None,
        }
    }

    /// The rate of a RATE pattern's number, R1 + 2 R2 + 4 R3 + 8 R4, from 0 to 15 (18.3.4.2; the number is own); `None`
    /// exactly where no rate has that pattern, which is where R4 is 0.
    pub fn from_pattern(pattern: u8) -> Option<Rate>
        requires { pattern < 16 }
        ensures named { IfSome result (λ rate. (row_of rate).pattern ≡ pattern) }
        ensures no_rate { IfNone result ((rate : Rate) → (row_of rate).pattern ≢ pattern) }
        ensures none_where_r4_is_0 { IsNone result ↔ (pattern < 8) }
    {
        match pattern {
            0b1011 => Some(Rate::R6),
            0b1111 => Some(Rate::R9),
            0b1010 => Some(Rate::R12),
            0b1110 => Some(Rate::R18),
            0b1001 => Some(Rate::R24),
            0b1101 => Some(Rate::R36),
            0b1000 => Some(Rate::R48),
            0b1100 => Some(Rate::R54),
            _ => None,
        }
    }

    /// The rate with an index, from 0 to 7, in the order of the enum (own).
    pub fn from_index(index: u32) -> Rate
        requires { index < 8 }
        ensures { result ≡ rate_at index }
    {
        match index {
            0 => Rate::R6,
            1 => Rate::R9,
            2 => Rate::R12,
            3 => Rate::R18,
            4 => Rate::R24,
            5 => Rate::R36,
            6 => Rate::R48,
            _ => Rate::R54,
        }
    }

    /// Megabits a second, 6 to 54 (18.3.2.3).
    pub fn mbps(self) -> u32
        ensures { result ≡ (row_of self).mbps }
    {
        match self {
            Rate::R6 => 6,
            Rate::R9 => 9,
            Rate::R12 => 12,
            Rate::R18 => 18,
            Rate::R24 => 24,
            Rate::R36 => 36,
            Rate::R48 => 48,
            Rate::R54 => 54,
        }
    }

    /// The number of the RATE pattern, R1 + 2 R2 + 4 R3 + 8 R4, from 8 to 15 (18.3.4.2; the number is own).
    pub fn pattern(self) -> u8
        ensures { result ≡ (row_of self).pattern }
    {
        match self {
            Rate::R6 => 0b1011,
            Rate::R9 => 0b1111,
            Rate::R12 => 0b1010,
            Rate::R18 => 0b1110,
            Rate::R24 => 0b1001,
            Rate::R36 => 0b1101,
            Rate::R48 => 0b1000,
            Rate::R54 => 0b1100,
        }
    }

    /// The modulation of the data carriers (18.3.2.3).
    pub fn modulation(self) -> Modulation
        ensures { result ≡ (row_of self).modulation }
    {
        match self {
            Rate::R6 | Rate::R9 => Modulation::Bpsk,
            Rate::R12 | Rate::R18 => Modulation::Qpsk,
            Rate::R24 | Rate::R36 => Modulation::Qam16,
            Rate::R48 | Rate::R54 => Modulation::Qam64,
        }
    }

    /// The code rate after puncturing (18.3.2.3).
    pub fn code_rate(self) -> CodeRate
        ensures { result ≡ (row_of self).code_rate }
    {
        match self {
            Rate::R6 | Rate::R12 | Rate::R24 => CodeRate::Half,
            Rate::R48 => CodeRate::TwoThirds,
            Rate::R9 | Rate::R18 | Rate::R36 | Rate::R54 => CodeRate::ThreeQuarters,
        }
    }

    /// N_BPSC: the coded bits of a carrier, 1 to 6 (18.3.2.3).
    pub fn bits_per_carrier(self) -> usize
        ensures { result ≡ (row_of self).bits_per_carrier }
    {
        self.modulation().bits_per_carrier()
    }

    /// N_CBPS: the coded bits of a symbol, 48 to 288, which has 48 data carriers (18.3.2.3).
    pub fn coded_bits(self) -> usize
        ensures { result ≡ (row_of self).coded_bits }
    {
        48 * self.bits_per_carrier()
    }

    /// N_DBPS: the bits of the DATA field in a symbol, 24 to 216 (18.3.2.3).
    pub fn field_bits(self) -> usize
        ensures { result ≡ (row_of self).field_bits }
    {
        let coded_bits = self.coded_bits();
        match self.code_rate() {
            CodeRate::Half => coded_bits / 2,
            CodeRate::TwoThirds => coded_bits / 3 * 2,
            CodeRate::ThreeQuarters => coded_bits / 4 * 3,
        }
    }

    /// The largest noise, 8 to 64, in units of a sample's component, that a frame withstands (own).
    pub fn noise_bound(self) -> u32
        ensures { result ≡ (row_of self).noise_bound }
    {
        match self.modulation() {
            Modulation::Bpsk => 64,
            Modulation::Qpsk => 36,
            Modulation::Qam16 => 16,
            Modulation::Qam64 => 8,
        }
    }

    /// How many flipped bits, 4 or 2 of those kept up to the tail, a decoder repairs (own).
    pub fn flip_bound(self) -> u32
        ensures { result ≡ (row_of self).flip_bound }
    {
        match self.code_rate() {
            CodeRate::Half => 4,
            CodeRate::TwoThirds | CodeRate::ThreeQuarters => 2,
        }
    }

    /// N_SYM: the number of symbols of the DATA field of so many octets, from 1 to 4095 (18.3.5.4).
    pub fn symbols(self, length: u16) -> u32
        requires octets { IsLength length }
        ensures ceiling { result ≡ symbol_count (row_of self).field_bits length }
        ensures enough { bits_through_tail length ≤ result * (row_of self).field_bits }
        ensures none_fewer { (fewer : ℕ) → fewer < result
            → fewer * (row_of self).field_bits < bits_through_tail length }
        ensures at_least { 1 ≤ result }
        ensures at_most { result ≤ 1366 }
    {
        let bits_through_tail = 22 + 8 * u32::from(length);
        bits_through_tail.div_ceil(self.field_bits() as u32)
    }
}
