//! Counts that stand still at the end of their type.
ghost use Rattle.std.specs.Prelude.{◌≡◌, ◌≤◌, ℕ};
ghost use Rattle.modem_ports.specs.Counts.{raised_by};

use std::marker::Model;

/// A count of faults, calls or steps, which stands still at `u64::MAX` (own).
#[derive(Debug, Drop)]
pub struct Count {
    value: u64,
}

impl Model for Count {
    ghost Value = { ℕ };

    ghost view = { λ s. s.value };
}

impl Count {
    /// A count of 0. Takes no memory.
    pub fn new() -> Count
        ensures { result ≡ 0 }
    {
        Count { value: 0 }
    }

    /// One more. Takes no memory.
    pub fn raise(&mut self)
        ensures raised { self.new ≡ raised_by 1 self.old }
        ensures counted { self.old ≤ self.new }
    {
        self.value = self.value.saturating_add(1);
    }

    /// How many there were. Takes no memory.
    pub fn value(&self) -> u64
        ensures { result ≡ self.now }
    {
        self.value
    }
}
