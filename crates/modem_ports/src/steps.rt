//! Steps of a decoder or a receiver, counted.
ghost use Rattle.std.specs.Prelude.{◌≡◌, ℕ};
ghost use Rattle.modem_ports.specs.Counts.{raised_by};

use crate::counts::Count;
use std::marker::Model;

/// A count of steps, which stands still at `u64::MAX` (own).
#[derive(Debug, Drop)]
pub struct Steps {
    count: Count,
}

impl Model for Steps {
    ghost Value = { ℕ };

    ghost view = { λ s. s.count };
}

impl Steps {
    /// No steps. Takes no memory.
    pub fn new() -> Steps
        ensures { result ≡ 0 }
    {
        Steps {
            count: Count::new(),
        }
    }

    /// One more step. Takes no memory.
    pub fn tick(&mut self)
        ensures { self.new ≡ raised_by 1 self.old }
    {
        self.count.raise();
    }

    /// How many steps there were. Takes no memory.
    pub fn count(&self) -> u64
        ensures { result ≡ self.now }
    {
        self.count.value()
    }
}
