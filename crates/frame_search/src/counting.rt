//! Steps counted many at a time.
ghost use Rattle.std.specs.Prelude.{◌≡◌};
ghost use Rattle.modem_ports.specs.Counts.{raised_by};

use modem_ports::Steps;

/// Counts so many steps more (own). Takes no memory.
pub fn tick_times(steps: &mut Steps, times: usize)
    ensures { steps.new ≡ raised_by times steps.old }
{
    let _so_far = steps.count();
    for done in 0..times {
        steps.tick();
    }
}
