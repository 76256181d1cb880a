ghost use Rattle.std.specs.Prelude.{◌<◌};
ghost use Rattle.ob_maker.specs.Cycles.{zero_cycle};

use crate::Maker;

/// The maker that gives 0 each time.
#[derive(Drop)]
pub struct Zero;

impl Zero {
    /// The maker, at its one number.
    pub fn new() -> Zero {
        Zero
    }
}

impl Maker for Zero {
    ghost cycle = { λ _. zero_cycle };

    ghost place = { λ _. 0 };

    fn next(&mut self) -> u64 {
        0
    }

    fn stands(&self) {}

    fn restart(&mut self) {}
}
