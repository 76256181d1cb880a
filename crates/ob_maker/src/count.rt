ghost use Rattle.std.specs.Prelude.{◌≡◌, ◌<◌};
ghost use Rattle.ob_maker.specs.Cycles.{count_cycle};

use crate::Maker;

/// The maker that counts: 0 to 255, and then from the start.
#[derive(Drop)]
pub struct Count {
    place: u16,
    ghost in_cycle: { place < 256 },
}

impl Count {
    /// The maker at its first number.
    pub fn new() -> Count
        ensures { result.place ≡ 0 }
    {
        Count { place: 0 }
    }
}

impl Maker for Count {
    ghost cycle = { λ _. count_cycle };

    ghost place = { λ maker. maker.place };

    #[tactic(auto, using(crate::specs::Cycles::count_length, crate::proofs::Cycles::count_at))]
    fn next(&mut self) -> u64 {
        let number = self.place;
        self.place = if number == 255 { 0 } else { number + 1 };
        u64::from(number)
    }

    #[tactic(auto, using(crate::specs::Cycles::count_length))]
    fn stands(&self) {}

    fn restart(&mut self) {
        self.place = 0;
    }
}
