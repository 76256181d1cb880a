ghost use Rattle.std.specs.Prelude.{◌≡◌, ◌<◌};
ghost use Rattle.ob_model.specs.Manufactured.{manufactured};
ghost use Rattle.ob_maker.specs.Cycles.{small_cycle};

use crate::Maker;

/// The maker of small numbers: 0, 1, 2, 0, 1, 3 and so on up to 0, 1, 255, and then from the start.
#[derive(Drop)]
pub struct Small {
    place: u16,
    ghost in_cycle: { place < 762 },
}

impl Small {
    /// The maker at its first number.
    pub fn new() -> Small
        ensures { result.place ≡ 0 }
    {
        Small { place: 0 }
    }
}

impl Maker for Small {
    ghost cycle = { λ _. small_cycle };

    ghost place = { λ maker. maker.place };

    #[tactic(auto, using(crate::specs::Cycles::small_length))]
    fn next(&mut self) -> u64 {
        let number = number_at(self.place);
        self.place = if self.place == 761 { 0 } else { self.place + 1 };
        number
    }

    #[tactic(auto, using(crate::specs::Cycles::small_length))]
    fn stands(&self) {}

    fn restart(&mut self) {
        self.place = 0;
    }
}

/// The number at a place of the cycle.
#[tactic(auto, using(crate::proofs::Cycles::small_first, crate::proofs::Cycles::small_second, crate::proofs::Cycles::small_third))]
fn number_at(place: u16) -> u64
    requires { place < 762 }
    ensures { result ≡ manufactured small_cycle place }
{
    if place % 3 == 0 {
        return 0;
    }
    if place % 3 == 1 {
        return 1;
    }
    2 + u64::from(place / 3)
}
