ghost use Rattle.std.specs.Prelude.{◌≡◌, ℕ, ◌<◌, List, length};
ghost use Rattle.ob_model.specs.Manufactured.{manufactured, place_after};

/// Where manufactured values come from: a cycle of numbers, and a place in it.
pub trait Maker: Drop {
    /// The numbers, in order.
    ghost cycle: { Self → List ℕ };

    /// The place of the number that comes next, from 0.
    ghost place: { Self → ℕ };

    /// Gives the number at the place, and moves on to the next place, from the last to the first.
    fn next(&mut self) -> u64
        ensures number { result ≡ manufactured (cycle self.old) (place self.old) }
        ensures place { place self.new ≡ place_after (cycle self.old) (place self.old) }
        ensures cycle { cycle self.new ≡ cycle self.old };

    /// Does nothing; its clause says that the place is one of the cycle, which so is never empty.
    fn stands(&self)
        ensures { place self.now < length (cycle self.now) };

    /// Goes back to the first number.
    fn restart(&mut self)
        ensures place { place self.new ≡ 0 }
        ensures cycle { cycle self.new ≡ cycle self.old };
}
