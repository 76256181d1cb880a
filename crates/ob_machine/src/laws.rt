ghost use Rattle.ob_machine.specs.Laws.{PlacesStayInTheFunction, SpentAtTheBound};

/// On a verified image the place of the next instruction stays inside the code of the innermost call's
/// function, until the run ends.
pub fn law_places()
    ensures { PlacesStayInTheFunction }
{}

/// A run ends as spent exactly where it did `(instructions in the code + 1) * (steps + 1)` instructions
/// and none of them ended it.
pub fn law_spent()
    ensures { SpentAtTheBound }
{}
