ghost use Rattle.std.specs.Prelude.{◌≡◌, ℕ, ◌≤◌, ◌^◌, List, length};
ghost use Rattle.ob_first.specs.Sources.{ComesTo, FirstFormsRun, Outcome, PrintsAreFew};

use ob_flat::laws::{law_fields, law_layout, law_zeros};
use ob_sources::{law_one_program, law_some_program};

/// Each text that a source can have comes to some outcome: a fault of its tokens or of its syntax at a
/// place, a program that can't be compiled yet, or one that is compiled.
pub fn law_some_outcome()
    ensures { (text : List ℕ) → length text ≤ 2 ^ 20 → (outcome : Outcome) × ComesTo text outcome }
{
    law_some_program();
}

/// A text comes to at most one outcome.
pub fn law_one_outcome()
    ensures { (text : List ℕ) (a b : Outcome) → ComesTo text a → ComesTo text b → a ≡ b }
{
    law_one_program();
}

/// The image of a source writes what its program prints and ends with its result, whatever the settings,
/// the input and the manufactured values are, where there are more steps than prints, and nothing of it
/// strays from an object; and a source has fewer than 1,048,576 of them.
pub fn law_first_runs()
    ensures runs { FirstFormsRun }
    ensures few { PrintsAreFew }
{
    law_fields();
    law_zeros();
    law_layout();
}
