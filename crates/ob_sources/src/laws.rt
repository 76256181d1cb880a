//! What holds of the definitions alone. Each law is the contract of a function that does nothing.

ghost use Rattle.std.specs.Prelude.{◌≡◌, ℕ, ◌≤◌, ◌^◌, List, length};
ghost use Rattle.ob_tree.specs.Programs.{ProgramTree};
ghost use Rattle.ob_sources.specs.Reading.{IsRead};
ghost use Rattle.ob_sources.specs.Stages.{Outcome};

/// A text is one program at most, or has one first fault, and never both.
pub fn law_one_program()
    ensures { (text : List ℕ) (a b : Outcome ProgramTree) → IsRead text a → IsRead text b → a ≡ b }
{}

/// Each text that a source can have is a program, or has a first fault.
pub fn law_some_program()
    ensures { (text : List ℕ) → length text ≤ 2 ^ 20 → (outcome : Outcome ProgramTree) × IsRead text outcome }
{}
