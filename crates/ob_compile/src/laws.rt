//! What holds of the definitions alone. Each law is the contract of a function that does nothing.

ghost use Rattle.std.specs.Prelude.{◌≡◌, ℕ, ◌≤◌, List, length, Ok, Err};
ghost use Rattle.ob_tree.specs.declared.faults.SourceFault.{SourceFault};
ghost use Rattle.ob_tree.specs.declared.faults.SourceFault.TheVariants as source;
ghost use Rattle.ob_typed.specs.TypedTree.{TypedProgram};
ghost use Rattle.ob_sources.specs.Stages.{Outcome};
ghost use Rattle.ob_compile.specs.Accepted.{Accepted, ComesTo, HasSourceFault, IsTyped, most_source_bytes};

/// A source is accepted with one typed tree at most, or has one first fault, and never both. Its types alone are one
/// typed tree at most, or one first fault. Want of memory is no fault of a source.
pub fn law_one_outcome()
    ensures outcome { (text : List ℕ) (a b : Outcome TypedProgram) → ComesTo text a → ComesTo text b → a ≡ b }
    ensures typed { (text : List ℕ) (a b : Outcome TypedProgram) → IsTyped text a → IsTyped text b → a ≡ b }
    ensures memory { (text : List ℕ) → HasSourceFault text source.NoMemory → ⊥ }
{}

/// Each text of at most 2^20 bytes is an accepted source, or has a first fault.
pub fn law_some_outcome()
    ensures { (text : List ℕ) → length text ≤ most_source_bytes → (outcome : Outcome TypedProgram) × ComesTo text outcome }
{}

/// What is found before the limits are looked at is the source's: a fault of tokens, syntax or types is its first fault, and an
/// accepted source has no other typed tree. None of these faults is one of the limits.
pub fn law_before_limits()
    ensures fault { (text : List ℕ) (f : SourceFault) → length text ≤ most_source_bytes → IsTyped text (Err f) → HasSourceFault text f }
    ensures tree { (text : List ℕ) (t : TypedProgram) → Accepted text t → IsTyped text (Ok t) }
    ensures statics { (text : List ℕ) → IsTyped text (Err source.Statics) → ⊥ }
    ensures code { (text : List ℕ) → IsTyped text (Err source.Code) → ⊥ }
{}
