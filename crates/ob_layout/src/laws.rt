//! What holds of the definitions alone. Each law is the contract of a function that does nothing.

ghost use Rattle.std.specs.Prelude.{ℕ, ◌≡◌, ◌≤◌, true, false, Some, None, [], ◌∷◌};
ghost use Rattle.ob_words.specs.declared.types.IntType.TheVariants.{Char, Int};
ghost use Rattle.ob_tree.specs.Types.{PlainType};
ghost use Rattle.ob_tree.specs.Sizes.{IsRoundUp, round_up, align, allowance, has_size, is_complete, member, scalars, size};
ghost use Rattle.ob_layout.specs.Samples.{chars, samples};

/// A member stands, and a structure ends, at the least multiple of its alignment that isn't below.
pub fn law_round_up()
    ensures { (n align : ℕ) → 1 ≤ align → IsRoundUp n align (round_up n align) }
{}

/// A structure of a `char`, an `int` and a `short` has padding behind the first and the last, and an
/// array of three of them stands at a multiple of 4 in another structure.
pub fn law_structures()
    ensures mixed { size samples (PlainType.Struct 0) ≡ 12 }
    ensures outer { size samples (PlainType.Struct 1) ≡ 48 }
    ensures alignment { align samples (PlainType.Struct 1) ≡ 8 }
    ensures scalars { scalars samples (PlainType.Struct 1) ≡ 11 }
    ensures found { member samples 1 (112 ∷ []) ≡ Some (record { offset = 40; index = 2; ty = PlainType.Pointer (PlainType.Struct 2) }) }
    ensures absent { member samples 0 (112 ∷ []) ≡ None }
{}

/// `void`, a structure that holds itself and one without members have no size, and an object has at
/// most 4,194,304 bytes.
pub fn law_complete()
    ensures void { has_size samples PlainType.Void ≡ false }
    ensures endless { has_size samples (PlainType.Struct 2) ≡ false }
    ensures unknown { has_size samples (PlainType.Struct 3) ≡ false }
    ensures behind_a_pointer { is_complete samples (PlainType.Struct 1) ≡ true }
    ensures greatest { is_complete samples (chars 4194304) ≡ true }
    ensures past { is_complete samples (chars 4194305) ≡ false }
{}

/// A function with six expressions and one `int` parameter takes 144 bytes of the stack; one with two
/// expressions and no objects takes 48; an array of sixteen characters takes a block of 32.
pub fn law_allowance()
    ensures one_parameter { allowance [] 6 1 (PlainType.Int Int ∷ []) ≡ 144 }
    ensures no_objects { allowance [] 2 0 [] ≡ 48 }
    ensures sixteen_characters { allowance [] 0 0 (chars 16 ∷ []) ≡ 48 }
{}
