ghost use Rattle.std.specs.Prelude.{◌≡◌, ℕ};
ghost use Rattle.ob_tree.specs.Trees.{ExprTree, SpecTree};
ghost use Rattle.ob_tree.specs.Spelling.{spell, spell_spec};
ghost use Rattle.ob_tree.specs.Valid.{Valid, ValidSpec};
ghost use Rattle.ob_tree.specs.Places.{PlacedExpr, PlacedSpec};

/// Tokens are those of one expression: two expressions that stand at one place and spell the same
/// tokens are equal (C99 6.5).
pub fn law_expression()
    ensures { (lines : ℕ → ℕ) (place : ℕ) (e f : ExprTree) → Valid e → Valid f → PlacedExpr lines place e → PlacedExpr lines place f → spell e ≡ spell f → e ≡ f }
{}

/// Tokens are those of one specifier: two specifiers that stand at one place and spell the same
/// tokens are equal (C99 6.7.2).
pub fn law_specifier()
    ensures { (lines : ℕ → ℕ) (place : ℕ) (s t : SpecTree) → ValidSpec s → ValidSpec t → PlacedSpec lines place s → PlacedSpec lines place t → spell_spec s ≡ spell_spec t → s ≡ t }
{}
