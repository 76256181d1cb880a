//! What holds of the definitions alone. The law is the contract of a function that does nothing.

ghost use Rattle.std.specs.Prelude.{◌≡◌, List, [], ◌∷◌, length, IsTrue};
ghost use Rattle.ob_tree.specs.declared.tokens.Token.{Token};
ghost use Rattle.ob_tree.specs.Fronts.{kinds, lines};
ghost use Rattle.ob_tree.specs.ProgramSpelling.{spell_item};
ghost use Rattle.ob_tree.specs.ProgramPlaces.{place_program};
ghost use Rattle.ob_tree.specs.ProgramValid.{ValidItem};
ghost use Rattle.ob_tree.specs.ProgramFronts.{IsTreeOf};
ghost use Rattle.ob_library.specs.declared.library.LibraryFunction.{LibraryFunction};
ghost use Rattle.ob_library.specs.Library.{tree_of};
ghost use Rattle.ob_library.specs.Texts.{text_of};
ghost use Rattle.ob_library.specs.Nowhere.{nowhere_item};

/// The tree of each function of the library is one of the grammar. It spells the function's text, and is the only one that does: where tokens have
/// the kinds of the text, the tree that stands on them is the program of these tokens, of which there is one, as
/// `law_spell` of `ob_tree` says. The tree itself has no place and no line.
pub fn law_library()
    ensures spelled { (f : LibraryFunction) → spell_item (tree_of f) ≡ text_of f }
    ensures valid { (f : LibraryFunction) → ValidItem (tree_of f) }
    ensures program { (f : LibraryFunction) (tokens : List Token) → kinds tokens 0 (length tokens) ≡ text_of f
        → IsTreeOf tokens (place_program (lines tokens) 0 (tree_of f ∷ [])) }
    ensures nowhere { (f : LibraryFunction) → IsTrue (nowhere_item (tree_of f)) }
{}
