ghost use Rattle.std.specs.Prelude.{◌≡◌, List};
ghost use Rattle.ob_tree.specs.declared.tokens.Token.{Token};
ghost use Rattle.ob_tree.specs.Programs.{ProgramTree};
ghost use Rattle.ob_tree.specs.ProgramFronts.{IsTreeOf};

/// Tokens are those of one program: two programs of which each is the tree of one list of tokens are
/// equal (C99 6.9). A program is the tree of tokens where it is valid, each of its nodes stands where
/// its own tokens stand, and it spells their kinds.
pub fn law_spell()
    ensures { (tokens : List Token) (p q : ProgramTree) → IsTreeOf tokens p → IsTreeOf tokens q → p ≡ q }
{}
