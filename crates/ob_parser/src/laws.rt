ghost use Rattle.std.specs.Prelude.{◌≡◌, List};
ghost use Rattle.std.specs.List.{All};
ghost use Rattle.ob_tree.specs.declared.tokens.Token.{Token};
ghost use Rattle.ob_tree.specs.Valid.{IsOfSource};
ghost use Rattle.ob_parser.specs.Answer.{Answer, IsAnswer};

/// Each list of tokens that texts can have has a right answer: it is a program whose paths keep the
/// limit, or there is a first place where no such program goes on.
pub fn law_some_answer()
    ensures { (tokens : List Token) → All (λ t. IsOfSource t.kind) tokens → (answer : Answer) × IsAnswer tokens answer }
{}

/// A list of tokens has at most one right answer.
pub fn law_one_answer()
    ensures { (tokens : List Token) (a b : Answer) → IsAnswer tokens a → IsAnswer tokens b → a ≡ b }
{}
