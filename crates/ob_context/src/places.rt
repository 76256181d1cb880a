ghost use Rattle.std.specs.Prelude.{◌≡◌};
ghost use Rattle.ob_tree.specs.ExpressionView.{expr_tree};
ghost use Rattle.ob_tree.specs.Levels.{mark_of};
ghost use Rattle.ob_conversions.specs.CheckedView.{mark};

use ob_conversions::Mark;
use ob_tree::Expr;

/// Where an expression stands.
pub fn mark_of(e: &Expr) -> Mark
    ensures { mark result ≡ mark_of (expr_tree e.now) }
{
    Mark {
        first: e.first,
        at: e.at,
        line: e.line,
    }
}
