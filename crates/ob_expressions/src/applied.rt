//! The rules that ask which structures are known.
ghost use Rattle.ob_tree.specs.TypeView.{plain_type};
ghost use Rattle.ob_typed.specs.AssignRules.{assignment_rule};
ghost use Rattle.ob_typed.specs.BinaryRules.{binary_rule};
ghost use Rattle.ob_typed.specs.PostfixRules.{index_rule, step_rule};
ghost use Rattle.ob_typed.specs.Specifiers.{member_rule};
ghost use Rattle.ob_typed.specs.UnaryRules.{size_rule};
ghost use Rattle.ob_conversions.specs.CheckedView.{checked, mark};
ghost use Rattle.ob_conversions.specs.Gives.{Gives};
ghost use Rattle.ob_typed.specs.TypedView.{typed_expr};
ghost use Rattle.ob_context.specs.KnownView.{known_of};

use ob_base::Text;
use ob_context::Known;
use ob_conversions::{Checked, Mark};
use ob_rules::{assignment_rule, binary_rule, index_rule, size_rule, step_rule};
use ob_specifiers::MemberList;
use ob_tree::{CType, Sign, TypeFault};
use ob_typed::TExpr;
use std::alloc::Global;

/// `x[y]` (C99 6.5.2.1).
pub(crate) fn indexed(
    alloc: Global,
    known: &Known,
    m: Mark,
    x: TExpr,
    y: TExpr,
) -> Result<Checked, TypeFault>
    ensures { Gives checked result (index_rule (known_of known.now).structs (mark m) (typed_expr x) (typed_expr y)) }
{
    index_rule(alloc, known.structs.rows(), m, x, y)
}

/// `++` and `--` (C99 6.5.2.4, 6.5.3.1).
pub(crate) fn stepped(
    alloc: Global,
    known: &Known,
    m: Mark,
    post: bool,
    down: bool,
    x: Checked,
) -> Result<Checked, TypeFault>
    ensures { Gives checked result (step_rule (known_of known.now).structs (mark m) post down (checked x)) }
{
    step_rule(alloc, known.structs.rows(), m, post, down, x)
}

/// `sizeof` (C99 6.5.3.4).
pub(crate) fn sized(known: &Known, m: Mark, t: &CType) -> Result<Checked, TypeFault>
    ensures { Gives checked result (size_rule (known_of known.now).structs (mark m) (plain_type t.now)) }
{
    size_rule(known.structs.rows(), m, t)
}

/// An operator with two operands (C99 6.5.5 to 6.5.14).
pub(crate) fn joined_by(
    alloc: Global,
    known: &Known,
    m: Mark,
    sign: Sign,
    x: Checked,
    y: Checked,
) -> Result<Checked, TypeFault>
    ensures { Gives checked result (binary_rule (known_of known.now).structs (mark m) sign (checked x) (checked y)) }
{
    binary_rule(alloc, known.structs.rows(), m, sign, x, y)
}

/// An assignment, whose right side begins at `first` (C99 6.5.16).
pub(crate) fn assigned(
    alloc: Global,
    known: &Known,
    m: Mark,
    sign: Sign,
    first: u32,
    x: Checked,
    y: Checked,
) -> Result<Checked, TypeFault>
    ensures { Gives checked result (assignment_rule (known_of known.now).structs (mark m) sign first (checked x) (checked y)) }
{
    assignment_rule(alloc, known.structs.rows(), m, sign, first, x, y)
}

/// One more member of a structure (C99 6.7.2.1).
pub(crate) fn add_member(
    alloc: Global,
    known: &Known,
    list: &mut MemberList,
    t: CType,
    name: &Text,
    at: u32,
) -> Result<(), TypeFault>
    ensures { Gives (λ _. list.new) result (member_rule (known_of known.now).structs list.old (plain_type t) name.now at) }
{
    list.add(alloc, known.structs.rows(), t, name, at)
}
