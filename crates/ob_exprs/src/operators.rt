ghost use Rattle.std.specs.Prelude.{◌≡◌, ◌≤◌};
ghost use Rattle.ob_tree.specs.Levels.{binary_level as binary_level_of, is_assign as is_assign_of, is_unary as is_unary_of, infix_level, left_level as left_level_of, right_level as right_level_of};
ghost use Rattle.ob_exprs.specs.View.{infix_of};

use crate::level::{ASSIGN, EXPR, OR, UNARY};
use crate::state::Operator;
use ob_tree::Sign;

/// The nonterminal of a binary operator, or 0 for a sign that is none (C99 6.5.5 to 6.5.14).
pub fn binary_level(sign: Sign) -> u32
    ensures exact { result ≡ binary_level_of sign }
    ensures small { result ≤ 12 }
{
    match sign {
        Sign::OrOr => OR,
        Sign::AndAnd => 4,
        Sign::Bar => 5,
        Sign::Caret => 6,
        Sign::Amp => 7,
        Sign::EqEq | Sign::NotEq => 8,
        Sign::Lt | Sign::Gt | Sign::Le | Sign::Ge => 9,
        Sign::Shl | Sign::Shr => 10,
        Sign::Plus | Sign::Minus => 11,
        Sign::Star | Sign::Slash | Sign::Percent => 12,
        _ => 0,
    }
}

/// Whether the sign is an assignment operator (C99 6.5.16).
pub fn is_assign(sign: Sign) -> bool
    ensures { result ≡ is_assign_of sign }
{
    match sign {
        Sign::Assign
        | Sign::StarAssign
        | Sign::SlashAssign
        | Sign::PercentAssign
        | Sign::PlusAssign
        | Sign::MinusAssign
        | Sign::ShlAssign
        | Sign::ShrAssign
        | Sign::AmpAssign
        | Sign::CaretAssign
        | Sign::BarAssign => true,
        _ => false,
    }
}

/// Whether the sign stands before a cast expression (C99 6.5.3).
pub fn is_unary(sign: Sign) -> bool
    ensures { result ≡ is_unary_of sign }
{
    match sign {
        Sign::Amp | Sign::Star | Sign::Plus | Sign::Minus | Sign::Tilde | Sign::Not => true,
        _ => false,
    }
}

/// The nonterminal that an operator makes.
pub fn level_of_operator(operator: Operator) -> u32
    ensures { result ≡ infix_level (infix_of operator) }
{
    match operator {
        Operator::Comma => EXPR,
        Operator::Assign(_) => ASSIGN,
        Operator::Binary(sign) => binary_level(sign),
    }
}

/// The nonterminal of an operator's left operand.
pub fn left_level(operator: Operator) -> u32
    ensures { result ≡ left_level_of (infix_of operator) }
{
    match operator {
        Operator::Comma => EXPR,
        Operator::Assign(_) => UNARY,
        Operator::Binary(sign) => binary_level(sign),
    }
}

/// The nonterminal of an operator's right operand.
pub fn right_level(operator: Operator) -> u32
    ensures { result ≡ right_level_of (infix_of operator) }
{
    match operator {
        Operator::Comma | Operator::Assign(_) => ASSIGN,
        Operator::Binary(sign) => binary_level(sign) + 1,
    }
}
