//! Binary operators and the conditional operator (C99 6.5.5 to 6.5.15).
ghost use Rattle.std.specs.Prelude.{◌≡◌, IfOk, Bool, true, false, option_map, if◌then◌else◌};
ghost use Rattle.ob_words.specs.declared.types.IntType.TheVariants.{Int};
ghost use Rattle.ob_tree.specs.Types.{PlainType};
ghost use Rattle.ob_tree.specs.StructsView.{plain_structs};
ghost use Rattle.ob_tree.specs.TypeView.{plain_type};
ghost use Rattle.ob_typed.specs.BinaryRules.{arith_types, compare_pointers, binary_rule, compared_in, cond_rule, logical, operation, operation_rule, order_types, joined_type, equality, chosen};
ghost use Rattle.ob_typed.specs.Conversions.{Checked as PlainChecked, as_type, value};
ghost use Rattle.ob_typed.specs.TypedTree.{TypedExpr, TypedNode};
ghost use Rattle.ob_typed.specs.TypedView.{typed_expr};
ghost use Rattle.ob_conversions.specs.CheckedView.{checked, mark};
ghost use Rattle.ob_conversions.specs.Gives.{Gives};
ghost use Rattle.ob_rules.specs.OperationView.{plain_operation};

use crate::arithmetic::{arith_types, compare_numbers, compare_pointers};
use crate::joined::{both_in, joined};
use crate::refused::operand;
use ob_base::NoMemory;
use ob_conversions::nodes::{both, conditional, either};
use ob_conversions::nulls::is_null;
use ob_conversions::types::{copy_type, is_scalar, same_type};
use ob_conversions::values::{value, values};
use ob_conversions::{Checked, Mark, beside};
use ob_tree::{CType, Sign, Structs, TypeFault};
use ob_typed::TExpr;
use ob_words::{BinOp, Relation, common};
use std::alloc::Global;

/// What a sign is between two operands.
#[derive(Clone, Copy)]
pub(crate) enum Operation {
    Arithmetic(BinOp),
    Order(Relation),
    Equality(Relation),
    Both,
    Either,
    Unknown,
}

/// What a sign is between two operands.
fn sign_operation(sign: Sign) -> Operation
    ensures { plain_operation result ≡ operation sign }
{
    match sign {
        Sign::Plus => Operation::Arithmetic(BinOp::Add),
        Sign::Minus => Operation::Arithmetic(BinOp::Sub),
        Sign::Star => Operation::Arithmetic(BinOp::Mul),
        Sign::Slash => Operation::Arithmetic(BinOp::Div),
        Sign::Percent => Operation::Arithmetic(BinOp::Rem),
        Sign::Amp => Operation::Arithmetic(BinOp::And),
        Sign::Bar => Operation::Arithmetic(BinOp::Or),
        Sign::Caret => Operation::Arithmetic(BinOp::Xor),
        Sign::Shl => Operation::Arithmetic(BinOp::Shl),
        Sign::Shr => Operation::Arithmetic(BinOp::Shr),
        Sign::Lt => Operation::Order(Relation::Lt),
        Sign::Gt => Operation::Order(Relation::Gt),
        Sign::Le => Operation::Order(Relation::Le),
        Sign::Ge => Operation::Order(Relation::Ge),
        Sign::EqEq => Operation::Equality(Relation::Eq),
        Sign::NotEq => Operation::Equality(Relation::Ne),
        Sign::AndAnd => Operation::Both,
        Sign::OrOr => Operation::Either,
        _ => Operation::Unknown,
    }
}

/// `<` and its kin: two numbers, or two pointers of one type (C99 6.5.8).
fn order_types(
    alloc: Global,
    m: Mark,
    relation: Relation,
    x: TExpr,
    y: TExpr,
) -> Result<Checked, TypeFault>
    ensures { Gives checked result (order_types (mark m) relation (plain_type x.ty) (plain_type y.ty) (typed_expr x) (typed_expr y)) }
{
    match (&x.ty, &y.ty) {
        (CType::Int(a), CType::Int(b)) => Ok(compare_numbers(
            alloc,
            m,
            relation,
            common(*a, *b),
            x,
            y,
        )?),
        (CType::Pointer(t), CType::Pointer(u)) => if same_type(t, u) {
            Ok(compare_pointers(alloc, m, relation, x, y)?)
        } else {
            operand(m, (x, y))
        },
        _ => operand(m, (x, y)),
    }
}

/// Two pointers in the type that they have together, compared.
fn pointers_in(
    alloc: Global,
    m: Mark,
    relation: Relation,
    t: CType,
    x: TExpr,
    y: TExpr,
) -> Result<Checked, NoMemory>
    ensures { IfOk result (λ r. checked r ≡ compare_pointers (mark m) relation (as_type (typed_expr x) (plain_type t)) (as_type (typed_expr y) (plain_type t))) }
{
    let (x, y) = both_in(alloc, x, y, t)?;
    compare_pointers(alloc, m, relation, x, y)
}

/// Two parts in the type that they have together, compared.
fn compared_in(
    alloc: Global,
    m: Mark,
    relation: Relation,
    t: CType,
    x: TExpr,
    y: TExpr,
) -> Result<Checked, TypeFault>
    ensures { Gives checked result (compared_in (mark m) relation (plain_type t) (typed_expr x) (typed_expr y)) }
{
    match t {
        CType::Int(kind) => Ok(compare_numbers(alloc, m, relation, kind, x, y)?),
        t => Ok(pointers_in(alloc, m, relation, t, x, y)?),
    }
}

/// Two values, and the type that they have together.
fn joined_values(
    alloc: Global,
    x: Checked,
    y: Checked,
) -> Result<(Option<CType>, TExpr, TExpr), NoMemory>
    ensures ty { IfOk result (λ r. option_map plain_type r.0 ≡ joined_type (checked x) (checked y)) }
    ensures first { IfOk result (λ r. typed_expr r.1 ≡ value (checked x)) }
    ensures second { IfOk result (λ r. typed_expr r.2 ≡ value (checked y)) }
{
    let null_x = is_null(&x);
    let null_y = is_null(&y);
    let (x, y) = values(alloc, x, y)?;
    let (ty, (x, y)) = beside(joined(alloc, null_x, null_y, &x.ty, &y.ty), (x, y))?;
    Ok((ty, x, y))
}

/// `==` and `!=` (C99 6.5.9).
fn equality(
    alloc: Global,
    m: Mark,
    relation: Relation,
    x: Checked,
    y: Checked,
) -> Result<Checked, TypeFault>
    ensures { Gives checked result (equality (mark m) relation (joined_type (checked x) (checked y)) (value (checked x)) (value (checked y))) }
{
    let (ty, x, y) = joined_values(alloc, x, y)?;
    match ty {
        Some(t) => compared_in(alloc, m, relation, t, x, y),
        None => operand(m, (x, y)),
    }
}

/// `&&` or, where not `and`, `||` (C99 6.5.13, 6.5.14).
fn logical(alloc: Global, m: Mark, and: bool, x: TExpr, y: TExpr) -> Result<Checked, TypeFault>
    ensures { Gives checked result (logical (mark m) and (typed_expr x) (typed_expr y)) }
{
    if is_scalar(&x.ty) && is_scalar(&y.ty) {
        Ok(truth_of(alloc, m, and, x, y)?)
    } else {
        operand(m, (x, y))
    }
}

fn truth_of(alloc: Global, m: Mark, and: bool, x: TExpr, y: TExpr) -> Result<Checked, NoMemory>
    ensures { IfOk result (λ r. checked r ≡ PlainChecked.Plain (TypedExpr.Typed m.line (PlainType.Int Int) (if and then TypedNode.And (typed_expr x) (typed_expr y) else TypedNode.Or (typed_expr x) (typed_expr y)))) }
{
    if and {
        Ok(Checked::Plain(both(alloc, m.line, x, y)?))
    } else {
        Ok(Checked::Plain(either(alloc, m.line, x, y)?))
    }
}

fn operation_rule(
    alloc: Global,
    s: &Structs,
    m: Mark,
    operation: Operation,
    x: Checked,
    y: Checked,
) -> Result<Checked, TypeFault>
    ensures { Gives checked result (operation_rule (plain_structs s.now) (mark m) (plain_operation operation) (checked x) (checked y)) }
{
    match operation {
        Operation::Arithmetic(op) => {
            let (x, y) = values(alloc, x, y)?;
            arith_types(alloc, s, m, op, x, y)
        }
        Operation::Order(relation) => {
            let (x, y) = values(alloc, x, y)?;
            order_types(alloc, m, relation, x, y)
        }
        Operation::Equality(relation) => equality(alloc, m, relation, x, y),
        Operation::Both => {
            let (x, y) = values(alloc, x, y)?;
            logical(alloc, m, true, x, y)
        }
        Operation::Either => {
            let (x, y) = values(alloc, x, y)?;
            logical(alloc, m, false, x, y)
        }
        Operation::Unknown => operand(m, (x, y)),
    }
}

/// A binary operator (C99 6.5.5 to 6.5.14).
pub fn binary_rule(
    alloc: Global,
    s: &Structs,
    m: Mark,
    sign: Sign,
    x: Checked,
    y: Checked,
) -> Result<Checked, TypeFault>
    ensures { Gives checked result (binary_rule (plain_structs s.now) (mark m) sign (checked x) (checked y)) }
{
    operation_rule(alloc, s, m, sign_operation(sign), x, y)
}

/// Two parts in a type, of which a test chooses one.
fn chosen(
    alloc: Global,
    line: u32,
    t: CType,
    c: TExpr,
    x: TExpr,
    y: TExpr,
) -> Result<Checked, NoMemory>
    ensures { IfOk result (λ r. checked r ≡ PlainChecked.Plain (TypedExpr.Typed line (plain_type t) (TypedNode.Cond (typed_expr c) (as_type (typed_expr x) (plain_type t)) (as_type (typed_expr y) (plain_type t))))) }
{
    let (u, kept) = beside(copy_type(alloc, &t), (c, x, y))?;
    let (c, x, y) = kept;
    let ((x, y), (c, t)) = beside(both_in(alloc, x, y, u), (c, t))?;
    Ok(Checked::Plain(conditional(alloc, line, t, c, x, y)?))
}

/// `? :` (C99 6.5.15).
pub fn cond_rule(
    alloc: Global,
    m: Mark,
    c: Checked,
    x: Checked,
    y: Checked,
) -> Result<Checked, TypeFault>
    ensures { Gives checked result (cond_rule (mark m) (checked c) (checked x) (checked y)) }
{
    let (c, kept) = beside(value(alloc, c), (x, y))?;
    let (x, y) = kept;
    let ((ty, x, y), c) = beside(joined_values(alloc, x, y), c)?;
    if is_scalar(&c.ty) {
        match ty {
            Some(t) => Ok(chosen(alloc, m.line, t, c, x, y)?),
            None => operand(m, (c, x, y)),
        }
    } else {
        operand(m, (c, x, y, ty))
    }
}
