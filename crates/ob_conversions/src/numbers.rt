//! Numbers and their conversions to integer types (C99 6.3.1).
ghost use Rattle.std.specs.Prelude.{◌≡◌, IfOk};
ghost use Rattle.ob_tree.specs.Types.{PlainType};
ghost use Rattle.ob_typed.specs.Conversions.{as_int, promoted};
ghost use Rattle.ob_typed.specs.PostfixRules.{number};
ghost use Rattle.ob_typed.specs.TypedTree.{TypedExpr, TypedNode};
ghost use Rattle.ob_typed.specs.TypedView.{typed_expr};

use crate::types::same_int;
use ob_base::{NoMemory, boxed};
use ob_tree::CType;
use ob_typed::{TExpr, TNode};
use ob_words::{IntType, promote};
use std::alloc::Global;

/// A number of an integer type, at a line.
pub fn number(line: u32, kind: IntType, value: i128) -> TExpr
    ensures { typed_expr result ≡ number line kind value }
{
    TExpr {
        line,
        ty: CType::Int(kind),
        node: TNode::Num(value),
    }
}

/// A value converted to an integer type, at its own line.
pub fn converted(alloc: Global, kind: IntType, e: TExpr) -> Result<TExpr, NoMemory>
    ensures { IfOk result (λ r. typed_expr r ≡ TypedExpr.Typed e.line (PlainType.Int kind) (TypedNode.Convert kind (typed_expr e))) }
{
    let line = e.line;
    let e = boxed(alloc, e)?;
    Ok(TExpr {
        line,
        ty: CType::Int(kind),
        node: TNode::Convert(kind, e),
    })
}

/// A number in an integer type: it is converted where it has another one. Any other value stays as it is.
pub fn as_int(alloc: Global, kind: IntType, e: TExpr) -> Result<TExpr, NoMemory>
    ensures { IfOk result (λ r. typed_expr r ≡ as_int kind (typed_expr e)) }
{
    match e.ty {
        CType::Int(a) => if same_int(a, kind) {
            Ok(e)
        } else {
            converted(alloc, kind, e)
        },
        _ => Ok(e),
    }
}

/// A number after the integer promotions (C99 6.3.1.1). Any other value stays as it is.
pub fn promoted(alloc: Global, e: TExpr) -> Result<TExpr, NoMemory>
    ensures { IfOk result (λ r. typed_expr r ≡ promoted (typed_expr e)) }
{
    match e.ty {
        CType::Int(a) => as_int(alloc, promote(a), e),
        _ => Ok(e),
    }
}
