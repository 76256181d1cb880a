//! The values of constant expressions.
use crate::tests::parts::{number, of_type};
use ob_base::{NoMemory, boxed, boxed_three, boxed_two, push_on};
use ob_consts::constant;
use ob_tree::CType;
use ob_typed::{TExpr, TNode};
use ob_words::{BinOp, IntType, Relation};
use std::alloc::Global;
use std::test::Fail;

/// Expressions in reverse Polish notation over `int`: digits, `M` and `m` for the greatest and the least
/// number, `c` for a cast to `char`, `?` for the conditional operator, `f` for a call.
const VALUES: [(&str, Option<i128>); 32] = [
    ("3", Some(3)),
    ("M1+", Some(-2_147_483_648)),
    ("m1-", Some(2_147_483_647)),
    ("m01-/", Some(-2_147_483_648)),
    ("72/", Some(3)),
    ("72%", Some(1)),
    ("01/", Some(0)),
    ("10/", None),
    ("10%", None),
    ("88*2*1-c", Some(127)),
    ("88*2*c", Some(-128)),
    ("12<", Some(1)),
    ("22<", Some(0)),
    ("22=", Some(1)),
    ("23=", Some(0)),
    ("15&", Some(1)),
    ("10&", Some(0)),
    ("010/&", Some(0)),
    ("110/&", None),
    ("10/1&", None),
    ("50|", Some(1)),
    ("00|", Some(0)),
    ("510/|", Some(1)),
    ("010/|", None),
    ("178?", Some(7)),
    ("078?", Some(8)),
    ("1710/?", Some(7)),
    ("0710/?", None),
    ("010/7?", Some(7)),
    ("110/7?", None),
    ("f", None),
    ("17f?", None),
];

#[test]
fn values(rt: HostRuntime) -> Result<(), Fail> {
    for (text, value) in &VALUES {
        assert_eq!(rt; value_of(rt.alloc(), text)?, *value, "{text}");
    }
    Ok(())
}

fn value_of(alloc: Global, text: &str) -> Result<Option<i128>, NoMemory> {
    let mut stack = Vec::new(alloc);
    for sign in text.bytes() {
        add(alloc, &mut stack, sign)?;
    }
    Ok(constant(&taken(&mut stack)).ok())
}

/// One sign of the text more.
fn add(alloc: Global, stack: &mut Vec<TExpr>, sign: u8) -> Result<(), NoMemory> {
    let node = node_of(alloc, stack, sign)?;
    push_on(stack, of_type(CType::Int(IntType::Int), node))
}

fn taken(stack: &mut Vec<TExpr>) -> TExpr {
    match stack.pop() {
        Some(e) => e,
        None => number(IntType::Int, 0),
    }
}

fn node_of(alloc: Global, stack: &mut Vec<TExpr>, sign: u8) -> Result<TNode, NoMemory> {
    match sign {
        b'0'..=b'9' => Ok(TNode::Num((sign - b'0') as i128)),
        b'M' => Ok(TNode::Num(2_147_483_647)),
        b'm' => Ok(TNode::Num(-2_147_483_648)),
        b'f' => Ok(TNode::Call(0, Vec::new(alloc))),
        b'c' => cast(alloc, taken(stack)),
        b'?' => chosen(alloc, stack),
        _ => paired(alloc, stack, sign),
    }
}

fn cast(alloc: Global, e: TExpr) -> Result<TNode, NoMemory> {
    Ok(TNode::Convert(IntType::Char, boxed(alloc, e)?))
}

fn chosen(alloc: Global, stack: &mut Vec<TExpr>) -> Result<TNode, NoMemory> {
    let other = taken(stack);
    let then = taken(stack);
    let test = taken(stack);
    let (test, then, other) = boxed_three(alloc, test, then, other)?;
    Ok(TNode::Cond(test, then, other))
}

fn paired(alloc: Global, stack: &mut Vec<TExpr>, sign: u8) -> Result<TNode, NoMemory> {
    let right = taken(stack);
    let left = taken(stack);
    let (left, right) = boxed_two(alloc, left, right)?;
    Ok(joined(sign, left, right))
}

fn joined(sign: u8, left: Box<TExpr>, right: Box<TExpr>) -> TNode {
    match sign {
        b'&' => TNode::And(left, right),
        b'|' => TNode::Or(left, right),
        b'<' => TNode::Compare(Relation::Lt, left, right),
        b'=' => TNode::Compare(Relation::Eq, left, right),
        _ => TNode::Arith(operator(sign), IntType::Int, left, right),
    }
}

fn operator(sign: u8) -> BinOp {
    match sign {
        b'+' => BinOp::Add,
        b'-' => BinOp::Sub,
        b'*' => BinOp::Mul,
        b'/' => BinOp::Div,
        _ => BinOp::Rem,
    }
}
