ghost use Rattle.std.specs.Prelude.{◌≡◌, ◌≤◌, ◌^◌, [], IfOk, length, option_map};
ghost use Rattle.ob_tree.specs.Fronts.{greatest_path};
ghost use Rattle.ob_tree.specs.ExpressionView.{expr_tree, spec_tree};
ghost use Rattle.ob_tree.specs.ExprStates.{AfterOperand, AfterSpec, BeforeOperand};
ghost use Rattle.ob_tree.specs.ExprMachine.{finish as finish_of, finish_spec as finish_spec_of};
ghost use Rattle.ob_exprs.specs.DeepestPaths.{deepest_path};
ghost use Rattle.ob_exprs.specs.Reading.{held, state_of};
ghost use Rattle.ob_exprs.specs.ReadTokens.{Leaves, reading};

use crate::level::EXPR;
use crate::measured::{MeasuredSpec, Operand};
use crate::paths::newest_path;
use crate::reader::{Reader, Shift};
use crate::reduce::reduce;
use crate::shifts::shift;
use crate::stack::{Stack, empty};
use crate::state::{ExprMark, Mode};
use ob_base::{NoMemory, let_go};
use ob_tree::{Expr, Spec, SyntaxFault, Token};
use std::alloc::Global;

/// The most nodes on a path.
const LIMIT: usize = 256;

/// What stands for no whole tree.
fn nothing(alloc: Global) -> Reader
    ensures { state_of result ≡ BeforeOperand [] }
{
    Reader {
        stack: empty(alloc),
        mode: Mode::BeforeOperand,
    }
}

/// The expression of the last operand, where nothing waits behind it.
fn finish_operand(alloc: Global, stack: Stack, operand: Operand) -> Result<Option<Expr>, NoMemory>
    requires { deepest_path (AfterOperand (expr_tree operand.expr.value) (held stack)) ≤ greatest_path }
    ensures { IfOk result (λ o. option_map expr_tree o ≡ finish_of (AfterOperand (expr_tree operand.expr.value) (held stack))) }
{
    let (stack, operand) = reduce(alloc, stack, operand, EXPR)?;
    let Operand { expr, .. } = operand;
    if stack.pending.is_empty() {
        Ok(Some(Box::into_inner(expr)))
    } else {
        Ok(None)
    }
}

/// The whole expression, where nothing waits.
pub fn finish(alloc: Global, reader: Reader) -> Result<Option<Expr>, NoMemory>
    requires { deepest_path (state_of reader) ≤ greatest_path }
    ensures { IfOk result (λ o. option_map expr_tree o ≡ finish_of (state_of reader)) }
{
    let Reader { stack, mode } = reader;
    match mode {
        Mode::AfterOperand(operand) => finish_operand(alloc, stack, operand),
        other => {
            let_go(other);
            Ok(None)
        }
    }
}

/// The specifier, where nothing waits behind it.
fn finish_specifier(stack: Stack, spec: MeasuredSpec) -> Option<Spec>
    ensures { option_map spec_tree result ≡ finish_spec_of (AfterSpec (spec_tree spec.spec) (held stack)) }
{
    let MeasuredSpec { spec, .. } = spec;
    if stack.pending.is_empty() {
        Some(spec)
    } else {
        let_go(spec);
        None
    }
}

/// The whole specifier, where nothing waits.
pub fn finish_spec(reader: Reader) -> Option<Spec>
    ensures { option_map spec_tree result ≡ finish_spec_of (state_of reader) }
{
    let Reader { stack, mode } = reader;
    match mode {
        Mode::AfterSpec(spec) => finish_specifier(stack, spec),
        other => {
            let_go(other);
            None
        }
    }
}

/// Leaves as far as some tree goes on so, from `start` on.
pub fn read(
    alloc: Global,
    tokens: &[Token],
    from: usize,
    depth: u32,
    least: u32,
    start: Reader,
) -> Result<(Reader, usize), SyntaxFault>
    requires few { length tokens.now ≤ 2 ^ 20 }
    requires from_in { from ≤ length tokens.now }
    requires depth_in { depth ≤ greatest_path }
    requires nothing_yet { deepest_path (state_of start) ≤ 0 }
    ensures reads { Leaves (reading tokens.now least depth from (state_of start)) result }
    ensures within { IfOk result (λ r. r.1 ≤ length tokens.now) }
{
    let mut reader = start;
    for place in from..tokens.len() {
        let token = &tokens[place];
        let at = place as u32;
        let here = ExprMark {
            first: at,
            at,
            line: token.span.line,
        };
        match shift(alloc, reader, &token.kind, here, least)? {
            Shift::Shifted(next) => reader = next,
            Shift::Ended(rest) => return Ok((rest, place)),
            Shift::Rejected => return Ok((nothing(alloc), place)),
        }
        if LIMIT - (depth as usize) < newest_path(&reader) {
            let_go(reader);
            return Err(SyntaxFault::TooDeep(at));
        }
    }
    Ok((reader, tokens.len()))
}
