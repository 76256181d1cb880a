ghost use Rattle.std.specs.Prelude.{◌≡◌, ◌<◌, ◌≤◌, ◌^◌, length, option_map, slice_get, Some, if◌then◌else◌};
ghost use Rattle.std.specs.List.{All};
ghost use Rattle.ob_tree.specs.declared.faults.SyntaxFault.TheVariants as syntax;
ghost use Rattle.ob_tree.specs.ExpressionView.{expr_tree, spec_tree};
ghost use Rattle.ob_tree.specs.Fronts.{lines};
ghost use Rattle.ob_tree.specs.Places.{here};
ghost use Rattle.ob_tree.specs.ProgramMachine.{used as used_of, specified as specified_of};
ghost use Rattle.ob_tree.specs.Valid.{IsOfSource};
ghost use Rattle.ob_declarations.specs.Shifts.{state_of};
ghost use Rattle.ob_declarations.specs.Statements.{begins_type};
ghost use Rattle.ob_declarations.specs.View.{spec_context_of, expr_context_of};
ghost use Rattle.ob_parser.specs.ReadTokens.{AwaitsExpr, AwaitsSpec, Ends, IsRead, Kept, Turned};

use crate::paths::{depth_of_expr, level_of, newest_path, spec_depth};
use ob_declarations::{
    ExprContext, Shift, SpecContext, State, TokenMark, discard_expr, discard_spec, discard_state,
    shift, specified, used,
};
use ob_exprs::{parse_expr, parse_spec};
use ob_tree::{Expr, Spec, SyntaxFault, Token, TokenKind};
use std::alloc::Global;

/// The most nodes on a path.
const LIMIT: usize = 256;

/// The token at a place, where there is one.
fn token_at(tokens: &Vec<Token>, place: usize) -> Option<&Token>
    ensures { option_map (λ t. t.now) result ≡ slice_get tokens.now.items place }
{
    tokens.get(place)
}

/// Reads the token at `at`, behind an expression, and gives the state there, and its place.
fn behind_expr(
    alloc: Global,
    tokens: &Vec<Token>,
    from: usize,
    context: ExprContext,
    expr: Expr,
    at: usize,
) -> Result<(State, usize), SyntaxFault>
    requires few { length tokens.now.items ≤ 2 ^ 20 }
    requires at_in { at ≤ length tokens.now.items }
    requires ends { Ends tokens.now.items from at (λ k. used_of k (expr_context_of context) (Some (expr_tree expr))) }
    ensures { Turned tokens.now.items from result }
{
    let Some(token) = token_at(tokens, at) else {
        discard_expr(context, Some(expr));
        return Err(SyntaxFault::NoTree(at as u32));
    };
    match used(alloc, &token.kind, context, Some(expr))? {
        Some(next) => Ok((next, at)),
        None => Err(SyntaxFault::NoTree(at as u32)),
    }
}

/// Reads an expression for this and the token behind it, and gives the state there, and that
/// token's place.
fn after_expr(
    alloc: Global,
    tokens: &Vec<Token>,
    from: usize,
    context: ExprContext,
) -> Result<(State, usize), SyntaxFault>
    requires few { length tokens.now.items ≤ 2 ^ 20 }
    requires of_source { All (λ t. IsOfSource t.kind) tokens.now.items }
    requires from_in { from < length tokens.now.items }
    requires awaits { AwaitsExpr tokens.now.items from (expr_context_of context) }
    ensures { Turned tokens.now.items from result }
{
    let depth = depth_of_expr(&context);
    match parse_expr(alloc, tokens, from, depth, level_of(&context)) {
        Ok((expr, at)) => behind_expr(alloc, tokens, from, context, expr, at),
        Err(fault) => {
            discard_expr(context, None);
            Err(fault)
        }
    }
}

/// The fault at a token where no node may stand: a specifier that begins with it is too deep.
fn deep_spec(context: SpecContext, kind: &TokenKind, at: u32) -> SyntaxFault
    ensures { result ≡ (if begins_type kind.now then syntax.TooDeep at else syntax.NoTree at) }
{
    discard_spec(context, None);
    match kind {
        TokenKind::Word(word) if word.begins_specifier() => SyntaxFault::TooDeep(at),
        _ => SyntaxFault::NoTree(at),
    }
}

/// Reads the token at `at`, behind a specifier, and gives the state there, and its place.
fn behind_spec(
    alloc: Global,
    tokens: &Vec<Token>,
    from: usize,
    context: SpecContext,
    spec: Spec,
    at: usize,
) -> Result<(State, usize), SyntaxFault>
    requires few { length tokens.now.items ≤ 2 ^ 20 }
    requires at_in { at ≤ length tokens.now.items }
    requires ends { Ends tokens.now.items from at (λ k. specified_of (here (lines tokens.now.items) at) k (spec_context_of context) (Some (spec_tree spec))) }
    ensures { Turned tokens.now.items from result }
{
    let Some(token) = token_at(tokens, at) else {
        discard_spec(context, Some(spec));
        return Err(SyntaxFault::NoTree(at as u32));
    };
    let place = TokenMark {
        at: at as u32,
        line: token.span.line,
    };
    match specified(alloc, &token.kind, place, context, spec)? {
        Some(next) => Ok((next, at)),
        None => Err(SyntaxFault::NoTree(at as u32)),
    }
}

/// Reads a specifier for this and the token behind it, and gives the state there, and that token's
/// place.
fn after_spec(
    alloc: Global,
    tokens: &Vec<Token>,
    from: usize,
    context: SpecContext,
) -> Result<(State, usize), SyntaxFault>
    requires few { length tokens.now.items ≤ 2 ^ 20 }
    requires of_source { All (λ t. IsOfSource t.kind) tokens.now.items }
    requires from_in { from < length tokens.now.items }
    requires awaits { AwaitsSpec tokens.now.items from (spec_context_of context) }
    ensures { Turned tokens.now.items from result }
{
    let depth = spec_depth(&context);
    if LIMIT < depth {
        return Err(deep_spec(context, &tokens[from].kind, from as u32));
    }
    match parse_spec(alloc, tokens, from, depth as u32) {
        Ok((spec, at)) => behind_spec(alloc, tokens, from, context, spec, at),
        Err(fault) => {
            discard_spec(context, None);
            Err(fault)
        }
    }
}

/// Reads the token at `from`, or the expression or the specifier that begins with it and the token
/// behind that, and gives the state there, and the place of the last token.
fn turn(
    alloc: Global,
    tokens: &Vec<Token>,
    from: usize,
    state: State,
) -> Result<(State, usize), SyntaxFault>
    requires few { length tokens.now.items ≤ 2 ^ 20 }
    requires of_source { All (λ t. IsOfSource t.kind) tokens.now.items }
    requires from_in { from < length tokens.now.items }
    requires kept { Kept tokens.now.items from (state_of state) }
    ensures { Turned tokens.now.items from result }
{
    let token = &tokens[from];
    let place = TokenMark {
        at: from as u32,
        line: token.span.line,
    };
    match shift(alloc, &token.kind, place, state)? {
        Shift::Shifted(next) => Ok((next, from)),
        Shift::NeedsExpr(context) => after_expr(alloc, tokens, from, context),
        Shift::NeedsSpec(context) => after_spec(alloc, tokens, from, context),
        Shift::Rejected => Err(SyntaxFault::NoTree(from as u32)),
    }
}

/// The fault at a token that only programs of longer paths go on with.
fn too_deep(state: State, at: u32) -> SyntaxFault
    ensures { result ≡ syntax.TooDeep at }
{
    discard_state(state);
    SyntaxFault::TooDeep(at)
}

/// Reads all tokens.
pub fn read(alloc: Global, tokens: &Vec<Token>) -> Result<State, SyntaxFault>
    requires few { length tokens.now.items ≤ 2 ^ 20 }
    requires of_source { All (λ t. IsOfSource t.kind) tokens.now.items }
    ensures { IsRead tokens.now.items result }
{
    let mut state = State::Items(Vec::new(alloc));
    let mut place = 0;
    while place < tokens.len() {
        let (next, at) = turn(alloc, tokens, place, state)?;
        if LIMIT < newest_path(&next) {
            return Err(too_deep(next, at as u32));
        }
        state = next;
        place = at + 1;
    }
    Ok(state)
}
