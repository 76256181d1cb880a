ghost use Rattle.std.specs.Prelude.{◌≡◌, ◌-◌, ◌^◌, ◌≤◌, ◌+◌, length, min};
ghost use Rattle.ob_tree.specs.ProgramMachine.{context_level};
ghost use Rattle.ob_exprs.specs.DeepestPaths.{level_number};
ghost use Rattle.ob_parser.specs.DeepestPaths.{depth_in, head_rise as head_rise_of, newest_path as newest_path_of, scope_depth as scope_depth_of, spec_depth as spec_depth_of, context_depth as context_depth_of};
ghost use Rattle.ob_declarations.specs.Shifts.{state_of};
ghost use Rattle.ob_declarations.specs.View.{declaration_of, head_of, scope_of, spec_context_of, expr_context_of};

use ob_declarations::{Declaration, ExprContext, Head, PendingStmt, Scope, SpecContext, State};
use ob_exprs::Level;

// Numbers of nodes that no usize holds count as the greatest one.

/// The nodes above a statement within these pending statements, and the statement.
fn statement_depth(pending: &Vec<PendingStmt>) -> usize
    ensures { result ≡ min (length pending.now.items + 1) (2 ^ 64 - 1) }
{
    pending.len().saturating_add(1)
}

fn scope_depth(scope: &Scope) -> usize
    ensures { result ≡ min (scope_depth_of (scope_of scope.now)) (2 ^ 64 - 1) }
{
    match scope {
        Scope::FileScope(_) => 0,
        Scope::BlockScope { pending, .. } => statement_depth(pending),
        Scope::ForScope { pending, .. } => statement_depth(pending),
    }
}

/// The nodes above a declarator.
fn declarator_depth(declaration: &Declaration) -> usize
    ensures { result ≡ min (depth_in (declaration_of declaration.now)) (2 ^ 64 - 1) }
{
    scope_depth(&declaration.heading.scope).saturating_add(1)
}

/// The nodes above a row of brackets.
fn head_rise(head: &Head) -> usize
    ensures { result ≡ min (head_rise_of (head_of head.now)) (2 ^ 64 - 1) }
{
    match head {
        Head::Name(declarator) => {
            declarator_depth(&declarator.declaration).saturating_add(declarator.stars as usize)
        }
        Head::Param(listing, param) => {
            declarator_depth(&listing.function.declaration).saturating_add(param.stars as usize)
        }
    }
}

/// The nodes above an expression that is read for this.
fn context_depth(context: &ExprContext) -> usize
    ensures { result ≡ min (context_depth_of (expr_context_of context.now)) (2 ^ 64 - 1) }
{
    match context {
        ExprContext::Statement { pending, .. } => statement_depth(pending),
        ExprContext::IfTest { pending, .. } => statement_depth(pending),
        ExprContext::WhileTest { pending, .. } => statement_depth(pending),
        ExprContext::DoTest { pending, .. } => statement_depth(pending),
        ExprContext::ForStart { pending, .. } => statement_depth(pending),
        ExprContext::ForTest { pending, .. } => statement_depth(pending),
        ExprContext::ForNext { pending, .. } => statement_depth(pending),
        ExprContext::Return { pending, .. } => statement_depth(pending),
        ExprContext::Length { head, dims } => head_rise(head)
            .saturating_add(dims.len())
            .saturating_add(1),
        ExprContext::Item { target, lists } => {
            declarator_depth(&target.declarator.declaration).saturating_add(lists.len())
        }
    }
}

/// The nodes above a specifier that is read for this.
pub fn spec_depth(context: &SpecContext) -> usize
    ensures { result ≡ min (spec_depth_of (spec_context_of context.now)) (2 ^ 64 - 1) }
{
    match context {
        SpecContext::Declaration(heading) => scope_depth(&heading.scope).saturating_add(1),
        SpecContext::Param { listing, .. } => declarator_depth(&listing.function.declaration),
    }
}

/// The nodes above the expression, at most so many as a path may have.
pub fn depth_of_expr(context: &ExprContext) -> u32
    ensures exact { result ≡ min (context_depth_of (expr_context_of context.now)) 256 }
    ensures small { result ≤ 256 }
{
    context_depth(context).min(256) as u32
}

/// Which expressions stand there.
pub fn level_of(context: &ExprContext) -> Level
    ensures { level_number result ≡ context_level (expr_context_of context.now) }
{
    match context {
        ExprContext::Length { .. } => Level::Cond,
        ExprContext::Item { .. } => Level::Assign,
        _ => Level::Comma,
    }
}

/// The nodes on the path to what was read last.
pub fn newest_path(state: &State) -> usize
    ensures { result ≡ min (newest_path_of (state_of state.now)) (2 ^ 64 - 1) }
{
    match state {
        State::Items(_)
        | State::Dims(_, _)
        | State::AfterInit(_, _, _)
        | State::Params(_)
        | State::NextParam(_)
        | State::Closed(_, _) => 0,
        State::Specifying(context) => spec_depth(context),
        State::Declare(declaration, stars) => {
            declarator_depth(declaration).saturating_add(*stars as usize)
        }
        State::Optional(context) | State::Reading(context) | State::Opening(context) =>
            context_depth(context),
        State::Init(target, lists) => {
            declarator_depth(&target.declarator.declaration).saturating_add(lists.len())
        }
        State::Param { listing, stars, .. } => {
            declarator_depth(&listing.function.declaration).saturating_add(*stars as usize)
        }
        State::Begin(pending) => pending.len(),
        State::ForWord { pending, .. } => statement_depth(pending),
        State::ForOpen { pending, .. } => statement_depth(pending),
        State::Semi(_, pending) => statement_depth(pending),
        State::Done(_, pending) => statement_depth(pending),
    }
}
