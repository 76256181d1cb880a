use crate::state::{ExprContext, SpecContext, State};
use ob_base::let_go;
use ob_tree::{Expr, Spec};

// A crate that lets a tree go proves the trees' drop functions again: with these the crates above
// need none.

/// Lets go of what an expression was read for, and of the expression.
pub fn discard_expr(context: ExprContext, expr: Option<Expr>) {
    let_go((context, expr));
}

/// Lets go of what a specifier was read for, and of the specifier.
pub fn discard_spec(context: SpecContext, spec: Option<Spec>) {
    let_go((context, spec));
}

/// Lets go of what was read.
pub fn discard_state(state: State) {
    let_go(state);
}
