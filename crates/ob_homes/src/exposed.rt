//! Which variables of a function are exposed, so that more is done than to read and assign them: one walk of a tree
//! raises a flag for each.
ghost use Rattle.std.specs.Prelude.{◌≡◌, true, false, fold, replicate, slice_set, IfOk};
ghost use Rattle.ob_tree.specs.TypeView.{plain_type, plain_types};
ghost use Rattle.ob_typed.specs.TypedView.{typed_expr, typed_function, typed_init, typed_lean, typed_option, typed_place, typed_stmt};
ghost use Rattle.ob_homes.specs.Flags.{exposed_flags, with_expr, with_further, with_lean, with_option, with_own, with_own_expr, with_own_item, with_place, with_stmt, with_variable, with_variable_as};

use ob_base::NoMemory;
use ob_conversions::types::same_type;
use ob_tree::CType;
use ob_typed::{TExpr, TFunction, TInit, TLean, TNode, TPlace, TStmt};
use std::alloc::Global;

/// Whether each variable of a function is exposed.
pub(crate) fn exposed_flags(alloc: Global, f: &TFunction) -> Result<Vec<bool>, NoMemory>
    ensures { IfOk result (λ flags. flags.items ≡ exposed_flags (typed_function f.now)) }
{
    let mut flags = no_flags(alloc, f.locals.len())?;
    expose_in_stmt(&f.body, &f.locals, &mut flags);
    Ok(flags)
}

/// So many flags, none of which is raised.
fn no_flags(alloc: Global, count: usize) -> Result<Vec<bool>, NoMemory>
    ensures { IfOk result (λ flags. flags.items ≡ replicate count false) }
{
    Ok(vec![in alloc; false; count]?)
}

/// Raises the flag of this number, where there is one.
fn raise(n: usize, flags: &mut [bool])
    ensures { flags.new ≡ slice_set flags.old n true }
{
    if n < flags.len() {
        flags[n] = true;
    }
}

/// Raises the flag of a variable.
fn expose(n: u32, locals: &[CType], flags: &mut [bool])
    ensures { flags.new ≡ with_variable n (plain_types locals.now) flags.old }
{
    match locals.get(n as usize) {
        Some(_) => raise(n as usize, flags),
        None => {}
    }
}

/// Raises the flag of a variable where it isn't of this type.
fn expose_as(n: u32, ty: &CType, locals: &[CType], flags: &mut [bool])
    ensures { flags.new ≡ with_variable_as n (plain_type ty.now) (plain_types locals.now) flags.old }
{
    match locals.get(n as usize) {
        Some(t) => {
            if !same_type(ty, t) {
                raise(n as usize, flags)
            }
        }
        None => {}
    }
}

#[cycle(exposed)]
fn expose_in_expr(e: &TExpr, locals: &[CType], flags: &mut [bool])
    ensures { flags.new ≡ with_expr (typed_expr e.now) (plain_types locals.now) flags.old }
{
    match &e.node {
        TNode::Num(_) | TNode::Null => {}
        TNode::Read(p) => expose_in_place(p, locals, flags),
        TNode::Lean(lean) => expose_in_lean(lean, locals, flags),
        TNode::Convert(_, e) | TNode::ToVoid(e) => expose_in_expr(e, locals, flags),
        TNode::Arith(_, _, a, b)
        | TNode::Compare(_, a, b)
        | TNode::PtrCompare(_, a, b)
        | TNode::PtrDiff(_, a, b)
        | TNode::And(a, b)
        | TNode::Or(a, b)
        | TNode::Comma(a, b) => {
            expose_in_expr(a, locals, flags);
            expose_in_expr(b, locals, flags)
        }
        TNode::Cond(a, b, c) => {
            expose_in_expr(a, locals, flags);
            expose_in_expr(b, locals, flags);
            expose_in_expr(c, locals, flags)
        }
        TNode::Assign(place, value)
        | TNode::Update { place, value, .. }
        | TNode::PtrUpdate { place, value, .. } => {
            expose_in_place(place, locals, flags);
            expose_in_expr(value, locals, flags)
        }
        TNode::CopyStruct(to, from) => {
            expose_in_lean(&to.lean, locals, flags);
            expose_in_lean(&from.lean, locals, flags)
        }
        TNode::Call(_, arguments) | TNode::Builtin(_, arguments) => {
            expose_in_arguments(arguments, locals, flags)
        }
    }
}

/// Raises the flags of what a place that is read or assigned exposes.
#[cycle(exposed)]
fn expose_in_place(p: &TPlace, locals: &[CType], flags: &mut [bool])
    ensures { flags.new ≡ with_place (typed_place p.now) (plain_types locals.now) flags.old }
{
    match &p.lean {
        TLean::Local(n) => expose_as(*n, &p.ty, locals, flags),
        TLean::Static(_) => {}
        TLean::Value(e) => expose_in_expr(e, locals, flags),
        TLean::Slide { .. } => expose_in_lean(&p.lean, locals, flags),
        TLean::Member(base, _) => expose_in_lean(base, locals, flags),
    }
}

#[cycle(exposed)]
fn expose_in_lean(lean: &TLean, locals: &[CType], flags: &mut [bool])
    ensures { flags.new ≡ with_lean (typed_lean lean.now) (plain_types locals.now) flags.old }
{
    match lean {
        TLean::Static(_) => {}
        TLean::Local(n) => expose(*n, locals, flags),
        TLean::Value(e) => expose_in_expr(e, locals, flags),
        TLean::Slide { base, by, .. } => {
            expose_in_lean(base, locals, flags);
            expose_in_expr(by, locals, flags)
        }
        TLean::Member(base, _) => expose_in_lean(base, locals, flags),
    }
}

#[cycle(exposed)]
fn expose_in_arguments(arguments: &[TExpr], locals: &[CType], flags: &mut [bool])
    ensures { flags.new ≡ fold (λ fs x. with_expr (typed_expr x) (plain_types locals.now) fs) flags.old arguments.now }
{
    for e in arguments {
        expose_in_expr(e, locals, flags);
    }
}

fn expose_in_option(e: &Option<TExpr>, locals: &[CType], flags: &mut [bool])
    ensures { flags.new ≡ with_option (typed_option e.now) (plain_types locals.now) flags.old }
{
    match e {
        None => {}
        Some(e) => expose_in_expr(e, locals, flags),
    }
}

/// Raises the flags of what a place exposes in the initialiser of variable `own`, which may be named as a whole.
fn expose_further(lean: &TLean, own: u32, locals: &[CType], flags: &mut [bool])
    ensures { flags.new ≡ with_further own (typed_lean lean.now) (plain_types locals.now) flags.old }
{
    match lean {
        TLean::Local(n) => if *n != own {
            expose(*n, locals, flags)
        },
        TLean::Static(_) => {}
        TLean::Value(e) => expose_in_expr(e, locals, flags),
        TLean::Slide { .. } => expose_in_lean(lean, locals, flags),
        TLean::Member(base, _) => expose_in_lean(base, locals, flags),
    }
}

/// Raises the flags of what an item exposes in the initialiser of variable `own`, which may be a pointer to it.
fn expose_in_own_expr(e: &TExpr, own: u32, locals: &[CType], flags: &mut [bool])
    ensures { flags.new ≡ with_own_expr own (typed_expr e.now) (plain_types locals.now) flags.old }
{
    match &e.node {
        TNode::Lean(lean) => expose_further(lean, own, locals, flags),
        _ => expose_in_expr(e, locals, flags),
    }
}

#[cycle(own)]
fn expose_in_own_item(init: &TInit, own: u32, locals: &[CType], flags: &mut [bool])
    ensures { flags.new ≡ with_own_item own (typed_init init.now) (plain_types locals.now) flags.old }
{
    match init {
        TInit::Value(e) => expose_in_own_expr(e, own, locals, flags),
        TInit::Chars(_) => {}
        TInit::List(items) => expose_in_own_items(items, own, locals, flags),
        TInit::Copy(p) => expose_in_lean(&p.lean, locals, flags),
    }
}

#[cycle(own)]
fn expose_in_own_items(items: &[TInit], own: u32, locals: &[CType], flags: &mut [bool])
    ensures { flags.new ≡ fold (λ fs x. with_own_item own (typed_init x) (plain_types locals.now) fs) flags.old items.now }
{
    for item in items {
        expose_in_own_item(item, own, locals, flags);
    }
}

/// Raises the flags of what the initialiser of variable `own` exposes.
fn expose_in_own(init: &TInit, own: u32, locals: &[CType], flags: &mut [bool])
    ensures { flags.new ≡ with_own own (typed_init init.now) (plain_types locals.now) flags.old }
{
    match init {
        TInit::Value(e) => expose_in_expr(e, locals, flags),
        TInit::Chars(_) => {}
        TInit::List(items) => expose_in_own_items(items, own, locals, flags),
        TInit::Copy(p) => expose_further(&p.lean, own, locals, flags),
    }
}

/// Raises the flags of what the statements of a body expose.
#[cycle(statements)]
fn expose_in_stmt(stmt: &TStmt, locals: &[CType], flags: &mut [bool])
    ensures { flags.new ≡ with_stmt (typed_stmt stmt.now) (plain_types locals.now) flags.old }
{
    match stmt {
        TStmt::Empty | TStmt::Break | TStmt::Continue => {}
        TStmt::Expr(e) => expose_in_expr(e, locals, flags),
        TStmt::Block(stmts) => expose_in_stmts(stmts, locals, flags),
        TStmt::Init { local, init } => expose_in_own(init, *local, locals, flags),
        TStmt::If(test, then, other) => {
            expose_in_expr(test, locals, flags);
            expose_in_stmt(then, locals, flags);
            match other {
                None => {}
                Some(other) => expose_in_stmt(other, locals, flags),
            }
        }
        TStmt::While(test, body) => {
            expose_in_expr(test, locals, flags);
            expose_in_stmt(body, locals, flags)
        }
        TStmt::Do(body, test) => {
            expose_in_stmt(body, locals, flags);
            expose_in_expr(test, locals, flags)
        }
        TStmt::For {
            start,
            test,
            next,
            body,
        } => {
            expose_in_stmts(start, locals, flags);
            expose_in_option(test, locals, flags);
            expose_in_option(next, locals, flags);
            expose_in_stmt(body, locals, flags)
        }
        TStmt::Return(e) => expose_in_option(e, locals, flags),
    }
}

#[cycle(statements)]
fn expose_in_stmts(stmts: &[TStmt], locals: &[CType], flags: &mut [bool])
    ensures { flags.new ≡ fold (λ fs x. with_stmt (typed_stmt x) (plain_types locals.now) fs) flags.old stmts.now }
{
    for stmt in stmts {
        expose_in_stmt(stmt, locals, flags);
    }
}
