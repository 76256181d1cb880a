ghost use Rattle.std.specs.Prelude.{◌≡◌};
ghost use Rattle.std.specs.List.{list_any};
ghost use Rattle.ob_tree.specs.ProgramView.{option_tree, local_tree, start_tree, stmt_tree, one_item, param_tree, params_tree, file_tree, item_tree, program_tree};
ghost use Rattle.ob_prelude.specs.Calls.{option_calls as option_calls_of, local_calls as local_calls_of, start_calls as start_calls_of, stmt_calls as stmt_calls_of, block_calls as block_calls_of, param_calls as param_calls_of, params_call as params_call_of, file_calls as file_calls_of, item_calls as item_calls_of, program_calls as program_calls_of, item_defines as item_defines_of, program_defines as program_defines_of};

use crate::calls::{calls, dims_call, obj_calls, objs_call, spec_calls};
use ob_tree::{
    BlockItem, Expr, FileDecl, ForStart, Item, ItemNode, Local, Param, Params, Program, Stmt,
    StmtNode,
};

fn option_calls(name: &[u8], e: &Option<Expr>) -> bool
    ensures { result ≡ option_calls_of name.now (option_tree e.now) }
{
    match e {
        None => false,
        Some(e) => calls(name, e),
    }
}

#[tactic(auto, using(crate::proofs::CallRows::listed))]
fn local_calls(name: &[u8], local: &Local) -> bool
    ensures { result ≡ local_calls_of name.now (local_tree local.now) }
{
    spec_calls(name, &local.spec) || objs_call(name, &local.names)
}

fn start_calls(name: &[u8], start: &ForStart) -> bool
    ensures { result ≡ start_calls_of name.now (start_tree start.now) }
{
    match start {
        ForStart::Expr(e) => option_calls(name, e),
        ForStart::Local(local) => local_calls(name, local),
    }
}

#[cycle(calls_in_statements)]
fn stmt_calls(name: &[u8], stmt: &Stmt) -> bool
    ensures { result ≡ stmt_calls_of name.now (stmt_tree stmt.now) }
{
    match &stmt.node {
        StmtNode::Block(items) => block_calls(name, items),
        StmtNode::Expr(e) | StmtNode::Return(e) => option_calls(name, e),
        StmtNode::If(test, then, other) => {
            let before = calls(name, test) || stmt_calls(name, then);
            match other {
                None => before,
                Some(other) => before || stmt_calls(name, other),
            }
        }
        StmtNode::While(test, body) => calls(name, test) || stmt_calls(name, body),
        StmtNode::Do(body, test) => stmt_calls(name, body) || calls(name, test),
        StmtNode::For {
            start,
            test,
            next,
            body,
        } => {
            start_calls(name, start)
                || option_calls(name, test)
                || option_calls(name, next)
                || stmt_calls(name, body)
        }
        StmtNode::Break | StmtNode::Continue => false,
    }
}

#[cycle(calls_in_statements)]
fn block_calls(name: &[u8], items: &[BlockItem]) -> bool
    ensures { result ≡ list_any (λ i. block_calls_of name.now (one_item i)) items.now }
{
    for item in items {
        if block_item_calls(name, item) {
            return true;
        }
    }
    false
}

#[cycle(calls_in_statements)]
fn block_item_calls(name: &[u8], item: &BlockItem) -> bool
    ensures { result ≡ block_calls_of name.now (one_item item.now) }
{
    match item {
        BlockItem::Local(local) => local_calls(name, local),
        BlockItem::Stmt(stmt) => stmt_calls(name, stmt),
    }
}

#[tactic(auto, using(crate::proofs::CallRows::listed))]
fn param_calls(name: &[u8], param: &Param) -> bool
    ensures { result ≡ param_calls_of name.now (param_tree param.now) }
{
    spec_calls(name, &param.spec) || dims_call(name, &param.dims)
}

fn param_list_calls(name: &[u8], params: &[Param]) -> bool
    ensures { result ≡ list_any (λ p. param_calls_of name.now (param_tree p)) params.now }
{
    for param in params {
        if param_calls(name, param) {
            return true;
        }
    }
    false
}

#[tactic(auto, using(crate::proofs::CallRows::listed))]
fn params_call(name: &[u8], params: &Params) -> bool
    ensures { result ≡ params_call_of name.now (params_tree params.now) }
{
    match params {
        Params::Empty | Params::Void => false,
        Params::List(params) => param_list_calls(name, params),
    }
}

fn file_calls(name: &[u8], declarator: &FileDecl) -> bool
    ensures { result ≡ file_calls_of name.now (file_tree declarator.now) }
{
    match declarator {
        FileDecl::Function {
            stars: _,
            name: _,
            at: _,
            params,
        } => params_call(name, params),
        FileDecl::Object(object) => obj_calls(name, object),
    }
}

fn files_call(name: &[u8], declarators: &[FileDecl]) -> bool
    ensures { result ≡ list_any (λ d. file_calls_of name.now (file_tree d)) declarators.now }
{
    for declarator in declarators {
        if file_calls(name, declarator) {
            return true;
        }
    }
    false
}

#[tactic(auto, using(crate::proofs::CallRows::listed))]
fn item_calls(name: &[u8], item: &Item) -> bool
    ensures { result ≡ item_calls_of name.now (item_tree item.now) }
{
    if spec_calls(name, &item.spec) {
        return true;
    }
    match &item.node {
        ItemNode::Function {
            stars: _,
            name: _,
            at: _,
            params,
            body,
        } => params_call(name, params) || stmt_calls(name, body),
        ItemNode::Decls(declarators) => files_call(name, declarators),
    }
}

fn items_call(name: &[u8], items: &[Item]) -> bool
    ensures { result ≡ list_any (λ i. item_calls_of name.now (item_tree i)) items.now }
{
    for item in items {
        if item_calls(name, item) {
            return true;
        }
    }
    false
}

/// Whether the program calls a function of this name.
#[tactic(auto, using(crate::proofs::CallRows::listed))]
pub fn program_calls(name: &[u8], p: &Program) -> bool
    ensures { result ≡ program_calls_of name.now (program_tree p.now) }
{
    items_call(name, &p.items)
}

fn item_defines(name: &[u8], item: &Item) -> bool
    ensures { result ≡ item_defines_of name.now (item_tree item.now) }
{
    match &item.node {
        ItemNode::Function {
            stars: _,
            name: defined,
            at: _,
            params: _,
            body: _,
        } => defined.bytes() == name,
        ItemNode::Decls(_) => false,
    }
}

fn items_define(name: &[u8], items: &[Item]) -> bool
    ensures { result ≡ list_any (λ i. item_defines_of name.now (item_tree i)) items.now }
{
    for item in items {
        if item_defines(name, item) {
            return true;
        }
    }
    false
}

/// Whether the program defines a function of this name.
#[tactic(auto, using(crate::proofs::CallRows::listed))]
pub fn program_defines(name: &[u8], p: &Program) -> bool
    ensures { result ≡ program_defines_of name.now (program_tree p.now) }
{
    items_define(name, &p.items)
}
