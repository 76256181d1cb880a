ghost use Rattle.std.specs.Prelude.{◌≡◌, [], ◌∷◌, ◌++◌, OnOk, IfOk};
ghost use Rattle.std.specs.List.{flat_map};
ghost use Rattle.ob_tree.specs.Spelling.{spell as spell_expr, listed};
ghost use Rattle.ob_tree.specs.ExpressionView.{expr_tree};
ghost use Rattle.ob_tree.specs.ProgramSpelling.{spell_option, spell_static, spell_local, spell_start, spell_stmt, spell_block, spell_param, spell_params, spell_function, spell_file, spell_item, spell_program};
ghost use Rattle.ob_tree.specs.ProgramView.{option_tree, local_tree, start_tree, stmt_tree, one_item, param_tree, params_tree, file_tree, item_tree, program_tree};

use crate::expressions::Expr;
use crate::programs::{
    BlockItem, FileDecl, ForStart, Item, ItemNode, Local, Param, Params, Program, Stmt, StmtNode,
};
use crate::spelling::{
    put_comma, put_dims, put_expr, put_name, put_obj, put_objs, put_optional_name, put_sign,
    put_spec, put_stars, put_word,
};
use crate::tokens::{Keyword, Sign, TokenKind};
use ob_base::{NoMemory, Text};
use std::alloc::Global;

fn put_option(alloc: Global, out: &mut Vec<TokenKind>, e: &Option<Expr>) -> Result<(), NoMemory>
    ensures { OnOk result (out.new.items ≡ out.old.items ++ spell_option (option_tree e.now)) }
{
    match e {
        None => Ok(()),
        Some(e) => put_expr(alloc, out, e),
    }
}

fn put_static(out: &mut Vec<TokenKind>, fixed: bool) -> Result<(), NoMemory>
    ensures { OnOk result (out.new.items ≡ out.old.items ++ spell_static fixed) }
{
    if fixed {
        put_word(out, Keyword::Static)
    } else {
        Ok(())
    }
}

fn put_local(alloc: Global, out: &mut Vec<TokenKind>, local: &Local) -> Result<(), NoMemory>
    ensures { OnOk result (out.new.items ≡ out.old.items ++ spell_local (local_tree local.now)) }
{
    put_static(out, local.fixed)?;
    put_spec(alloc, out, &local.spec)?;
    put_objs(alloc, out, &local.names)?;
    put_sign(out, Sign::Semi)
}

fn put_start(alloc: Global, out: &mut Vec<TokenKind>, start: &ForStart) -> Result<(), NoMemory>
    ensures { OnOk result (out.new.items ≡ out.old.items ++ spell_start (start_tree start.now)) }
{
    match start {
        ForStart::Expr(e) => {
            put_option(alloc, out, e)?;
            put_sign(out, Sign::Semi)
        }
        ForStart::Local(local) => put_local(alloc, out, local),
    }
}

fn put_test(alloc: Global, out: &mut Vec<TokenKind>, test: &Expr) -> Result<(), NoMemory>
    ensures { OnOk result (out.new.items ≡ out.old.items ++ TokenKind.Sign Sign.OpenParen ∷ (spell_expr (expr_tree test.now) ++ TokenKind.Sign Sign.CloseParen ∷ [])) }
{
    put_sign(out, Sign::OpenParen)?;
    put_expr(alloc, out, test)?;
    put_sign(out, Sign::CloseParen)
}

fn put_for(alloc: Global, out: &mut Vec<TokenKind>, start: &ForStart) -> Result<(), NoMemory>
    ensures { OnOk result (out.new.items ≡ out.old.items ++ TokenKind.Word Keyword.For ∷ (TokenKind.Sign Sign.OpenParen ∷ spell_start (start_tree start.now))) }
{
    put_word(out, Keyword::For)?;
    put_sign(out, Sign::OpenParen)?;
    put_start(alloc, out, start)
}

fn put_turn(
    alloc: Global,
    out: &mut Vec<TokenKind>,
    test: &Option<Expr>,
    next: &Option<Expr>,
) -> Result<(), NoMemory>
    ensures { OnOk result (out.new.items ≡ out.old.items ++ (spell_option (option_tree test.now) ++ TokenKind.Sign Sign.Semi ∷ (spell_option (option_tree next.now) ++ TokenKind.Sign Sign.CloseParen ∷ []))) }
{
    put_option(alloc, out, test)?;
    put_sign(out, Sign::Semi)?;
    put_option(alloc, out, next)?;
    put_sign(out, Sign::CloseParen)
}

#[cycle(statements)]
fn put_stmt(alloc: Global, out: &mut Vec<TokenKind>, stmt: &Stmt) -> Result<(), NoMemory>
    ensures { OnOk result (out.new.items ≡ out.old.items ++ spell_stmt (stmt_tree stmt.now)) }
{
    match &stmt.node {
        StmtNode::Block(items) => {
            put_sign(out, Sign::OpenBrace)?;
            put_block(alloc, out, items)?;
            put_sign(out, Sign::CloseBrace)
        }
        StmtNode::Expr(e) => {
            put_option(alloc, out, e)?;
            put_sign(out, Sign::Semi)
        }
        StmtNode::If(test, then, other) => {
            put_word(out, Keyword::If)?;
            put_test(alloc, out, test)?;
            put_stmt(alloc, out, then)?;
            match other {
                None => Ok(()),
                Some(other) => {
                    put_word(out, Keyword::Else)?;
                    put_stmt(alloc, out, other)
                }
            }
        }
        StmtNode::While(test, body) => {
            put_word(out, Keyword::While)?;
            put_test(alloc, out, test)?;
            put_stmt(alloc, out, body)
        }
        StmtNode::Do(body, test) => {
            put_word(out, Keyword::Do)?;
            put_stmt(alloc, out, body)?;
            put_word(out, Keyword::While)?;
            put_test(alloc, out, test)?;
            put_sign(out, Sign::Semi)
        }
        StmtNode::For {
            start,
            test,
            next,
            body,
        } => {
            put_for(alloc, out, start)?;
            put_turn(alloc, out, test, next)?;
            put_stmt(alloc, out, body)
        }
        StmtNode::Break => {
            put_word(out, Keyword::Break)?;
            put_sign(out, Sign::Semi)
        }
        StmtNode::Continue => {
            put_word(out, Keyword::Continue)?;
            put_sign(out, Sign::Semi)
        }
        StmtNode::Return(e) => {
            put_word(out, Keyword::Return)?;
            put_option(alloc, out, e)?;
            put_sign(out, Sign::Semi)
        }
    }
}

#[cycle(statements)]
fn put_block(alloc: Global, out: &mut Vec<TokenKind>, items: &[BlockItem]) -> Result<(), NoMemory>
    ensures { OnOk result (out.new.items ≡ out.old.items ++ flat_map (λ i. spell_block (one_item i)) items.now) }
{
    for item in items {
        put_block_item(alloc, out, item)?;
    }
    Ok(())
}

#[cycle(statements)]
fn put_block_item(alloc: Global, out: &mut Vec<TokenKind>, item: &BlockItem) -> Result<(), NoMemory>
    ensures { OnOk result (out.new.items ≡ out.old.items ++ spell_block (one_item item.now)) }
{
    match item {
        BlockItem::Local(local) => put_local(alloc, out, local),
        BlockItem::Stmt(stmt) => put_stmt(alloc, out, stmt),
    }
}

#[tactic(auto, using(crate::proofs::ProgramRows::mapped_lists))]
fn put_param(alloc: Global, out: &mut Vec<TokenKind>, param: &Param) -> Result<(), NoMemory>
    ensures { OnOk result (out.new.items ≡ out.old.items ++ spell_param (param_tree param.now)) }
{
    put_spec(alloc, out, &param.spec)?;
    put_stars(out, param.stars)?;
    put_optional_name(alloc, out, &param.name)?;
    put_dims(alloc, out, &param.dims)
}

fn put_param_list(alloc: Global, out: &mut Vec<TokenKind>, params: &[Param]) -> Result<(), NoMemory>
    ensures { OnOk result (out.new.items ≡ out.old.items ++ listed (λ p. spell_param (param_tree p)) params.now) }
{
    for (i, param) in params.iter().enumerate() {
        put_comma(out, i)?;
        put_param(alloc, out, param)?;
    }
    Ok(())
}

#[tactic(auto, using(crate::proofs::ProgramRows::mapped_lists))]
fn put_params(alloc: Global, out: &mut Vec<TokenKind>, params: &Params) -> Result<(), NoMemory>
    ensures { OnOk result (out.new.items ≡ out.old.items ++ spell_params (params_tree params.now)) }
{
    match params {
        Params::Empty => Ok(()),
        Params::Void => put_word(out, Keyword::Void),
        Params::List(params) => put_param_list(alloc, out, params),
    }
}

fn put_function(
    alloc: Global,
    out: &mut Vec<TokenKind>,
    stars: u32,
    name: &Text,
    params: &Params,
) -> Result<(), NoMemory>
    ensures { OnOk result (out.new.items ≡ out.old.items ++ spell_function stars name.now (params_tree params.now)) }
{
    put_stars(out, stars)?;
    put_name(alloc, out, name)?;
    put_sign(out, Sign::OpenParen)?;
    put_params(alloc, out, params)?;
    put_sign(out, Sign::CloseParen)
}

fn put_file(alloc: Global, out: &mut Vec<TokenKind>, declarator: &FileDecl) -> Result<(), NoMemory>
    ensures { OnOk result (out.new.items ≡ out.old.items ++ spell_file (file_tree declarator.now)) }
{
    match declarator {
        FileDecl::Function {
            stars,
            name,
            at: _,
            params,
        } => put_function(alloc, out, *stars, name, params),
        FileDecl::Object(object) => put_obj(alloc, out, object),
    }
}

fn put_files(
    alloc: Global,
    out: &mut Vec<TokenKind>,
    declarators: &[FileDecl],
) -> Result<(), NoMemory>
    ensures { OnOk result (out.new.items ≡ out.old.items ++ listed (λ d. spell_file (file_tree d)) declarators.now) }
{
    for (i, declarator) in declarators.iter().enumerate() {
        put_comma(out, i)?;
        put_file(alloc, out, declarator)?;
    }
    Ok(())
}

#[tactic(auto, using(crate::proofs::ProgramRows::mapped_lists))]
fn put_item(alloc: Global, out: &mut Vec<TokenKind>, item: &Item) -> Result<(), NoMemory>
    ensures { OnOk result (out.new.items ≡ out.old.items ++ spell_item (item_tree item.now)) }
{
    put_static(out, item.fixed)?;
    put_spec(alloc, out, &item.spec)?;
    match &item.node {
        ItemNode::Function {
            stars,
            name,
            at: _,
            params,
            body,
        } => {
            put_function(alloc, out, *stars, name, params)?;
            put_stmt(alloc, out, body)
        }
        ItemNode::Decls(declarators) => {
            put_files(alloc, out, declarators)?;
            put_sign(out, Sign::Semi)
        }
    }
}

/// The token kinds of the program, in order: its spelling in the grammar of C99 6.5 to 6.9, as far as
/// this language has it. Every tree has one, well formed or not.
///
/// Takes memory for the list and for a copy of each name and string. `NoMemory` says that there was
/// too little; the program is unchanged either way. The call goes down the tree by recursion, so it
/// needs stack in proportion to the longest path of the tree.
#[tactic(auto, using(crate::proofs::ProgramRows::mapped_lists))]
pub fn spell(alloc: Global, p: &Program) -> Result<Vec<TokenKind>, NoMemory>
    ensures { IfOk result (λ kinds. kinds.items ≡ spell_program (program_tree p.now)) }
{
    let mut out = Vec::new(alloc);
    for item in &p.items {
        put_item(alloc, &mut out, item)?;
    }
    Ok(out)
}
