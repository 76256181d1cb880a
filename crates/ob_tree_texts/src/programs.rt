use crate::expressions::{Shown, show_dims, show_expr, show_name, show_spec};
use ob_base::Text;
use ob_tree::{
    BlockItem, Expr, FileDecl, ForStart, Init, Item, ItemNode, Local, ObjDecl, Param, Params,
    Program, Stmt, StmtNode,
};
use std::alloc::AllocError;

fn show_first(out: &mut Shown, first: u32, line: u32) -> Result<(), AllocError> {
    out.put_place(first)?;
    out.put_place(line)
}

fn show_optional(out: &mut Shown, e: &Option<Expr>) -> Result<(), AllocError> {
    match e {
        None => Ok(()),
        Some(e) => show_expr(out, e),
    }
}

/// Puts what stands before the item of this number in a list.
fn show_comma(out: &mut Shown, number: usize, first: &str) -> Result<(), AllocError> {
    if number == 0 {
        out.put(first)
    } else {
        out.put(", ")
    }
}

#[cycle(show)]
fn show_init(out: &mut Shown, init: &Init) -> Result<(), AllocError> {
    match init {
        Init::Value(e) => show_expr(out, e),
        Init::List {
            first,
            items,
            comma,
        } => {
            out.put("{")?;
            show_inits(out, items)?;
            if *comma {
                out.put(",")?;
            }
            out.put("}")?;
            out.put_place(*first)
        }
    }
}

#[cycle(show)]
fn show_inits(out: &mut Shown, items: &[Init]) -> Result<(), AllocError> {
    for (i, item) in items.iter().enumerate() {
        show_comma(out, i, "")?;
        show_init(out, item)?;
    }
    Ok(())
}

fn show_obj(out: &mut Shown, name: &ObjDecl) -> Result<(), AllocError> {
    show_name(out, name)?;
    match &name.init {
        None => Ok(()),
        Some(init) => {
            out.put("=")?;
            show_init(out, init)
        }
    }
}

fn show_static(out: &mut Shown, fixed: bool) -> Result<(), AllocError> {
    if fixed { out.put("static ") } else { Ok(()) }
}

fn show_local(out: &mut Shown, local: &Local) -> Result<(), AllocError> {
    show_static(out, local.fixed)?;
    show_spec(out, &local.spec)?;
    for (i, name) in local.names.iter().enumerate() {
        show_comma(out, i, " ")?;
        show_obj(out, name)?;
    }
    out.put(";")?;
    show_first(out, local.first, local.line)
}

fn show_start(out: &mut Shown, start: &ForStart) -> Result<(), AllocError> {
    match start {
        ForStart::Expr(e) => {
            show_optional(out, e)?;
            out.put(";")
        }
        ForStart::Local(local) => show_local(out, local),
    }
}

fn show_test(out: &mut Shown, word: &str, test: &Expr) -> Result<(), AllocError> {
    out.put(word)?;
    out.put("(")?;
    show_expr(out, test)?;
    out.put(")")
}

#[cycle(statements)]
fn show_stmt(out: &mut Shown, stmt: &Stmt) -> Result<(), AllocError> {
    match &stmt.node {
        StmtNode::Block(items) => show_block(out, items)?,
        StmtNode::Expr(e) => {
            show_optional(out, e)?;
            out.put(";")?;
        }
        StmtNode::If(test, then, other) => {
            show_test(out, "if", test)?;
            show_inner(out, then)?;
            if let Some(other) = other {
                out.put("else")?;
                show_inner(out, other)?;
            }
        }
        StmtNode::While(test, body) => {
            show_test(out, "while", test)?;
            show_inner(out, body)?;
        }
        StmtNode::Do(body, test) => {
            out.put("do")?;
            show_inner(out, body)?;
            show_test(out, "", test)?;
        }
        StmtNode::For {
            start,
            test,
            next,
            body,
        } => {
            out.put("for(")?;
            show_start(out, start)?;
            show_optional(out, test)?;
            out.put(";")?;
            show_optional(out, next)?;
            out.put(")")?;
            show_inner(out, body)?;
        }
        StmtNode::Break => out.put("break;")?,
        StmtNode::Continue => out.put("continue;")?,
        StmtNode::Return(e) => show_return(out, e)?,
    }
    show_first(out, stmt.first, stmt.line)
}

fn show_return(out: &mut Shown, e: &Option<Expr>) -> Result<(), AllocError> {
    out.put("return")?;
    if let Some(e) = e {
        out.put(" ")?;
        show_expr(out, e)?;
    }
    out.put(";")
}

#[cycle(statements)]
fn show_inner(out: &mut Shown, stmt: &Stmt) -> Result<(), AllocError> {
    out.put("[")?;
    show_stmt(out, stmt)?;
    out.put("]")
}

#[cycle(statements)]
fn show_block(out: &mut Shown, items: &[BlockItem]) -> Result<(), AllocError> {
    out.put("{")?;
    for (i, item) in items.iter().enumerate() {
        if i > 0 {
            out.put(" ")?;
        }
        match item {
            BlockItem::Local(local) => show_local(out, local)?,
            BlockItem::Stmt(stmt) => show_stmt(out, stmt)?,
        }
    }
    out.put("}")
}

fn show_param(out: &mut Shown, param: &Param) -> Result<(), AllocError> {
    show_spec(out, &param.spec)?;
    if param.stars > 0 || param.name.is_some() {
        out.put(" ")?;
    }
    out.put_stars(param.stars)?;
    if let Some(name) = &param.name {
        out.put_text(name)?;
    }
    out.put_place(param.at)?;
    show_dims(out, &param.dims)?;
    show_first(out, param.first, param.line)
}

fn show_params(out: &mut Shown, params: &Params) -> Result<(), AllocError> {
    out.put("(")?;
    match params {
        Params::Empty => {}
        Params::Void => out.put("void")?,
        Params::List(list) => {
            for (i, param) in list.iter().enumerate() {
                show_comma(out, i, "")?;
                show_param(out, param)?;
            }
        }
    }
    out.put(")")
}

fn show_function(
    out: &mut Shown,
    stars: u32,
    name: &Text,
    at: u32,
    params: &Params,
) -> Result<(), AllocError> {
    out.put_stars(stars)?;
    out.put_text(name)?;
    out.put_place(at)?;
    show_params(out, params)
}

fn show_file(out: &mut Shown, file: &FileDecl) -> Result<(), AllocError> {
    match file {
        FileDecl::Function {
            stars,
            name,
            at,
            params,
        } => show_function(out, *stars, name, *at, params),
        FileDecl::Object(name) => show_obj(out, name),
    }
}

fn show_item(out: &mut Shown, item: &Item) -> Result<(), AllocError> {
    show_static(out, item.fixed)?;
    show_spec(out, &item.spec)?;
    match &item.node {
        ItemNode::Function {
            stars,
            name,
            at,
            params,
            body,
        } => {
            out.put(" ")?;
            show_function(out, *stars, name, *at, params)?;
            out.put(" ")?;
            show_stmt(out, body)?;
        }
        ItemNode::Decls(files) => {
            for (i, file) in files.iter().enumerate() {
                show_comma(out, i, " ")?;
                show_file(out, file)?;
            }
            out.put(";")?;
        }
    }
    show_first(out, item.first, item.line)
}

pub fn show_program(out: &mut Shown, program: &Program) -> Result<(), AllocError> {
    for (i, item) in program.items.iter().enumerate() {
        if i > 0 {
            out.put(" ")?;
        }
        show_item(out, item)?;
    }
    Ok(())
}
