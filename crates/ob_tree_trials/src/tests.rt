//! What a tree spells, written out by hand from the grammar.

use ob_base::{NoMemory, Text, push_on};
use ob_tree::{
    BlockItem, Expr, ExprNode, Item, ItemNode, Keyword, Params, Program, Spec, SpecNode, Stmt,
    StmtNode, TokenKind, spell,
};
use ob_words::IntType;
use std::alloc::{AllocError, Global};
use std::fmt::Write;
use std::test::Fail;

fn show_kind(text: &mut String, kind: &TokenKind) -> Result<(), AllocError> {
    match kind {
        TokenKind::Word(word) => write!(text, " {word:?}"),
        TokenKind::Name(name) => {
            text.push_str(" ")?;
            for byte in name.bytes() {
                text.push(*byte as char)?;
            }
            Ok(())
        }
        TokenKind::Number { value, ty } => write!(text, " {value}{ty:?}"),
        TokenKind::Str(bytes) => write!(text, " {:?}", bytes.bytes()),
        TokenKind::Sign(sign) => write!(text, " {sign:?}"),
    }
}

/// The kinds that a program spells, with a space before each.
fn spelled(alloc: Global, program: &Program) -> Result<String, NoMemory> {
    let mut text = String::new(alloc);
    for kind in &spell(alloc, program)? {
        show_kind(&mut text, kind)?;
    }
    Ok(text)
}

fn text(alloc: Global, bytes: &str) -> Result<Text, NoMemory> {
    let mut text = Text::new(alloc);
    text.add(bytes.as_bytes())?;
    Ok(text)
}

fn expr(node: ExprNode) -> Expr {
    Expr {
        first: 0,
        at: 0,
        line: 0,
        node,
    }
}

fn number(value: i128) -> Expr {
    expr(ExprNode::Number {
        value,
        ty: IntType::Int,
    })
}

fn item(node: StmtNode) -> BlockItem {
    BlockItem::Stmt(Stmt {
        first: 0,
        line: 0,
        node,
    })
}

/// Puts `putchar(value);` at the end of the block.
fn put_call(alloc: Global, block: &mut Vec<BlockItem>, value: i128) -> Result<(), NoMemory> {
    let name = text(alloc, "putchar")?;
    let mut arguments = Vec::new(alloc);
    push_on(&mut arguments, number(value))?;
    push_on(
        block,
        item(StmtNode::Expr(Some(expr(ExprNode::Call(name, arguments))))),
    )
}

fn put_return(block: &mut Vec<BlockItem>, value: i128) -> Result<(), NoMemory> {
    push_on(block, item(StmtNode::Return(Some(number(value)))))
}

fn put_statements(alloc: Global, block: &mut Vec<BlockItem>) -> Result<(), NoMemory> {
    put_call(alloc, block, 72)?;
    put_call(alloc, block, 105)?;
    put_return(block, 3)
}

/// The function of this name, specifier and body, without parameters.
fn function(name: Text, words: Vec<Keyword>, body: Vec<BlockItem>) -> Item {
    Item {
        first: 0,
        line: 0,
        fixed: false,
        spec: Spec {
            first: 0,
            node: SpecNode::Integer(words),
        },
        node: ItemNode::Function {
            stars: 0,
            name,
            at: 0,
            params: Params::Void,
            body: Stmt {
                first: 0,
                line: 0,
                node: StmtNode::Block(body),
            },
        },
    }
}

fn put_main(alloc: Global, items: &mut Vec<Item>) -> Result<(), NoMemory> {
    let name = text(alloc, "main")?;
    let mut words = Vec::new(alloc);
    push_on(&mut words, Keyword::Int)?;
    let mut body = Vec::new(alloc);
    put_statements(alloc, &mut body)?;
    push_on(items, function(name, words, body))
}

fn hello(alloc: Global) -> Result<Program, NoMemory> {
    let mut items = Vec::new(alloc);
    put_main(alloc, &mut items)?;
    Ok(Program { items })
}

const HELLO: &str = " Int main OpenParen Void CloseParen OpenBrace putchar OpenParen 72Int \
    CloseParen Semi putchar OpenParen 105Int CloseParen Semi Return 3Int Semi CloseBrace";

#[test]
fn a_tree_spells_its_tokens(rt: HostRuntime) -> Result<(), Fail> {
    let program = hello(rt.alloc()).ok().ok_or("there is memory")?;
    let text = spelled(rt.alloc(), &program).ok().ok_or("there is memory")?;
    assert_eq!(rt; text.as_str(), HELLO);
    Ok(())
}
