ghost use Rattle.std.specs.Prelude.{◌≡◌, [], ◌∷◌, ◌++◌, OnOk, IfOk, map};
ghost use Rattle.std.specs.List.{flat_map};
ghost use Rattle.ob_tree.specs.declared.tokens.TokenKind.TheVariants.{Word, Name, Number, Str, Sign};
ghost use Rattle.ob_tree.specs.Spelling.{stars, spell, spell_type, spell_spec, spell_members, spell_obj, spell_dims, spell_init, spell_name, spell_comma, step_sign, listed, comma_before};
ghost use Rattle.ob_tree.specs.ExpressionView.{expr_tree, spec_tree, type_tree, obj_tree, init_tree, one_member, one_dim};

use crate::expressions::{
    Dim, Expr, ExprNode, Init, MemberDecl, ObjDecl, Spec, SpecNode, TypeName,
};
use crate::tokens::{Keyword, Sign, TokenKind};
use ob_base::{NoMemory, Text};
use std::alloc::Global;

pub fn put_sign(out: &mut Vec<TokenKind>, sign: Sign) -> Result<(), NoMemory>
    ensures { OnOk result (out.new.items ≡ out.old.items ++ TokenKind.Sign sign ∷ []) }
{
    out.push(TokenKind::Sign(sign))?;
    Ok(())
}

pub fn put_word(out: &mut Vec<TokenKind>, word: Keyword) -> Result<(), NoMemory>
    ensures { OnOk result (out.new.items ≡ out.old.items ++ TokenKind.Word word ∷ []) }
{
    out.push(TokenKind::Word(word))?;
    Ok(())
}

pub fn put_name(alloc: Global, out: &mut Vec<TokenKind>, name: &Text) -> Result<(), NoMemory>
    ensures { OnOk result (out.new.items ≡ out.old.items ++ TokenKind.Name name.now ∷ []) }
{
    let name = name.copy(alloc)?;
    out.push(TokenKind::Name(name))?;
    Ok(())
}

pub fn put_stars(out: &mut Vec<TokenKind>, count: u32) -> Result<(), NoMemory>
    ensures { OnOk result (out.new.items ≡ out.old.items ++ stars count) }
{
    for _ in 0..count {
        put_sign(out, Sign::Star)?;
    }
    Ok(())
}

fn put_strings(alloc: Global, out: &mut Vec<TokenKind>, strings: &[Text]) -> Result<(), NoMemory>
    ensures { OnOk result (out.new.items ≡ out.old.items ++ map TokenKind.Str strings.now) }
{
    for string in strings {
        let string = string.copy(alloc)?;
        out.push(TokenKind::Str(string))?;
    }
    Ok(())
}

fn put_words(out: &mut Vec<TokenKind>, words: &[Keyword]) -> Result<(), NoMemory>
    ensures { OnOk result (out.new.items ≡ out.old.items ++ map TokenKind.Word words.now) }
{
    for word in words {
        put_word(out, *word)?;
    }
    Ok(())
}

pub fn put_optional_name(
    alloc: Global,
    out: &mut Vec<TokenKind>,
    name: &Option<Text>,
) -> Result<(), NoMemory>
    ensures { OnOk result (out.new.items ≡ out.old.items ++ spell_name name.now) }
{
    match name {
        None => Ok(()),
        Some(name) => put_name(alloc, out, name),
    }
}

fn put_step(out: &mut Vec<TokenKind>, down: bool) -> Result<(), NoMemory>
    ensures { OnOk result (out.new.items ≡ out.old.items ++ TokenKind.Sign (step_sign down) ∷ []) }
{
    if down {
        put_sign(out, Sign::MinusMinus)
    } else {
        put_sign(out, Sign::PlusPlus)
    }
}

/// Puts the comma that stands before the item of this number, counted from 0: before each but the
/// first.
pub fn put_comma(out: &mut Vec<TokenKind>, number: usize) -> Result<(), NoMemory>
    ensures { OnOk result (out.new.items ≡ out.old.items ++ comma_before number) }
{
    if number == 0 {
        Ok(())
    } else {
        put_sign(out, Sign::Comma)
    }
}

fn put_last_comma(out: &mut Vec<TokenKind>, comma: bool) -> Result<(), NoMemory>
    ensures { OnOk result (out.new.items ≡ out.old.items ++ spell_comma comma) }
{
    if comma {
        put_sign(out, Sign::Comma)
    } else {
        Ok(())
    }
}

/// Puts a sign and a name: the member that is selected.
fn put_selected(
    alloc: Global,
    out: &mut Vec<TokenKind>,
    sign: Sign,
    name: &Text,
) -> Result<(), NoMemory>
    ensures { OnOk result (out.new.items ≡ out.old.items ++ TokenKind.Sign sign ∷ (TokenKind.Name name.now ∷ [])) }
{
    put_sign(out, sign)?;
    put_name(alloc, out, name)
}

/// Puts a sign and the operand behind it.
#[cycle(spell)]
fn put_signed(alloc: Global, out: &mut Vec<TokenKind>, sign: Sign, e: &Expr) -> Result<(), NoMemory>
    ensures { OnOk result (out.new.items ≡ out.old.items ++ TokenKind.Sign sign ∷ spell (expr_tree e.now)) }
{
    put_sign(out, sign)?;
    put_expr(alloc, out, e)
}

/// Puts an expression between two signs.
#[cycle(spell)]
fn put_enclosed(
    alloc: Global,
    out: &mut Vec<TokenKind>,
    before: Sign,
    e: &Expr,
    after: Sign,
) -> Result<(), NoMemory>
    ensures { OnOk result (out.new.items ≡ out.old.items ++ TokenKind.Sign before ∷ (spell (expr_tree e.now) ++ TokenKind.Sign after ∷ [])) }
{
    put_signed(alloc, out, before, e)?;
    put_sign(out, after)
}

/// Puts a type name in parentheses.
#[cycle(spell)]
fn put_enclosed_type(
    alloc: Global,
    out: &mut Vec<TokenKind>,
    name: &TypeName,
) -> Result<(), NoMemory>
    ensures { OnOk result (out.new.items ≡ out.old.items ++ TokenKind.Sign Sign.OpenParen ∷ (spell_type (type_tree name.now) ++ TokenKind.Sign Sign.CloseParen ∷ [])) }
{
    put_sign(out, Sign::OpenParen)?;
    put_type(alloc, out, name)?;
    put_sign(out, Sign::CloseParen)
}

/// Puts the token kinds of the expression behind those of `out`.
#[cycle(spell)]
pub fn put_expr(alloc: Global, out: &mut Vec<TokenKind>, e: &Expr) -> Result<(), NoMemory>
    ensures { OnOk result (out.new.items ≡ out.old.items ++ spell (expr_tree e.now)) }
{
    match &e.node {
        ExprNode::Name(name) => put_name(alloc, out, name),
        ExprNode::Number { value, ty } => {
            out.push(TokenKind::Number {
                value: *value,
                ty: *ty,
            })?;
            Ok(())
        }
        ExprNode::Null => put_word(out, Keyword::Null),
        ExprNode::Eof => put_word(out, Keyword::Eof),
        ExprNode::Str(strings) => put_strings(alloc, out, strings),
        ExprNode::Paren(e) => put_enclosed(alloc, out, Sign::OpenParen, e, Sign::CloseParen),
        ExprNode::Index(base, index) => {
            put_expr(alloc, out, base)?;
            put_enclosed(alloc, out, Sign::OpenBracket, index, Sign::CloseBracket)
        }
        ExprNode::Call(name, arguments) => {
            put_name(alloc, out, name)?;
            put_sign(out, Sign::OpenParen)?;
            put_arguments(alloc, out, arguments)?;
            put_sign(out, Sign::CloseParen)
        }
        ExprNode::Member(base, name) => {
            put_expr(alloc, out, base)?;
            put_selected(alloc, out, Sign::Dot, name)
        }
        ExprNode::Arrow(base, name) => {
            put_expr(alloc, out, base)?;
            put_selected(alloc, out, Sign::Arrow, name)
        }
        ExprNode::Step {
            post: true,
            down,
            e,
        } => {
            put_expr(alloc, out, e)?;
            put_step(out, *down)
        }
        ExprNode::Step {
            post: false,
            down,
            e,
        } => {
            put_step(out, *down)?;
            put_expr(alloc, out, e)
        }
        ExprNode::Unary(sign, e) => put_signed(alloc, out, *sign, e),
        ExprNode::SizeExpr(e) => {
            put_word(out, Keyword::Sizeof)?;
            put_expr(alloc, out, e)
        }
        ExprNode::SizeType(name) => {
            put_word(out, Keyword::Sizeof)?;
            put_enclosed_type(alloc, out, name)
        }
        ExprNode::Cast(name, e) => {
            put_enclosed_type(alloc, out, name)?;
            put_expr(alloc, out, e)
        }
        ExprNode::Binary(sign, left, right) => {
            put_expr(alloc, out, left)?;
            put_signed(alloc, out, *sign, right)
        }
        ExprNode::Cond(test, then, other) => {
            put_expr(alloc, out, test)?;
            put_signed(alloc, out, Sign::Question, then)?;
            put_signed(alloc, out, Sign::Colon, other)
        }
        ExprNode::Assign(sign, left, right) => {
            put_expr(alloc, out, left)?;
            put_signed(alloc, out, *sign, right)
        }
        ExprNode::Comma(left, right) => {
            put_expr(alloc, out, left)?;
            put_signed(alloc, out, Sign::Comma, right)
        }
    }
}

#[cycle(spell)]
fn put_arguments(
    alloc: Global,
    out: &mut Vec<TokenKind>,
    arguments: &[Expr],
) -> Result<(), NoMemory>
    ensures { OnOk result (out.new.items ≡ out.old.items ++ listed (λ e. spell (expr_tree e)) arguments.now) }
{
    for (i, e) in arguments.iter().enumerate() {
        put_comma(out, i)?;
        put_expr(alloc, out, e)?;
    }
    Ok(())
}

#[cycle(spell)]
fn put_type(alloc: Global, out: &mut Vec<TokenKind>, name: &TypeName) -> Result<(), NoMemory>
    ensures { OnOk result (out.new.items ≡ out.old.items ++ spell_type (type_tree name.now)) }
{
    put_spec(alloc, out, &name.spec)?;
    put_stars(out, name.stars)?;
    put_dims(alloc, out, &name.dims)
}

/// Puts the token kinds of the specifier behind those of `out`.
#[cycle(spell)]
pub fn put_spec(alloc: Global, out: &mut Vec<TokenKind>, spec: &Spec) -> Result<(), NoMemory>
    ensures { OnOk result (out.new.items ≡ out.old.items ++ spell_spec (spec_tree spec.now)) }
{
    match &spec.node {
        SpecNode::Void => put_word(out, Keyword::Void),
        SpecNode::SizeT => put_word(out, Keyword::SizeT),
        SpecNode::Integer(words) => put_words(out, words),
        SpecNode::Tag(tag) => {
            put_word(out, Keyword::Struct)?;
            put_name(alloc, out, tag)
        }
        SpecNode::Struct { tag, members } => {
            put_word(out, Keyword::Struct)?;
            put_optional_name(alloc, out, tag)?;
            put_sign(out, Sign::OpenBrace)?;
            put_members(alloc, out, members)?;
            put_sign(out, Sign::CloseBrace)
        }
    }
}

#[cycle(spell)]
fn put_members(
    alloc: Global,
    out: &mut Vec<TokenKind>,
    members: &[MemberDecl],
) -> Result<(), NoMemory>
    ensures { OnOk result (out.new.items ≡ out.old.items ++ flat_map (λ m. spell_members (one_member m)) members.now) }
{
    for member in members {
        put_member(alloc, out, member)?;
    }
    Ok(())
}

#[cycle(spell)]
fn put_member(alloc: Global, out: &mut Vec<TokenKind>, member: &MemberDecl) -> Result<(), NoMemory>
    ensures { OnOk result (out.new.items ≡ out.old.items ++ spell_members (one_member member.now)) }
{
    put_spec(alloc, out, &member.spec)?;
    put_objs(alloc, out, &member.names)?;
    put_sign(out, Sign::Semi)
}

/// Puts the token kinds of the declarators, with commas between them, behind those of `out`.
#[cycle(spell)]
pub fn put_objs(alloc: Global, out: &mut Vec<TokenKind>, names: &[ObjDecl]) -> Result<(), NoMemory>
    ensures { OnOk result (out.new.items ≡ out.old.items ++ listed (λ o. spell_obj (obj_tree o)) names.now) }
{
    for (i, name) in names.iter().enumerate() {
        put_comma(out, i)?;
        put_obj(alloc, out, name)?;
    }
    Ok(())
}

/// Puts the token kinds of the declarator behind those of `out`.
#[cycle(spell)]
pub fn put_obj(alloc: Global, out: &mut Vec<TokenKind>, name: &ObjDecl) -> Result<(), NoMemory>
    ensures { OnOk result (out.new.items ≡ out.old.items ++ spell_obj (obj_tree name.now)) }
{
    put_stars(out, name.stars)?;
    put_name(alloc, out, &name.name)?;
    put_dims(alloc, out, &name.dims)?;
    match &name.init {
        None => Ok(()),
        Some(init) => {
            put_sign(out, Sign::Assign)?;
            put_init(alloc, out, init)
        }
    }
}

/// Puts the token kinds of the array brackets behind those of `out`.
#[cycle(spell)]
pub fn put_dims(alloc: Global, out: &mut Vec<TokenKind>, dims: &[Dim]) -> Result<(), NoMemory>
    ensures { OnOk result (out.new.items ≡ out.old.items ++ flat_map (λ d. spell_dims (one_dim d)) dims.now) }
{
    for dim in dims {
        put_dim(alloc, out, dim)?;
    }
    Ok(())
}

#[cycle(spell)]
fn put_dim(alloc: Global, out: &mut Vec<TokenKind>, dim: &Dim) -> Result<(), NoMemory>
    ensures { OnOk result (out.new.items ≡ out.old.items ++ spell_dims (one_dim dim.now)) }
{
    put_sign(out, Sign::OpenBracket)?;
    match &dim.length {
        None => put_sign(out, Sign::CloseBracket),
        Some(length) => {
            put_expr(alloc, out, length)?;
            put_sign(out, Sign::CloseBracket)
        }
    }
}

#[cycle(spell)]
fn put_init(alloc: Global, out: &mut Vec<TokenKind>, init: &Init) -> Result<(), NoMemory>
    ensures { OnOk result (out.new.items ≡ out.old.items ++ spell_init (init_tree init.now)) }
{
    match init {
        Init::Value(e) => put_expr(alloc, out, e),
        Init::List {
            first: _,
            items,
            comma,
        } => {
            put_sign(out, Sign::OpenBrace)?;
            put_inits(alloc, out, items)?;
            put_last_comma(out, *comma)?;
            put_sign(out, Sign::CloseBrace)
        }
    }
}

#[cycle(spell)]
fn put_inits(alloc: Global, out: &mut Vec<TokenKind>, items: &[Init]) -> Result<(), NoMemory>
    ensures { OnOk result (out.new.items ≡ out.old.items ++ listed (λ i. spell_init (init_tree i)) items.now) }
{
    for (i, item) in items.iter().enumerate() {
        put_comma(out, i)?;
        put_init(alloc, out, item)?;
    }
    Ok(())
}
