use ob_base::Text;
use ob_tree::{Dim, Expr, ExprNode, Keyword, MemberDecl, ObjDecl, Sign, Spec, SpecNode, TypeName};
use std::alloc::{AllocError, Global};
use std::fmt::Write;

/// A text to which trees are added. With `marks` each expression has its first place, the place of
/// its sign and its line behind it, and each specifier its first place.
#[derive(Drop)]
pub struct Shown {
    pub text: String,
    pub marks: bool,
}

impl Shown {
    pub fn new(alloc: Global, marks: bool) -> Shown {
        Shown {
            text: String::new(alloc),
            marks,
        }
    }

    pub fn put(&mut self, piece: &str) -> Result<(), AllocError> {
        self.text.push_str(piece)
    }

    pub fn put_text(&mut self, text: &Text) -> Result<(), AllocError> {
        for byte in text.bytes() {
            self.text.push(*byte as char)?;
        }
        Ok(())
    }

    fn put_strings(&mut self, strings: &[Text]) -> Result<(), AllocError> {
        for string in strings {
            self.put("\"")?;
            self.put_text(string)?;
            self.put("\"")?;
        }
        Ok(())
    }

    fn put_sign(&mut self, before: &str, sign: Sign, behind: &str) -> Result<(), AllocError> {
        self.put(before)?;
        write!(self.text, "{sign:?}")?;
        self.put(behind)
    }

    fn put_name(&mut self, sign: Sign, name: &Text) -> Result<(), AllocError> {
        self.put_sign(" ", sign, " ")?;
        self.put_text(name)?;
        self.put("}")
    }

    fn put_mark(&mut self, e: &Expr) -> Result<(), AllocError> {
        if self.marks {
            let first = e.first;
            let at = e.at;
            let line = e.line;
            write!(self.text, ".{first}.{at}.{line}")?;
        }
        Ok(())
    }

    /// The place of a token, as a mark.
    pub fn put_place(&mut self, place: u32) -> Result<(), AllocError> {
        if self.marks {
            write!(self.text, ".{place}")?;
        }
        Ok(())
    }

    fn put_type_stars(&mut self, count: u32) -> Result<(), AllocError> {
        if count > 0 {
            self.put(" ")?;
        }
        self.put_stars(count)
    }

    pub fn put_stars(&mut self, count: u32) -> Result<(), AllocError> {
        for _ in 0..count {
            self.put("*")?;
        }
        Ok(())
    }

    fn put_words(&mut self, words: &[Keyword]) -> Result<(), AllocError> {
        for (i, word) in words.iter().enumerate() {
            if i > 0 {
                self.put(" ")?;
            }
            write!(self.text, "{word:?}")?;
        }
        Ok(())
    }
}

fn step_sign(down: bool) -> Sign {
    if down {
        Sign::MinusMinus
    } else {
        Sign::PlusPlus
    }
}

#[cycle(show)]
pub fn show_expr(out: &mut Shown, e: &Expr) -> Result<(), AllocError> {
    match &e.node {
        ExprNode::Name(name) => out.put_text(name)?,
        ExprNode::Number { value, ty: _ } => write!(out.text, "{value}")?,
        ExprNode::Null => out.put("NULL")?,
        ExprNode::Eof => out.put("EOF")?,
        ExprNode::Str(strings) => out.put_strings(strings)?,
        ExprNode::Paren(inner) => {
            out.put("(")?;
            show_expr(out, inner)?;
            out.put(")")?;
        }
        ExprNode::Index(base, index) => {
            show_left(out, base)?;
            show_right(out, Sign::OpenBracket, index)?;
        }
        ExprNode::Call(name, arguments) => {
            out.put_text(name)?;
            show_arguments(out, arguments)?;
        }
        ExprNode::Member(base, name) => {
            show_left(out, base)?;
            out.put_name(Sign::Dot, name)?;
        }
        ExprNode::Arrow(base, name) => {
            show_left(out, base)?;
            out.put_name(Sign::Arrow, name)?;
        }
        ExprNode::Step {
            post: true,
            down,
            e,
        } => {
            show_left(out, e)?;
            out.put_sign(" ", step_sign(*down), "}")?;
        }
        ExprNode::Step {
            post: false,
            down,
            e,
        } => show_prefix(out, step_sign(*down), e)?,
        ExprNode::Unary(sign, operand) => show_prefix(out, *sign, operand)?,
        ExprNode::SizeExpr(operand) => {
            out.put("{Sizeof ")?;
            show_expr(out, operand)?;
            out.put("}")?;
        }
        ExprNode::SizeType(name) => {
            out.put("{Sizeof ")?;
            show_type(out, name)?;
            out.put("}")?;
        }
        ExprNode::Cast(name, operand) => {
            out.put("{")?;
            show_type(out, name)?;
            out.put(" ")?;
            show_expr(out, operand)?;
            out.put("}")?;
        }
        ExprNode::Binary(sign, left, right) => {
            show_left(out, left)?;
            show_right(out, *sign, right)?;
        }
        ExprNode::Cond(test, then, other) => {
            show_left(out, test)?;
            out.put_sign(" ", Sign::Question, " ")?;
            show_expr(out, then)?;
            show_right(out, Sign::Colon, other)?;
        }
        ExprNode::Assign(sign, left, right) => {
            show_left(out, left)?;
            show_right(out, *sign, right)?;
        }
        ExprNode::Comma(left, right) => {
            show_left(out, left)?;
            show_right(out, Sign::Comma, right)?;
        }
    }
    out.put_mark(e)
}

#[cycle(show)]
fn show_left(out: &mut Shown, left: &Expr) -> Result<(), AllocError> {
    out.put("{")?;
    show_expr(out, left)
}

#[cycle(show)]
fn show_right(out: &mut Shown, sign: Sign, right: &Expr) -> Result<(), AllocError> {
    out.put_sign(" ", sign, " ")?;
    show_expr(out, right)?;
    out.put("}")
}

#[cycle(show)]
fn show_prefix(out: &mut Shown, sign: Sign, operand: &Expr) -> Result<(), AllocError> {
    out.put_sign("{", sign, " ")?;
    show_expr(out, operand)?;
    out.put("}")
}

#[cycle(show)]
fn show_arguments(out: &mut Shown, arguments: &[Expr]) -> Result<(), AllocError> {
    out.put("(")?;
    for (i, e) in arguments.iter().enumerate() {
        if i > 0 {
            out.put("; ")?;
        }
        show_expr(out, e)?;
    }
    out.put(")")
}

#[cycle(show)]
fn show_type(out: &mut Shown, name: &TypeName) -> Result<(), AllocError> {
    out.put("<")?;
    show_spec(out, &name.spec)?;
    out.put_type_stars(name.stars)?;
    show_dims(out, &name.dims)?;
    out.put(">")
}

#[cycle(show)]
pub fn show_spec(out: &mut Shown, spec: &Spec) -> Result<(), AllocError> {
    match &spec.node {
        SpecNode::Void => out.put("void")?,
        SpecNode::SizeT => out.put("size_t")?,
        SpecNode::Integer(words) => out.put_words(words)?,
        SpecNode::Tag(tag) => {
            out.put("struct ")?;
            out.put_text(tag)?;
        }
        SpecNode::Struct { tag, members } => {
            out.put("struct ")?;
            if let Some(tag) = tag {
                out.put_text(tag)?;
            }
            out.put("{")?;
            for member in members {
                show_line(out, member)?;
            }
            out.put("}")?;
        }
    }
    out.put_place(spec.first)
}

#[cycle(show)]
fn show_line(out: &mut Shown, member: &MemberDecl) -> Result<(), AllocError> {
    show_spec(out, &member.spec)?;
    for name in &member.names {
        out.put(" ")?;
        show_name(out, name)?;
    }
    out.put(";")
}

/// A declarator without its initialiser.
#[cycle(show)]
pub fn show_name(out: &mut Shown, name: &ObjDecl) -> Result<(), AllocError> {
    out.put_stars(name.stars)?;
    out.put_text(&name.name)?;
    out.put_place(name.at)?;
    show_dims(out, &name.dims)
}

#[cycle(show)]
pub fn show_dims(out: &mut Shown, dims: &[Dim]) -> Result<(), AllocError> {
    for dim in dims {
        out.put("[")?;
        if let Some(length) = &dim.length {
            show_expr(out, length)?;
        }
        out.put("]")?;
    }
    Ok(())
}
