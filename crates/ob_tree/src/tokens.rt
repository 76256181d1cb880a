ghost use Rattle.std.specs.Prelude.{◌≡◌};
ghost use Rattle.ob_tree.specs.ExprMachine.{is_spec_word};

use ob_base::Text;
use ob_words::IntType;

/// A token and where it stands.
#[derive(Drop)]
pub struct Token {
    pub kind: TokenKind,
    pub span: Span,
}

/// Where a token stands: its bytes are those from `start` up to and not including `end`, counted
/// from 0 in the source; `line` and `column` are those of its first byte, counted from 1. A line
/// ends with a line feed, and a column counts bytes.
#[derive(Clone, Copy)]
pub struct Span {
    pub start: u32,
    pub end: u32,
    pub line: u32,
    pub column: u32,
}

/// What a token is (C99 6.4).
#[derive(Drop)]
pub enum TokenKind {
    /// A reserved word (C99 6.4.1), or one that this language reserves beside them.
    Word(Keyword),
    /// An identifier (C99 6.4.2): its bytes.
    Name(Text),
    /// An integer constant or a character constant (C99 6.4.4.1, 6.4.4.4): its value, which is a
    /// number of its type. A character constant has the type int and the value of a `char`.
    Number { value: i128, ty: IntType },
    /// A string literal (C99 6.4.5): the bytes that it stands for, without the final zero.
    Str(Text),
    /// A punctuator (C99 6.4.6).
    Sign(Sign),
}

/// A reserved word: the keywords of C99 6.4.1 but for `const`, `register` and `restrict`, which
/// read as spaces, and the words `NULL`, `EOF` and `size_t`. Those from `Auto` on stand in no
/// program of this language.
#[derive(Clone, Copy, Debug, PartialEq, Eq)]
pub enum Keyword {
    Break,
    Char,
    Continue,
    Do,
    Else,
    For,
    If,
    Int,
    Long,
    Return,
    Short,
    Signed,
    Sizeof,
    Static,
    Struct,
    Unsigned,
    Void,
    While,
    Null,
    Eof,
    SizeT,
    Auto,
    Case,
    Default,
    Double,
    Enum,
    Extern,
    Float,
    Goto,
    Inline,
    Switch,
    Typedef,
    Union,
    Volatile,
    Bool,
    Complex,
    Imaginary,
}

impl Keyword {
    /// Whether a type specifier begins with the word (C99 6.7.2).
    pub fn begins_specifier(self) -> bool
        ensures { result ≡ is_spec_word self }
    {
        match self {
            Keyword::Void
            | Keyword::SizeT
            | Keyword::Char
            | Keyword::Short
            | Keyword::Int
            | Keyword::Long
            | Keyword::Signed
            | Keyword::Unsigned
            | Keyword::Struct => true,
            _ => false,
        }
    }
}

/// A punctuator (C99 6.4.6).
#[derive(Clone, Copy, Debug, PartialEq, Eq)]
pub enum Sign {
    OpenBracket,
    CloseBracket,
    OpenParen,
    CloseParen,
    OpenBrace,
    CloseBrace,
    Dot,
    Arrow,
    PlusPlus,
    MinusMinus,
    Amp,
    Star,
    Plus,
    Minus,
    Tilde,
    Not,
    Slash,
    Percent,
    Shl,
    Shr,
    Lt,
    Gt,
    Le,
    Ge,
    EqEq,
    NotEq,
    Caret,
    Bar,
    AndAnd,
    OrOr,
    Question,
    Colon,
    Semi,
    Assign,
    StarAssign,
    SlashAssign,
    PercentAssign,
    PlusAssign,
    MinusAssign,
    ShlAssign,
    ShrAssign,
    AmpAssign,
    CaretAssign,
    BarAssign,
    Comma,
}
