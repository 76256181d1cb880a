ghost use Rattle.std.specs.Prelude.{◌≡◌};
ghost use Rattle.ob_exprs.specs.DeepestPaths.{level_number};

// The nonterminals of expressions by number: each stands where one of a lower number may stand. Those
// of the binary operators are 3 to 12.

/// Expressions of any kind (C99 6.5.17).
pub const EXPR: u32 = 0;

/// Assignment expressions (C99 6.5.16).
pub const ASSIGN: u32 = 1;

/// Conditional expressions (C99 6.5.15).
pub const COND: u32 = 2;

/// Logical OR expressions (C99 6.5.14), the lowest of a binary operator.
pub const OR: u32 = 3;

/// Cast expressions (C99 6.5.4).
pub const CAST: u32 = 13;

/// Unary expressions (C99 6.5.3).
pub const UNARY: u32 = 14;

/// Postfix expressions (C99 6.5.2).
pub const POSTFIX: u32 = 15;

/// Primary expressions (C99 6.5.1), and a call, whose function is a name.
pub const PRIMARY: u32 = 16;

/// What no expression is of.
pub const NO_LEVEL: u32 = 17;

/// Which expressions are meant.
#[derive(Clone, Copy, Debug, PartialEq, Eq)]
pub enum Level {
    /// Any expression (C99 6.5.17).
    Comma,
    /// An assignment expression (C99 6.5.16).
    Assign,
    /// A conditional expression (C99 6.5.15).
    Cond,
}

impl Level {
    /// The number of the nonterminal.
    pub fn number(self) -> u32
        ensures { result ≡ level_number self }
    {
        match self {
            Level::Comma => EXPR,
            Level::Assign => ASSIGN,
            Level::Cond => COND,
        }
    }
}
