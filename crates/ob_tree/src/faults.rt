ghost use Rattle.std.specs.Prelude.{◌≡◌};
ghost use Rattle.ob_tree.specs.declared.faults.LexFault.TheVariants.{NoMemory};
ghost use Rattle.ob_tree.specs.declared.faults.SyntaxFault.TheVariants as syntax;
ghost use Rattle.ob_tree.specs.declared.faults.TypeFault.TheVariants as typing;
ghost use Rattle.ob_tree.specs.declared.faults.SourceFault.TheVariants as source;

use ob_base::NoMemory;
use std::alloc::{AllocError, AllocFailed};

/// Why no token can be taken at a place of a source text: something else than the two others; a
/// comment, string or character constant that doesn't end; a constant or escape that is too great.
#[derive(Clone, Copy, Debug, PartialEq, Eq)]
pub enum LexKind {
    Stray,
    Unclosed,
    Wide,
}

/// Why a source text is no run of tokens and spaces: the kind, with the place of the fault as a
/// number of bytes from the text's begin, or want of memory.
#[derive(Clone, Copy)]
pub enum LexFault {
    Stray(u32),
    Unclosed(u32),
    Wide(u32),
    NoMemory,
}

impl From<NoMemory> for LexFault {
    ghost from_gives = { λ _ fault. fault ≡ NoMemory };

    fn from(_error: NoMemory) -> LexFault {
        LexFault::NoMemory
    }
}

impl From<AllocError> for LexFault {
    ghost from_gives = { λ _ fault. fault ≡ NoMemory };

    fn from(_error: AllocError) -> LexFault {
        LexFault::NoMemory
    }
}

impl<T: Drop> From<AllocFailed<T>> for LexFault {
    ghost from_gives = { λ _ fault. fault ≡ NoMemory };

    fn from(_error: AllocFailed<T>) -> LexFault {
        LexFault::NoMemory
    }
}

/// Why a run of tokens is no program of the grammar: no program goes on that way, or only one whose
/// nesting is too deep.
#[derive(Clone, Copy, Debug, PartialEq, Eq)]
pub enum SyntaxKind {
    NoTree,
    TooDeep,
}

/// Why tokens have no tree: the kind, with the place of the token that no tree goes on with, counted
/// from 0 (the number of tokens where all of them are the begin of a tree), or want of memory.
#[derive(Clone, Copy)]
pub enum SyntaxFault {
    NoTree(u32),
    TooDeep(u32),
    NoMemory,
}

impl From<NoMemory> for SyntaxFault {
    ghost from_gives = { λ _ fault. fault ≡ syntax.NoMemory };

    fn from(_error: NoMemory) -> SyntaxFault {
        SyntaxFault::NoMemory
    }
}

impl From<AllocError> for SyntaxFault {
    ghost from_gives = { λ _ fault. fault ≡ syntax.NoMemory };

    fn from(_error: AllocError) -> SyntaxFault {
        SyntaxFault::NoMemory
    }
}

impl<T: Drop> From<AllocFailed<T>> for SyntaxFault {
    ghost from_gives = { λ _ fault. fault ≡ syntax.NoMemory };

    fn from(_error: AllocFailed<T>) -> SyntaxFault {
        SyntaxFault::NoMemory
    }
}

/// Which constraint of C99 6.5 to 6.9, or limit of this language, a program breaks.
#[derive(Clone, Copy)]
pub enum TypeKind {
    /// A name that isn't declared (C99 6.5.1).
    Unknown,
    /// A second declaration in one scope (C99 6.7), a second body of a function or a body of a
    /// built-in one (6.9), a second list of members of a structure or a second member of a name.
    Twice,
    /// A type without a size where one is needed (C99 6.5.3.4, 6.7, 6.7.2.1), a parameter or a result
    /// of structure type, or a result of array type (6.7.5.3).
    Incomplete,
    /// An assignment, a step or `&` where no place stands, or a change of an array (C99 6.5.2.4,
    /// 6.5.3.1, 6.5.3.2, 6.5.16).
    NotPlace,
    /// Operands of types that the operator doesn't take, or a used value of type `void` or of
    /// structure type.
    Operand,
    /// A value that doesn't convert to the type that it is assigned to (C99 6.5.16.1).
    Assign,
    /// A wrong number of arguments (C99 6.5.2.2) or of an initialiser's items (6.7.8).
    Count,
    /// A call of what is no function, or a function's name that isn't called.
    NotFunction,
    /// No such member, or no structure before `.` or `->` (C99 6.5.2.3).
    Member,
    /// No constant where one is needed (C99 6.6), or one out of its limits.
    Constant,
    /// A `break`, `continue` or `return` that doesn't fit where it stands (C99 6.8.6).
    Jump,
    /// A called function, or `main`, that has no body of the right type (C99 5.1.2.2.1, 6.9).
    NoBody,
}

/// Why a program has no types: the kind of its first fault with the place of a token, counted from 0,
/// or want of memory. The greatest place stands for no token.
#[derive(Clone, Copy)]
pub enum TypeFault {
    Fault(TypeKind, u32),
    NoMemory,
}

impl From<NoMemory> for TypeFault {
    ghost from_gives = { λ _ fault. fault ≡ typing.NoMemory };

    fn from(_error: NoMemory) -> TypeFault {
        TypeFault::NoMemory
    }
}

impl From<AllocError> for TypeFault {
    ghost from_gives = { λ _ fault. fault ≡ typing.NoMemory };

    fn from(_error: AllocError) -> TypeFault {
        TypeFault::NoMemory
    }
}

impl<T: Drop> From<AllocFailed<T>> for TypeFault {
    ghost from_gives = { λ _ fault. fault ≡ typing.NoMemory };

    fn from(_error: AllocFailed<T>) -> TypeFault {
        TypeFault::NoMemory
    }
}

/// Why a source isn't compiled: a fault of its tokens, of its syntax or of its types, with the line
/// and the column where it stands, both counted from 1; static objects or code past their limits; or
/// want of memory.
#[derive(Clone, Copy)]
pub enum SourceFault {
    Lex {
        kind: LexKind,
        line: u32,
        column: u32,
    },
    Syntax {
        kind: SyntaxKind,
        line: u32,
        column: u32,
    },
    Typing {
        kind: TypeKind,
        line: u32,
        column: u32,
    },
    Statics,
    Code,
    NoMemory,
}

impl From<NoMemory> for SourceFault {
    ghost from_gives = { λ _ fault. fault ≡ source.NoMemory };

    fn from(_error: NoMemory) -> SourceFault {
        SourceFault::NoMemory
    }
}
