use ob_model::LoadKind;
use ob_words::{BinOp, IntType, Relation};

/// One instruction. `a` is the word of the frame that it writes (for `Store` one that it reads), `b` and
/// `c` are words that it reads, `imm` is a number, a place in the code, or the number of a function,
/// static object or local row, and `line` is the source line that a stray access is told with.
#[derive(Clone, Copy, Debug, PartialEq, Eq)]
pub enum Instr {
    Tick,
    Set {
        a: u32,
        imm: i64,
    },
    Move {
        a: u32,
        b: u32,
    },
    Convert {
        kind: IntType,
        a: u32,
        b: u32,
    },
    Binary {
        kind: IntType,
        operator: BinOp,
        a: u32,
        b: u32,
        c: u32,
    },
    Compare {
        kind: IntType,
        relation: Relation,
        a: u32,
        b: u32,
        c: u32,
    },
    Jump {
        imm: i64,
    },
    JumpZero {
        b: u32,
        imm: i64,
    },
    JumpNonzero {
        b: u32,
        imm: i64,
    },
    Call {
        a: u32,
        b: u32,
        imm: i64,
    },
    Return {
        b: u32,
    },
    Static {
        a: u32,
        imm: i64,
    },
    Local {
        a: u32,
        imm: i64,
    },
    Wipe {
        imm: i64,
    },
    Load {
        kind: LoadKind,
        line: u32,
        a: u32,
        b: u32,
        c: u32,
    },
    Store {
        kind: LoadKind,
        line: u32,
        a: u32,
        b: u32,
        c: u32,
    },
    Slide {
        a: u32,
        b: u32,
        c: u32,
        imm: i64,
    },
    SlideBy {
        a: u32,
        b: u32,
        imm: i64,
    },
    Shift {
        a: u32,
        b: u32,
        c: u32,
    },
    Same {
        a: u32,
        b: u32,
        c: u32,
    },
    Order {
        relation: Relation,
        a: u32,
        b: u32,
        c: u32,
    },
    Difference {
        a: u32,
        b: u32,
        c: u32,
        imm: i64,
    },
    GetChar {
        a: u32,
    },
    PutChar {
        a: u32,
        b: u32,
    },
    Malloc {
        a: u32,
        b: u32,
    },
    Calloc {
        a: u32,
        b: u32,
        c: u32,
    },
    Free {
        line: u32,
        b: u32,
    },
    Exit {
        b: u32,
    },
}
