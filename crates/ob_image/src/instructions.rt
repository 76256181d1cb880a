ghost use Rattle.std.specs.Prelude.{◌≡◌, ◌≤◌};
ghost use Rattle.ob_image.specs.Instructions.{instruction};
ghost use Rattle.ob_image.specs.Layout.{AreFields};

use crate::kinds::{integer_type, load_kind, operator, relation};
use crate::layout::Fields;
use ob_code::Instr;

// Operations 1 to 6: on numbers.
#[tactic(auto, unfolding(crate::specs::Instructions::instruction, crate::specs::Instructions::instructions))]
fn number_form(f: Fields) -> Instr
    requires form { AreFields f }
    requires last { f.op ≤ 6 }
    ensures { result ≡ instruction f }
{
    let (a, b, c) = (f.a, f.b, f.c);
    let imm = f.imm.cast_signed();
    match f.op {
        2 => Instr::Set { a, imm },
        3 => Instr::Move { a, b },
        4 => Instr::Convert {
            kind: integer_type(f.kind),
            a,
            b,
        },
        5 => Instr::Binary {
            kind: integer_type(f.kind),
            operator: operator(f.imm),
            a,
            b,
            c,
        },
        6 => Instr::Compare {
            kind: integer_type(f.kind),
            relation: relation(f.imm),
            a,
            b,
            c,
        },
        _ => Instr::Tick,
    }
}

// Operations 7 to 11: jumps and calls.
#[tactic(auto, unfolding(crate::specs::Instructions::instruction, crate::specs::Instructions::instructions))]
fn control_form(f: Fields) -> Instr
    requires form { AreFields f }
    requires first { 7 ≤ f.op }
    requires last { f.op ≤ 11 }
    ensures { result ≡ instruction f }
{
    let (a, b) = (f.a, f.b);
    let imm = f.imm.cast_signed();
    match f.op {
        7 => Instr::Jump { imm },
        8 => Instr::JumpZero { b, imm },
        9 => Instr::JumpNonzero { b, imm },
        10 => Instr::Call { a, b, imm },
        _ => Instr::Return { b },
    }
}

// Operations 12 to 16: on objects.
#[tactic(auto, unfolding(crate::specs::Instructions::instruction, crate::specs::Instructions::instructions))]
fn object_form(f: Fields) -> Instr
    requires form { AreFields f }
    requires first { 12 ≤ f.op }
    requires last { f.op ≤ 16 }
    ensures { result ≡ instruction f }
{
    let (line, a, b, c) = (f.line, f.a, f.b, f.c);
    let imm = f.imm.cast_signed();
    match f.op {
        12 => Instr::Static { a, imm },
        13 => Instr::Local { a, imm },
        15 => Instr::Load {
            kind: load_kind(f.kind),
            line,
            a,
            b,
            c,
        },
        16 => Instr::Store {
            kind: load_kind(f.kind),
            line,
            a,
            b,
            c,
        },
        _ => Instr::Wipe { imm },
    }
}

// Operations 17 to 22: on displacements and pointers.
#[tactic(auto, unfolding(crate::specs::Instructions::instruction, crate::specs::Instructions::instructions))]
fn pointer_form(f: Fields) -> Instr
    requires form { AreFields f }
    requires first { 17 ≤ f.op }
    requires last { f.op ≤ 22 }
    ensures { result ≡ instruction f }
{
    let (a, b, c) = (f.a, f.b, f.c);
    let imm = f.imm.cast_signed();
    match f.op {
        17 => Instr::Slide { a, b, c, imm },
        18 => Instr::SlideBy { a, b, imm },
        20 => Instr::Same { a, b, c },
        21 => Instr::Order {
            relation: relation(f.imm),
            a,
            b,
            c,
        },
        22 => Instr::Difference { a, b, c, imm },
        _ => Instr::Shift { a, b, c },
    }
}

// Operations 23 to 28: input, output, the heap, and the end.
#[tactic(auto, unfolding(crate::specs::Instructions::instruction, crate::specs::Instructions::instructions))]
fn service_form(f: Fields) -> Instr
    requires form { AreFields f }
    requires first { 23 ≤ f.op }
    ensures { result ≡ instruction f }
{
    let (line, a, b, c) = (f.line, f.a, f.b, f.c);
    match f.op {
        23 => Instr::GetChar { a },
        24 => Instr::PutChar { a, b },
        25 => Instr::Malloc { a, b },
        26 => Instr::Calloc { a, b, c },
        27 => Instr::Free { line, b },
        _ => Instr::Exit { b },
    }
}

/// The instruction that fields stand for.
pub(crate) fn instruction(f: Fields) -> Instr
    requires { AreFields f }
    ensures { result ≡ instruction f }
{
    if f.op <= 6 {
        number_form(f)
    } else if f.op <= 11 {
        control_form(f)
    } else if f.op <= 16 {
        object_form(f)
    } else if f.op <= 22 {
        pointer_form(f)
    } else {
        service_form(f)
    }
}
