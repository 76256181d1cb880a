ghost use Rattle.std.specs.Prelude.{◌≡◌};
ghost use Rattle.ob_image.specs.Layout.{fields_of, HasNumber, IsInstruction};
ghost use Rattle.ob_image.specs.Rules.{InstructionRule};

use crate::kinds::{kind_number, operator_number, relation_number, type_number};
use crate::layout::Fields;
use ob_code::Instr;

fn operation_of(instr: Instr) -> u8
    ensures { result ≡ (fields_of instr).op }
{
    match instr {
        Instr::Tick => 1,
        Instr::Set { .. } => 2,
        Instr::Move { .. } => 3,
        Instr::Convert { .. } => 4,
        Instr::Binary { .. } => 5,
        Instr::Compare { .. } => 6,
        Instr::Jump { .. } => 7,
        Instr::JumpZero { .. } => 8,
        Instr::JumpNonzero { .. } => 9,
        Instr::Call { .. } => 10,
        Instr::Return { .. } => 11,
        Instr::Static { .. } => 12,
        Instr::Local { .. } => 13,
        Instr::Wipe { .. } => 14,
        Instr::Load { .. } => 15,
        Instr::Store { .. } => 16,
        Instr::Slide { .. } => 17,
        Instr::SlideBy { .. } => 18,
        Instr::Shift { .. } => 19,
        Instr::Same { .. } => 20,
        Instr::Order { .. } => 21,
        Instr::Difference { .. } => 22,
        Instr::GetChar { .. } => 23,
        Instr::PutChar { .. } => 24,
        Instr::Malloc { .. } => 25,
        Instr::Calloc { .. } => 26,
        Instr::Free { .. } => 27,
        Instr::Exit { .. } => 28,
    }
}

fn kind_of(instr: Instr) -> u8
    ensures { result ≡ (fields_of instr).kind }
{
    match instr {
        Instr::Convert { kind, .. } => type_number(kind),
        Instr::Binary { kind, .. } | Instr::Compare { kind, .. } => type_number(kind),
        Instr::Load { kind, .. } | Instr::Store { kind, .. } => kind_number(kind),
        _ => 0,
    }
}

fn line_of(instr: Instr) -> u32
    ensures { result ≡ (fields_of instr).line }
{
    match instr {
        Instr::Load { line, .. } | Instr::Store { line, .. } => line,
        Instr::Free { line, .. } => line,
        _ => 0,
    }
}

fn a_of(instr: Instr) -> u32
    ensures { result ≡ (fields_of instr).a }
{
    match instr {
        Instr::Set { a, .. } | Instr::Move { a, .. } => a,
        Instr::Convert { a, .. } | Instr::Binary { a, .. } => a,
        Instr::Compare { a, .. } | Instr::Call { a, .. } => a,
        Instr::Static { a, .. } | Instr::Local { a, .. } => a,
        Instr::Load { a, .. } | Instr::Store { a, .. } => a,
        Instr::Slide { a, .. } | Instr::SlideBy { a, .. } => a,
        Instr::Shift { a, .. } | Instr::Same { a, .. } => a,
        Instr::Order { a, .. } | Instr::Difference { a, .. } => a,
        Instr::GetChar { a } | Instr::PutChar { a, .. } => a,
        Instr::Malloc { a, .. } | Instr::Calloc { a, .. } => a,
        _ => 0,
    }
}

fn b_of(instr: Instr) -> u32
    ensures { result ≡ (fields_of instr).b }
{
    match instr {
        Instr::Move { b, .. } | Instr::Convert { b, .. } => b,
        Instr::Binary { b, .. } | Instr::Compare { b, .. } => b,
        Instr::JumpZero { b, .. } | Instr::JumpNonzero { b, .. } => b,
        Instr::Call { b, .. } | Instr::Return { b } => b,
        Instr::Load { b, .. } | Instr::Store { b, .. } => b,
        Instr::Slide { b, .. } | Instr::SlideBy { b, .. } => b,
        Instr::Shift { b, .. } | Instr::Same { b, .. } => b,
        Instr::Order { b, .. } | Instr::Difference { b, .. } => b,
        Instr::PutChar { b, .. } | Instr::Malloc { b, .. } => b,
        Instr::Calloc { b, .. } | Instr::Free { b, .. } => b,
        Instr::Exit { b } => b,
        _ => 0,
    }
}

fn c_of(instr: Instr) -> u32
    ensures { result ≡ (fields_of instr).c }
{
    match instr {
        Instr::Binary { c, .. } | Instr::Compare { c, .. } => c,
        Instr::Load { c, .. } | Instr::Store { c, .. } => c,
        Instr::Slide { c, .. } | Instr::Shift { c, .. } => c,
        Instr::Same { c, .. } | Instr::Order { c, .. } => c,
        Instr::Difference { c, .. } | Instr::Calloc { c, .. } => c,
        _ => 0,
    }
}

// A signed number as its word, or the number of an operator or relation.
fn number_of(instr: Instr) -> u64
    ensures value { result ≡ (fields_of instr).imm }
    ensures signed { HasNumber instr }
{
    match instr {
        Instr::Set { imm, .. } => imm.cast_unsigned(),
        Instr::Jump { imm } => imm.cast_unsigned(),
        Instr::JumpZero { imm, .. } => imm.cast_unsigned(),
        Instr::JumpNonzero { imm, .. } => imm.cast_unsigned(),
        Instr::Call { imm, .. } => imm.cast_unsigned(),
        Instr::Static { imm, .. } => imm.cast_unsigned(),
        Instr::Local { imm, .. } => imm.cast_unsigned(),
        Instr::Wipe { imm } => imm.cast_unsigned(),
        Instr::Slide { imm, .. } => imm.cast_unsigned(),
        Instr::SlideBy { imm, .. } => imm.cast_unsigned(),
        Instr::Difference { imm, .. } => imm.cast_unsigned(),
        Instr::Binary { operator, .. } => operator_number(operator),
        Instr::Compare { relation, .. } => relation_number(relation),
        Instr::Order { relation, .. } => relation_number(relation),
        _ => 0,
    }
}

/// The fields of an instruction, which are those of some form unless it orders pointers by `==` or `!=`.
pub(crate) fn fields_of(instr: Instr) -> Fields
    ensures value { result ≡ fields_of instr }
    ensures valid { InstructionRule instr → IsInstruction instr }
{
    Fields {
        op: operation_of(instr),
        kind: kind_of(instr),
        line: line_of(instr),
        a: a_of(instr),
        b: b_of(instr),
        c: c_of(instr),
        imm: number_of(instr),
    }
}
