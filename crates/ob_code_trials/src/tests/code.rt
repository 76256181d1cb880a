use crate::tests::{END, fault, one_function, with_objects};
use ob_code::{Instr, Part};
use ob_model::LoadKind;
use ob_words::{BinOp, IntType, Relation};
use std::test::Fail;

const LOAD: LoadKind = LoadKind::Ptr;

// Each form with its operands at their edges, as the middle one of three instructions of a function with
// four words and two local objects, beside two static objects.
#[rattlefmt::skip]
const OPERANDS: [(Instr, bool); 71] = [
    (Instr::Tick, true),
    (Instr::Set { a: 2, imm: i64::MIN }, true),
    (Instr::Set { a: 3, imm: 0 }, true),
    (Instr::Set { a: 1, imm: 0 }, false),
    (Instr::Set { a: 4, imm: 0 }, false),
    (Instr::Move { a: 2, b: 3 }, true),
    (Instr::Move { a: 2, b: 4 }, false),
    (Instr::Move { a: 0, b: 0 }, false),
    (Instr::Convert { kind: IntType::Char, a: 3, b: 0 }, true),
    (Instr::Convert { kind: IntType::Char, a: 4, b: 0 }, false),
    (Instr::Convert { kind: IntType::Char, a: 2, b: 4 }, false),
    (Instr::Binary { kind: IntType::Int, operator: BinOp::Add, a: 2, b: 3, c: 3 }, true),
    (Instr::Binary { kind: IntType::Int, operator: BinOp::Add, a: 2, b: 4, c: 3 }, false),
    (Instr::Binary { kind: IntType::Int, operator: BinOp::Add, a: 2, b: 3, c: 4 }, false),
    (Instr::Compare { kind: IntType::Int, relation: Relation::Ne, a: 2, b: 0, c: 1 }, true),
    (Instr::Compare { kind: IntType::Int, relation: Relation::Ne, a: 1, b: 0, c: 1 }, false),
    (Instr::Jump { imm: 0 }, true),
    (Instr::Jump { imm: 2 }, true),
    (Instr::Jump { imm: 3 }, false),
    (Instr::Jump { imm: -1 }, false),
    (Instr::JumpZero { b: 3, imm: 2 }, true),
    (Instr::JumpZero { b: 4, imm: 2 }, false),
    (Instr::JumpZero { b: 3, imm: 3 }, false),
    (Instr::JumpNonzero { b: 0, imm: 0 }, true),
    (Instr::JumpNonzero { b: 0, imm: -1 }, false),
    (Instr::Call { a: 2, b: 3, imm: 0 }, true),
    (Instr::Call { a: 2, b: 4, imm: 0 }, false),
    (Instr::Call { a: 2, b: 3, imm: 1 }, false),
    (Instr::Call { a: 2, b: 3, imm: -1 }, false),
    (Instr::Return { b: 3 }, true),
    (Instr::Return { b: 4 }, false),
    (Instr::Static { a: 2, imm: 1 }, true),
    (Instr::Static { a: 2, imm: 2 }, true),
    (Instr::Static { a: 2, imm: 0 }, false),
    (Instr::Static { a: 2, imm: 3 }, false),
    (Instr::Local { a: 2, imm: 1 }, true),
    (Instr::Local { a: 2, imm: 2 }, false),
    (Instr::Local { a: 2, imm: -1 }, false),
    (Instr::Wipe { imm: 0 }, true),
    (Instr::Wipe { imm: 2 }, false),
    (Instr::Load { kind: LOAD, line: 1, a: 2, b: 0, c: 3 }, true),
    (Instr::Load { kind: LOAD, line: 1, a: 1, b: 0, c: 3 }, false),
    (Instr::Store { kind: LOAD, line: 1, a: 0, b: 3, c: 3 }, true),
    (Instr::Store { kind: LOAD, line: 1, a: 4, b: 3, c: 3 }, false),
    (Instr::Slide { a: 2, b: 3, c: 3, imm: 4_194_304 }, true),
    (Instr::Slide { a: 2, b: 3, c: 3, imm: -4_194_304 }, true),
    (Instr::Slide { a: 2, b: 3, c: 3, imm: 4_194_305 }, false),
    (Instr::Slide { a: 2, b: 3, c: 3, imm: -4_194_305 }, false),
    (Instr::SlideBy { a: 2, b: 3, imm: 0 }, true),
    (Instr::SlideBy { a: 2, b: 3, imm: 4_194_304 }, true),
    (Instr::SlideBy { a: 2, b: 3, imm: 4_194_305 }, false),
    (Instr::SlideBy { a: 2, b: 3, imm: -1 }, false),
    (Instr::Shift { a: 2, b: 3, c: 3 }, true),
    (Instr::Same { a: 2, b: 3, c: 4 }, false),
    (Instr::Order { relation: Relation::Ge, a: 2, b: 2, c: 2 }, true),
    (Instr::Order { relation: Relation::Eq, a: 2, b: 2, c: 2 }, false),
    (Instr::Difference { a: 2, b: 2, c: 2, imm: 1 }, true),
    (Instr::Difference { a: 2, b: 2, c: 2, imm: 0 }, false),
    (Instr::Difference { a: 2, b: 2, c: 2, imm: 4_194_305 }, false),
    (Instr::GetChar { a: 3 }, true),
    (Instr::GetChar { a: 1 }, false),
    (Instr::PutChar { a: 3, b: 0 }, true),
    (Instr::PutChar { a: 3, b: 4 }, false),
    (Instr::Malloc { a: 2, b: 2 }, true),
    (Instr::Malloc { a: 1, b: 2 }, false),
    (Instr::Calloc { a: 2, b: 2, c: 3 }, true),
    (Instr::Calloc { a: 2, b: 2, c: 4 }, false),
    (Instr::Free { line: 1, b: 3 }, true),
    (Instr::Free { line: 1, b: 4 }, false),
    (Instr::Exit { b: 3 }, true),
    (Instr::Exit { b: 4 }, false),
];

#[test]
fn operands(rt: HostRuntime) -> Result<(), Fail> {
    for (instr, sound) in &OPERANDS {
        let made = with_objects(rt.alloc(), &[Instr::Tick, *instr, END])?;
        assert_eq!(rt; fault(made).is_none(), *sound, "{instr:?}");
    }
    Ok(())
}

const GOOD: Instr = Instr::Set { a: 2, imm: 0 };

const BAD: Instr = Instr::Set { a: 4, imm: 0 };

// A rule that is broken at the first, a middle and the last instruction; the first one counts. Only Jump,
// Return and Exit may stand last.
const PLACES: [([Instr; 4], Option<(Part, u64)>); 10] = [
    ([GOOD, GOOD, GOOD, END], None),
    ([BAD, GOOD, GOOD, END], Some((Part::Code, 0))),
    ([GOOD, GOOD, BAD, END], Some((Part::Code, 2))),
    ([GOOD, BAD, BAD, END], Some((Part::Code, 1))),
    (
        [GOOD, GOOD, GOOD, Instr::Return { b: 4 }],
        Some((Part::Code, 3)),
    ),
    ([GOOD, GOOD, GOOD, GOOD], Some((Part::Code, 3))),
    ([GOOD, GOOD, GOOD, Instr::Exit { b: 2 }], None),
    ([GOOD, GOOD, GOOD, Instr::Jump { imm: 3 }], None),
    (
        [GOOD, GOOD, GOOD, Instr::Jump { imm: 4 }],
        Some((Part::Code, 3)),
    ),
    (
        [GOOD, GOOD, GOOD, Instr::JumpZero { b: 2, imm: 0 }],
        Some((Part::Code, 3)),
    ),
];

#[test]
fn places_of_faults(rt: HostRuntime) -> Result<(), Fail> {
    for (code, want) in &PLACES {
        let made = one_function(rt.alloc(), code)?;
        assert_eq!(rt; fault(made), *want, "{code:?}");
    }
    Ok(())
}
