use crate::tests::{END, fault, function, image, statics};
use ob_code::{Image, Instr, Part, PointerRow, Rows};
use std::alloc::{AllocError, Global};
use std::test::Fail;

// Each field of a function row at its edges, in an image of one function: entry, parameters, words,
// variables, allowance, and the part that is at fault in its row 0.
const FRAMES: [(u32, u32, u32, u32, u64, Option<Part>); 14] = [
    (0, 0, 4, 0, 32, None),
    (1, 0, 4, 0, 32, Some(Part::Function)),
    (0, 0, 3, 0, 32, None),
    (0, 0, 1, 0, 16, Some(Part::Function)),
    (0, 0, 4_194_304, 0, 33_554_432, None),
    (0, 0, 4_194_305, 0, 33_554_448, Some(Part::Function)),
    (0, 0, 4, 524_288, 32, None),
    (0, 0, 4, 524_289, 32, Some(Part::Function)),
    (0, 0, 4, 0, 0x4000_0000_0000_0000, None),
    (0, 0, 4, 0, 0x4000_0000_0000_0010, Some(Part::Function)),
    (0, 0, 4, 0, 40, Some(Part::Function)),
    (0, 0, 5, 0, 32, Some(Part::Function)),
    (0, 1, 3, 0, 32, Some(Part::Main)),
    (0, 2, 3, 0, 32, Some(Part::Function)),
];

#[test]
fn frames(rt: HostRuntime) -> Result<(), Fail> {
    for (entry, params, words, vars, allowance, part) in &FRAMES {
        let mut functions = Vec::new(rt.alloc());
        functions.push(function(rt.alloc(), *entry, *params, *words, *vars, *allowance))?;
        let made = image(rt.alloc(), functions, 0, &[END])?;
        assert_eq!(rt;
            fault(made).map(|f| f.0),
            *part,
            "{entry} {params} {words} {vars} {allowance}"
        );
    }
    Ok(())
}

const CALL: Instr = Instr::Call { a: 2, b: 3, imm: 2 };

const BACK: Instr = Instr::Jump { imm: 0 };

const AFTER: Instr = Instr::Jump { imm: 2 };

// Entries begin at 0, increase and lie in the code; main exists; jumps stay in their function, and a call
// has its parameters.
const ORDERS: [([u32; 3], u32, [Instr; 3], Option<(Part, u64)>); 14] = [
    ([0, 1, 2], 0, [END, END, END], None),
    ([0, 1, 1], 0, [END, END, END], Some((Part::Function, 2))),
    ([0, 2, 1], 0, [END, END, END], Some((Part::Function, 2))),
    ([0, 1, 3], 0, [END, END, END], Some((Part::Function, 2))),
    ([0, 3, 2], 0, [END, END, END], Some((Part::Function, 1))),
    ([1, 2, 3], 0, [END, END, END], Some((Part::Function, 0))),
    ([0, 1, 2], 1, [END, END, END], None),
    ([0, 1, 2], 2, [END, END, END], Some((Part::Main, 0))),
    ([0, 1, 2], 3, [END, END, END], Some((Part::Main, 0))),
    ([0, 1, 2], 0, [END, Instr::Jump { imm: 1 }, END], None),
    ([0, 1, 2], 0, [END, BACK, END], Some((Part::Code, 1))),
    ([0, 1, 2], 0, [END, AFTER, END], Some((Part::Code, 1))),
    ([0, 1, 2], 0, [END, Instr::Tick, END], Some((Part::Code, 1))),
    ([0, 1, 2], 0, [CALL, END, END], Some((Part::Code, 0))),
];

fn three_functions(
    alloc: Global,
    entries: &[u32; 3],
    main: u32,
    code: &[Instr],
) -> Result<Image, AllocError> {
    let mut functions = Vec::new(alloc);
    functions.push(function(alloc, entries[0], 0, 4, 0, 32))?;
    functions.push(function(alloc, entries[1], 0, 4, 0, 32))?;
    functions.push(function(alloc, entries[2], 1, 4, 0, 32))?;
    image(alloc, functions, main, code)
}

#[test]
fn functions_in_order(rt: HostRuntime) -> Result<(), Fail> {
    for (entries, main, code, want) in &ORDERS {
        let made = three_functions(rt.alloc(), entries, *main, code)?;
        assert_eq!(rt; fault(made), *want, "{entries:?} {main} {code:?}");
    }
    Ok(())
}

// A pointer that a static object of 16 bytes holds, to one of 16 bytes beside it: holder, offset, target
// and target offset, and whether it is sound.
const POINTERS: [(u32, u64, u32, u64, bool); 11] = [
    (1, 0, 2, 0, true),
    (1, 8, 2, 16, true),
    (2, 8, 2, 0, true),
    (0, 0, 2, 0, false),
    (3, 0, 2, 0, false),
    (1, 4, 2, 0, false),
    (1, 16, 2, 0, false),
    (1, u64::MAX - 7, 2, 0, false),
    (1, 0, 0, 0, false),
    (1, 0, 3, 0, false),
    (1, 0, 2, 17, false),
];

#[test]
fn pointers(rt: HostRuntime) -> Result<(), Fail> {
    for (holder, offset, target, target_offset, sound) in &POINTERS {
        let row = PointerRow {
            holder: *holder,
            offset: *offset,
            target: *target,
            target_offset: *target_offset,
        };
        let mut functions = Vec::new(rt.alloc());
        functions.push(function(rt.alloc(), 0, 0, 4, 0, 32))?;
        let mut made = image(rt.alloc(), functions, 0, &[END])?;
        made.statics = statics(rt.alloc(), 2, 16)?;
        made.pointers = Rows::from_vec(Vec::from_slice(rt.alloc(), &[row])?);
        let want = if *sound {
            None
        } else {
            Some((Part::Pointer, 0))
        };
        assert_eq!(rt; fault(made), want, "{row:?}");
    }
    Ok(())
}
