use crate::tests::{END, fault, function, image, name_row, one_function, statics};
use ob_base::NoMemory;
use ob_code::{Image, Instr, NameRow, Part, PointerRow, Rows};
use std::alloc::{AllocError, Global};
use std::test::Fail;

const POINTER: PointerRow = PointerRow {
    holder: 1,
    offset: 0,
    target: 1,
    target_offset: 0,
};

fn pointers(alloc: Global, count: u32) -> Result<Rows<PointerRow>, AllocError> {
    let mut rows = Vec::new(alloc);
    for _ in 0..count {
        rows.push(POINTER)?;
    }
    Ok(Rows::from_vec(rows))
}

// As many static objects and pointers as there may be, and one more. The blocks of so many static objects
// take all their bytes; pointers without an object to lie in are at fault at the first.
#[test]
fn limits_of_objects(rt: HostRuntime) -> Result<(), Fail> {
    for (count, want) in &[(262_144, None), (262_145, Some((Part::Static, 262_144)))] {
        let mut made = one_function(rt.alloc(), &[END])?;
        made.statics = statics(rt.alloc(), *count, 0)?;
        assert_eq!(rt; fault(made), *want);
    }
    for (count, row) in &[(524_288, 0), (524_289, 524_288)] {
        let mut made = one_function(rt.alloc(), &[END])?;
        made.pointers = pointers(rt.alloc(), *count)?;
        assert_eq!(rt; fault(made), Some((Part::Pointer, *row)));
    }
    Ok(())
}

fn functions(alloc: Global, count: u32) -> Result<Image, AllocError> {
    let mut functions = Vec::new(alloc);
    let mut code = Vec::new(alloc);
    for entry in 0..count {
        functions.push(function(alloc, entry, 0, 3, 0, 32))?;
        code.push(END)?;
    }
    image(alloc, functions, 0, &code)
}

fn ticks(alloc: Global, count: u32) -> Result<Image, AllocError> {
    let mut code = Vec::new(alloc);
    for _ in 1..count {
        code.push(Instr::Tick)?;
    }
    code.push(END)?;
    one_function(alloc, &code)
}

// As many functions and instructions as there may be, and one more.
#[test]
fn limits_of_code(rt: HostRuntime) -> Result<(), Fail> {
    for (count, want) in &[(65_536, None), (65_537, Some((Part::Function, 65_536)))] {
        assert_eq!(rt; fault(functions(rt.alloc(), *count)?), *want);
    }
    for (count, want) in &[
        (1_048_576, None),
        (1_048_577, Some((Part::Code, 1_048_576))),
    ] {
        assert_eq!(rt; fault(ticks(rt.alloc(), *count)?), *want);
    }
    Ok(())
}

fn names(alloc: Global, count: u32) -> Result<Rows<NameRow>, NoMemory> {
    let mut rows = Vec::new(alloc);
    for _ in 0..count {
        rows.push(name_row(alloc, &(0, 0, 0, 0, b""))?)?;
    }
    Ok(Rows::from_vec(rows))
}

// Too many names are told before any of them.
#[test]
fn limit_of_names(rt: HostRuntime) -> Result<(), Fail> {
    for (count, row) in &[(1_048_576, 0), (1_048_577, 1_048_576)] {
        let mut made = one_function(rt.alloc(), &[END])?;
        made.names = names(rt.alloc(), *count)?;
        assert_eq!(rt; fault(made), Some((Part::Names, *row)));
    }
    Ok(())
}

// Parts are tested in their order, and an image needs a function.
#[test]
fn parts_in_order(rt: HostRuntime) -> Result<(), Fail> {
    let mut made = image(rt.alloc(), Vec::new(rt.alloc()), 7, &[])?;
    made.names = names(rt.alloc(), 1)?;
    assert_eq!(rt; fault(made), Some((Part::Function, 0)));
    let mut made = image(rt.alloc(), Vec::new(rt.alloc()), 7, &[])?;
    made.pointers = pointers(rt.alloc(), 1)?;
    assert_eq!(rt; fault(made), Some((Part::Pointer, 0)));
    let mut made = image(rt.alloc(), Vec::new(rt.alloc()), 7, &[])?;
    made.pointers = pointers(rt.alloc(), 1)?;
    made.statics = statics(rt.alloc(), 1, 4_194_304)?;
    assert_eq!(rt; fault(made), Some((Part::Static, 0)));
    Ok(())
}
