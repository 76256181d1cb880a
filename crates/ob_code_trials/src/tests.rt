use ob_base::{NoMemory, Text};
use ob_code::{FunctionRow, Image, Instr, LocalRow, NameRow, Part, Rows, StaticRow, verify};
use ob_model::Profile;
use std::alloc::{AllocError, Global};

mod code;
mod limits;
mod names;
mod rows;

pub const END: Instr = Instr::Return { b: 2 };

// The part and row at fault; none where the image is verified.
pub fn fault(image: Image) -> Option<(Part, u64)> {
    match verify(image) {
        Ok(_) => None,
        Err(bad) => Some((bad.part, bad.at)),
    }
}

// A function without local objects.
pub fn function(
    alloc: Global,
    entry: u32,
    params: u32,
    words: u32,
    vars: u32,
    allowance: u64,
) -> FunctionRow {
    FunctionRow {
        entry,
        params,
        words,
        vars,
        allowance,
        locals: Rows::from_vec(Vec::new(alloc)),
    }
}

// An image of these functions and of this code alone.
pub fn image(
    alloc: Global,
    functions: Vec<FunctionRow>,
    main: u32,
    code: &[Instr],
) -> Result<Image, AllocError> {
    let code = Vec::from_slice(alloc, code)?;
    Ok(Image {
        profile: Profile::One,
        statics: Rows::from_vec(Vec::new(alloc)),
        pointers: Rows::from_vec(Vec::new(alloc)),
        functions: Rows::from_vec(functions),
        main,
        code: Rows::from_vec(code),
        names: Rows::from_vec(Vec::new(alloc)),
    })
}

// An image of one function with four words.
pub fn one_function(alloc: Global, code: &[Instr]) -> Result<Image, AllocError> {
    let mut functions = Vec::new(alloc);
    functions.push(function(alloc, 0, 0, 4, 0, 32))?;
    image(alloc, functions, 0, code)
}

// So many static objects of so many bytes, of which none is given.
pub fn statics(alloc: Global, count: u32, size: u64) -> Result<Rows<StaticRow>, AllocError> {
    let mut rows = Vec::new(alloc);
    for _ in 0..count {
        rows.push(StaticRow {
            size,
            given: Text::new(alloc),
        })?;
    }
    Ok(Rows::from_vec(rows))
}

// A function with four words and four variables, of which the second and the third have bytes: 4 and 10.
fn with_locals(alloc: Global) -> Result<FunctionRow, AllocError> {
    let locals = [
        LocalRow {
            ordinal: 1,
            place: 32,
            size: 4,
        },
        LocalRow {
            ordinal: 2,
            place: 48,
            size: 10,
        },
    ];
    let locals = Vec::from_slice(alloc, &locals)?;
    Ok(FunctionRow {
        entry: 0,
        params: 0,
        words: 4,
        vars: 4,
        allowance: 64,
        locals: Rows::from_vec(locals),
    })
}

// An image with two static objects of 8 bytes, and one function with local objects.
pub fn with_objects(alloc: Global, code: &[Instr]) -> Result<Image, AllocError> {
    let mut functions = Vec::new(alloc);
    functions.push(with_locals(alloc)?)?;
    let mut made = image(alloc, functions, 0, code)?;
    made.statics = statics(alloc, 2, 8)?;
    Ok(made)
}

// A row of names by its holder, ordinal, word, kind and name.
pub type Named = (u32, u32, u32, u32, &'static [u8]);

pub fn name_row(alloc: Global, row: &Named) -> Result<NameRow, NoMemory> {
    let (holder, ordinal, word, kind, bytes) = *row;
    let mut name = Text::new(alloc);
    name.add(bytes)?;
    Ok(NameRow {
        holder,
        ordinal,
        line: 1,
        word,
        kind,
        name,
    })
}
