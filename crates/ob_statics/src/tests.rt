ghost use Rattle.std.specs.Prelude.{◌≡◌, length, IfOk};
ghost use Rattle.ob_flat.specs.Memory.{IsLaidOut};
ghost use Rattle.ob_code.specs.Layout.{static_blocks};

use crate::{Statics, law_zeroed};
use ob_base::{NoMemory, Text};
use ob_code::{FunctionRow, Image, Instr, PointerRow, Rows, StaticRow, verify};
use ob_flat::Flat;
use ob_model::Profile;
use std::alloc::Global;
use std::process::Abort;
use std::test::Fail;

fn static_row(alloc: Global, size: u64, given: &[u8]) -> Result<StaticRow, NoMemory> {
    let mut text = Text::new(alloc);
    text.add(given)?;
    Ok(StaticRow { size, given: text })
}

// Objects of 6, 16 and 0 bytes. The second holds two pointers: to its own end, and into the first.
fn statics(alloc: Global) -> Result<Rows<StaticRow>, NoMemory> {
    let mut rows = Vec::new(alloc);
    rows.push(static_row(alloc, 6, b"hello")?)?;
    rows.push(static_row(alloc, 16, b"")?)?;
    rows.push(static_row(alloc, 0, b"")?)?;
    Ok(Rows::from_vec(rows))
}

const POINTERS: [PointerRow; 2] = [
    PointerRow {
        holder: 2,
        offset: 0,
        target: 2,
        target_offset: 16,
    },
    PointerRow {
        holder: 2,
        offset: 8,
        target: 1,
        target_offset: 3,
    },
];

fn image(alloc: Global) -> Result<Image, NoMemory> {
    let mut functions = Vec::new(alloc);
    functions.push(FunctionRow {
        entry: 0,
        params: 0,
        words: 3,
        vars: 0,
        allowance: 32,
        locals: Rows::from_vec(Vec::new(alloc)),
    })?;
    Ok(Image {
        profile: Profile::One,
        statics: statics(alloc)?,
        pointers: Rows::from_vec(Vec::from_slice(alloc, &POINTERS)?),
        functions: Rows::from_vec(functions),
        main: 0,
        code: Rows::from_vec(Vec::from_slice(alloc, &[Instr::Return { b: 2 }])?),
        names: Rows::from_vec(Vec::new(alloc)),
    })
}

// The memory in which these objects are laid out.
fn laid_out(alloc: Global, statics: &Statics) -> Result<Flat, NoMemory>
    ensures { IfOk result (λ flat. flat.statics ≡ static_blocks statics.now.statics) }
{
    law_zeroed();
    statics.law_sound();
    let mut flat = Flat::new(alloc, statics.blocks(), 16, 16)?;
    statics.lay_out(&mut flat);
    Ok(flat)
}

// Where the objects lie, and their sizes.
const OBJECTS: [(u64, u64); 3] = [(4096, 6), (4112, 16), (4144, 0)];

fn check_objects(rt: &impl Abort, statics: &Statics)
    requires { length statics.now.statics ≡ 3 }
{
    for i in 0..3 {
        let number = i as u32 + 1;
        assert_eq!(rt; (statics.base(number), statics.size(number)), OBJECTS[i]);
    }
}

// The granules of the three blocks, and whether each holds a pointer.
const GRANULES: [(u64, bool); 8] = [
    (0x6f_6c6c_6568, false),
    (0, false),
    (4128, true),
    (4099, true),
    (0, false),
    (0, false),
    (0, false),
    (0, false),
];

fn check_granules(rt: &impl Abort, flat: &Flat)
    requires { flat.now.statics ≡ 64 }
{
    for i in 0..8 {
        let address = 4096 + 8 * i as u64;
        assert_eq!(rt;
            (flat.get(address, 8), flat.is_pointer(address)),
            GRANULES[i]
        );
    }
}

// Each object lies behind the block before it, its bytes are there, and its pointers are marked.
#[test]
fn objects_and_pointers(rt: HostRuntime) -> Result<(), Fail> {
    let alloc = rt.alloc();
    let v = verify(image(alloc)?)
        .ok()
        .expect(&rt, "the image keeps the rules");
    let rows = v.image();
    let statics = Statics::new(alloc, rows.statics.as_slice(), rows.pointers.as_slice())?;
    assert!(rt; statics.len() == 3 && statics.blocks() == 64);
    check_objects(&rt, &statics);
    let flat = laid_out(alloc, &statics)?;
    check_granules(&rt, &flat);
    Ok(())
}
