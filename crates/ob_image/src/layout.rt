ghost use Rattle.std.specs.Prelude.{◌≡◌, ◌≤◌};
ghost use Rattle.ob_image.specs.Layout.{limits_of, operations};

/// A version of the format. Version 1 tells neither the profile nor names: its images have profile 1 and
/// no names.
#[derive(Clone, Copy, Debug, PartialEq, Eq)]
pub enum Version {
    One,
    Two,
}

/// The fields of an instruction as they stand in its 28 bytes. `imm` is a signed number's word, or the
/// number of an operator or relation.
#[derive(Clone, Copy, Debug, PartialEq, Eq)]
pub(crate) struct Fields {
    pub(crate) op: u8,
    pub(crate) kind: u8,
    pub(crate) line: u32,
    pub(crate) a: u32,
    pub(crate) b: u32,
    pub(crate) c: u32,
    pub(crate) imm: u64,
}

/// The greatest number that each field of a form takes: 0 where the form doesn't name it.
#[derive(Clone, Copy, Debug, PartialEq, Eq)]
pub(crate) struct Limits {
    pub(crate) kind: u8,
    pub(crate) line: u32,
    pub(crate) a: u32,
    pub(crate) b: u32,
    pub(crate) c: u32,
    pub(crate) imm: u64,
}

fn named(kind: u8, line: u32, a: u32, b: u32, c: u32, imm: u64) -> Limits
    ensures { result ≡ record { kind = kind; line = line; a = a; b = b; c = c; imm = imm } }
{
    Limits {
        kind,
        line,
        a,
        b,
        c,
        imm,
    }
}

/// The limits of the form of an operation, from 1 to 28.
#[tactic(auto, unfolding(crate::specs::Layout::limits_of, crate::specs::Layout::all_limits))]
pub(crate) fn limits_of(op: u8) -> Limits
    requires first { 1 ≤ op }
    requires last { op ≤ operations }
    ensures { result ≡ limits_of op }
{
    let word = u32::MAX;
    let number = u64::MAX;
    match op {
        1 => named(0, 0, 0, 0, 0, 0),
        2 => named(0, 0, word, 0, 0, number),
        3 => named(0, 0, word, word, 0, 0),
        4 => named(10, 0, word, word, 0, 0),
        5 => named(10, 0, word, word, word, 9),
        6 => named(10, 0, word, word, word, 5),
        7 => named(0, 0, 0, 0, 0, number),
        8 => named(0, 0, 0, word, 0, number),
        9 => named(0, 0, 0, word, 0, number),
        10 => named(0, 0, word, word, 0, number),
        11 => named(0, 0, 0, word, 0, 0),
        12 => named(0, 0, word, 0, 0, number),
        13 => named(0, 0, word, 0, 0, number),
        14 => named(0, 0, 0, 0, 0, number),
        15 => named(11, word, word, word, word, 0),
        16 => named(11, word, word, word, word, 0),
        17 => named(0, 0, word, word, word, number),
        18 => named(0, 0, word, word, 0, number),
        19 => named(0, 0, word, word, word, 0),
        20 => named(0, 0, word, word, word, 0),
        21 => named(0, 0, word, word, word, 3),
        22 => named(0, 0, word, word, word, number),
        23 => named(0, 0, word, 0, 0, 0),
        24 => named(0, 0, word, word, 0, 0),
        25 => named(0, 0, word, word, 0, 0),
        26 => named(0, 0, word, word, word, 0),
        27 => named(0, word, 0, word, 0, 0),
        _ => named(0, 0, 0, word, 0, 0),
    }
}
