//! Which declaration each look-up finds, worked out by hand from C99 6.2.1, and how a table stands large
//! numbers of names.
use ob_base::{NoMemory, Text};
use ob_scopes::{Meaning, Named, Names, Storage, Table, Tag, Tags, find_name};
use ob_tree::CType;
use ob_words::IntType;
use std::alloc::Global;
use std::test::Fail;

/// Steps on a table of names and one of tags: `{` and `}` enter and leave a block, `+a1` declares `a` as
/// number 1, `?a12` finds `a` as number 1 of a block of depth 2, `?a-` finds no `a`; `@` is as `?`, of the tags in the
/// innermost block alone.
const STEPS: [&[&str]; 9] = [
    &["?a-", "+b1", "?a-", "?b10"],
    &["+a1", "+a2", "?a20", "@a20"],
    &["+a1", "{", "?a10", "+a2", "?a21", "}", "?a10"],
    &[
        "{", "+a1", "{", "+a2", "{", "+a3", "?a33", "}", "?a22", "}", "?a11", "}", "?a-",
    ],
    &[
        "+a1", "{", "+b2", "{", "+c3", "?c32", "}", "?c-", "?b21", "?a10", "}", "?b-", "?a10",
    ],
    &["{", "+a1", "}", "{", "?a-", "+a2", "?a21", "}", "?a-"],
    &[
        "+a1", "+b2", "{", "+a3", "+b4", "+a5", "?a51", "?b41", "}", "?a10", "?b20",
    ],
    &[
        "+a1", "}", "?a10", "}", "+b2", "?b20", "{", "+a3", "?a31", "}", "?a10",
    ],
    &[
        "+a1", "@a10", "{", "@a-", "+a2", "@a21", "{", "{", "@a-", "?a21", "}", "}", "@a21", "}",
        "@a10",
    ],
];

#[test]
fn steps(rt: HostRuntime) -> Result<(), Fail> {
    for (row, steps) in STEPS.iter().enumerate() {
        assert_eq!(rt; first_wrong(rt.alloc(), steps)?, steps.len(), "row {row}");
    }
    Ok(())
}

/// How many steps go as they say, up to the first that doesn't.
fn first_wrong(alloc: Global, steps: &[&str]) -> Result<usize, NoMemory> {
    let mut names = Names::new(alloc);
    let mut tags = Tags::new(alloc);
    for (i, step) in steps.iter().enumerate() {
        if !goes(alloc, &mut names, &mut tags, step.as_bytes())? {
            return Ok(i);
        }
    }
    Ok(steps.len())
}

fn goes(alloc: Global, names: &mut Names, tags: &mut Tags, step: &[u8]) -> Result<bool, NoMemory> {
    let name = name_of(alloc, sign(step, 1))?;
    match sign(step, 0) {
        b'{' => enter(names, tags),
        b'}' => Ok(leave(names, tags)),
        b'+' => declare(alloc, names, tags, &name, sign(step, 2)),
        b'@' => Ok(of_tag(tags.find_here(&name)) == wanted(step)),
        _ => Ok(named(names, &name) == wanted(step) && of_tag(tags.find(&name)) == wanted(step)),
    }
}

fn sign(step: &[u8], i: usize) -> u8 {
    match step.get(i) {
        Some(sign) => *sign,
        None => 0,
    }
}

fn name_of(alloc: Global, sign: u8) -> Result<Text, NoMemory> {
    let mut name = Text::new(alloc);
    name.push(sign)?;
    Ok(name)
}

fn digit(sign: u8) -> Option<u32> {
    match sign {
        b'0'..=b'9' => Some((sign - b'0') as u32),
        _ => None,
    }
}

/// The number and the depth that a look-up is to find.
fn wanted(step: &[u8]) -> Option<(u32, usize)> {
    match (digit(sign(step, 2)), digit(sign(step, 3))) {
        (Some(number), Some(depth)) => Some((number, depth as usize)),
        _ => None,
    }
}

fn enter(names: &mut Names, tags: &mut Tags) -> Result<bool, NoMemory> {
    names.enter()?;
    tags.enter()?;
    Ok(names.depth() == tags.depth())
}

fn leave(names: &mut Names, tags: &mut Tags) -> bool {
    names.leave();
    tags.leave();
    names.depth() == tags.depth()
}

fn declare(
    alloc: Global,
    names: &mut Names,
    tags: &mut Tags,
    name: &Text,
    sign: u8,
) -> Result<bool, NoMemory> {
    let number = sign.saturating_sub(b'0') as u32;
    let depth = names.depth();
    names.declare(alloc, name, variable(depth, number))?;
    tags.declare(alloc, name, number)?;
    Ok(true)
}

fn variable(depth: usize, number: u32) -> Named {
    Named {
        depth,
        meaning: Meaning::Variable(CType::Int(IntType::Int), Storage::Static(number)),
    }
}

fn named(names: &Names, name: &Text) -> Option<(u32, usize)> {
    match find_name(names, name) {
        Some(found) => match &found.meaning {
            Meaning::Variable(_, Storage::Static(number)) => Some((*number, found.depth)),
            _ => None,
        },
        None => None,
    }
}

fn of_tag(tag: Option<Tag>) -> Option<(u32, usize)> {
    match tag {
        Some(tag) => Some((tag.number, tag.depth)),
        None => None,
    }
}

const MANY: u32 = 100_000;

/// A hundred thousand names in a block: the last half hide those of the first.
#[test]
fn many_names(rt: HostRuntime) -> Result<(), Fail> {
    let mut table = Table::new(rt.alloc());
    table.enter()?;
    fill(rt.alloc(), &mut table, MANY / 2, 0)?;
    table.enter()?;
    fill(rt.alloc(), &mut table, MANY / 2, 1)?;
    assert_eq!(rt; found(rt.alloc(), &table, 1)?, MANY / 2);
    table.leave();
    assert_eq!(rt; found(rt.alloc(), &table, 0)?, MANY / 2);
    table.leave();
    assert_eq!(rt; found(rt.alloc(), &table, 0)?, 0);
    Ok(())
}

fn many_name(alloc: Global, number: u32) -> Result<Text, NoMemory> {
    let mut name = Text::new(alloc);
    name.add(&number.to_le_bytes())?;
    Ok(name)
}

/// Declares so many names, each as a number.
fn fill(alloc: Global, table: &mut Table<u32>, count: u32, value: u32) -> Result<(), NoMemory> {
    for number in 0..count {
        let name = many_name(alloc, number)?;
        table.declare(alloc, &name, value)?;
    }
    Ok(())
}

/// How many of the names are bound to a number.
fn found(alloc: Global, table: &Table<u32>, value: u32) -> Result<u32, NoMemory> {
    let mut count: u32 = 0;
    for number in 0..MANY {
        let name = many_name(alloc, number)?;
        if table.find(&name) == Some(&value) {
            count = count.saturating_add(1);
        }
    }
    Ok(count)
}
