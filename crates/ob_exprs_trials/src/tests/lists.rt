//! The parsers against the slow recogniser, on short lists of tokens.

use super::answers::{FIRST, Part, expr_answer, spec_answer};
use super::grammar::{Reach, recognise, source_of};
use ob_exprs::Level;
use std::alloc::{AllocError, Global};
use std::process::Abort;
use std::test::Fail;

/// What is read.
#[derive(Clone, Copy)]
enum Sort {
    Expr(Level),
    Spec,
}

impl Sort {
    /// The nonterminal of the recogniser.
    fn left(self) -> u8 {
        match self {
            Sort::Expr(Level::Comma) => b'E',
            Sort::Expr(Level::Assign) => b'A',
            Sort::Expr(Level::Cond) => b'C',
            Sort::Spec => b'Y',
        }
    }

    fn answer(self, alloc: Global, source: &str) -> Result<String, AllocError> {
        match self {
            Sort::Expr(level) => expr_answer(alloc, source, FIRST, level, Part::Place),
            Sort::Spec => spec_answer(alloc, source, FIRST, Part::Place),
        }
    }
}

fn expected(alloc: Global, reached: Reach) -> Result<String, AllocError> {
    let place = reached.place;
    if reached.whole {
        format!(in alloc; "{place}")
    } else {
        format!(in alloc; "NoTree {place}")
    }
}

/// Each list with each letter behind it.
fn longer(alloc: Global, lists: &[Vec<u8>], letters: &str) -> Result<Vec<Vec<u8>>, AllocError> {
    let mut all = Vec::new(alloc);
    for list in lists {
        for letter in letters.as_bytes() {
            let mut more = list.clone()?;
            more.push(*letter)?;
            all.push(more)?;
        }
    }
    Ok(all)
}

/// Which lists are made longer.
#[derive(Clone, Copy, PartialEq, Eq)]
enum Grown {
    All,
    /// Those that begin what is read.
    Fronts,
}

/// Compares the answers on lists of at most `most` of these tokens, and says how many lists there were.
fn compare(
    rt: &impl Abort,
    alloc: Global,
    sort: Sort,
    grown: Grown,
    letters: &str,
    most: u32,
) -> Result<u64, Fail> {
    let mut compared: u64 = 0;
    let mut lists = Vec::new(alloc);
    lists.push(Vec::new(alloc))?;
    for _ in 0..=most {
        let mut fronts = Vec::new(alloc);
        for list in lists {
            let reached = recognise(alloc, sort.left(), &list)?;
            let source = source_of(alloc, &list)?;
            let answer = sort.answer(alloc, source.as_str())?;
            let expected = expected(alloc, reached)?;
            assert_eq!(rt; answer.as_str(), expected.as_str(), "at {source}");
            compared = compared.saturating_add(1);
            if grown == Grown::All || reached.place == list.len() {
                fronts.push(list)?;
            }
        }
        lists = longer(alloc, &fronts, letters)?;
    }
    Ok(compared)
}

#[test]
fn agrees_on_all_lists(rt: HostRuntime) -> Result<(), Fail> {
    let comma = Sort::Expr(Level::Comma);
    let count = compare(&rt, rt.alloc(), comma, Grown::All, "x()=?:,", 4)?;
    assert_eq!(rt; count, 2_801);
    Ok(())
}

#[test]
fn agrees_on_fronts(rt: HostRuntime) -> Result<(), Fail> {
    let comma = Sort::Expr(Level::Comma);
    let count = compare(&rt, rt.alloc(), comma, Grown::Fronts, "x(),=?:si", 5)?;
    assert_eq!(rt; count, 1_639);
    let count = compare(
        &rt,
        rt.alloc(),
        Sort::Spec,
        Grown::Fronts,
        "ilutx{};*[1],",
        6,
    )?;
    assert_eq!(rt; count, 1_054);
    Ok(())
}

#[test]
fn agrees_at_other_levels(rt: HostRuntime) -> Result<(), Fail> {
    for level in [Level::Assign, Level::Cond] {
        let sort = Sort::Expr(level);
        let count = compare(&rt, rt.alloc(), sort, Grown::All, "x()[+=?:,", 3)?;
        assert_eq!(rt; count, 820);
    }
    Ok(())
}
