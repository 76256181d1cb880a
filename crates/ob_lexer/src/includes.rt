ghost use Rattle.std.specs.Prelude.{◌≡◌, ◌≤◌, ◌-◌, length, take, drop, codes, false, if◌then◌else◌};
ghost use Rattle.std.specs.Option.{option_copied};
ghost use Rattle.ob_tree.specs.Bytes.{ends_line};
ghost use Rattle.ob_tree.specs.Spaces.{is_one_line};
ghost use Rattle.ob_lexer.specs.Scan.{Scans, strip, skip_blanks, strip_header, one_line_length, filler_length, is_return, line_end_from, include_end, scan_include};

use crate::bytes::{Class, skip};
use crate::comments::{begins_comment, comment_length};
use crate::taken::{Refusal, Taken};
use ob_tree::LexKind;

/// What stands behind `text` where the bytes begin with it.
#[tactic(auto, unfolding(crate::specs::Scan::strip))]
fn strip<'a>(text: &[u8], rest: &'a [u8]) -> Option<&'a [u8]>
    ensures { option_copied result ≡ strip text.now rest.now }
{
    if rest.starts_with(text) {
        Some(skip(rest, text.len()))
    } else {
        None
    }
}

/// What stands behind the spaces and tabs.
fn skip_blanks(rest: &[u8]) -> &[u8]
    ensures { result.now ≡ skip_blanks rest.now }
{
    skip(rest, Class::Blank.run(rest))
}

/// What stands behind one of the headers.
#[tactic(auto, unfolding(crate::specs::Scan::strip_header))]
fn strip_header(rest: &[u8]) -> Option<&[u8]>
    ensures { option_copied result ≡ strip_header rest.now }
{
    strip(b"<stdio.h>", rest)
        .or(strip(b"<stdlib.h>", rest))
        .or(strip(b"<stddef.h>", rest))
        .or(strip(b"<string.h>", rest))
}

/// Whether a line ends here.
fn ends_line(rest: &[u8]) -> bool
    ensures { result ≡ ends_line rest.now }
{
    match rest {
        [] => true,
        [first, ..] => *first == b'\n',
    }
}

/// How many bytes the space, the tab or the comment on one line has that begins here, or 0.
#[tactic(auto, unfolding(crate::specs::Scan::filler_length))]
fn filler_length(rest: &[u8]) -> usize
    ensures filler { result ≡ filler_length rest.now }
    ensures within { result ≤ length rest.now }
{
    let Some(first) = rest.first() else {
        return 0;
    };
    if Class::Blank.has(*first) {
        return 1;
    }
    if !begins_comment(rest) {
        return 0;
    }
    match comment_length(rest) {
        None => 0,
        Some(n) => one_line_length(rest, n),
    }
}

/// `n`, or 0 where there is a line feed among the first `n` bytes.
fn one_line_length(rest: &[u8], n: usize) -> usize
    requires { n ≤ length rest.now }
    ensures { result ≡ (if is_one_line (take n rest.now) then n else 0) }
{
    if is_one_line(&rest[..n]) { n } else { 0 }
}

/// Whether there is no line feed.
fn is_one_line(bytes: &[u8]) -> bool
    ensures { result ≡ is_one_line bytes.now }
{
    bytes.iter().all(|byte| *byte != b'\n')
}

/// Whether a carriage return stands here at a line's end.
fn is_return(rest: &[u8]) -> bool
    ensures { result ≡ is_return rest.now }
{
    match rest {
        [first, after @ ..] => *first == b'\r' && ends_line(after),
        [] => false,
    }
}

/// What stands at the end of the line to which fillers and an optional carriage return lead.
#[tactic(auto, using(crate::proofs::IncludeLemmas::line_steps))]
fn line_end(rest: &[u8]) -> Option<&[u8]>
    ensures { option_copied result ≡ line_end_from 0 rest.now }
{
    let mut left = rest;
    while !ends_line(left) {
        if is_return(left) {
            return Some(skip(left, 1));
        }
        let n = filler_length(left);
        if n == 0 {
            return None;
        }
        left = skip(left, n);
    }
    Some(left)
}

/// What stands behind the include line whose `#` stands here.
#[tactic(auto, unfolding(crate::specs::Scan::include_end))]
fn include_end(rest: &[u8]) -> Option<&[u8]>
    ensures { option_copied result ≡ include_end rest.now }
{
    let behind_word = strip(b"include", skip_blanks(skip(rest, 1)))?;
    let behind_header = strip_header(skip_blanks(behind_word))?;
    line_end(behind_header)
}

/// The include line whose `#` stands here; `fresh` says that only spaces and tabs stand before it on
/// its line.
pub fn scan_include(fresh: bool, rest: &[u8]) -> Result<Taken, Refusal>
    ensures { Scans (scan_include fresh rest.now) result }
{
    if !fresh {
        return Err(Refusal::Fault(LexKind::Stray));
    }
    match include_end(rest) {
        None => Err(Refusal::Fault(LexKind::Stray)),
        Some(after) => Ok(Taken {
            kind: None,
            length: rest.len().saturating_sub(after.len()),
        }),
    }
}
