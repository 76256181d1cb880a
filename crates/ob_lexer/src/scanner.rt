ghost use Rattle.std.specs.Prelude.{◌≡◌, ◌<◌, length};
ghost use Rattle.ob_lexer.specs.Scan.{Scans, sort_of, scan};

use crate::bytes::{Class, skip};
use crate::comments::{begins_comment, scan_comment};
use crate::includes::scan_include;
use crate::names::scan_name;
use crate::numbers::scan_number;
use crate::quotes::{scan_character, scan_string};
use crate::signs::scan_sign;
use crate::taken::{Refusal, Taken};
use std::alloc::Global;

/// What can begin at a place.
#[derive(Clone, Copy)]
enum Sort {
    White,
    Name,
    Number,
    String,
    Character,
    Include,
    Comment,
    Sign,
}

/// What can begin here, by the first byte, or two for a comment.
#[tactic(auto, unfolding(crate::specs::Scan::sort_of))]
fn sort_of(rest: &[u8]) -> Sort
    requires { 0 < length rest.now }
    ensures { result ≡ sort_of rest.now }
{
    let first = rest[0];
    if Class::White.has(first) {
        return Sort::White;
    }
    if Class::Letter.has(first) {
        return Sort::Name;
    }
    if Class::Digit.has(first) {
        return Sort::Number;
    }
    match first {
        b'"' => Sort::String,
        b'\'' => Sort::Character,
        b'#' => Sort::Include,
        _ => {
            if begins_comment(rest) {
                Sort::Comment
            } else {
                Sort::Sign
            }
        }
    }
}

/// The piece or the fault here; `fresh` says that only spaces and tabs stand before on the line.
pub fn scan(alloc: Global, fresh: bool, rest: &[u8]) -> Result<Taken, Refusal>
    requires { 0 < length rest.now }
    ensures { Scans (scan fresh rest.now) result }
{
    match sort_of(rest) {
        Sort::White => Ok(Taken {
            kind: None,
            length: 1,
        }),
        Sort::Name => scan_name(alloc, rest),
        Sort::Number => scan_number(rest),
        Sort::String => scan_string(alloc, skip(rest, 1)),
        Sort::Character => scan_character(skip(rest, 1)),
        Sort::Include => scan_include(fresh, rest),
        Sort::Comment => scan_comment(rest),
        Sort::Sign => scan_sign(rest),
    }
}
