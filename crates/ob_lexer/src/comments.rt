ghost use Rattle.std.specs.Prelude.{◌≡◌, ◌<◌, ◌≤◌, ◌==◌, length, take, IfSome, ◌+◌};
ghost use Rattle.ob_tree.specs.Bytes.{begins_with};
ghost use Rattle.ob_tree.specs.Signs.{begins_comment};
ghost use Rattle.ob_lexer.specs.Scan.{Scans, block_end_from, comment_length, scan_comment};

use crate::bytes::{Class, skip};
use crate::taken::{Refusal, Taken};
use ob_tree::LexKind;

/// Whether a comment begins here.
pub fn begins_comment(rest: &[u8]) -> bool
    ensures { result ≡ begins_comment rest.now }
{
    match rest {
        [b'/', second, ..] => *second == b'*' || *second == b'/',
        _ => false,
    }
}

/// How many bytes stand before the first `*/`, or none where there is none.
fn block_end(rest: &[u8]) -> Option<usize>
    ensures end { result ≡ block_end_from 0 rest.now }
    ensures within { IfSome result (λ n. n + 2 ≤ length rest.now) }
{
    for (i, byte) in rest.iter().enumerate() {
        if *byte == b'*' && begins_slash(skip(rest, i + 1)) {
            return Some(i);
        }
    }
    None
}

fn begins_slash(rest: &[u8]) -> bool
    ensures { result ≡ begins_with (λ c. c == 47) rest.now }
{
    match rest {
        [first, ..] => *first == b'/',
        [] => false,
    }
}

/// How many bytes the comment has that begins here, or none where it doesn't end.
#[tactic(auto, unfolding(crate::specs::Scan::comment_length))]
pub fn comment_length(rest: &[u8]) -> Option<usize>
    ensures comment { result ≡ comment_length rest.now }
    ensures within { IfSome result (λ n. n ≤ length rest.now) }
{
    match rest {
        [_, second, body @ ..] => {
            if *second == b'/' {
                Some(2 + Class::OnLine.run(body))
            } else {
                Some(block_end(body)? + 4)
            }
        }
        _ => None,
    }
}

/// The comment that begins here.
pub fn scan_comment(rest: &[u8]) -> Result<Taken, Refusal>
    ensures { Scans (scan_comment rest.now) result }
{
    match comment_length(rest) {
        None => Err(Refusal::Fault(LexKind::Unclosed)),
        Some(length) => Ok(Taken { kind: None, length }),
    }
}
