//! A slow recogniser of expressions and specifiers, over the rules of the grammar as they stand: for
//! each place of a list of tokens it keeps every rule that can have been read in part up to there.

use std::alloc::{AllocError, Global};

/// The rules of the grammar: a nonterminal, which is a capital letter, and what it is made of. Any
/// other letter is a token.
const RULES: [(u8, &str); 69] = [
    // the comma operator, assignments, conditionals (C99 6.5.15 to 6.5.17)
    (b'E', "A"),
    (b'E', "E,A"),
    (b'A', "C"),
    (b'A', "U=A"),
    (b'C', "O"),
    (b'C', "O?E:C"),
    // binary operators, of which four levels stand for all (C99 6.5.5 to 6.5.14)
    (b'O', "Q"),
    (b'O', "O|Q"),
    (b'Q', "S"),
    (b'Q', "Q<S"),
    (b'S', "M"),
    (b'S', "S+M"),
    (b'M', "K"),
    (b'M', "M*K"),
    // casts and prefixes (C99 6.5.3, 6.5.4)
    (b'K', "U"),
    (b'K', "(T)K"),
    (b'U', "P"),
    (b'U', "pU"),
    (b'U', "sU"),
    (b'U', "s(T)"),
    (b'U', "*K"),
    (b'U', "+K"),
    (b'U', "!K"),
    // postfix and primary expressions, and calls (C99 6.5.1, 6.5.2)
    (b'P', "R"),
    (b'P', "P[E]"),
    (b'P', "P.x"),
    (b'P', "P>x"),
    (b'P', "Pp"),
    (b'R', "x"),
    (b'R', "1"),
    (b'R', "n"),
    (b'R', "L"),
    (b'R', "(E)"),
    (b'R', "x()"),
    (b'R', "x(G)"),
    (b'L', "\""),
    (b'L', "L\""),
    (b'G', "A"),
    (b'G', "G,A"),
    // type names: a specifier, stars, brackets with a length each (C99 6.7.6)
    (b'T', "N"),
    (b'T', "ND"),
    (b'N', "Y"),
    (b'N', "N*"),
    (b'D', "[C]"),
    (b'D', "D[C]"),
    // specifiers (C99 6.7.2)
    (b'Y', "v"),
    (b'Y', "Z"),
    (b'Y', "u"),
    (b'Y', "uZ"),
    (b'Y', "tx"),
    (b'Y', "t{F}"),
    (b'Y', "tx{F}"),
    (b'Z', "c"),
    (b'Z', "h"),
    (b'Z', "hi"),
    (b'Z', "i"),
    (b'Z', "l"),
    (b'Z', "li"),
    (b'Z', "ll"),
    (b'Z', "lli"),
    // members: lines, their names, stars (C99 6.7.2.1)
    (b'F', "B"),
    (b'F', "FB"),
    (b'B', "YH;"),
    (b'H', "J"),
    (b'H', "H,J"),
    (b'J', "W"),
    (b'J', "WD"),
    (b'W', "x"),
    (b'W', "*W"),
];

/// The tokens by their letters.
const TOKENS: [(u8, &str); 31] = [
    (b'x', "x"),
    (b'1', "1"),
    (b'(', "("),
    (b')', ")"),
    (b'[', "["),
    (b']', "]"),
    (b'+', "+"),
    (b'=', "="),
    (b'?', "?"),
    (b':', ":"),
    (b',', ","),
    (b'*', "*"),
    (b'.', "."),
    (b'!', "!"),
    (b'<', "<"),
    (b'{', "{"),
    (b'}', "}"),
    (b';', ";"),
    (b's', "sizeof"),
    (b'p', "++"),
    (b'>', "->"),
    (b'|', "||"),
    (b'n', "NULL"),
    (b'"', "\"s\""),
    (b'v', "void"),
    (b'u', "unsigned"),
    (b'c', "char"),
    (b'h', "short"),
    (b'i', "int"),
    (b'l', "long"),
    (b't', "struct"),
];

/// A list of tokens as a source text.
pub fn source_of(alloc: Global, letters: &[u8]) -> Result<String, AllocError> {
    let mut source = String::new(alloc);
    for letter in letters {
        for (token, spelling) in &TOKENS {
            if *token == *letter {
                source.push_str(spelling)?;
                source.push_str(" ")?;
            }
        }
    }
    Ok(source)
}

/// A rule that was read in part: its nonterminal, what is left of it, and the place where it began.
#[derive(Clone, Copy)]
struct Item<'a> {
    left: u8,
    rest: &'a [u8],
    from: usize,
}

impl<'a> Item<'a> {
    /// The rule when `next` was read, where it goes on with that.
    fn past(self, next: u8) -> Option<Item<'a>> {
        match self.rest {
            [first, rest @ ..] if *first == next => Some(Item { rest, ..self }),
            _ => None,
        }
    }

    fn is(&self, other: &Item<'a>) -> bool {
        self.left == other.left && self.from == other.from && self.rest == other.rest
    }
}

/// Puts the rule at the end, unless it is there.
fn put<'a>(set: &mut Vec<Item<'a>>, item: Item<'a>) -> Result<(), AllocError> {
    for other in set.iter() {
        if other.is(&item) {
            return Ok(());
        }
    }
    set.push(item)?;
    Ok(())
}

/// The rules of a nonterminal, which can begin at this place.
fn begin(set: &mut Vec<Item<'static>>, left: u8, from: usize) -> Result<(), AllocError> {
    for (nonterminal, right) in &RULES {
        if *nonterminal == left {
            let rest = right.as_bytes();
            put(set, Item { left, rest, from })?;
        }
    }
    Ok(())
}

/// The rules of `before` that go on with this nonterminal or token, when it was read.
fn go_on<'a>(before: &[Item<'a>], next: u8, set: &mut Vec<Item<'a>>) -> Result<(), AllocError> {
    for item in before {
        if let Some(past) = item.past(next) {
            put(set, past)?;
        }
    }
    Ok(())
}

/// Adds to the rules of a place those that follow from them: what can begin there, and what goes on
/// because a rule ends there. No rule is empty, so one that ends here began before.
fn close(
    alloc: Global,
    sets: &[Vec<Item<'static>>],
    set: &mut Vec<Item<'static>>,
) -> Result<(), AllocError> {
    let mut begun: Vec<u8> = Vec::new(alloc);
    for i in 0..10_000 {
        let Some(item) = set.get(i).copied() else {
            return Ok(());
        };
        match item.rest {
            [] => {
                if let Some(before) = sets.get(item.from) {
                    go_on(before, item.left, set)?;
                }
            }
            [next, ..] => {
                if next.is_ascii_uppercase() && !begun.contains(next) {
                    begun.push(*next)?;
                    begin(set, *next, sets.len())?;
                }
            }
        }
    }
    Ok(())
}

/// How many tokens begin what the nonterminal stands for, and whether these are the whole of one.
#[derive(Clone, Copy)]
pub struct Reach {
    pub place: usize,
    pub whole: bool,
}

fn is_whole(set: &[Item<'static>], left: u8) -> bool {
    for item in set {
        if item.left == left && item.from == 0 && item.rest.is_empty() {
            return true;
        }
    }
    false
}

/// Reads tokens, by their letters, as far as they begin what the nonterminal stands for.
pub fn recognise(alloc: Global, left: u8, letters: &[u8]) -> Result<Reach, AllocError> {
    let mut sets = Vec::new(alloc);
    let mut set = Vec::new(alloc);
    begin(&mut set, left, 0)?;
    close(alloc, &sets, &mut set)?;
    for letter in letters {
        let mut next = Vec::new(alloc);
        go_on(&set, *letter, &mut next)?;
        if next.is_empty() {
            break;
        }
        sets.push(set)?;
        close(alloc, &sets, &mut next)?;
        set = next;
    }
    Ok(Reach {
        place: sets.len(),
        whole: is_whole(&set, left),
    })
}
