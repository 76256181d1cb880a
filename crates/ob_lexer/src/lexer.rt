ghost use Rattle.std.specs.Prelude.{◌≡◌, ℕ, ◌≤◌, ◌^◌, length, List, MatchResult, IfOk, ◌⊎◌};
ghost use Rattle.std.specs.List.{All};
ghost use Rattle.ob_tree.specs.Valid.{IsOfSource};
ghost use Rattle.ob_tree.specs.declared.tokens.Token.{Token};
ghost use Rattle.ob_tree.specs.declared.faults.LexKind.{LexKind};
ghost use Rattle.ob_lexer.specs.Texts.{Spells, StopsAt, HasLexFault, fault_of};

use crate::bytes::{front, skip};
use crate::cursor::Cursor;
use crate::scanner::scan;
use ob_tree::{LexFault, Token};
use std::alloc::Global;

/// Reads a source text of at most 2^20 bytes as tokens (C99 6.4): each is the longest that is possible
/// at its place. `Ok` has the tokens among the pieces of the text, in order, with their places: at most
/// 2^20, each of a kind that some text of at most 2^20 bytes is. The faults have the first place at which
/// no token or space can be taken, as a number of bytes from the text's begin: `Unclosed` where a comment,
/// string or character constant begins there and doesn't end, else `Wide` where an integer constant or a
/// numeric escape there is too great, else `Stray`. `NoMemory` may come for want of memory. The time is
/// linear in the text's length.
pub fn lex(alloc: Global, bytes: &[u8]) -> Result<Vec<Token>, LexFault>
    requires { length bytes.now ≤ 2 ^ 20 }
    ensures right { MatchResult result (λ tokens. Spells tokens.items bytes.now) (HasLexFault bytes.now) }
    ensures spelled { (ts : List Token) → Spells ts bytes.now
        → MatchResult result (λ tokens. tokens.items ≡ ts) (λ fault. fault ≡ LexFault.NoMemory) }
    ensures faulty { (kind : LexKind) (at : ℕ) → StopsAt bytes.now kind at
        → MatchResult result (λ _. ⊥) (λ fault. (fault ≡ fault_of kind at) ⊎ (fault ≡ LexFault.NoMemory)) }
    ensures few { IfOk result (λ tokens. length tokens.items ≤ 2 ^ 20) }
    ensures of_source { IfOk result (λ tokens. All (λ t. IsOfSource t.kind) tokens.items) }
{
    let mut tokens = Vec::new(alloc);
    let mut place = Cursor::start();
    while place.at < bytes.len() {
        let rest = skip(bytes, place.at);
        match scan(alloc, place.fresh, rest) {
            Err(refusal) => return Err(place.fault(refusal)),
            Ok(taken) => {
                let after = place.past(front(rest, taken.length));
                place.push(&mut tokens, after.at, taken.kind)?;
                place = after;
            }
        }
    }
    Ok(tokens)
}

/// The law that a text has one outcome: at most one list of tokens spells it, a text that tokens spell
/// has no fault, and a text has at most one fault.
pub fn law_one_reading()
    ensures one_spelling { (text : List ℕ) (ts us : List Token) → Spells ts text → Spells us text → ts ≡ us }
    ensures no_fault { (text : List ℕ) (ts : List Token) (kind : LexKind) (at : ℕ) → Spells ts text → StopsAt text kind at → ⊥ }
    ensures one_fault { (text : List ℕ) (k l : LexKind) (i j : ℕ) → StopsAt text k i → StopsAt text l j → (k ≡ l) × (i ≡ j) }
{}

/// The law that each text has a reading: tokens spell it, or a run of its longest pieces stops at a
/// fault.
pub fn law_some_reading()
    ensures { (text : List ℕ) → ((ts : List Token) × Spells ts text) ⊎ ((kind : LexKind) × (at : ℕ) × StopsAt text kind at) }
{}
