//! Programs of the first form become images, until there is a compiler for all of the language.

ghost use Rattle.std.specs.Prelude.{◌≡◌, ◌≢◌, ◌≤◌, ◌^◌, ◌++◌, List, IfOk, OnOk, MatchOption, Some, length};
ghost use Rattle.ob_code.specs.declared.instructions.Instr.{Instr as Instruction};
ghost use Rattle.ob_code.specs.Rules.{IsVerified};
ghost use Rattle.ob_tree.specs.ProgramSpelling.{spell_program};
ghost use Rattle.ob_tree.specs.ProgramView.{program_tree};
ghost use Rattle.ob_first.specs.FirstForm.{FirstForm, HasFirstForm};
ghost use Rattle.ob_first.specs.FirstReading.{ended, named, next, number, one_more, piece_of, read_all, sign, written};
ghost use Rattle.ob_first.specs.FirstCode.{addend_code, code_of, only_main};

use ob_base::NoMemory;
use ob_code::{FunctionRow, Image, Instr, Rows, Verified, verify};
use ob_model::Profile;
use ob_tree::{Keyword, Program, Sign, TokenKind, spell};
use ob_words::{BinOp, IntType};
use std::alloc::Global;

/// The greatest number of type `int`.
const GREATEST: i128 = 2_147_483_647;

/// The most constants of a sum.
const MOST_CONSTANTS: u8 = 200;

/// A token, as far as the form tells tokens apart.
#[derive(Clone, Copy, Debug)]
enum Piece {
    Int,
    Void,
    Return,
    Main,
    Putchar,
    OpenParen,
    CloseParen,
    OpenBrace,
    CloseBrace,
    Plus,
    Semi,
    Constant(u32),
    Other,
}

/// What comes next: in a sum the first constant, another one, or what stands behind one. The last sum is that
/// of `return`, and `count` constants of a sum were read.
#[derive(Clone, Copy, Debug)]
enum Place {
    Type,
    Main,
    OpenParen,
    Void,
    CloseParen,
    OpenBrace,
    Statement,
    OpenPrint,
    First { last: bool },
    Another { last: bool, count: u8 },
    Behind { last: bool, count: u8 },
    EndPrint,
    CloseBrace,
    End,
}

fn piece_of(kind: &TokenKind) -> Piece
    ensures { result ≡ piece_of kind.now }
{
    match kind {
        TokenKind::Word(Keyword::Int) => Piece::Int,
        TokenKind::Word(Keyword::Void) => Piece::Void,
        TokenKind::Word(Keyword::Return) => Piece::Return,
        TokenKind::Name(name) => named(name.bytes()),
        TokenKind::Number {
            value,
            ty: IntType::Int,
        } => number(*value),
        TokenKind::Sign(mark) => sign(*mark),
        _ => Piece::Other,
    }
}

fn named(name: &[u8]) -> Piece
    ensures { result ≡ named name.now }
{
    if name == b"main".as_slice() {
        Piece::Main
    } else if name == b"putchar".as_slice() {
        Piece::Putchar
    } else {
        Piece::Other
    }
}

/// A number of type `int`, if it isn't negative.
fn number(value: i128) -> Piece
    ensures { result ≡ number value }
{
    if 0 <= value && value <= GREATEST {
        Piece::Constant(value as u32)
    } else {
        Piece::Other
    }
}

fn sign(mark: Sign) -> Piece
    ensures { result ≡ sign mark }
{
    match mark {
        Sign::OpenParen => Piece::OpenParen,
        Sign::CloseParen => Piece::CloseParen,
        Sign::OpenBrace => Piece::OpenBrace,
        Sign::CloseBrace => Piece::CloseBrace,
        Sign::Plus => Piece::Plus,
        Sign::Semi => Piece::Semi,
        _ => Piece::Other,
    }
}

/// The place behind a piece, if the piece may stand there.
fn next(place: Place, piece: Piece) -> Option<Place>
    ensures { result ≡ next place piece }
{
    match (place, piece) {
        (Place::Type, Piece::Int) => Some(Place::Main),
        (Place::Main, Piece::Main) => Some(Place::OpenParen),
        (Place::OpenParen, Piece::OpenParen) => Some(Place::Void),
        (Place::Void, Piece::Void) => Some(Place::CloseParen),
        (Place::CloseParen, Piece::CloseParen) => Some(Place::OpenBrace),
        (Place::OpenBrace, Piece::OpenBrace) => Some(Place::Statement),
        (Place::Statement, Piece::Putchar) => Some(Place::OpenPrint),
        (Place::Statement, Piece::Return) => Some(Place::First { last: true }),
        (Place::OpenPrint, Piece::OpenParen) => Some(Place::First { last: false }),
        (Place::First { last }, Piece::Constant(_)) => Some(Place::Behind { last, count: 1 }),
        (Place::Another { last, count }, Piece::Constant(_)) => one_more(last, count),
        (Place::Behind { last, count }, Piece::Plus) => Some(Place::Another { last, count }),
        (Place::Behind { last: false, .. }, Piece::CloseParen) => Some(Place::EndPrint),
        (Place::Behind { last: true, .. }, Piece::Semi) => Some(Place::CloseBrace),
        (Place::EndPrint, Piece::Semi) => Some(Place::Statement),
        (Place::CloseBrace, Piece::CloseBrace) => Some(Place::End),
        _ => None,
    }
}

/// The place behind another constant, where the sum may have one more.
fn one_more(last: bool, count: u8) -> Option<Place>
    ensures { result ≡ one_more last count }
{
    if count < MOST_CONSTANTS {
        Some(Place::Behind {
            last,
            count: count + 1,
        })
    } else {
        None
    }
}

/// Writes the instructions for a piece. A sum is added up in word 2, with each further constant in word 3.
fn write(code: &mut Vec<Instr>, place: Place, piece: Piece) -> Result<(), NoMemory>
    ensures { OnOk result (code.new.items ≡ code.old.items ++ written place piece) }
{
    match (place, piece) {
        (Place::First { .. }, Piece::Constant(constant)) => code.push(Instr::Set {
            a: 2,
            imm: i64::from(constant),
        })?,
        (Place::Another { .. }, Piece::Constant(constant)) => write_addend(code, constant)?,
        (Place::Behind { last: false, .. }, Piece::CloseParen) => code.push(Instr::PutChar {
            a: 3,
            b: 2,
        })?,
        (Place::Behind { last: true, .. }, Piece::Semi) => code.push(Instr::Return { b: 2 })?,
        _ => {}
    }
    Ok(())
}

fn write_addend(code: &mut Vec<Instr>, constant: u32) -> Result<(), NoMemory>
    ensures { OnOk result (code.new.items ≡ code.old.items ++ addend_code constant) }
{
    code.push(Instr::Set {
        a: 3,
        imm: i64::from(constant),
    })?;
    code.push(Instr::Binary {
        kind: IntType::Int,
        operator: BinOp::Add,
        a: 2,
        b: 2,
        c: 3,
    })?;
    Ok(())
}

/// The code of a program of the first form, by its tokens; none where it has another form.
fn read_code(alloc: Global, kinds: &[TokenKind]) -> Result<Option<Vec<Instr>>, NoMemory>
    ensures { IfOk result (λ o. MatchOption o
        ((code : List Instruction) → read_all kinds.now ≢ ended code)
        (λ code. read_all kinds.now ≡ ended code.items)) }
{
    let mut code = Vec::new(alloc);
    let mut place = Place::Type;
    for kind in kinds {
        let piece = piece_of(kind);
        let Some(after) = next(place, piece) else {
            return Ok(None);
        };
        write(&mut code, place, piece)?;
        place = after;
    }
    match place {
        Place::End => Ok(Some(code)),
        _ => Ok(None),
    }
}

/// An image of one function with four words.
fn image_of(alloc: Global, code: Vec<Instr>) -> Result<Image, NoMemory>
    ensures { IfOk result (λ image. image ≡ only_main code.items) }
{
    let mut functions = Vec::new(alloc);
    functions.push(FunctionRow {
        entry: 0,
        params: 0,
        words: 4,
        vars: 0,
        allowance: 32,
        locals: Rows::from_vec(Vec::new(alloc)),
    })?;
    Ok(Image {
        profile: Profile::One,
        statics: Rows::from_vec(Vec::new(alloc)),
        pointers: Rows::from_vec(Vec::new(alloc)),
        functions: Rows::from_vec(functions),
        main: 0,
        code: Rows::from_vec(code),
        names: Rows::from_vec(Vec::new(alloc)),
    })
}

fn verified(image: Image) -> Verified
    requires { IsVerified image }
    ensures { result ≡ image }
{
    match verify(image) {
        Ok(v) => v,
        Err(_) => unreachable!(),
    }
}

/// The image of a program of the first form, which does what the program does; none where the program has
/// another form. Takes memory for the program's tokens and for the image. `NoMemory` says that there was too
/// little.
pub(crate) fn first_image(alloc: Global, program: &Program) -> Result<Option<Verified>, NoMemory>
    requires { length (spell_program (program_tree program.now)) ≤ 2 ^ 20 }
    ensures { IfOk result (λ o. MatchOption o
        ((f : FirstForm) → ¬ HasFirstForm (program_tree program.now) f)
        (λ v. (f : FirstForm) × HasFirstForm (program_tree program.now) f × (v ≡ code_of f))) }
{
    let kinds = spell(alloc, program)?;
    let Some(code) = read_code(alloc, &kinds)? else {
        return Ok(None);
    };
    Ok(Some(verified(image_of(alloc, code)?)))
}
