ghost use Rattle.std.specs.Prelude.{◌≡◌, ◌==◌, ◌<◌, ◌≤◌, ◌-◌, Some, None, length, nat_lt, if◌then◌else◌};
ghost use Rattle.std.specs.List.{position_or_len};
ghost use Rattle.ob_model.specs.Accesses.{bytes_of_kind};
ghost use Rattle.ob_code.specs.Frames.{top_function};
ghost use Rattle.ob_code.specs.Kinds.{load_kind_of};
ghost use Rattle.ob_code.specs.Rules.{HasStatic, IsFrameSound, IsVariableNameSound, IsVerified, name_at, static_at};
ghost use Rattle.ob_code.specs.Shown.{shown_word, static_word, variable_word};
ghost use Rattle.ob_machine.specs.Machines.{shown_row};

use ob_code::{FunctionRow, Image, LocalRow, NameRow};
use ob_model::{LoadKind, Shown};
use ob_space::Space;
use ob_words::{IntType, number};

/// The kinds of variables that a load takes whole.
const KINDS: [LoadKind; 12] = [
    LoadKind::Num(IntType::Char),
    LoadKind::Num(IntType::SChar),
    LoadKind::Num(IntType::UChar),
    LoadKind::Num(IntType::Short),
    LoadKind::Num(IntType::UShort),
    LoadKind::Num(IntType::Int),
    LoadKind::Num(IntType::UInt),
    LoadKind::Num(IntType::Long),
    LoadKind::Num(IntType::ULong),
    LoadKind::Num(IntType::LLong),
    LoadKind::Num(IntType::ULLong),
    LoadKind::Ptr,
];

fn kind_of(number: u32) -> Option<LoadKind>
    ensures { result ≡ load_kind_of number }
{
    KINDS.get(number as usize).copied()
}

fn shown_word(kind: LoadKind, w: u64) -> Shown
    ensures { result ≡ shown_word kind w }
{
    match kind {
        LoadKind::Num(t) => Shown::Num(number(t, w)),
        LoadKind::Ptr if w == 0 => Shown::Null,
        LoadKind::Ptr => Shown::Pointer,
    }
}

/// The place of the first local row of an ordinal.
fn place_of(locals: &[LocalRow], ordinal: u32) -> Option<usize>
    ensures { result ≡ (if nat_lt (position_or_len (λ l. l.ordinal == ordinal) locals.now) (length locals.now) then Some (position_or_len (λ l. l.ordinal == ordinal) locals.now) else None) }
{
    locals.iter().position(|l| l.ordinal == ordinal)
}

fn static_word(space: &Space, name: &NameRow, kind: LoadKind) -> u64
    requires exists { HasStatic space.now.statics name.now.ordinal }
    requires long { bytes_of_kind kind ≤ (static_at space.now.statics (name.now.ordinal - 1)).size }
    ensures { result ≡ static_word space.now.statics space.now.space name.now kind }
{
    let w = space.static_word(name.ordinal);
    space.peek(w, kind)
}

/// The word of a variable of the innermost call, whose function this is.
fn variable_word(space: &Space, function: &FunctionRow, name: &NameRow, kind: LoadKind) -> u64
    requires innermost { top_function space.now.functions space.now.space.calls ≡ function.now }
    requires frame { IsFrameSound function.now }
    requires name { IsVariableNameSound function.now name.now }
    requires kind { load_kind_of name.now.kind ≡ Some kind }
    ensures { result ≡ variable_word function.now space.now.space name.now kind }
{
    if name.word != 0 {
        return space.get_word(name.word);
    }
    match place_of(function.locals.as_slice(), name.ordinal) {
        Some(place) => {
            let w = space.local_word(place as u32);
            space.peek(w, kind)
        }
        None => 0,
    }
}

/// What a row of names shows.
pub(crate) fn shown_by(image: &Image, space: &Space, row: u32) -> Option<Shown>
    requires verified { IsVerified image.now }
    requires statics { space.now.statics ≡ image.now.statics }
    requires functions { space.now.functions ≡ image.now.functions }
    requires row { row < length image.now.names }
    ensures { result ≡ shown_row image.now space.now.space (name_at image.now.names row) }
{
    let name = &image.names.as_slice()[row as usize];
    let kind = kind_of(name.kind)?;
    if name.holder == 0 {
        return Some(shown_word(kind, static_word(space, name, kind)));
    }
    let number = space.function()?;
    if name.holder - 1 != number {
        return None;
    }
    let function = &image.functions.as_slice()[number as usize];
    Some(shown_word(kind, variable_word(space, function, name, kind)))
}
