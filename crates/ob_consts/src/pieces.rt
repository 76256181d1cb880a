ghost use Rattle.std.specs.Prelude.{◌≡◌, ◌++◌, ◌-◌, [], ◌∷◌, IfOk, OnOk, option_map, length};
ghost use Rattle.ob_words.specs.Fields.{low_bytes};
ghost use Rattle.ob_tree.specs.Parts.{element_part, part, row_part};
ghost use Rattle.ob_tree.specs.Sizes.{int_size, size};
ghost use Rattle.ob_tree.specs.StructsView.{plain_structs};
ghost use Rattle.ob_tree.specs.TypeView.{plain_member, plain_struct, plain_type};
ghost use Rattle.ob_typed.specs.Images.{Piece, address_piece, number_piece, pieces, pointer_piece, value_piece, zeros};
ghost use Rattle.ob_typed.specs.TypedView.{plain_image, typed_expr, typed_init, typed_node};
ghost use Rattle.ob_consts.specs.Placing.{given, next_end, next_part, numbered, part_pieces, placed};
ghost use Rattle.ob_consts.specs.Shown.{shown};

use crate::addresses::address;
use crate::constants::value;
use crate::parts::{bytes_of, element_offset, is_element, member_at, member_offset, sum};
use crate::places::StaticPlace;
use ob_base::{NoMemory, Text};
use ob_tree::{CType, MemberRow, StructRow, Structs};
use ob_typed::{StaticImage, StaticPointer, TExpr, TInit, TNode};
use ob_words::{IntType, width, word};

/// Puts the pieces of an initialiser of a part of type `t`, which stands at byte `at`, behind those of
/// `out`. What an item past the end is for has no type.
#[cycle(put)]
pub(crate) fn put_init(
    out: &mut StaticImage,
    s: &Structs,
    at: u64,
    t: Option<&CType>,
    init: &TInit,
) -> Result<(), NoMemory>
    ensures { OnOk result (plain_image out.new ≡ placed (plain_image out.old) (pieces (plain_structs s.now) (given (option_map (λ u. plain_type u.now) t.entry)) at (typed_init init.now))) }
{
    match init {
        TInit::Value(e) => put_value(out, at, e),
        TInit::Chars(bytes) => put_bytes(out, at, bytes.bytes()),
        TInit::List(items) => put_items(out, s, at, t, items),
        TInit::Copy(_) => Ok(()),
    }
}

/// Puts the pieces of the items of a list.
#[cycle(put)]
fn put_items(
    out: &mut StaticImage,
    s: &Structs,
    at: u64,
    t: Option<&CType>,
    items: &[TInit],
) -> Result<(), NoMemory>
    ensures { OnOk result (plain_image out.new ≡ placed (plain_image out.old) (numbered (λ i x. part_pieces (plain_structs s.now) at (part (plain_structs s.now) (given (option_map (λ u. plain_type u.now) t.entry)) i) x) 0 items.now)) }
{
    match t {
        Some(CType::Array(element, count)) => {
            let bytes = bytes_of(s, element)?;
            put_elements(out, s, at, Some(element), *count, bytes, items)
        }
        Some(CType::Struct(number)) => put_members(out, s, at, s.row(*number), items),
        _ => put_members(out, s, at, None, items),
    }
}

#[cycle(put)]
fn put_elements(
    out: &mut StaticImage,
    s: &Structs,
    at: u64,
    t: Option<&CType>,
    count: u64,
    bytes: u64,
    items: &[TInit],
) -> Result<(), NoMemory>
    requires { bytes ≡ size (plain_structs s.now) (given (option_map (λ u. plain_type u.now) t)) }
    ensures { OnOk result (plain_image out.new ≡ placed (plain_image out.old) (numbered (λ i x. part_pieces (plain_structs s.now) at (element_part (plain_structs s.now) (given (option_map (λ u. plain_type u.now) t.entry)) count i) x) 0 items.now)) }
{
    for (i, item) in items.iter().enumerate() {
        put_element(out, s, at, t, count, bytes, i as u64, item)?;
    }
    Ok(())
}

/// Puts the pieces of item `i` of an array whose elements have so many bytes.
#[cycle(put)]
fn put_element(
    out: &mut StaticImage,
    s: &Structs,
    at: u64,
    t: Option<&CType>,
    count: u64,
    bytes: u64,
    i: u64,
    item: &TInit,
) -> Result<(), NoMemory>
    requires { bytes ≡ size (plain_structs s.now) (given (option_map (λ u. plain_type u.now) t)) }
    ensures { OnOk result (plain_image out.new ≡ placed (plain_image out.old) (part_pieces (plain_structs s.now) at (element_part (plain_structs s.now) (given (option_map (λ u. plain_type u.now) t.entry)) count i) item.now)) }
{
    if is_element(count, i) {
        let offset = element_offset(i, bytes)?;
        put_init(out, s, sum(at, offset)?, t, item)
    } else {
        put_init(out, s, at, None, item)
    }
}

#[cycle(put)]
fn put_members(
    out: &mut StaticImage,
    s: &Structs,
    at: u64,
    row: Option<&StructRow>,
    items: &[TInit],
) -> Result<(), NoMemory>
    ensures { OnOk result (plain_image out.new ≡ placed (plain_image out.old) (numbered (λ i x. part_pieces (plain_structs s.now) at (row_part (plain_structs s.now) (option_map (λ r. plain_struct r.now) row.entry) i) x) 0 items.now)) }
{
    let mut end = 0;
    for (i, item) in items.iter().enumerate() {
        end = put_member(out, s, at, member_at(row, i), end, item)?;
    }
    Ok(())
}

/// Puts the pieces of a member that follows `before` bytes, and gives where the member ends.
#[cycle(put)]
fn put_member(
    out: &mut StaticImage,
    s: &Structs,
    at: u64,
    member: Option<&MemberRow>,
    before: u64,
    item: &TInit,
) -> Result<u64, NoMemory>
    ensures placed { OnOk result (plain_image out.new ≡ placed (plain_image out.old) (part_pieces (plain_structs s.now) at (next_part (plain_structs s.now) before (option_map (λ m. plain_member m.now) member.entry)) item.now)) }
    ensures end { IfOk result (λ r. r ≡ next_end (plain_structs s.now) before (option_map (λ m. plain_member m.now) member.entry)) }
{
    match member {
        Some(m) => {
            let offset = member_offset(s, before, &m.ty)?;
            put_init(out, s, sum(at, offset)?, Some(&m.ty), item)?;
            sum(offset, bytes_of(s, &m.ty)?)
        }
        None => {
            put_init(out, s, at, None, item)?;
            Ok(before)
        }
    }
}

/// Puts a number or a pointer.
fn put_value(out: &mut StaticImage, at: u64, e: &TExpr) -> Result<(), NoMemory>
    ensures { OnOk result (plain_image out.new ≡ placed (plain_image out.old) (value_piece at (typed_expr e.now))) }
{
    match &e.ty {
        CType::Int(kind) => put_number(out, at, *kind, value(e)),
        _ => put_pointer(out, at, &e.node),
    }
}

fn put_number(
    out: &mut StaticImage,
    at: u64,
    kind: IntType,
    z: Option<i128>,
) -> Result<(), NoMemory>
    ensures { OnOk result (plain_image out.new ≡ placed (plain_image out.old) (number_piece at kind z)) }
{
    match z {
        Some(n) => {
            pad(&mut out.bytes, at)?;
            put_low(&mut out.bytes, int_size(kind), word(n))
        }
        None => Ok(()),
    }
}

fn int_size(kind: IntType) -> u32
    ensures { result ≡ int_size kind }
{
    width(kind) / 8
}

fn put_pointer(out: &mut StaticImage, at: u64, node: &TNode) -> Result<(), NoMemory>
    ensures { OnOk result (plain_image out.new ≡ placed (plain_image out.old) (pointer_piece at (typed_node node.now))) }
{
    match node {
        TNode::Lean(l) => put_address(out, at, address(l)),
        _ => Ok(()),
    }
}

fn put_address(out: &mut StaticImage, at: u64, a: Option<StaticPlace>) -> Result<(), NoMemory>
    ensures { OnOk result (plain_image out.new ≡ placed (plain_image out.old) (address_piece at (option_map shown a))) }
{
    match a {
        Some(b) => {
            let offset = offset_word(b.offset.unsigned_abs())?;
            out.pointers.push(StaticPointer {
                at,
                target: b.target,
                offset,
            })?;
            Ok(())
        }
        None => Ok(()),
    }
}

fn offset_word(n: u128) -> Result<u64, NoMemory>
    ensures { IfOk result (λ r. r ≡ n) }
{
    if n < 18_446_744_073_709_551_616 {
        Ok(n as u64)
    } else {
        Err(NoMemory)
    }
}

/// Puts bytes at a place, with zeros before them.
fn put_bytes(out: &mut StaticImage, at: u64, piece: &[u8]) -> Result<(), NoMemory>
    ensures { OnOk result (plain_image out.new ≡ placed (plain_image out.old) (Piece.Bytes at piece.now ∷ [])) }
{
    pad(&mut out.bytes, at)?;
    out.bytes.add(piece)
}

/// Puts zeros up to a place.
fn pad(bytes: &mut Text, at: u64) -> Result<(), NoMemory>
    ensures { OnOk result (bytes.new ≡ bytes.old ++ zeros (at - length bytes.old)) }
{
    let missing = at.saturating_sub(bytes.bytes().len() as u64);
    for _ in 0..missing {
        bytes.push(0)?;
    }
    Ok(())
}

/// Puts the lowest bytes of a word, the lowest first.
#[tactic(auto, using(crate::proofs::Low::low_none, crate::proofs::Low::low_turn))]
fn put_low(bytes: &mut Text, size: u32, w: u64) -> Result<(), NoMemory>
    ensures { OnOk result (bytes.new ≡ bytes.old ++ low_bytes size w) }
{
    if size == 0 {
        return Ok(());
    }
    bytes.push((w % 256) as u8)?;
    put_low(bytes, size - 1, w / 256)
}
