ghost use Rattle.std.specs.Prelude.{◌≡◌, ◌≤◌};
ghost use Rattle.ob_image.specs.Instructions.{integer_type, load_kind, operator, relation};
ghost use Rattle.ob_image.specs.Layout.{type_number, kind_number, operator_number, relation_number};

use ob_model::LoadKind;
use ob_words::{BinOp, IntType, Relation};

/// The number of an integer type: its place in the order of `IntType`, from 0.
pub(crate) fn type_number(kind: IntType) -> u8
    ensures { result ≡ type_number kind }
{
    match kind {
        IntType::Char => 0,
        IntType::SChar => 1,
        IntType::UChar => 2,
        IntType::Short => 3,
        IntType::UShort => 4,
        IntType::Int => 5,
        IntType::UInt => 6,
        IntType::Long => 7,
        IntType::ULong => 8,
        IntType::LLong => 9,
        IntType::ULLong => 10,
    }
}

/// The number of a load kind: that of its integer type, or 11 for a pointer.
pub(crate) fn kind_number(kind: LoadKind) -> u8
    ensures { result ≡ kind_number kind }
{
    match kind {
        LoadKind::Num(kind) => type_number(kind),
        LoadKind::Ptr => 11,
    }
}

/// The number of an operator: its place in the order of `BinOp`, from 0.
pub(crate) fn operator_number(operator: BinOp) -> u64
    ensures { result ≡ operator_number operator }
{
    match operator {
        BinOp::Add => 0,
        BinOp::Sub => 1,
        BinOp::Mul => 2,
        BinOp::Div => 3,
        BinOp::Rem => 4,
        BinOp::And => 5,
        BinOp::Or => 6,
        BinOp::Xor => 7,
        BinOp::Shl => 8,
        BinOp::Shr => 9,
    }
}

/// The number of a relation: its place in the order of `Relation`, from 0.
pub(crate) fn relation_number(relation: Relation) -> u64
    ensures { result ≡ relation_number relation }
{
    match relation {
        Relation::Lt => 0,
        Relation::Gt => 1,
        Relation::Le => 2,
        Relation::Ge => 3,
        Relation::Eq => 4,
        Relation::Ne => 5,
    }
}

/// The integer type of a number.
#[tactic(auto, unfolding(crate::specs::Instructions::integer_type, crate::specs::Instructions::integer_types))]
pub(crate) fn integer_type(number: u8) -> IntType
    requires { number ≤ 10 }
    ensures { result ≡ integer_type number }
{
    match number {
        0 => IntType::Char,
        1 => IntType::SChar,
        2 => IntType::UChar,
        3 => IntType::Short,
        4 => IntType::UShort,
        5 => IntType::Int,
        6 => IntType::UInt,
        7 => IntType::Long,
        8 => IntType::ULong,
        9 => IntType::LLong,
        _ => IntType::ULLong,
    }
}

/// The load kind of a number.
#[tactic(auto, unfolding(crate::specs::Instructions::load_kind))]
pub(crate) fn load_kind(number: u8) -> LoadKind
    requires { number ≤ 11 }
    ensures { result ≡ load_kind number }
{
    match number {
        0 => LoadKind::Num(IntType::Char),
        1 => LoadKind::Num(IntType::SChar),
        2 => LoadKind::Num(IntType::UChar),
        3 => LoadKind::Num(IntType::Short),
        4 => LoadKind::Num(IntType::UShort),
        5 => LoadKind::Num(IntType::Int),
        6 => LoadKind::Num(IntType::UInt),
        7 => LoadKind::Num(IntType::Long),
        8 => LoadKind::Num(IntType::ULong),
        9 => LoadKind::Num(IntType::LLong),
        10 => LoadKind::Num(IntType::ULLong),
        _ => LoadKind::Ptr,
    }
}

/// The operator of a number.
#[tactic(auto, unfolding(crate::specs::Instructions::operator, crate::specs::Instructions::operators))]
pub(crate) fn operator(number: u64) -> BinOp
    requires { number ≤ 9 }
    ensures { result ≡ operator number }
{
    match number {
        0 => BinOp::Add,
        1 => BinOp::Sub,
        2 => BinOp::Mul,
        3 => BinOp::Div,
        4 => BinOp::Rem,
        5 => BinOp::And,
        6 => BinOp::Or,
        7 => BinOp::Xor,
        8 => BinOp::Shl,
        _ => BinOp::Shr,
    }
}

/// The relation of a number.
#[tactic(auto, unfolding(crate::specs::Instructions::relation, crate::specs::Instructions::relations))]
pub(crate) fn relation(number: u64) -> Relation
    requires { number ≤ 5 }
    ensures { result ≡ relation number }
{
    match number {
        0 => Relation::Lt,
        1 => Relation::Gt,
        2 => Relation::Le,
        3 => Relation::Ge,
        4 => Relation::Eq,
        _ => Relation::Ne,
    }
}
