//! The clauses say what gcc computes: tables of edge values, made by gcc.

use crate::tables::places::{BYTES, FIELDS, PUTS};
use crate::tables::ranges::{COMMON, CONVERSIONS, NUMBERS};
use crate::tables::shifts::SHIFTS;
use crate::tables::sums::SUMS;
use crate::{
    BinOp, DivideByZero, IntType, Relation, binary, block, common, compare, convert, get_le,
    number, promote, put_le, signed, width, word,
};

/// The operators of the table of sums, in its order.
static OPERATORS: [BinOp; 8] = [
    BinOp::Add,
    BinOp::Sub,
    BinOp::Mul,
    BinOp::Div,
    BinOp::Rem,
    BinOp::And,
    BinOp::Or,
    BinOp::Xor,
];

#[test]
fn types_agree(rt: HostRuntime) {
    let rows = COMMON;
    for (t, bits, sign, promoted, commons) in &rows {
        assert_eq!(rt; width(*t), *bits, "at {t:?}");
        assert_eq!(rt; signed(*t), *sign, "at {t:?}");
        assert_eq!(rt; promote(*t), *promoted, "at {t:?}");
        for (row, want) in rows.iter().zip(commons) {
            assert_eq!(rt; common(*t, row.0), *want, "at {t:?}");
        }
    }
}

#[test]
fn conversions_agree(rt: HostRuntime) {
    for (t, wants) in &CONVERSIONS {
        for (n, want) in NUMBERS.iter().zip(wants) {
            assert_eq!(rt; convert(*t, *n), *want, "at {t:?} {n}");
            assert_eq!(rt; number(*t, word(*n)), *want, "at {t:?} {n}");
        }
    }
    assert_eq!(rt; word(-1), u64::MAX);
    assert_eq!(rt; word(1 << 64), 0);
}

#[test]
fn operators_agree(rt: HostRuntime) {
    for (t, a, b, wants) in &SUMS {
        let (a, b) = (convert(*t, *a), convert(*t, *b));
        for (op, want) in OPERATORS.iter().zip(wants) {
            assert_eq!(rt; binary(*op, *t, a, b), Ok(*want), "at {op:?} {t:?} {a} {b}");
        }
    }
}

#[test]
fn shifts_agree(rt: HostRuntime) {
    for (t, a, count, left, right) in &SHIFTS {
        let a = convert(*t, *a);
        assert_eq!(rt;
            binary(BinOp::Shl, *t, a, *count),
            Ok(*left),
            "at {t:?} {a} {count}"
        );
        assert_eq!(rt;
            binary(BinOp::Shr, *t, a, *count),
            Ok(*right),
            "at {t:?} {a} {count}"
        );
    }
}

#[test]
fn division_by_zero_is_refused(rt: HostRuntime) {
    let seven = convert(IntType::Int, 7);
    let zero = convert(IntType::Int, 0);
    assert_eq!(rt;
        binary(BinOp::Div, IntType::Int, seven, zero),
        Err(DivideByZero)
    );
    assert_eq!(rt;
        binary(BinOp::Rem, IntType::Int, seven, zero),
        Err(DivideByZero)
    );
    assert_eq!(rt; binary(BinOp::Shr, IntType::Int, seven, zero), Ok(7));
}

#[test]
fn comparisons_agree(rt: HostRuntime) {
    let relations = [
        (Relation::Lt, [true, false, false]),
        (Relation::Gt, [false, false, true]),
        (Relation::Le, [true, true, false]),
        (Relation::Ge, [false, true, true]),
        (Relation::Eq, [false, true, false]),
        (Relation::Ne, [true, false, true]),
    ];
    for (r, wants) in &relations {
        for (a, want) in [i128::MIN, -1, i128::MAX].iter().zip(wants) {
            assert_eq!(rt; compare(*r, *a, -1), *want, "at {r:?} {a}");
        }
    }
}

#[test]
fn fields_agree(rt: HostRuntime) {
    for (at, size, want) in &FIELDS {
        let (at, size) = (*at, *size);
        let fits = (size == 1 || size == 2 || size == 4 || size == 8) && at < 12 && at + size <= 12;
        assert!(rt; fits);
        assert_eq!(rt; get_le(&BYTES, at, size), *want, "at {at} {size}");
    }
    for (at, size, want) in &PUTS {
        let (at, size) = (*at, *size);
        let fits = (size == 1 || size == 2 || size == 4 || size == 8) && at < 12 && at + size <= 12;
        assert!(rt; fits);
        let mut bytes = BYTES;
        put_le(&mut bytes, at, size, 0xfedc_ba98_7654_3210);
        assert_eq!(rt; bytes, *want, "at {at} {size}");
    }
}

#[test]
fn blocks_hold_one_byte_more(rt: HostRuntime) {
    let rows = [
        (0, 16),
        (1, 16),
        (15, 16),
        (16, 32),
        (17, 32),
        (31, 32),
        (4194303, 4194304),
    ];
    for (n, want) in rows {
        assert_eq!(rt; block(n), want, "at {n}");
    }
    assert_eq!(rt; block((1 << 63) - 1), 1 << 63);
}
