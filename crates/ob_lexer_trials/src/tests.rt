//! Tables of sources with their tokens, each token of the grammar among them, and of faults. The types
//! of the constants in the table of suffixes are those that gcc gives them on a 64-bit Linux.

use ob_lexer::lex;
use ob_tree::{LexFault, TokenKind};
use std::alloc::{AllocError, Global};
use std::fmt::Write;
use std::test::Fail;

const LIMIT: usize = 1_048_576;

/// The tokens of a source, or its fault; with `places` each with its span.
fn shown(alloc: Global, source: &[u8], places: bool) -> Result<String, AllocError> {
    let mut text = String::new(alloc);
    if source.len() > LIMIT {
        return Ok(text);
    }
    match lex(alloc, source) {
        Err(fault) => show_fault(&mut text, fault)?,
        Ok(tokens) => {
            for token in &tokens {
                if !text.is_empty() {
                    text.push_str(" ")?;
                }
                show_kind(&mut text, &token.kind)?;
                if places {
                    let span = token.span;
                    write!(text, "@{}-{}", span.start, span.end)?;
                    write!(text, ",{}:{}", span.line, span.column)?;
                }
            }
        }
    }
    Ok(text)
}

fn show_fault(text: &mut String, fault: LexFault) -> Result<(), AllocError> {
    match fault {
        LexFault::Stray(at) => write!(text, "Stray({at})"),
        LexFault::Unclosed(at) => write!(text, "Unclosed({at})"),
        LexFault::Wide(at) => write!(text, "Wide({at})"),
        LexFault::NoMemory => text.push_str("NoMemory"),
    }
}

fn show_kind(text: &mut String, kind: &TokenKind) -> Result<(), AllocError> {
    match kind {
        TokenKind::Word(word) => write!(text, "{word:?}"),
        TokenKind::Name(name) => {
            for byte in name.bytes() {
                text.push(*byte as char)?;
            }
            Ok(())
        }
        TokenKind::Number { value, ty } => write!(text, "{value}{ty:?}"),
        TokenKind::Str(bytes) => write!(text, "{:?}", bytes.bytes()),
        TokenKind::Sign(sign) => write!(text, "{sign:?}"),
    }
}

/// Sources and their tokens.
const TOKENS: [(&str, &str); 13] = [
    (
        "break char continue do else for if int long return short signed sizeof static struct \
     unsigned void while NULL EOF size_t auto case default double enum extern float goto \
     inline switch typedef union volatile _Bool _Complex _Imaginary",
        "Break Char Continue Do Else For If Int Long Return Short Signed Sizeof Static Struct \
     Unsigned Void While Null Eof SizeT Auto Case Default Double Enum Extern Float Goto \
     Inline Switch Typedef Union Volatile Bool Complex Imaginary",
    ),
    (
        "[ ] ( ) { } . -> ++ -- & * + - ~ ! / % << >> < > <= >= == != ^ | && || ? : ; = *= /= %= \
     += -= <<= >>= &= ^= |= ,",
        "OpenBracket CloseBracket OpenParen CloseParen OpenBrace CloseBrace Dot Arrow PlusPlus \
     MinusMinus Amp Star Plus Minus Tilde Not Slash Percent Shl Shr Lt Gt Le Ge EqEq NotEq \
     Caret Bar AndAnd OrOr Question Colon Semi Assign StarAssign SlashAssign PercentAssign \
     PlusAssign MinusAssign ShlAssign ShrAssign AmpAssign CaretAssign BarAssign Comma",
    ),
    (
        "2147483647 2147483648 4294967295 4294967296 9223372036854775807 2147483647u 2147483648u \
     4294967295u 4294967296u 9223372036854775807u 9223372036854775808u 18446744073709551615u \
     2147483647l 2147483648l 4294967295l 4294967296l 9223372036854775807l 2147483647ul \
     2147483648ul 4294967295ul 4294967296ul 9223372036854775807ul 9223372036854775808ul \
     18446744073709551615ul 2147483647ll 2147483648ll 4294967295ll 4294967296ll \
     9223372036854775807ll 2147483647ull 2147483648ull 4294967295ull 4294967296ull \
     9223372036854775807ull 9223372036854775808ull 18446744073709551615ull 017777777777 \
     020000000000 037777777777 040000000000 0777777777777777777777 01000000000000000000000 \
     01777777777777777777777 017777777777u 020000000000u 037777777777u 040000000000u \
     0777777777777777777777u 01000000000000000000000u 01777777777777777777777u 017777777777l \
     020000000000l 037777777777l 040000000000l 0777777777777777777777l \
     01000000000000000000000l 01777777777777777777777l 017777777777ul 020000000000ul \
     037777777777ul 040000000000ul 0777777777777777777777ul 01000000000000000000000ul \
     01777777777777777777777ul 017777777777ll 020000000000ll 037777777777ll 040000000000ll \
     0777777777777777777777ll 01000000000000000000000ll 01777777777777777777777ll \
     017777777777ull 020000000000ull 037777777777ull 040000000000ull \
     0777777777777777777777ull 01000000000000000000000ull 01777777777777777777777ull \
     0x7FFFFFFF 0x80000000 0xFFFFFFFF 0x100000000 0x7FFFFFFFFFFFFFFF 0x8000000000000000 \
     0xFFFFFFFFFFFFFFFF 0x7FFFFFFFu 0x80000000u 0xFFFFFFFFu 0x100000000u 0x7FFFFFFFFFFFFFFFu \
     0x8000000000000000u 0xFFFFFFFFFFFFFFFFu 0x7FFFFFFFl 0x80000000l 0xFFFFFFFFl 0x100000000l \
     0x7FFFFFFFFFFFFFFFl 0x8000000000000000l 0xFFFFFFFFFFFFFFFFl 0x7FFFFFFFul 0x80000000ul \
     0xFFFFFFFFul 0x100000000ul 0x7FFFFFFFFFFFFFFFul 0x8000000000000000ul \
     0xFFFFFFFFFFFFFFFFul 0x7FFFFFFFll 0x80000000ll 0xFFFFFFFFll 0x100000000ll \
     0x7FFFFFFFFFFFFFFFll 0x8000000000000000ll 0xFFFFFFFFFFFFFFFFll 0x7FFFFFFFull \
     0x80000000ull 0xFFFFFFFFull 0x100000000ull 0x7FFFFFFFFFFFFFFFull 0x8000000000000000ull \
     0xFFFFFFFFFFFFFFFFull 7u 7U 7l 7L 7ll 7LL 7ul 7uL 7ull 7uLL 7Ul 7UL 7Ull 7ULL 7lu 7lU \
     7llu 7llU 7Lu 7LU 7LLu 7LLU 0 00 07 0x0 0XaF 0xAf 1",
        "2147483647Int 2147483648Long 4294967295Long 4294967296Long 9223372036854775807Long \
     2147483647UInt 2147483648UInt 4294967295UInt 4294967296ULong 9223372036854775807ULong \
     9223372036854775808ULong 18446744073709551615ULong 2147483647Long 2147483648Long \
     4294967295Long 4294967296Long 9223372036854775807Long 2147483647ULong 2147483648ULong \
     4294967295ULong 4294967296ULong 9223372036854775807ULong 9223372036854775808ULong \
     18446744073709551615ULong 2147483647LLong 2147483648LLong 4294967295LLong \
     4294967296LLong 9223372036854775807LLong 2147483647ULLong 2147483648ULLong \
     4294967295ULLong 4294967296ULLong 9223372036854775807ULLong 9223372036854775808ULLong \
     18446744073709551615ULLong 2147483647Int 2147483648UInt 4294967295UInt 4294967296Long \
     9223372036854775807Long 9223372036854775808ULong 18446744073709551615ULong \
     2147483647UInt 2147483648UInt 4294967295UInt 4294967296ULong 9223372036854775807ULong \
     9223372036854775808ULong 18446744073709551615ULong 2147483647Long 2147483648Long \
     4294967295Long 4294967296Long 9223372036854775807Long 9223372036854775808ULong \
     18446744073709551615ULong 2147483647ULong 2147483648ULong 4294967295ULong \
     4294967296ULong 9223372036854775807ULong 9223372036854775808ULong \
     18446744073709551615ULong 2147483647LLong 2147483648LLong 4294967295LLong \
     4294967296LLong 9223372036854775807LLong 9223372036854775808ULLong \
     18446744073709551615ULLong 2147483647ULLong 2147483648ULLong 4294967295ULLong \
     4294967296ULLong 9223372036854775807ULLong 9223372036854775808ULLong \
     18446744073709551615ULLong 2147483647Int 2147483648UInt 4294967295UInt 4294967296Long \
     9223372036854775807Long 9223372036854775808ULong 18446744073709551615ULong \
     2147483647UInt 2147483648UInt 4294967295UInt 4294967296ULong 9223372036854775807ULong \
     9223372036854775808ULong 18446744073709551615ULong 2147483647Long 2147483648Long \
     4294967295Long 4294967296Long 9223372036854775807Long 9223372036854775808ULong \
     18446744073709551615ULong 2147483647ULong 2147483648ULong 4294967295ULong \
     4294967296ULong 9223372036854775807ULong 9223372036854775808ULong \
     18446744073709551615ULong 2147483647LLong 2147483648LLong 4294967295LLong \
     4294967296LLong 9223372036854775807LLong 9223372036854775808ULLong \
     18446744073709551615ULLong 2147483647ULLong 2147483648ULLong 4294967295ULLong \
     4294967296ULLong 9223372036854775807ULLong 9223372036854775808ULLong \
     18446744073709551615ULLong 7UInt 7UInt 7Long 7Long 7LLong 7LLong 7ULong 7ULong 7ULLong \
     7ULLong 7ULong 7ULong 7ULLong 7ULLong 7ULong 7ULong 7ULLong 7ULLong 7ULong 7ULong \
     7ULLong 7ULLong 0Int 0Int 7Int 0Int 175Int 175Int 1Int",
    ),
    (
        "a_1 _ int1 Int const_ xconst",
        "a_1 _ int1 Int const_ xconst",
    ),
    ("const int register*restrict x", "Int Star x"),
    (
        r#"'a' '\n' '\t' '\r' '\a' '\b' '\f' '\v' '\\' '\'' '\"' '\?' '"'"#,
        "97Int 10Int 9Int 13Int 7Int 8Int 12Int 11Int 92Int 39Int 34Int 63Int 34Int",
    ),
    (
        r#"'\0' '\101' '\377' '\x7f' '\x80' '\xFF' '\x0000041'"#,
        "0Int 65Int -1Int 127Int -128Int -1Int 65Int",
    ),
    (
        r#""" "ab" "\1018\08" "\x41g'\"" "\377""#,
        "[] [97, 98] [65, 56, 0, 56] [65, 103, 39, 34] [255]",
    ),
    ("// a\nb/* * / c */d/**/e//", "b d e"),
    ("#include <stdio.h>", ""),
    (
        " \t# \tinclude \t<stdlib.h> /* a */ /* b */// c\n#include<stddef.h>\r\n#include <string.h>\t\nx",
        "x",
    ),
    ("'\t'", "9Int"),
    ("", ""),
];

#[test]
fn reads_each_token(rt: HostRuntime) -> Result<(), Fail> {
    let alloc = rt.alloc();
    for (source, tokens) in &TOKENS {
        assert_eq!(rt;
            shown(alloc, source.as_bytes(), false)?.as_str(),
            *tokens,
            "at {source}"
        );
    }
    Ok(())
}

/// Sources and their tokens with their spans, or their first faults.
const SPANS: [(&str, &str); 55] = [
    ("a+++b", "a@0-1,1:1 PlusPlus@1-3,1:2 Plus@3-4,1:4 b@4-5,1:5"),
    (
        ">>=>>>=->-->",
        "ShrAssign@0-3,1:1 Shr@3-5,1:4 Ge@5-7,1:6 Arrow@7-9,1:8 MinusMinus@9-11,1:10 Gt@11-12,1:12",
    ),
    (
        "a.b..c",
        "a@0-1,1:1 Dot@1-2,1:2 b@2-3,1:3 Dot@3-4,1:4 Dot@4-5,1:5 c@5-6,1:6",
    ),
    (
        "0x1F 07\n/* \n */ x\r\n\ty",
        "31Int@0-4,1:1 7Int@5-7,1:6 x@16-17,3:5 y@20-21,4:2",
    ),
    ("int main(void){return 1.5;}", "Stray(22)"),
    ("int x=99999999999999999999;", "Wide(6)"),
    ("/*", "Unclosed(0)"),
    ("/*/", "Unclosed(0)"),
    ("x /* a **", "Unclosed(2)"),
    (".5", "Stray(0)"),
    ("a .5", "Stray(2)"),
    ("1.", "Stray(0)"),
    ("08", "Stray(0)"),
    ("x=0779", "Stray(2)"),
    ("0x", "Stray(0)"),
    ("0xg", "Stray(0)"),
    ("12ab", "Stray(0)"),
    ("1lL", "Stray(0)"),
    ("1lul", "Stray(0)"),
    ("1uu", "Stray(0)"),
    ("9223372036854775807 9223372036854775808", "Wide(20)"),
    ("9223372036854775808l", "Wide(0)"),
    ("0x10000000000000000", "Wide(0)"),
    ("18446744073709551616ull", "Wide(0)"),
    ("9999999999999999999x", "Wide(0)"),
    ("99999999999999999999.5", "Wide(0)"),
    ("9223372036854775808ux", "Stray(0)"),
    ("' a", "Unclosed(0)"),
    ("x'ab'", "Stray(1)"),
    ("''", "Stray(0)"),
    ("'''", "Stray(0)"),
    (r"'\400'", "Wide(0)"),
    (r"'a\400'", "Wide(0)"),
    (r"'\x100'", "Wide(0)"),
    (r"'\x'", "Stray(0)"),
    (r"'\q'", "Stray(0)"),
    (r"'\8'", "Stray(0)"),
    ("'\u{e9}'", "Stray(0)"),
    (r#""\q""#, "Stray(0)"),
    (r#""\q\x100""#, "Wide(0)"),
    ("  \"abc\n\"", "Unclosed(2)"),
    ("\"abc\\\n\"", "Unclosed(0)"),
    ("\"abc\\\"", "Unclosed(0)"),
    ("'a\n'", "Unclosed(0)"),
    ("x #include <stdio.h>", "Stray(2)"),
    ("/**/#include <stdio.h>", "Stray(4)"),
    ("#include <stdio.h> x", "Stray(0)"),
    ("#include <stdio.h> /* a\n*/", "Stray(0)"),
    ("#include <stdio.h> /*", "Stray(0)"),
    ("#include <stdio.h>\r x", "Stray(0)"),
    ("#include \"stdio.h\"", "Stray(0)"),
    ("#include <math.h>", "Stray(0)"),
    ("\n #define x", "Stray(2)"),
    ("a $", "Stray(2)"),
    ("\u{e9}", "Stray(0)"),
];

#[test]
fn finds_places_and_faults(rt: HostRuntime) -> Result<(), Fail> {
    let alloc = rt.alloc();
    for (source, tokens) in &SPANS {
        assert_eq!(rt;
            shown(alloc, source.as_bytes(), true)?.as_str(),
            *tokens,
            "at {source}"
        );
    }
    let bytes = b"\"\x80\xff\"/*\xfe*/'\x01'\"\x00\r\"";
    assert_eq!(rt;
        shown(alloc, bytes, false)?.as_str(),
        "[128, 255] 1Int [0, 13]"
    );
    Ok(())
}

#[test]
fn reads_the_longest_text(rt: HostRuntime) -> Result<(), Fail> {
    let alloc = rt.alloc();
    let mut text = vec![in alloc; b' '; LIMIT - 1]?;
    text.push(b';')?;
    assert_eq!(rt;
        shown(alloc, text.as_slice(), true)?.as_str(),
        "Semi@1048575-1048576,1:1048576"
    );
    Ok(())
}
