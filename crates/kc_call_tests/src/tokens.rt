//! Tokens, numbers and escapes (kc_text).
use kc_text::*;
use std::alloc::{AllocError, Global};

// The functions that check a case own what they compare. In a test, each early exit would prove its drops again.

fn name_of_fault(fault: TextFault) -> &'static str {
    match fault {
        TextFault::LineTooLong(_) => "line too long",
        TextFault::BadToken => "bad token",
        TextFault::Macro => "macro",
        TextFault::Memory => "memory",
    }
}

fn spelling_of(op: Op) -> &'static [u8] {
    match op {
        Op::Eq => b"=",
        Op::Ne => b"!=",
        Op::Lt => b"<",
        Op::Gt => b">",
        Op::Le => b"<=",
        Op::Ge => b">=",
        Op::Not => b"!",
        Op::And => b"&&",
        Op::Or => b"||",
        Op::LParen => b"(",
        Op::RParen => b")",
    }
}

// Adds the text of the tokens, each followed by a blank. A quoted text is between `<` and `>`.
fn tokens_into(tokens: &[Token], text: &mut Vec<u8>) -> Result<(), AllocError> {
    for token in tokens {
        match token {
            Token::Word(word) => text.extend_from_slice(word)?,
            Token::Quoted(quoted) => {
                text.push(b'<')?;
                text.extend_from_slice(quoted)?;
                text.push(b'>')?;
            }
            Token::Op(op) => text.extend_from_slice(spelling_of(*op))?,
        }
        text.push(b' ')?;
    }
    Ok(())
}

// Whether the lexer cuts the line into these tokens, each followed by a blank.
fn is_cut(alloc: Global, line: &[u8], want: &[u8]) -> bool {
    let mut tokens = Vec::new(alloc);
    let mut text = Vec::new(alloc);
    lex(line, false, &mut tokens).is_ok()
        && tokens_into(&tokens, &mut text).is_ok()
        && text.as_slice() == want
}

// A line and its tokens.
const TOKENS: &[(&[u8], &[u8])] = &[
    (
        b"a=b!=c<d>e<=f>=g!h&&i||(j)\"k\"'l'#m",
        b"a = b != c < d > e <= f >= g ! h && i || ( j ) <k> <l> ",
    ),
    (b"config A", b"config A "),
    (b"AZaz09_-/.", b"AZaz09_-/. "),
    (b"\t bool\t\"a b\"  ", b"bool <a b> "),
    (b"!==!!", b"!= = ! ! "),
    (b"\"it's\" 'say \"x\"'", b"<it's> <say \"x\"> "),
    (b"\"a\\\"b\\\\\" c", b"<a\\\"b\\\\> c "),
    (b"\"\" \"#\" \"\0\r\"", b"<> <#> <\0\r> "),
    (b"a#\"$+", b"a "),
    (b" \t ", b""),
    (b"", b""),
];

#[test]
fn each_kind_of_token_is_cut(rt: HostRuntime) {
    for (line, want) in TOKENS {
        assert!(rt; is_cut(rt.alloc(), line, want), "{line:?}");
    }
}

// Whether the lexer fails on the line with this error.
fn is_not_cut(alloc: Global, line: &[u8], want: &str) -> bool {
    let mut tokens = Vec::new(alloc);
    match lex(line, false, &mut tokens) {
        Ok(()) => false,
        Err(fault) => name_of_fault(fault) == want,
    }
}

// Lines on which the lexer fails, and the first error.
const FAULTS: &[(&[u8], &str)] = &[
    (b"bool \"$(x)\"", "macro"),
    (b"A $B + C", "macro"),
    (b"'\\$'", "macro"),
    (b"\"a $", "macro"),
    (b"\"a # $", "macro"),
    (b"\"a\"$", "macro"),
    (b"A & $B", "bad token"),
    (b"A | B", "bad token"),
    (b"A + $B", "bad token"),
    (b"prompt it's", "bad token"),
    (b"\"a # b", "bad token"),
    (b"\"a\\\"", "bad token"),
    (b"\"a\\", "bad token"),
    (b"A\\", "bad token"),
    (b"A\r", "bad token"),
    (b"\0", "bad token"),
    (b"\xC3\xA4", "bad token"),
];

#[test]
fn the_first_place_that_cannot_be_cut_decides(rt: HostRuntime) {
    for (line, want) in FAULTS {
        assert!(rt; is_not_cut(rt.alloc(), line, want), "{line:?}");
    }
}

const INTS: &[(&[u8], Option<i128>)] = &[
    (b"0", Some(0)),
    (b"-0", Some(0)),
    (b"-007", Some(-7)),
    (
        b"0000000000000000000000000000000000000000000000000012",
        Some(12),
    ),
    (b"9223372036854775807", Some(9223372036854775807)),
    (b"9223372036854775808", None),
    (b"-9223372036854775808", Some(-9223372036854775808)),
    (b"-9223372036854775809", None),
    (
        b"9999999999999999999999999999999999999999999999999999",
        None,
    ),
    (b"", None),
    (b"-", None),
    (b"--1", None),
    (b"+1", None),
    (b" 1", None),
    (b"1 ", None),
    (b"0x1", None),
    (b"1a", None),
];

#[test]
fn ints_are_read(rt: HostRuntime) {
    for (text, want) in INTS {
        assert!(rt; read_int(text) == *want);
    }
}

const HEXES: &[(&[u8], Option<i128>)] = &[
    (b"0", Some(0)),
    (b"ff", Some(255)),
    (b"0xfF", Some(255)),
    (b"0X00FF", Some(255)),
    (b"10", Some(16)),
    (b"ffffffffffffffff", Some(18446744073709551615)),
    (b"0x10000000000000000", None),
    (b"", None),
    (b"0x", None),
    (b"0X", None),
    (b"x1", None),
    (b"0x0x1", None),
    (b"-1", None),
    (b"+1", None),
    (b"1g", None),
];

#[test]
fn hexes_are_read(rt: HostRuntime) {
    for (text, want) in HEXES {
        assert!(rt; read_hex(text) == *want);
    }
}

fn is_escaped_as(alloc: Global, text: &[u8], want: &[u8]) -> bool {
    let mut out = Vec::new(alloc);
    escape_into(text, &mut out).is_ok() && out.as_slice() == want
}

fn is_unescaped_as(alloc: Global, text: &[u8], want: &[u8]) -> bool {
    let mut out = Vec::new(alloc);
    unescape_into(text, &mut out).is_ok() && out.as_slice() == want
}

// A text, and the text escaped.
const ESCAPED: &[(&[u8], &[u8])] = &[(b"", b""), (b"a'b#$", b"a'b#$"), (b"q\"\\z", b"q\\\"\\\\z")];

#[test]
fn texts_are_escaped_and_back(rt: HostRuntime) {
    for (text, escaped) in ESCAPED {
        assert!(rt; is_escaped_as(rt.alloc(), text, escaped));
        assert!(rt; is_unescaped_as(rt.alloc(), escaped, text));
    }
}

// Escaped texts that are never written, and their meanings.
const UNESCAPED: &[(&[u8], &[u8])] = &[(b"\\m\\n", b"mn"), (b"a\\", b"a\\"), (b"\\\\\\", b"\\\\")];

#[test]
fn any_byte_is_unescaped(rt: HostRuntime) {
    for (text, want) in UNESCAPED {
        assert!(rt; is_unescaped_as(rt.alloc(), text, want));
    }
}

fn are_added(alloc: Global, want: &[u8]) -> bool {
    let mut out = Vec::new(alloc);
    escape_into(b"\"", &mut out).is_ok()
        && unescape_into(b"\\\"", &mut out).is_ok()
        && out.as_slice() == want
}

#[test]
fn escaped_texts_are_added_at_the_end(rt: HostRuntime) {
    assert!(rt; are_added(rt.alloc(), b"\\\"\""));
}
