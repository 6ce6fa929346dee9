//! Names, and the value of expressions over the test's own type of values (kc_expr).

ghost use Rattle.std.specs.Prelude.{[], Some};
ghost use Rattle.kc_language.specs.Expressions.{symbol};
ghost use Rattle.kc_language.specs.declared.expressions.SymbolType.TheVariants as symbol_type;

use kc_expr::expression::{Expr, SymId, SymbolType, Tri};
use kc_expr::names::Names;
use kc_expr::parse::parse;
use kc_expr::values::{Values, eval, eval_depends_on_symbols, symbols_into};
use kc_text::{Token, lex};
use std::alloc::Global;

// The functions that check a case own the names and expressions. In a test, each early exit would prove their drops
// again.

// Each symbol is a bool of this value, and the first one is the modules symbol.
struct Alike(Tri);

impl Values for Alike {
    ghost tri_of = { λ a s. a.0 };

    ghost text_of = { λ a s. [] };

    ghost type_of = { λ a s. symbol_type.Bool };

    ghost modules_of = { λ a. Some (symbol 0) };

    fn tri(&self, _id: SymId) -> Tri {
        self.0
    }

    fn text(&self, _id: SymId) -> &[u8] {
        b""
    }

    fn symbol_type(&self, _id: SymId) -> SymbolType {
        SymbolType::Bool
    }

    fn modules(&self) -> Option<SymId> {
        Some(SymId(0))
    }
}

const NUMBERS: &[(&[u8], Option<SymId>)] = &[
    (b"X", Some(SymId(0))),
    (b"B", Some(SymId(1))),
    (b"A", Some(SymId(2))),
    (b"C", Some(SymId(3))),
    (b"n", None),
    (b"Q", None),
    (b"D", None),
    (b"x", None),
];

fn finds_numbers(names: &Names) -> bool {
    for (name, number) in NUMBERS {
        if names.find(name) != *number {
            return false;
        }
    }
    true
}

fn is_numbered(names: &mut Names, name: &[u8], number: usize) -> bool {
    match names.id(name) {
        Ok(id) => id == SymId(number),
        Err(_) => false,
    }
}

fn read_mentions(alloc: Global, names: &mut Names) -> bool {
    let mut tokens = Vec::new(alloc);
    lex(b"B && A = B || n || \"Q\" || X || C D", false, &mut tokens).is_ok()
        && parse(alloc, &tokens, 0, false, names).is_ok()
}

fn are_numbered_at_first_mention(alloc: Global) -> bool {
    let mut names = Names::new(alloc);
    is_numbered(&mut names, b"X", 0)
        && read_mentions(alloc, &mut names)
        && finds_numbers(&names)
        && is_numbered(&mut names, b"D", 4)
        && is_numbered(&mut names, b"A", 2)
}

#[test]
fn names_are_numbered_at_their_first_mention(rt: HostRuntime) {
    assert!(rt; are_numbered_at_first_mention(rt.alloc()));
}

fn the_second_has_its_name(alloc: Global) -> bool {
    let mut names = Names::new(alloc);
    if names.id(b"A").is_err() {
        return false;
    }
    match names.id(b"B_2") {
        Ok(id) => {
            names.are_distinct();
            names.name(id) == b"B_2".as_slice()
        }
        Err(_) => false,
    }
}

#[test]
fn a_number_has_its_name(rt: HostRuntime) {
    assert!(rt; the_second_has_its_name(rt.alloc()));
}

// Whether the tokens are a condition of this value if each symbol is m.
fn tokens_are_worth(alloc: Global, tokens: &[Token], names: &mut Names, want: Tri) -> bool {
    match parse(alloc, tokens, 0, true, names) {
        Ok((expr, _)) => value_of(&expr) == want,
        Err(_) => false,
    }
}

fn value_of(expr: &Expr) -> Tri {
    eval_depends_on_symbols(expr, &Alike(Tri::M), &Alike(Tri::M));
    eval(expr, &Alike(Tri::M))
}

fn is_worth(alloc: Global, line: &[u8], want: Tri) -> bool {
    let mut tokens = Vec::new(alloc);
    let mut names = Names::new(alloc);
    line.len() <= 8191
        && lex(line, false, &mut tokens).is_ok()
        && tokens_are_worth(alloc, &tokens, &mut names, want)
}

// Expressions over a symbol that is m, and their values.
const TRUTHS: &[(&[u8], Tri)] = &[
    (b"A", Tri::M),
    (b"!A", Tri::M),
    (b"A && n", Tri::N),
    (b"A || y", Tri::Y),
    (b"A = m", Tri::Y),
    (b"A > m", Tri::N),
    (b"m", Tri::M),
    (b"y && !m", Tri::M),
    (b"m = m", Tri::Y),
];

#[test]
fn expressions_are_evaluated_over_any_type(rt: HostRuntime) {
    for (line, want) in TRUTHS {
        assert!(rt; is_worth(rt.alloc(), line, *want), "{line:?}");
    }
}

// Adds the symbols in the tokens to the list.
fn named_into(alloc: Global, tokens: &[Token], names: &mut Names, ids: &mut Vec<SymId>) -> bool {
    match parse(alloc, tokens, 0, true, names) {
        Ok((expr, _)) => symbols_into(&expr, Some(SymId(7)), ids).is_ok(),
        Err(_) => false,
    }
}

const NAMED: &[SymId] = &[SymId(9), SymId(0), SymId(1), SymId(0), SymId(2), SymId(7)];

// Whether the symbols of a line come after the number 9, from left to right.
fn are_named(alloc: Global) -> bool {
    let mut tokens = Vec::new(alloc);
    let mut names = Names::new(alloc);
    let mut ids = Vec::new(alloc);
    ids.push(SymId(9)).is_ok()
        && lex(b"C && !(A = C) || B <= \"B\" || m", false, &mut tokens).is_ok()
        && named_into(alloc, &tokens, &mut names, &mut ids)
        && ids.as_slice() == NAMED
}

#[test]
fn symbols_are_named_from_left_to_right(rt: HostRuntime) {
    assert!(rt; are_named(rt.alloc()));
}

// Names of the greatest length that is stored in place, one byte longer, and much longer. The last two differ in their
// last byte.
static LONG_NAMES: &[&[u8]] = &[
    b"ABCDEFGHIJKLMNOPQRSTUVW",
    b"ABCDEFGHIJKLMNOPQRSTUVWX",
    b"ABCDEFGHIJKLMNOPQRSTUVWXY",
    b"ABCDEFGHIJKLMNOPQRSTUVWX_",
    b"ABCDEFGHIJKLMNOPQRSTUVWXYZABCDEFGHIJKLMNOPQRSTUVWXYZABCDEFGH_1",
    b"ABCDEFGHIJKLMNOPQRSTUVWXYZABCDEFGHIJKLMNOPQRSTUVWXYZABCDEFGH_2",
];

fn number_long_names(names: &mut Names) -> bool {
    for (number, name) in LONG_NAMES.iter().enumerate() {
        if !is_numbered(names, name, number) {
            return false;
        }
    }
    true
}

fn finds_long_names(names: &Names) -> bool {
    for (number, name) in LONG_NAMES.iter().enumerate() {
        let id = SymId(number);
        if names.find(name) != Some(id) || names.get(id) != Some(*name) {
            return false;
        }
    }
    true
}

fn are_long_names_kept(alloc: Global) -> bool {
    let mut names = Names::new(alloc);
    number_long_names(&mut names) && finds_long_names(&names)
}

#[test]
fn long_names_are_kept_whole(rt: HostRuntime) {
    assert!(rt; are_long_names_kept(rt.alloc()));
}
