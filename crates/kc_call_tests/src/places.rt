//! The allowed user values of symbols, and what a list of places holds (kc_user).

use crate::trial::{Claim, is_true_of};
use kc_expr::expression::{SymId, Tri};
use kc_tree::tree::Tree;
use kc_user::sparse::SparseVec;
use kc_user::value::{UserValue, allowed};
use std::alloc::{AllocError, Global};

// Its symbols by number: A, T, S, I, X, U and M.
const TREE: &[u8] =
    b"config A\n\tbool \"a\"\nconfig T\n\ttristate \"t\"\nconfig S\n\tstring \"s\"\nconfig I\n\tint \"i\"\n\
config X\n\thex \"x\"\nconfig U\nchoice\n\tprompt \"c\"\nconfig M\n\tbool \"m\"\nendchoice\n";

// A user value: a truth value, a text, or a text of this many quotes.
enum Sample {
    Truth(Tri),
    Text(&'static [u8]),
    Quotes(usize),
}

// Whether this value is allowed for the symbol of this number.
struct Allowed(usize, Sample, bool);

const SAMPLES: &[(&str, Allowed)] = &[
    ("a bool, n", Allowed(0, Sample::Truth(Tri::N), true)),
    ("a bool, m", Allowed(0, Sample::Truth(Tri::M), false)),
    ("a bool, y", Allowed(0, Sample::Truth(Tri::Y), true)),
    ("a tristate, n", Allowed(1, Sample::Truth(Tri::N), true)),
    ("a tristate, m", Allowed(1, Sample::Truth(Tri::M), true)),
    ("a tristate, y", Allowed(1, Sample::Truth(Tri::Y), true)),
    ("a string, n", Allowed(2, Sample::Truth(Tri::N), false)),
    ("a string, m", Allowed(2, Sample::Truth(Tri::M), false)),
    ("a string, y", Allowed(2, Sample::Truth(Tri::Y), false)),
    (
        "a symbol without a type, n",
        Allowed(5, Sample::Truth(Tri::N), false),
    ),
    (
        "a symbol without a type, m",
        Allowed(5, Sample::Truth(Tri::M), false),
    ),
    (
        "a symbol without a type, y",
        Allowed(5, Sample::Truth(Tri::Y), false),
    ),
    ("a member, n", Allowed(6, Sample::Truth(Tri::N), true)),
    ("a member, m", Allowed(6, Sample::Truth(Tri::M), false)),
    ("a member, y", Allowed(6, Sample::Truth(Tri::Y), true)),
    (
        "a symbol that is not defined, n",
        Allowed(7, Sample::Truth(Tri::N), false),
    ),
    (
        "a symbol that is not defined, m",
        Allowed(7, Sample::Truth(Tri::M), false),
    ),
    (
        "a symbol that is not defined, y",
        Allowed(7, Sample::Truth(Tri::Y), false),
    ),
    ("a bool, a text", Allowed(0, Sample::Text(b"y"), false)),
    (
        "a string, quotes",
        Allowed(2, Sample::Text(b"a \"b\""), true),
    ),
    (
        "a string, a line end",
        Allowed(2, Sample::Text(b"a\nb"), false),
    ),
    ("an int, a number", Allowed(3, Sample::Text(b"-010"), true)),
    (
        "an int, a hex number",
        Allowed(3, Sample::Text(b"0x10"), false),
    ),
    ("a hex, a number", Allowed(4, Sample::Text(b"fF"), true)),
    (
        "a hex, a negative number",
        Allowed(4, Sample::Text(b"-1"), false),
    ),
    (
        "a symbol without a type, its name",
        Allowed(5, Sample::Text(b"U"), false),
    ),
    // a quote counts twice
    (
        "a string, as many quotes as fit",
        Allowed(2, Sample::Quotes(32_499), true),
    ),
    (
        "a string, one quote more",
        Allowed(2, Sample::Quotes(32_500), false),
    ),
];

fn value_of(alloc: Global, sample: &Sample) -> Result<UserValue, AllocError> {
    match sample {
        Sample::Truth(value) => Ok(UserValue::Tri(*value)),
        Sample::Text(text) => Ok(UserValue::Text(Vec::from_slice(alloc, text)?)),
        Sample::Quotes(count) => Ok(UserValue::Text(vec![in alloc; b'"'; *count]?)),
    }
}

impl Claim for Allowed {
    fn holds_of(&self, alloc: Global, tree: &Tree) -> bool {
        let Allowed(symbol, sample, wanted) = self;
        match value_of(alloc, sample) {
            Ok(value) => allowed(tree, SymId(*symbol), &value) == *wanted,
            Err(_) => false,
        }
    }
}

#[test]
fn the_type_says_what_a_symbol_may_have(rt: HostRuntime) {
    for (name, sample) in SAMPLES {
        assert!(rt; is_true_of(rt.alloc(), TREE, sample), "{name}");
    }
}

// Whether three places hold these values.
fn hold(places: &SparseVec<u8>, first: Option<u8>, second: Option<u8>, third: Option<u8>) -> bool {
    places.get(0).copied() == first
        && places.get(1).copied() == second
        && places.get(2).copied() == third
}

// Whether three places hold the last values that were put there, and a fourth, which does not exist, holds nothing.
fn hold_the_last(alloc: Global) -> Result<bool, AllocError> {
    let mut places: SparseVec<u8> = SparseVec::empty(alloc, 3)?;
    let mut all = hold(&places, None, None, None);
    places.set(1, Some(7))?;
    all = all && hold(&places, None, Some(7), None);
    places.set(2, Some(8))?;
    places.set(1, Some(9))?;
    all = all && hold(&places, None, Some(9), Some(8));
    places.set(1, None)?;
    places.set(0, Some(6))?;
    all = all && hold(&places, Some(6), None, Some(8));
    places.set(1, Some(5))?;
    all = all && hold(&places, Some(6), Some(5), Some(8));
    Ok(all && places.len() == 3 && places.get(3).is_none())
}

#[test]
fn a_place_holds_what_was_put_there_last(rt: HostRuntime) {
    assert!(rt; matches!(hold_the_last(rt.alloc()), Ok(true)));
}
