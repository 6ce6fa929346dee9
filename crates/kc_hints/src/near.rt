//! Names that are similar to a name that no symbol has.
ghost use Rattle.std.specs.List.{list_all};
ghost use Rattle.std.specs.Option.{option_copied};
ghost use Rattle.std.specs.Prelude.{◌≡◌, ◌≤◌, ◌==◌, ◌+◌, ◌&&◌, ◌++◌, ◌∷◌, [], IfOk, OnOk, if◌then◌else◌, length, map};
ghost use Rattle.kc_hints.specs.Near.{are_exchanged, are_first_exchanged, are_same_parts, bare, behind_name, count_of, is_moved, is_near, is_typed, may_give, mentioned_text, near_names, parts, question, typed_text};

use kc_explain::differs_by_one;
use kc_expr::expression::{SymId, SymbolType};
use kc_tree::tree::Tree;
use std::alloc::{AllocError, Global};

/// The maximum number of names in a hint.
const MOST_NAMES: usize = 3;

// Whether the first two letters of the names are swapped, and all others are the same.
fn are_first_exchanged(asked: &[u8], name: &[u8]) -> bool
    ensures { result ≡ are_first_exchanged asked.now name.now }
{
    match (asked, name) {
        ([a, b, asked_rest @ ..], [c, d, name_rest @ ..]) => {
            a == d && b == c && asked_rest == name_rest
        }
        _ => false,
    }
}

// Whether two neighbouring letters are swapped.
fn are_exchanged(mut asked: &[u8], mut name: &[u8]) -> bool
    ensures { result ≡ are_exchanged asked.entry.now name.entry.now }
{
    'letters: while let [a, asked_rest @ ..] = asked {
        match name {
            [] => return false,
            [b, name_rest @ ..] => {
                if a != b {
                    return are_first_exchanged(asked, name);
                }
                asked = asked_rest;
                name = name_rest;
            }
        }
    }
    false
}

// The parts of a name between its `_`.
fn parts_of(alloc: Global, name: &[u8]) -> Result<Vec<&[u8]>, AllocError>
    ensures { IfOk result (λ found. map (λ part. part.now) found.items ≡ parts name.now) }
{
    name.split(|b| *b == b'_').collect(alloc)
}

// How often a part occurs among others.
fn count_of(part: &[u8], among: &[&[u8]]) -> usize
    ensures { result ≡ count_of part.now (map (λ other. other.now) among.now) }
{
    among.iter().filter(|other| part == **other).count()
}

// Whether a part occurs equally often in both.
fn is_as_often(part: &[u8], one: &[&[u8]], other: &[&[u8]]) -> bool
    ensures { result ≡ (count_of part.now (map (λ part. part.now) one.now) == count_of part.now (map (λ part. part.now) other.now)) }
{
    count_of(part, one) == count_of(part, other)
}

// Whether each part of the first occurs equally often in both.
fn stand_as_often(one: &[&[u8]], other: &[&[u8]]) -> bool
    ensures { result ≡ list_all (λ part. count_of part.now (map (λ part. part.now) one.now) == count_of part.now (map (λ part. part.now) other.now)) one.now }
{
    one.iter().all(|part| is_as_often(part, one, other))
}

// Whether the parts are the same, in any order.
fn are_same_parts(one: &[&[u8]], other: &[&[u8]]) -> bool
    ensures { result ≡ are_same_parts (map (λ part. part.now) one.now) (map (λ part. part.now) other.now) }
{
    one.len() == other.len() && stand_as_often(one, other)
}

// Whether the parts of the names are the same, in any order.
fn is_moved(alloc: Global, asked: &[u8], name: &[u8]) -> Result<bool, AllocError>
    ensures { IfOk result (λ moved. moved ≡ is_moved asked.now name.now) }
{
    if asked.len() != name.len() {
        return Ok(false);
    }
    let asked = parts_of(alloc, asked)?;
    let name = parts_of(alloc, name)?;
    Ok(are_same_parts(&asked, &name))
}

// Whether a name is similar.
fn is_near(alloc: Global, asked: &[u8], name: &[u8]) -> Result<bool, AllocError>
    ensures { IfOk result (λ near. near ≡ is_near asked.now name.now) }
{
    if differs_by_one(asked, name) || are_exchanged(asked, name) {
        return Ok(true);
    }
    is_moved(alloc, asked, name)
}

// Whether a symbol has a type.
fn is_typed(tree: &Tree, id: SymId) -> bool
    ensures { result ≡ is_typed tree.now id }
{
    match tree.facts(id) {
        Some(symbol) => symbol.symbol_type != SymbolType::Undefined,
        None => false,
    }
}

// Whether a name may be given. Without `told` it must be the name of a symbol with a type. With it, it must not differ
// by one letter from this name.
fn may_give(tree: &Tree, told: Option<&[u8]>, id: SymId, name: &[u8]) -> bool
    ensures { result ≡ may_give tree.now (option_copied told.entry) id name.now }
{
    match told {
        None => is_typed(tree, id),
        Some(told) => !differs_by_one(told, name),
    }
}

// Whether a name is given.
fn is_given(
    alloc: Global,
    tree: &Tree,
    told: Option<&[u8]>,
    asked: &[u8],
    id: SymId,
    name: &[u8],
) -> Result<bool, AllocError>
    ensures { IfOk result (λ given. given ≡ (may_give tree.now (option_copied told.entry) id name.now && is_near asked.now name.now)) }
{
    if !may_give(tree, told, id, name) {
        return Ok(false);
    }
    is_near(alloc, asked, name)
}

// Adds a name, if it is to be given.
fn add_if<'t>(is_given: bool, name: &'t [u8], found: &mut Vec<&'t [u8]>) -> Result<(), AllocError>
    ensures is { OnOk result (map (λ name. name.now) found.new.items ≡ (if is_given then map (λ name. name.now) found.old.items ++ name.now ∷ [] else map (λ name. name.now) found.old.items)) }
    ensures few { OnOk result (length found.new.items ≤ length found.old.items + 1) }
{
    if is_given {
        found.push(name)?;
    }
    Ok(())
}

// The first names of the tree that are to be given.
fn near_names<'t>(
    alloc: Global,
    tree: &'t Tree,
    told: Option<&[u8]>,
    asked: &[u8],
) -> Result<Vec<&'t [u8]>, AllocError>
    ensures { IfOk result (λ found. map (λ name. name.now) found.items ≡ near_names tree.now (option_copied told.entry) asked.now) }
{
    let mut found = Vec::new(alloc);
    for i in 0..tree.name_count() {
        if found.len() >= MOST_NAMES {
            return Ok(found);
        }
        let id = SymId(i);
        let name = tree.name(id);
        let given = is_given(alloc, tree, told, asked, id, name)?;
        add_if(given, name, &mut found)?;
    }
    Ok(found)
}

// The text after a name, with this many more names.
fn behind_name(more: usize) -> &'static [u8]
    ensures { result.now ≡ behind_name more }
{
    match more {
        0 => b"? ",
        1 => b" or ",
        _ => b", ",
    }
}

// The names as a question.
fn question(alloc: Global, names: &[&[u8]]) -> Result<Vec<u8>, AllocError>
    ensures { IfOk result (λ text. text.items ≡ question (map (λ name. name.now) names.now)) }
{
    let mut text = Vec::new(alloc);
    let mut rest = names;
    'names: while let [name, more @ ..] = rest {
        text.extend_from_slice(name)?;
        text.extend_from_slice(behind_name(more.len()))?;
        rest = more;
    }
    Ok(text)
}

// The name without the prefix, if it starts with it.
fn bare<'n>(prefix: &[u8], name: &'n [u8]) -> &'n [u8]
    ensures { result.now ≡ bare prefix.now name.now }
{
    match name.strip_prefix(prefix) {
        Some(rest) => rest,
        None => name,
    }
}

// The given names, as a question.
fn near_text(
    alloc: Global,
    tree: &Tree,
    told: Option<&[u8]>,
    asked: &[u8],
) -> Result<Vec<u8>, AllocError>
    ensures { IfOk result (λ text. text.items ≡ question (near_names tree.now (option_copied told.entry) asked.now)) }
{
    let names = near_names(alloc, tree, told, asked)?;
    question(alloc, &names)
}

/// Returns the names of symbols with a type that are similar to this name, as a question: at most three, in the order
/// of the tree's names (our own). Fails only if there is not enough memory.
pub(crate) fn typed_near(
    alloc: Global,
    tree: &Tree,
    prefix: &[u8],
    asked: &[u8],
) -> Result<Vec<u8>, AllocError>
    ensures { IfOk result (λ text. text.items ≡ typed_text tree.now prefix.now asked.now) }
{
    near_text(alloc, tree, None, bare(prefix, asked))
}

/// Returns the names in the tree that are similar to this name, except for those that differ from it by one letter, as
/// a question: at most three, in the order of the tree's names (our own). Fails only if there is not enough memory.
pub(crate) fn mentioned_near(
    alloc: Global,
    tree: &Tree,
    prefix: &[u8],
    asked: &[u8],
) -> Result<Vec<u8>, AllocError>
    ensures { IfOk result (λ text. text.items ≡ mentioned_text tree.now prefix.now asked.now) }
{
    near_text(alloc, tree, Some(asked), bare(prefix, asked))
}
