//! Requested names, and names that differ from them by one letter.

ghost use Rattle.std.specs.Prelude.{◌≡◌, IfOk, OnOk, option_and_then};
ghost use Rattle.kc_language.specs.ConfigFile.{symbol_named, without_prefix};
ghost use Rattle.kc_outcome.specs.Explanations as whole;
ghost use Rattle.kc_outcome.specs.Outcome as outcome;
ghost use Rattle.kc_explain.specs.NearNames.{before_near, differs_here, with_near};

use kc_expr::expression::SymId;
use kc_input::prefix::Prefix;
use kc_tree::tree::Tree;
use std::alloc::{AllocError, Global};

// The symbol whose name follows the prefix.
fn symbol_behind(tree: &Tree, prefix: &Prefix, asked: &[u8]) -> Option<SymId>
    ensures { result ≡ option_and_then (symbol_named tree.now) (without_prefix prefix.now.prefix asked.now) }
{
    tree.find(asked.strip_prefix(prefix.as_bytes())?)
}

/// The symbol of a requested name. The name may begin with the prefix (our own).
pub fn asked_symbol(tree: &Tree, prefix: &Prefix, asked: &[u8]) -> Option<SymId>
    ensures { result ≡ whole.asked_symbol tree.now prefix.now.prefix asked.now }
{
    match tree.find(asked) {
        Some(id) => Some(id),
        None => symbol_behind(tree, prefix, asked),
    }
}

// Whether two names that begin with different letters differ by one letter.
fn differs_here(asked: &[u8], name: &[u8]) -> bool
    ensures { result ≡ differs_here asked.now name.now }
{
    match (asked, name) {
        ([], _) => name.len() == 1,
        (_, []) => asked.len() == 1,
        ([_, asked_rest @ ..], [_, name_rest @ ..]) => {
            asked_rest == name_rest || asked == name_rest || asked_rest == name
        }
    }
}

/// Whether two names differ by one letter: one letter is different, or only one name has it (our own).
pub fn differs_by_one(mut asked: &[u8], mut name: &[u8]) -> bool
    ensures { result ≡ whole.differs_by_one asked.entry.now name.entry.now }
{
    'letters: while let [a, asked_rest @ ..] = asked {
        match name {
            [] => return differs_here(asked, name),
            [b, name_rest @ ..] => {
                if a != b {
                    return differs_here(asked, name);
                }
                asked = asked_rest;
                name = name_rest;
            }
        }
    }
    differs_here(asked, name)
}

// The text before the next name.
fn before_near(text: &[u8]) -> &'static [u8]
    ensures { result.now ≡ before_near text.now }
{
    if text.is_empty() {
        b"; one letter differs: "
    } else {
        b", "
    }
}

// Appends the name if it differs by one letter.
fn add_near(asked: &[u8], name: &[u8], text: &mut Vec<u8>) -> Result<(), AllocError>
    ensures { OnOk result (text.new.items ≡ with_near asked.now text.old.items name.now) }
{
    if !differs_by_one(asked, name) {
        return Ok(());
    }
    let before = before_near(text);
    text.extend_from_slice(before)?;
    text.extend_from_slice(name)
}

/// Returns the names of defined symbols that differ from the requested name by one letter, with the text before them. The text
/// is empty if there are none (our own). The only error is that memory runs out.
pub fn near_text(alloc: Global, tree: &Tree, asked: &[u8]) -> Result<Vec<u8>, AllocError>
    ensures { IfOk result (λ t. t.items ≡ outcome.near_text tree.now asked.now) }
{
    let mut text = Vec::new(alloc);
    for i in 0..tree.symbol_count() {
        add_near(asked, tree.name(tree.symbol(i)), &mut text)?;
    }
    Ok(text)
}
