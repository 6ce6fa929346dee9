//! What a fix changes: the values of the user that it overrides or loses, and other values.

ghost use Rattle.std.specs.List.{flat_map};
ghost use Rattle.std.specs.Prelude.{◌≡◌, ◌++◌, OnOk, option_map};
ghost use Rattle.kc_how.specs.FixCosts as spec;
ghost use Rattle.kc_how.specs.FixTexts.{changes_line, location_text, many_text};
ghost use Rattle.kc_how.specs.Questions.{IsWith};
ghost use Rattle.kc_input.specs.ShownView.{location_of};
ghost use Rattle.kc_user.specs.ValueView.{given_of_value};
ghost use Rattle.kc_values.specs.User.{given_in};

use crate::question::Question;
use crate::shown::{add_setting, has_value, shown_value, type_of, user_value};
use crate::text::Fix;
use itoa::Buffer;
use kc_expr::expression::SymId;
use kc_input::shown::{InputLine, add_value, is_same, shown_given};
use kc_input::text::add_parts;
use kc_user::value::UserValue;
use std::alloc::AllocError;

/// From this many other values on, a fix may be meant for another board or architecture.
const MANY_CHANGES: usize = 100;

// ---- what changes

// The value that the fix gives a symbol.
fn own_value<'f>(
    question: &Question<'_, '_, '_, '_>,
    fix: &Fix<'f, '_, '_>,
    id: SymId,
) -> Option<&'f UserValue>
    requires { IsWith question.now fix.now }
    ensures { given_in result ≡ spec.own_value question.now fix.now id }
{
    user_value(fix.alone, id)
}

// Whether the symbol had this value of the user, and has it no more.
fn is_loss(
    question: &Question<'_, '_, '_, '_>,
    fix: &Fix<'_, '_, '_>,
    id: SymId,
    old: &UserValue,
) -> bool
    ensures { result ≡ spec.is_loss question.now fix.now id (given_of_value old.now) }
{
    has_value(question.before, id, old) && !has_value(fix.after, id, old)
}

// Whether the symbol had the user's value, and has it no more.
fn is_gone(question: &Question<'_, '_, '_, '_>, fix: &Fix<'_, '_, '_>, id: SymId) -> bool
    ensures { result ≡ spec.is_gone question.now fix.now id }
{
    match user_value(question.input.user(), id) {
        Some(old) => is_loss(question, fix, id, old),
        None => false,
    }
}

/// Whether the user's value of a symbol is lost, and the fix does not override it.
pub(crate) fn is_lost(question: &Question<'_, '_, '_, '_>, fix: &Fix<'_, '_, '_>, id: SymId) -> bool
    requires { IsWith question.now fix.now }
    ensures { result ≡ spec.is_lost question.now fix.now id }
{
    match own_value(question, fix, id) {
        Some(_) => false,
        None => is_gone(question, fix, id),
    }
}

// Whether another value changes: the fix does not give it, and it is no lost value of the user.
fn is_other(question: &Question<'_, '_, '_, '_>, fix: &Fix<'_, '_, '_>, id: SymId) -> bool
    requires { IsWith question.now fix.now }
    ensures { result ≡ spec.is_other question.now fix.now id }
{
    if own_value(question, fix, id).is_some() {
        return false;
    }
    let old = shown_value(question.before, id);
    let new = shown_value(fix.after, id);
    !is_same(old, new) && !is_gone(question, fix, id)
}

// How many other values change.
fn count_others(question: &Question<'_, '_, '_, '_>, fix: &Fix<'_, '_, '_>) -> usize
    requires { IsWith question.now fix.now }
    ensures { result ≡ spec.other_count question.now fix.now question.now.laid.now.tree.now.defined }
{
    let mut count = 0;
    for id in question.laid.layout.defined() {
        if is_other(question, fix, *id) {
            count += 1;
        }
    }
    count
}

// ---- the lines that tell it

// Adds the line of an input file that gave a value, if it is known.
fn add_location(at: Option<InputLine<'_>>, text: &mut Vec<u8>) -> Result<(), AllocError>
    ensures { OnOk result (text.new.items ≡ text.old.items ++ location_text (option_map location_of at.entry)) }
{
    let Some(at) = at else {
        return Ok(());
    };
    let mut buffer = Buffer::new();
    let number = buffer.format(at.number).as_bytes();
    add_parts(&[b" (", at.file, b":", number, b")"], text)
}

// Adds a value of the user and the line that gave it, between two texts.
fn add_user_value(
    question: &Question<'_, '_, '_, '_>,
    front: &[u8],
    id: SymId,
    old: &UserValue,
    end: &[u8],
    text: &mut Vec<u8>,
) -> Result<(), AllocError>
    ensures { OnOk result (text.new.items ≡ text.old.items ++ spec.user_setting question.now front.now id (given_of_value old.now) end.now) }
{
    text.extend_from_slice(front)?;
    add_setting(question.laid.tree, question.prefix, id, old, text)?;
    add_location(question.input.plain_line(id), text)?;
    text.extend_from_slice(end)
}

// Adds the line of a value of the user that is lost.
fn add_loss(
    question: &Question<'_, '_, '_, '_>,
    fix: &Fix<'_, '_, '_>,
    id: SymId,
    old: &UserValue,
    text: &mut Vec<u8>,
) -> Result<(), AllocError>
    ensures { OnOk result (text.new.items ≡ text.old.items ++ spec.loss_line question.now fix.now id (given_of_value old.now)) }
{
    if !is_loss(question, fix, id, old) {
        return Ok(());
    }
    add_user_value(question, b"# loses ", id, old, b", now ", text)?;
    let symbol_type = type_of(question.laid.tree, id);
    add_value(
        question.prefix.is_raw(),
        symbol_type,
        shown_value(fix.after, id),
        text,
    )?;
    text.extend_from_slice(b"\n")
}

// Adds the line of a value of the user that is overridden or lost.
fn add_cost(
    question: &Question<'_, '_, '_, '_>,
    fix: &Fix<'_, '_, '_>,
    id: SymId,
    text: &mut Vec<u8>,
) -> Result<(), AllocError>
    requires { IsWith question.now fix.now }
    ensures { OnOk result (text.new.items ≡ text.old.items ++ spec.cost_line question.now fix.now id) }
{
    let Some(old) = user_value(question.input.user(), id) else {
        return Ok(());
    };
    match own_value(question, fix, id) {
        Some(new) if is_same(shown_given(old), shown_given(new)) => Ok(()),
        Some(_) => add_user_value(question, b"# overrides ", id, old, b"\n", text),
        None => add_loss(question, fix, id, old, text),
    }
}

// Adds the lines of the values of the user that are overridden or lost.
fn add_user_costs(
    question: &Question<'_, '_, '_, '_>,
    fix: &Fix<'_, '_, '_>,
    text: &mut Vec<u8>,
) -> Result<(), AllocError>
    requires { IsWith question.now fix.now }
    ensures { OnOk result (text.new.items ≡ text.old.items ++ flat_map (spec.cost_line question.now fix.now) question.now.laid.now.tree.now.defined) }
{
    for id in question.laid.layout.defined() {
        add_cost(question, fix, *id, text)?;
    }
    Ok(())
}

// What is said of so many changes.
fn many_text(count: usize) -> &'static [u8]
    ensures { result.now ≡ many_text count }
{
    if count >= MANY_CHANGES {
        b" (it may be meant for another board or architecture)"
    } else {
        b""
    }
}

// Adds the line that tells how many other values change.
fn add_changes(count: usize, text: &mut Vec<u8>) -> Result<(), AllocError>
    ensures { OnOk result (text.new.items ≡ text.old.items ++ changes_line count) }
{
    let mut buffer = Buffer::new();
    let number = buffer.format(count).as_bytes();
    add_parts(
        &[
            b"# other values that change: ",
            number,
            many_text(count),
            b"\n",
        ],
        text,
    )
}

/// Adds what a fix costs: how many other values change, and the values of the user that it overrides or loses.
pub(crate) fn add_costs(
    question: &Question<'_, '_, '_, '_>,
    fix: &Fix<'_, '_, '_>,
    text: &mut Vec<u8>,
) -> Result<(), AllocError>
    requires { IsWith question.now fix.now }
    ensures { OnOk result (text.new.items ≡ text.old.items ++ spec.costs question.now fix.now) }
{
    add_changes(count_others(question, fix), text)?;
    add_user_costs(question, fix, text)
}
