//! The user values that equations ask for, of this configuration and of the one before.

ghost use Rattle.std.specs.Prelude.{◌≡◌, None, length, replicate, slice_index_or, true, IfOk, OnOk};
ghost use Rattle.kc_language.specs.ConfigFile.{ArePlacesOf};
ghost use Rattle.kc_user.specs.ValueView.{given_of_value};
ghost use Rattle.kc_values.specs.User.{given_in};
ghost use Rattle.kc_solve.specs.Renewing.{asked_of};

use kc_expr::expression::SymId;
use kc_tree::layout::Layout;
use kc_tree::rows::{ChoiceId, Symbol};
use kc_tree::tree::Tree;
use kc_user::sparse::SparseVec;
use kc_user::user::User;
use kc_user::value::UserValue;
use std::alloc::{AllocError, Global};

/// The user values of the symbols, and the members chosen for the choices.
#[derive(Clone, Copy)]
pub(crate) struct UserLists<'u> {
    pub values: &'u SparseVec<UserValue>,
    pub members: &'u [Option<SymId>],
}

// Whether two user values are the same.
fn is_same(a: &UserValue, b: &UserValue) -> bool
    ensures { result ≡ true → given_of_value a.now ≡ given_of_value b.now }
{
    match (a, b) {
        (UserValue::Tri(a), UserValue::Tri(b)) => *a == *b,
        (UserValue::Text(a), UserValue::Text(b)) => a[..] == b[..],
        _ => false,
    }
}

// Whether both are the same user value, or none.
fn is_given_alike(before: Option<&UserValue>, now: Option<&UserValue>) -> bool
    ensures { result ≡ true → given_in before.entry ≡ given_in now.entry }
{
    match (before, now) {
        (None, None) => true,
        (Some(a), Some(b)) => is_same(a, b),
        _ => false,
    }
}

/// Whether both are the same member, or none.
pub(crate) fn is_member_alike(before: Option<SymId>, now: Option<SymId>) -> bool
    ensures { result ≡ true → before ≡ now }
{
    match (before, now) {
        (None, None) => true,
        (Some(a), Some(b)) => a.0 == b.0,
        _ => false,
    }
}

/// The member chosen for a choice.
pub(crate) fn chosen_of(members: &[Option<SymId>], choice: ChoiceId) -> Option<SymId>
    ensures { result ≡ slice_index_or members.now choice.0 None }
{
    match members.get(choice.0 as usize) {
        Some(member) => *member,
        None => None,
    }
}

/// Whether the user values are the same that the equation of a symbol reads.
pub(crate) fn is_asked_alike(
    before: &UserLists<'_>,
    now: &UserLists<'_>,
    id: SymId,
    symbol: &Symbol,
) -> bool
    ensures { result ≡ true → asked_of before.now.values.now before.now.members.now id.0 symbol.now ≡ asked_of now.now.values.now now.now.members.now id.0 symbol.now }
{
    match symbol.choice.get() {
        Some(choice) => is_member_alike(
            chosen_of(before.members, choice),
            chosen_of(now.members, choice),
        ),
        None => is_given_alike(before.values.get(id.0), now.values.get(id.0)),
    }
}

// A copy of a user value.
fn copied_value(alloc: Global, value: &UserValue) -> Result<UserValue, AllocError>
    ensures { IfOk result (λ copy. given_of_value copy ≡ given_of_value value.now) }
{
    match value {
        UserValue::Tri(tri) => Ok(UserValue::Tri(*tri)),
        UserValue::Text(text) => Ok(UserValue::Text(Vec::from_slice(alloc, text)?)),
    }
}

// Copies the user values of the symbols to places that are all empty.
fn copy_symbols(alloc: Global, of: &User, user: &mut User) -> Result<(), AllocError>
    requires { user.old.symbols ≡ replicate (length of.now.symbols) None }
    ensures { OnOk result (user.new ≡ record user.old { symbols = of.now.symbols }) }
{
    for number in 0..of.symbols().len() {
        let id = SymId(number);
        if let Some(value) = of.get(id) {
            let copy = copied_value(alloc, value)?;
            user.set(id, copy)?;
        }
    }
    Ok(())
}

// Copies the members chosen for the choices to places that are all empty.
fn copy_choices(layout: &Layout, of: &User, user: &mut User)
    requires empty { user.old.choices ≡ replicate (length of.now.choices) None }
    requires count { length of.now.choices ≡ length layout.now.choices.items }
    ensures { user.new ≡ record user.old { choices = of.now.choices } }
{
    for number in 0..layout.choices().len() {
        let choice = ChoiceId(number as u32);
        if let Some(member) = of.selected(choice) {
            user.select(choice, member);
        }
    }
}

/// A copy of all user values.
pub(crate) fn copied(alloc: Global, tree: &Tree, of: &User) -> Result<User, AllocError>
    requires { ArePlacesOf tree.now of.now }
    ensures { IfOk result (λ user. user ≡ of.now) }
{
    let mut user = User::new(alloc, tree)?;
    copy_symbols(alloc, of, &mut user)?;
    copy_choices(tree.layout(), of, &mut user);
    Ok(user)
}
