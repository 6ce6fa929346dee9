//! The user's values of two inputs, one after the other.

ghost use Rattle.std.specs.Prelude.{◌≡◌, IfOk, OnOk, length};
ghost use Rattle.kc_language.specs.ConfigFile.{ArePlacesOf};
ghost use Rattle.kc_user.specs.ValueView.{given_of_value};
ghost use Rattle.kc_how.specs.Merged.{laid_over, merged_places};

use kc_expr::expression::SymId;
use kc_tree::layout::Layout;
use kc_tree::rows::ChoiceId;
use kc_tree::tree::Tree;
use kc_user::user::User;
use kc_user::value::UserValue;
use std::alloc::{AllocError, Global};

/// A copy of a value.
pub(crate) fn copied_value(alloc: Global, value: &UserValue) -> Result<UserValue, AllocError>
    ensures { IfOk result (λ copy. given_of_value copy ≡ given_of_value value.now) }
{
    match value {
        UserValue::Tri(tri) => Ok(UserValue::Tri(*tri)),
        UserValue::Text(text) => Ok(UserValue::Text(Vec::from_slice(alloc, text)?)),
    }
}

// Puts the values of symbols over those of `user`.
fn put_symbols(alloc: Global, over: &User, user: &mut User) -> Result<(), AllocError>
    requires { length user.old.symbols ≡ length over.now.symbols }
    ensures { OnOk result (user.new ≡ record user.old { symbols = laid_over user.old.symbols over.now.symbols }) }
{
    for number in 0..over.symbols().len() {
        let id = SymId(number);
        if let Some(value) = over.get(id) {
            let copy = copied_value(alloc, value)?;
            user.set(id, copy)?;
        }
    }
    Ok(())
}

// Puts the members of choices over those of `user`.
fn put_choices(layout: &Layout, over: &User, user: &mut User)
    requires over { length over.now.choices ≡ length layout.now.choices.items }
    requires user { length user.old.choices ≡ length layout.now.choices.items }
    ensures { user.new ≡ record user.old { choices = laid_over user.old.choices over.now.choices } }
{
    for number in 0..layout.choices().len() {
        let choice = ChoiceId(number as u32);
        if let Some(member) = over.selected(choice) {
            user.select(choice, member);
        }
    }
}

// Puts all values over those of `user`.
fn put(alloc: Global, layout: &Layout, over: &User, user: &mut User) -> Result<(), AllocError>
    requires symbols { length user.old.symbols ≡ length over.now.symbols }
    requires over { length over.now.choices ≡ length layout.now.choices.items }
    requires user { length user.old.choices ≡ length layout.now.choices.items }
    ensures { OnOk result (user.new ≡ merged_places user.old over.now) }
{
    put_symbols(alloc, over, user)?;
    put_choices(layout, over, user);
    Ok(())
}

/// The values of `first`, and over them those of `second`.
pub(crate) fn merged(
    alloc: Global,
    tree: &Tree,
    first: &User,
    second: &User,
) -> Result<User, AllocError>
    requires first { ArePlacesOf tree.now first.now }
    requires second { ArePlacesOf tree.now second.now }
    ensures merged { IfOk result (λ user. user ≡ merged_places first.now second.now) }
    ensures places { IfOk result (λ user. ArePlacesOf tree.now user) }
{
    let layout = tree.layout();
    let mut user = User::new(alloc, tree)?;
    put(alloc, layout, first, &mut user)?;
    put(alloc, layout, second, &mut user)?;
    Ok(user)
}
