//! The user values of a tree.
ghost use Rattle.std.specs.Prelude.{◌≡◌, ◌<◌, length, map, slice_set, slice_index_or, Some, None, IfOk, OnErr, OnOk, replicate, option_map};
ghost use Rattle.kc_user.specs.PartsOfConfigFile as spec;
ghost use Rattle.kc_user.specs.ValueView.{given_of_value};

use crate::sparse::SparseVec;
use crate::value::UserValue;
use kc_expr::expression::SymId;
use kc_tree::rows::ChoiceId;
use kc_tree::tree::Tree;
use std::alloc::{AllocError, Global};
use std::marker::Model;

/// What the user gives for the symbols and choices of a tree: for each one a value or none. If only values that `allowed`
/// accepts and members of their choices are set, it holds only such values ([`crate::laws::places_hold_what_is_allowed`]).
/// (Our own, like the user values of kconfiglib's documentation.)
#[derive(Drop)]
pub struct User {
    symbols: SparseVec<UserValue>,
    choices: Vec<Option<SymId>>,
}

impl Model for User {
    ghost use Rattle.kc_language.specs.ConfigFile.{Places};

    ghost Value = { Places };

    ghost use Rattle.kc_user.specs.UserView.{places_of};

    ghost view = { places_of };
}

impl User {
    /// Returns the user values of a tree, all absent. The only error is that memory runs out. Then nothing is kept.
    pub fn new(alloc: Global, tree: &Tree) -> Result<User, AllocError>
        ensures { IfOk result (λ user. user ≡ spec.no_places tree.now) }
    {
        let symbols = SparseVec::empty(alloc, tree.name_count())?;
        let choices = empty_places(alloc, tree.choices().len())?;
        Ok(User { symbols, choices })
    }

    /// Sets the user value of a symbol. All other user values are unchanged. The laws of the minimal file and of a rerun require
    /// a value that `allowed` accepts. The only error is that memory runs out. Then all user values are
    /// unchanged.
    #[inline(always)]
    pub fn set(&mut self, id: SymId, value: UserValue) -> Result<(), AllocError>
        requires { id.0 < length self.old.symbols }
        ensures done { OnOk result (self.new ≡ record self.old { symbols = slice_set self.old.symbols id.0 (Some (given_of_value value)) }) }
        ensures failed { OnErr result (self.new ≡ self.old) }
    {
        self.symbols.set(id.0, Some(value))
    }

    /// Sets the member of a choice. All other user values are unchanged. A symbol that is not a visible member of the choice counts
    /// as no member.
    pub fn select(&mut self, choice: ChoiceId, member: SymId)
        requires { choice.0 < length self.old.choices }
        ensures { self.new ≡ record self.old { choices = slice_set self.old.choices choice.0 (Some member) } }
    {
        self.choices[choice.0 as usize] = Some(member);
    }

    /// The user value of the symbol, if there is one (kconfiglib's `user_value`).
    pub fn get(&self, id: SymId) -> Option<&UserValue>
        requires { id.0 < length self.now.symbols }
        ensures { option_map (λ value. given_of_value value.now) result ≡ slice_index_or self.now.symbols id.0 None }
    {
        self.symbols.get(id.0)
    }

    /// The user's member of the choice, if there is one (kconfiglib's `user_selection`).
    pub fn selected(&self, choice: ChoiceId) -> Option<SymId>
        requires { choice.0 < length self.now.choices }
        ensures { result ≡ slice_index_or self.now.choices choice.0 None }
    {
        self.choices[choice.0 as usize]
    }

    /// The user values of the symbols, by number.
    pub fn symbols(&self) -> &SparseVec<UserValue>
        ensures { map (option_map given_of_value) result.now ≡ self.now.symbols }
    {
        &self.symbols
    }

    /// The user's members of the choices, by number.
    pub fn choices(&self) -> &[Option<SymId>]
        ensures { result.now ≡ self.now.choices }
    {
        &self.choices
    }
}

/// Returns this many absent values. The only error is that memory runs out. Then nothing is kept.
pub fn empty_places<T: Drop>(alloc: Global, count: usize) -> Result<Vec<Option<T>>, AllocError>
    ensures { IfOk result (λ places. places.items ≡ replicate count None) }
{
    let mut places = Vec::with_capacity(alloc, count)?;
    for _ in 0..count {
        places.push(None)?;
    }
    Ok(places)
}
