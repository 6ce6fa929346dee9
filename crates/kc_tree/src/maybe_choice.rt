//! An optional choice in little memory.

ghost use Rattle.std.specs.Prelude.{◌≡◌, None, IfOk, is_some};

use crate::rows::ChoiceId;
use std::alloc::AllocError;
use std::marker::Model;

/// An optional choice (our own). It takes 4 bytes, while an `Option` takes 8.
#[derive(Debug, Drop)]
pub struct MaybeChoice {
    // The number of the choice, counted from 1; 0 if there is none.
    number: u32,
}

impl Model for MaybeChoice {
    ghost use Rattle.std.specs.Prelude.{Option};
    ghost use Rattle.std.specs.Coded.{coded_option};
    ghost use Rattle.kc_language.specs.declared.symbols.ChoiceId.{ChoiceId};
    ghost use Rattle.kc_tree.specs.MaybeChoices.{choice_numbered, choice_id_code};

    ghost Value = { Option ChoiceId };

    ghost coded = { coded_option choice_id_code };

    ghost view = { λ c. choice_numbered c.number };
}

impl MaybeChoice {
    /// No choice.
    pub fn empty() -> MaybeChoice
        ensures { result ≡ None }
    {
        MaybeChoice { number: 0 }
    }

    /// This choice, or none. Fails only for the greatest number, which cannot be stored.
    pub fn of(choice: Option<ChoiceId>) -> Result<MaybeChoice, AllocError>
        ensures { IfOk result (λ found. found ≡ choice) }
    {
        match choice {
            None => Ok(MaybeChoice::empty()),
            Some(id) if id.0 < u32::MAX => Ok(MaybeChoice { number: id.0 + 1 }),
            Some(_) => Err(AllocError),
        }
    }

    /// Whether there is a choice.
    pub fn is_some(&self) -> bool
        ensures { result ≡ is_some self.now }
    {
        self.number > 0
    }

    /// The choice, if there is one.
    pub fn get(&self) -> Option<ChoiceId>
        ensures { result ≡ self.now }
    {
        if self.number > 0 {
            Some(ChoiceId(self.number - 1))
        } else {
            None
        }
    }
}
