//! The places where definitions begin.

ghost use Rattle.std.specs.Prelude.{◌≡◌, [], not, IfOk};
ghost use Rattle.kc_explain.specs.Places.{has_place, with_place};

use indexmap::IndexSet;
use kc_expr::hash_key::HashKey;
use std::alloc::{AllocError, Global};
use std::marker::Model;

/// Places that were seen, each a file and a line number. Contracts see the list of them.
#[derive(Drop)]
pub(crate) struct Places<'n> {
    places: IndexSet<(&'n [u8], u32), HashKey>,
}

impl<'n> Model for Places<'n> {
    ghost use Rattle.std.specs.Prelude.{List, map};
    ghost use Rattle.kc_explain.specs.Places.{Place};

    ghost Value = { List Place };

    ghost view = { λ s. map (λ p. record { file = p.0.now; line = p.1 }) s.places.keys };
}

impl<'n> Places<'n> {
    /// Returns a list without places.
    pub(crate) fn new(alloc: Global, key: HashKey) -> Self
        ensures { result ≡ [] }
    {
        Places {
            places: IndexSet::with_hasher(alloc, key),
        }
    }

    /// Adds the place, and returns whether it is new. Fails only if memory runs out.
    pub(crate) fn add(&mut self, file: &'n [u8], line: u32) -> Result<bool, AllocError>
        ensures seen { IfOk result (λ is_new. self.new ≡ with_place self.old (record { file = file.now; line = line })) }
        ensures told { IfOk result (λ is_new. is_new ≡ not (has_place self.old (record { file = file.now; line = line }))) }
    {
        let is_new = self.places.insert((file, line))?;
        Ok(is_new)
    }
}
