//! Lists by number.
ghost use Rattle.std.specs.Prelude.{◌≡◌, ◌++◌, ◌∷◌, [], get_or, length, replicate, slice_set, IfOk, OnOk};

use std::alloc::{AllocError, Global};
use std::marker::Model;

/// Lists that are numbered from 0 (our own). Contracts see a list of lists.
#[derive(Drop)]
pub struct Lists<T> {
    lists: Vec<Vec<T>>,
}

impl<T> Model for Lists<T> {
    ghost use Rattle.std.specs.Prelude.{List, map};
    ghost use Rattle.std.specs.Coded.{coded_list};

    ghost Value = { List (List T) };

    ghost coded = { coded_list (coded_list T.code) };

    ghost view = { λ l. map (λ list. list.items) l.lists.items };
}

impl<T: Copy> Lists<T> {
    /// Returns this many empty lists. Fails only if memory runs out.
    pub fn new(alloc: Global, count: usize) -> Result<Lists<T>, AllocError>
        ensures { IfOk result (λ lists. lists ≡ replicate count []) }
    {
        let mut lists = Vec::with_capacity(alloc, count)?;
        for _ in 0..count {
            lists.push(Vec::new(alloc))?;
        }
        Ok(Lists { lists })
    }

    /// The number of lists.
    pub fn len(&self) -> usize
        ensures { result ≡ length self.now }
    {
        self.lists.len()
    }

    /// Adds an item to the list with this number, if there is one. Fails only if memory runs out.
    pub fn add(&mut self, number: usize, item: T) -> Result<(), AllocError>
        ensures { OnOk result (self.new ≡ slice_set self.old number (get_or self.old number [] ++ item ∷ [])) }
    {
        if number >= self.lists.len() {
            return Ok(());
        }
        self.lists[number].push(item)?;
        Ok(())
    }

    /// The list with this number; empty if there is none.
    pub fn get(&self, number: usize) -> &[T]
        ensures { result.now ≡ get_or self.now number [] }
    {
        match self.lists.get(number) {
            Some(list) => list,
            None => &[],
        }
    }
}
