//! Lists of optional values in which an absent value takes little memory.
ghost use Rattle.std.specs.Prelude.{◌≡◌, ◌<◌, ◌+◌, None, length, replicate, slice_index_or, slice_set, option_copied, IfOk, OnErr, OnOk};

use std::alloc::{AllocError, Global};
use std::marker::Model;

/// A list of optional values (our own). An absent value takes 4 bytes. A value takes 4 bytes besides its own.
#[derive(Drop)]
pub struct SparseVec<T> {
    // The index of each entry's value in `values`, counted from 1; 0 for an absent value.
    numbers: Vec<u32>,
    values: Vec<T>,
}

impl<T> Model for SparseVec<T> {
    ghost use Rattle.std.specs.Prelude.{List, Option, length, map};
    ghost use Rattle.std.specs.Coded.{coded_list, coded_option};
    ghost use Rattle.kc_user.specs.Sparse.{AreOwn, numbered};

    ghost Value = { List (Option T) };

    ghost coded = { coded_list (coded_option T.code) };

    ghost view = { λ v. map (numbered v.values.items) v.numbers.items };

    ghost invariant = { λ v. AreOwn v.numbers.items (length v.values.items) };
}

// The number of the next value, after `count` values.
fn next_number(count: usize) -> Result<u32, AllocError>
    ensures { IfOk result (λ number. number ≡ count + 1) }
{
    if count < u32::MAX as usize {
        Ok(count as u32 + 1)
    } else {
        Err(AllocError)
    }
}

impl<T: Drop> SparseVec<T> {
    /// Returns a list of this many absent values. The only error is that memory runs out. Then nothing is kept.
    pub fn empty(alloc: Global, count: usize) -> Result<SparseVec<T>, AllocError>
        ensures { IfOk result (λ places. places ≡ replicate count None) }
    {
        let numbers = vec![in alloc; 0; count]?;
        let values = Vec::new(alloc);
        Ok(SparseVec { numbers, values })
    }

    /// The number of entries.
    pub fn len(&self) -> usize
        ensures { result ≡ length self.now }
    {
        self.numbers.len()
    }

    /// The value of an entry, or `None` if it is absent or there is no such entry.
    pub fn get(&self, place: usize) -> Option<&T>
        ensures { option_copied result ≡ slice_index_or self.now place None }
    {
        match self.numbers.get(place) {
            Some(number) if *number > 0 => self.values.get(*number as usize - 1),
            _ => None,
        }
    }

    /// Sets an entry to a value or to no value. All other entries are unchanged. The only error is that memory runs out. Then
    /// all entries are unchanged.
    #[inline(always)]
    pub fn set(&mut self, place: usize, value: Option<T>) -> Result<(), AllocError>
        requires { place < length self.old }
        ensures done { OnOk result (self.new ≡ slice_set self.old place value) }
        ensures failed { OnErr result (self.new ≡ self.old) }
    {
        let Some(value) = value else {
            self.numbers[place] = 0;
            return Ok(());
        };
        let number = self.numbers[place];
        if number > 0 {
            self.values[number as usize - 1] = value;
            return Ok(());
        }
        let next = next_number(self.values.len())?;
        self.values.push(value)?;
        self.numbers[place] = next;
        Ok(())
    }
}
