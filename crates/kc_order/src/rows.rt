//! Rows of numbers in one list.

ghost use Rattle.std.specs.Prelude.{◌≡◌, ◌<◌, ◌≤◌, [], ◌∷◌, ◌++◌, ◌↔◌, ◌-◌, length, IfOk, OnOk, OnErr, IsTrue, All, take, drop};
ghost use Rattle.kc_language.specs.Needs.{needs_in};
ghost use Rattle.kc_order.specs.Rows.{RowsBelow, NeedSmaller, begin};

use std::alloc::{AllocError, Global};
use std::marker::Model;

/// Rows of numbers, one after another in one list, with the end of each row.
#[derive(Drop)]
pub(crate) struct Rows {
    numbers: Vec<u32>,
    ends: Vec<usize>,
}

impl Model for Rows {
    ghost use Rattle.std.specs.Prelude.{ℕ, List, length};
    ghost use Rattle.kc_order.specs.Rows.{rows_of, AreIncreasing};

    ghost Value = { List (List ℕ) };

    ghost view = { λ r. rows_of r.numbers.items 0 r.ends.items };

    ghost invariant = { λ r. AreIncreasing 0 (length r.numbers.items) r.ends.items };
}

// Where a row begins: the first at 0, each other one at the end of the row before it.
fn beginning(ends: &[usize], row: usize) -> usize
    requires { row < length ends.now }
    ensures { result ≡ begin 0 ends.now row }
{
    if row == 0 { 0 } else { ends[row - 1] }
}

// The numbers between two positions.
fn between(numbers: &[u32], begin: usize, end: usize) -> &[u32]
    requires goes_up { begin ≤ end }
    requires within { end ≤ length numbers.now }
    ensures { result.now ≡ take (end - begin) (drop begin numbers.now) }
{
    &numbers[begin..end]
}

// Whether all numbers are below a bound.
fn all_below(numbers: &[u32], bound: usize) -> bool
    ensures { IsTrue result ↔ All (λ t. t < bound) numbers.now }
{
    numbers.iter().all(|number| (*number as usize) < bound)
}

impl Rows {
    /// Returns an empty list of rows, with room for `count` rows. Fails only if memory runs out.
    pub(crate) fn with_room(alloc: Global, count: usize) -> Result<Rows, AllocError>
        ensures { IfOk result (λ r. r ≡ []) }
    {
        let ends = Vec::with_capacity(alloc, count)?;
        Ok(Rows {
            numbers: Vec::new(alloc),
            ends,
        })
    }

    /// The number of rows.
    pub(crate) fn count(&self) -> usize
        ensures { result ≡ length self.now }
    {
        self.ends.len()
    }

    /// The numbers of a row.
    pub(crate) fn row(&self, row: usize) -> &[u32]
        requires { row < length self.now }
        ensures { result.now ≡ needs_in self.now row }
    {
        let begin = beginning(&self.ends, row);
        between(&self.numbers, begin, self.ends[row])
    }

    /// Whether each number of each row is below a bound.
    pub(crate) fn are_below(&self, bound: usize) -> bool
        ensures { IsTrue result ↔ RowsBelow bound self.now }
    {
        all_below(&self.numbers, bound)
    }

    /// Whether each number of each row from `first` on is below the number of the row.
    pub(crate) fn go_down(&self, first: usize) -> bool
        ensures { IsTrue result ↔ NeedSmaller first self.now }
    {
        let count = self.count();
        let mut row = first;
        while row < count {
            if !all_below(self.row(row), row) {
                return false;
            }
            row += 1;
        }
        true
    }

    /// Adds a row. If memory runs out, nothing changes.
    pub(crate) fn push(&mut self, row: &[u32]) -> Result<(), AllocError>
        ensures added { OnOk result (self.new ≡ self.old ++ row.now ∷ []) }
        ensures unchanged { OnErr result (self.new ≡ self.old) }
    {
        let end = self.numbers.len() + row.len();
        self.ends.push(end)?;
        if let Err(failed) = self.numbers.extend_from_slice(row) {
            self.ends.pop();
            return Err(failed);
        }
        Ok(())
    }
}
