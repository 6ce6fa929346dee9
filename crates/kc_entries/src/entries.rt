//! The entries of the expanded list, in the order of reading.

ghost use Rattle.std.specs.Prelude.{◌≡◌, ◌≤◌, ◌-◌, drop, length, option_map, slice_get, take, IfOk};
ghost use Rattle.kc_entries.specs.EntryStarts.{AreInOrder, order-prop, start_of};

use crate::statement::{Attribute, Head};
use std::alloc::{AllocError, Global};
use std::mem::size_of;
use std::rc::Rc;

/// The line that begins an entry (the kernel's kconfig-language document, "Menu entries"), with its file and its line number.
/// `start` is the index of the entry's first attribute among all attributes (our own).
#[derive(Debug, Drop)]
pub struct Entry {
    pub head: Head,
    pub file: Rc<Vec<u8>>,
    pub line: u32,
    pub start: u32,
}

// A list of entries is long in a large tree, so an entry is small.
const _: () = prove!(size_of::<Entry>() == 32);

/// An attribute (the kernel's kconfig-language document, "Menu attributes") and its line number. Its file is that of its
/// entry.
#[derive(Debug, Drop)]
pub struct AttributeLine {
    pub line: u32,
    pub attribute: Attribute,
}

/// The entries of the expanded list in order: the first line of each, and the attributes of all, entry after entry
/// (our own).
#[derive(Debug, Drop)]
pub struct Entries {
    pub first_lines: Vec<Entry>,
    pub attributes: Vec<AttributeLine>,
    ghost in_order: { AreInOrder first_lines.items (length attributes.items) } by { order-prop first_lines.items (length attributes.items) },
}

/// An entry: its first line, and its attributes (the kernel's kconfig-language document, "Menu entries").
#[derive(Clone, Copy, Debug)]
pub struct EntryLines<'a> {
    pub first: &'a Entry,
    pub attributes: &'a [AttributeLine],
}

// The first line of the entry with this number.
fn first_at(entries: &[Entry], i: usize) -> Option<&Entry>
    ensures { option_map (λ e. e.now) result ≡ slice_get entries.now i }
{
    entries.get(i)
}

// The index of the first attribute of the entry with this number; `count` past the last entry.
fn start_at(entries: &[Entry], i: usize, count: usize) -> usize
    ensures { result ≡ start_of (drop i entries.now) count }
{
    match entries.get(i) {
        Some(entry) => entry.start as usize,
        None => count,
    }
}

// The attributes from one index up to another.
fn between(attributes: &[AttributeLine], start: usize, end: usize) -> &[AttributeLine]
    requires order { start ≤ end }
    requires within { end ≤ length attributes.now }
    ensures { result.now ≡ take (end - start) (drop start attributes.now) }
{
    &attributes[start..end]
}

// The index of the first attribute of one more entry. There are fewer than 2^32 lines, so this fails for no tree.
fn next_start(attributes: &[AttributeLine]) -> Result<u32, AllocError>
    ensures { IfOk result (λ start. start ≡ length attributes.now) }
{
    match u32::try_from(attributes.len()) {
        Ok(start) => Ok(start),
        Err(_) => Err(AllocError),
    }
}

impl Entries {
    ghost use Rattle.std.specs.Prelude.{◌++◌, ◌∷◌, [], ℕ, List, OnErr, OnOk};
    ghost use Rattle.kc_entries.specs.Entries.{attribute_line, head_line, lines_in, IsEntryAt, IsLastFile};

    /// Returns an empty list of entries.
    pub fn new(alloc: Global) -> Entries
        ensures { lines_in result ≡ [] }
    {
        Entries {
            first_lines: Vec::new(alloc),
            attributes: Vec::new(alloc),
        }
    }

    /// Begins an entry. Fails only if memory runs out. Then nothing changes.
    pub fn begin(&mut self, file: Rc<Vec<u8>>, line: u32, head: Head) -> Result<(), AllocError>
        ensures lines { OnOk result (lines_in self.new ≡ lines_in self.old ++ head_line file.value.items line head ∷ []) }
        ensures last { OnOk result (IsLastFile self.new file.value.items) }
        ensures unchanged { OnErr result (lines_in self.new ≡ lines_in self.old) }
    {
        let start = next_start(&self.attributes)?;
        self.first_lines.push(Entry {
            head,
            file,
            line,
            start,
        })?;
        Ok(())
    }

    /// Adds an attribute to the last entry. Fails only if memory runs out. Then nothing changes.
    pub fn add(&mut self, line: u32, attribute: Attribute) -> Result<(), AllocError>
        ensures added { OnOk result ((file : List ℕ) → IsLastFile self.old file
            → (lines_in self.new ≡ lines_in self.old ++ attribute_line file line attribute ∷ []) × IsLastFile self.new file) }
        ensures unchanged { OnErr result (lines_in self.new ≡ lines_in self.old) }
    {
        self.attributes.push(AttributeLine { line, attribute })?;
        Ok(())
    }

    /// The line that begins the entry with this number, counted from 0; `None` past the last entry.
    pub fn head(&self, i: usize) -> Option<&Head>
        ensures { option_map (λ h. h.now) result ≡ option_map (λ e. e.head) (slice_get self.now.first_lines.items i) }
    {
        match first_at(&self.first_lines, i) {
            Some(entry) => Some(&entry.head),
            None => None,
        }
    }

    /// The entry with this number, counted from 0; `None` past the last entry (the numbers are our own).
    pub fn entry(&self, i: usize) -> Option<EntryLines<'_>>
        ensures { IsEntryAt self.now i result }
    {
        match first_at(&self.first_lines, i) {
            Some(first) => {
                let end = start_at(&self.first_lines, i + 1, self.attributes.len());
                let attributes = between(&self.attributes, first.start as usize, end);
                Some(EntryLines { first, attributes })
            }
            None => None,
        }
    }
}
