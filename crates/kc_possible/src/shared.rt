//! The symbols that stand in the way of what many symbols share, each looked for once.

use crate::possible::Possible;
use kc_expr::expression::SymId;
use std::alloc::{AllocError, Global};

// Some of the symbols that are kept: from one number to before another.
#[derive(Clone, Copy)]
struct Stretch {
    start: usize,
    end: usize,
}

/// Lists of symbols, by number, each kept when it is first known.
#[derive(Drop)]
pub(crate) struct Lists {
    symbols: Vec<SymId>,
    stretches: Vec<Option<Stretch>>,
}

impl Lists {
    // So many lists, none of them known.
    fn new(alloc: Global, count: usize) -> Result<Lists, AllocError> {
        Ok(Lists {
            symbols: Vec::new(alloc),
            stretches: vec![in alloc; None; count]?,
        })
    }

    // Where the list with this number stands, if it is known.
    fn stretch(&self, index: usize) -> Option<Stretch> {
        match self.stretches.get(index) {
            Some(stretch) => *stretch,
            None => None,
        }
    }

    /// Whether the list with this number is known.
    pub(crate) fn has(&self, index: usize) -> bool {
        self.stretch(index).is_some()
    }

    /// Keeps the list with this number.
    pub(crate) fn keep(&mut self, index: usize, symbols: &[SymId]) -> Result<(), AllocError> {
        let start = self.symbols.len();
        self.symbols.extend_from_slice(symbols)?;
        let end = self.symbols.len();
        if let Some(place) = self.stretches.get_mut(index) {
            *place = Some(Stretch { start, end });
        }
        Ok(())
    }

    /// The list with this number; none if it is not known.
    pub(crate) fn kept(&self, index: usize) -> &[SymId] {
        match self.stretch(index) {
            Some(stretch) => self.symbols.get(stretch.start..stretch.end).unwrap_or(&[]),
            None => &[],
        }
    }
}

/// The symbols that stand in the way of what an entry asks of what stands in it, and of what a menu asks of what is visible (our
/// own). They are those of one tree, and each list is looked for when it is first needed.
#[derive(Drop)]
pub struct SharedReasons {
    /// Where the lists are kept.
    pub(crate) alloc: Global,
    /// Those of each entry.
    pub(crate) entries: Lists,
    /// Those of each menu with a `visible if` line.
    pub(crate) menus: Lists,
}

impl SharedReasons {
    /// Nothing is looked for yet. The only error is that memory runs out.
    pub fn new(alloc: Global, p: &Possible<'_>) -> Result<SharedReasons, AllocError> {
        let layout = p.laid.layout;
        Ok(SharedReasons {
            alloc,
            entries: Lists::new(alloc, layout.place_count())?,
            menus: Lists::new(alloc, layout.visible_count())?,
        })
    }
}
