//! The blocks around each entry, and the choices.

ghost use Rattle.std.specs.Prelude.{◌≡◌, ◌<◌, ◌+◌, ◌^◌, ℕ, List, suc, length, IfOk, OnOk};
ghost use Rattle.kc_language.specs.Symbols.{facts_with};
ghost use Rattle.kc_entries.specs.Entries.{lines_in};
ghost use Rattle.kc_entries.specs.ListFacts.{AreChoicesApart};
ghost use Rattle.kc_entries.specs.StatementViews.{attribute_view, head_view};
ghost use Rattle.kc_tree.specs.EntryViews.{statements_in};
ghost use Rattle.kc_tree.specs.Places.{place_at};
ghost use Rattle.kc_build.specs.Limits.{IsFew};
ghost use Rattle.kc_build.specs.Nesting.{AreBlocksClosed};
ghost use Rattle.kc_build.specs.Standing as see;

use kc_entries::entries::{Entries, EntryLines};
use kc_entries::statement::{Attribute, Head};
use kc_expr::expression::SymId;
use kc_tree::layout::place_in;
use kc_tree::rows::{AttributeId, Choice, EntryId, EntryPlace, VisibleId};
use std::alloc::{AllocError, Global};

/// The state after some entries: their places without the chains of definitions, the menus with a `visible if` line, the choices
/// with their members, and the innermost open block.
#[derive(Debug, Drop)]
pub(crate) struct Blocks {
    pub places: Vec<EntryPlace>,
    pub visibles: Vec<EntryId>,
    pub choices: Vec<Choice>,
    block: EntryId,
    // Whether the last choice is open. Choices do not nest.
    is_in_choice: bool,
}

// The place of an entry in a block, from its first line only.
fn bare_place(places: &[EntryPlace], block: EntryId, at: EntryId, head: &Head) -> EntryPlace
    ensures { result ≡ see.bare_place (place_at places.now block.0) block at (head_view head.now) }
{
    let around = place_in(places, block);
    let context = match head {
        Head::If(_) | Head::Choice => at,
        _ => around.context,
    };
    EntryPlace {
        outer: block,
        context,
        visible: around.visible,
        prompt: AttributeId::none(),
        next: EntryId::top(),
        has_default: false,
        has_range: false,
        has_target: false,
    }
}

// The number that an entry with this place gets if it has a `visible if` line. Only a menu may have one. Its number is one more
// than the count.
#[inline(always)]
fn shown_number(place: &EntryPlace, count: usize, head: &Head) -> VisibleId
    requires { suc count < 2 ^ 32 }
    ensures { result ≡ see.shown_number place.now count (head_view head.now) }
{
    match head {
        Head::Menu(_) => VisibleId::of(count),
        _ => place.visible,
    }
}

// Records one more attribute of an entry: the attribute with number `j` of all. `visible` is the number that the entry gets if it
// has a `visible if` line.
#[inline(always)]
fn note_attribute(
    place: &mut EntryPlace,
    at: EntryId,
    visible: VisibleId,
    j: usize,
    attribute: &Attribute,
)
    requires { suc j < 2 ^ 32 }
    ensures { place.new ≡ see.noted at visible j (attribute_view attribute.now) place.old }
{
    match attribute {
        Attribute::Depends(_) => place.context = at,
        Attribute::Visible(_) => place.visible = visible,
        Attribute::Default(_) | Attribute::Def(_, _) => place.has_default = true,
        Attribute::Range(_) => place.has_range = true,
        Attribute::Select(_, _) | Attribute::Imply(_, _) => place.has_target = true,
        Attribute::Type(_, Some(_)) | Attribute::Prompt(_) => place.prompt = AttributeId::of(j),
        _ => {}
    }
}

impl Blocks {
    // Returns the state before the first of `count` entries.
    fn new(alloc: Global, count: usize) -> Result<Blocks, AllocError>
        ensures { IfOk result see.AreNone }
    {
        Ok(Blocks {
            places: Vec::with_capacity(alloc, count)?,
            visibles: Vec::new(alloc),
            choices: Vec::new(alloc),
            block: EntryId::top(),
            is_in_choice: false,
        })
    }

    // The place of the next entry.
    #[inline(always)]
    fn place_of(&self, at: EntryId, lines: EntryLines<'_>) -> EntryPlace
        requires room { suc (length self.now.visibles.items) < 2 ^ 32 }
        requires few { lines.first.now.start + length lines.attributes.now < 2 ^ 32 }
        ensures { result ≡ see.own_place self.now at lines.entry }
    {
        let mut place = bare_place(&self.places, self.block, at, &lines.first.head);
        let visible = shown_number(&place, self.visibles.len(), &lines.first.head);
        let start = lines.first.start as usize;
        for (j, line) in lines.attributes.iter().enumerate() {
            note_attribute(&mut place, at, visible, start + j, &line.attribute);
        }
        place
    }

    // Appends the place of the next entry.
    #[inline(always)]
    fn add_place(&mut self, at: EntryId, lines: EntryLines<'_>) -> Result<(), AllocError>
        requires room { suc (length self.old.visibles.items) < 2 ^ 32 }
        requires few { lines.first.now.start + length lines.attributes.now < 2 ^ 32 }
        ensures { OnOk result (see.HasPlace self.old at lines.entry self.new) }
    {
        let place = self.place_of(at, lines);
        self.places.push(place)?;
        if place.visible.0 as usize > self.visibles.len() {
            self.visibles.push(at)?;
        }
        Ok(())
    }

    // Opens a choice.
    fn open_choice(&mut self, alloc: Global, at: EntryId) -> Result<(), AllocError>
        ensures { OnOk result (see.HasOpened at self.old self.new) }
    {
        self.choices.push(Choice {
            entry: at,
            members: Vec::new(alloc),
        })?;
        self.block = at;
        self.is_in_choice = true;
        Ok(())
    }

    // Adds a symbol to the open choice, if there is one.
    fn add_member(&mut self, symbol: SymId) -> Result<(), AllocError>
        ensures { OnOk result (see.HasMember symbol self.old self.new) }
    {
        let count = self.choices.len();
        if self.is_in_choice && count > 0 {
            self.choices[count - 1].members.push(symbol)?;
        }
        Ok(())
    }

    // Closes the innermost open block.
    fn close(&mut self)
        ensures { see.HasClosed self.old self.new }
    {
        self.block = place_in(&self.places, self.block).outer;
    }

    // Opens or closes a block, or adds a member to the open choice.
    fn turn(&mut self, alloc: Global, at: EntryId, head: &Head) -> Result<(), AllocError>
        ensures { OnOk result (see.HasTurned at (head_view head.now) self.old self.new) }
    {
        match head {
            Head::Config(symbol) => return self.add_member(*symbol),
            Head::If(_) | Head::Menu(_) => self.block = at,
            Head::Choice => return self.open_choice(alloc, at),
            Head::EndIf | Head::EndMenu => self.close(),
            Head::EndChoice => {
                self.close();
                self.is_in_choice = false;
            }
            Head::Comment(_) | Head::MainMenu(_) => {}
        }
        Ok(())
    }
}

/// Returns the blocks of these entries.
pub(crate) fn blocks_of(alloc: Global, entries: &Entries) -> Result<Blocks, AllocError>
    requires few { IsFew entries.now }
    requires apart { AreChoicesApart (statements_in entries.now) }
    requires closed { AreBlocksClosed (statements_in entries.now) }
    ensures { IfOk result (see.AreBlocksOf entries.now) }
{
    let mut blocks = Blocks::new(alloc, entries.first_lines.len())?;
    let mut i = 0;
    'entries: while let Some(lines) = entries.entry(i) {
        let at = EntryId::of(i);
        blocks.add_place(at, lines)?;
        blocks.turn(alloc, at, &lines.first.head)?;
        i += 1;
    }
    Ok(blocks)
}

/// Returns the title of the main menu: that of the last `mainmenu` line, or `Main menu`.
pub(crate) fn main_menu_of(alloc: Global, entries: &Entries) -> Result<Vec<u8>, AllocError>
    ensures { IfOk result (λ v. (names : List (List ℕ)) → v.items ≡ (facts_with names (lines_in entries.now)).main_menu) }
{
    let mut last: &[u8] = b"Main menu";
    for entry in &entries.first_lines {
        if let Head::MainMenu(text) = &entry.head {
            last = text;
        }
    }
    Vec::from_slice(alloc, last)
}
