//! The entries of a tree, with an index of their blocks, conditions, symbols and choices.

ghost use Rattle.std.specs.Prelude.{◌≡◌, ◌≤◌, length, option_map, slice_get};
ghost use Rattle.kc_tree.specs.Laid.{IsLaid, laid-prop};
ghost use Rattle.kc_tree.specs.Places.{place_at, AreRising, IsPointAt};

use crate::attributes::{Target, default_symbol, prompt_of, symbol_of, target_of};
use crate::rows::{
    AttributeId, Choice, ChoiceId, EntryId, EntryPlace, Selector, SelectorId, Symbol, VisibleId,
};
use kc_entries::entries::{AttributeLine, Entries, EntryLines};
use kc_entries::statement::{Attribute, Head, Prompt};
use kc_expr::expression::SymId;

/// The layout of a tree: its entries as they were read, and what is costly to find in them again.
#[derive(Debug, Drop)]
pub struct Layout {
    pub entries: Entries,
    /// The place of each entry.
    pub places: Vec<EntryPlace>,
    /// The menus with a `visible if` line, in order.
    pub visibles: Vec<EntryId>,
    /// The row of each name, by number.
    pub symbols: Vec<Symbol>,
    /// The `select` and `imply` lines that have an effect, in order.
    pub selectors: Vec<Selector>,
    /// The choices, in order.
    pub choices: Vec<Choice>,
    /// The defined symbols, in the order of their first definition.
    pub defined: Vec<SymId>,
    /// The modules symbol, which a lone `m` of a condition depends on, if it is defined.
    pub modules: Option<SymId>,
    ghost laid: { IsLaid entries places.items visibles.items symbols.items selectors.items choices.items defined.items } by { laid-prop entries places.items visibles.items symbols.items selectors.items choices.items defined.items },
}

/// All parts of a tree except the names.
#[derive(Debug, Drop)]
pub struct TreeParts {
    pub layout: Layout,
    pub warnings: Vec<Vec<u8>>,
    pub main_menu: Vec<u8>,
}

// The place of the top of the tree.
const TOP: EntryPlace = EntryPlace {
    outer: EntryId(0),
    context: EntryId(0),
    visible: VisibleId(0),
    prompt: AttributeId(0),
    next: EntryId(0),
    has_default: false,
    has_range: false,
    has_target: false,
};

/// Returns the place of an entry among these. The top is in no block and has no condition.
pub fn place_in(places: &[EntryPlace], at: EntryId) -> EntryPlace
    ensures { result ≡ place_at places.now at.0 }
{
    match at.index() {
        Some(i) => match places.get(i) {
            Some(found) => *found,
            None => TOP,
        },
        None => TOP,
    }
}

// The number of these choices that begin before an entry.
fn begun_before(choices: &[Choice], at: EntryId) -> usize
    requires { AreRising choices.now }
    ensures bound { result ≤ length choices.now }
    ensures point { IsPointAt at.0 choices.now result }
{
    choices.partition_point(|choice| choice.entry.0 < at.0)
}

// The choice with a number.
fn choice_in(choices: &[Choice], i: usize) -> Option<&Choice>
    ensures { option_map (λ c. c.now) result ≡ slice_get choices.now i }
{
    choices.get(i)
}

impl Layout {
    ghost use Rattle.std.specs.Prelude.{◌≡◌, length, option_and_then, option_map, slice_get, suc, IfSome};
    ghost use Rattle.kc_entries.specs.StatementViews.{attribute_view, input_prompt_view};
    ghost use Rattle.kc_tree.specs.Layouts as see;
    ghost use Rattle.kc_tree.specs.LineParts.{target_said};
    ghost use Rattle.kc_tree.specs.Stored.{unstored};

    /// The symbols, by number: one row for each name.
    pub fn symbols(&self) -> &[Symbol]
        ensures { result.now ≡ self.now.symbols.items }
    {
        &self.symbols
    }

    /// The defined symbols, in the order of their first definition.
    pub fn defined(&self) -> &[SymId]
        ensures { result.now ≡ self.now.defined.items }
    {
        &self.defined
    }

    /// The choices, by number.
    pub fn choices(&self) -> &[Choice]
        ensures { result.now ≡ self.now.choices.items }
    {
        &self.choices
    }

    /// The row of a symbol. The row of a name that is not defined has no type, no choice and no definition.
    pub fn symbol(&self, id: SymId) -> Option<&Symbol>
        ensures { option_map (λ s. s.now) result ≡ slice_get self.now.symbols.items id.0 }
    {
        self.symbols.get(id.0)
    }

    /// The row of a choice.
    pub fn choice(&self, id: ChoiceId) -> Option<&Choice>
        ensures { option_map (λ c. c.now) result ≡ slice_get self.now.choices.items id.0 }
    {
        self.choices.get(id.0 as usize)
    }

    /// The choice that an entry begins. The entries of the choices are in ascending order.
    pub fn choice_of(&self, at: EntryId) -> Option<ChoiceId>
        ensures { option_map (λ k. k.0) result ≡ see.choice_at self.now at.0 }
    {
        let index = begun_before(&self.choices, at);
        match choice_in(&self.choices, index) {
            Some(choice) if choice.entry.0 == at.0 => Some(ChoiceId(index as u32)),
            _ => None,
        }
    }

    /// The number of places of entries: one for each entry, and one for the top.
    pub fn place_count(&self) -> usize
        ensures { result ≡ suc (length self.now.places.items) }
    {
        self.places.len() + 1
    }

    /// The number of `VisibleId`s: one for each menu with a `visible if` line, and one for none.
    pub fn visible_count(&self) -> usize
        ensures { result ≡ suc (length self.now.visibles.items) }
    {
        self.visibles.len() + 1
    }

    /// An entry, or `None` at the top.
    pub fn entry(&self, at: EntryId) -> Option<EntryLines<'_>>
        ensures first { option_map (λ e. e.first.now) result ≡ see.entry_at self.now at.0 }
        ensures own { IfSome result (λ e. e.attributes.now ≡ see.own_at self.now at.0) }
    {
        self.entries.entry(at.index()?)
    }

    /// The line that begins an entry, or `None` at the top.
    pub fn head(&self, at: EntryId) -> Option<&Head>
        ensures { option_map (λ h. h.now) result ≡ option_map (λ e. e.head) (see.entry_at self.now at.0) }
    {
        self.entries.head(at.index()?)
    }

    /// The attributes of an entry.
    pub fn attributes(&self, at: EntryId) -> &[AttributeLine]
        ensures { result.now ≡ see.own_at self.now at.0 }
    {
        match self.entry(at) {
            Some(lines) => lines.attributes,
            None => &[],
        }
    }

    /// The attribute with this number.
    pub fn attribute(&self, id: AttributeId) -> Option<&Attribute>
        ensures { option_map (λ a. a.now) result ≡ see.attribute_in self.now id.0 }
    {
        match self.entries.attributes.get(id.index()?) {
            Some(line) => Some(&line.attribute),
            None => None,
        }
    }

    /// The place of an entry.
    pub fn place(&self, at: EntryId) -> EntryPlace
        ensures { result ≡ see.place_of self.now at.0 }
    {
        place_in(&self.places, at)
    }

    /// The block around an entry. For a line that closes a block it is that block.
    pub fn outer(&self, at: EntryId) -> EntryId
        ensures { result.0 ≡ (see.place_of self.now at.0).outer.0 }
    {
        self.place(at).outer
    }

    /// The nearest entry with a condition among the blocks around an entry. It has a smaller number.
    pub fn outer_context(&self, at: EntryId) -> EntryId
        ensures { result.0 ≡ see.outer_context self.now at.0 }
    {
        self.place(self.place(at).outer).context
    }

    /// The menu of this number among the menus with a `visible if` line.
    pub fn visible_menu(&self, id: VisibleId) -> EntryId
        ensures { result.0 ≡ see.visible_menu self.now id.0 }
    {
        match id.index() {
            Some(i) => match self.visibles.get(i) {
                Some(menu) => *menu,
                None => EntryId::top(),
            },
            None => EntryId::top(),
        }
    }

    /// The nearest menu with a `visible if` line among the blocks around an entry. It has a smaller number.
    pub fn outer_visible(&self, at: EntryId) -> VisibleId
        ensures { result.0 ≡ see.outer_visible self.now at.0 }
    {
        self.place(self.place(at).outer).visible
    }

    /// The prompt that counts for an entry with this place: its last one.
    pub fn prompt(&self, place: EntryPlace) -> Option<&Prompt>
        ensures { option_map (λ p. input_prompt_view p.now) result ≡ see.prompt_in self.now place }
    {
        prompt_of(self.attribute(place.prompt)?)
    }

    /// The next definition of the symbol that an entry defines. It has a greater number.
    pub fn next(&self, at: EntryId) -> EntryId
        ensures { result.0 ≡ (see.place_of self.now at.0).next.0 }
    {
        self.place(at).next
    }

    /// Whether an entry is the first definition of a symbol.
    pub fn is_first(&self, at: EntryId, symbol: SymId) -> bool
        ensures { result ≡ see.is_first self.now at.0 symbol }
    {
        match self.symbol(symbol) {
            Some(row) => row.first.0 == at.0,
            None => false,
        }
    }

    /// The symbol that an entry defines.
    pub fn symbol_of(&self, at: EntryId) -> Option<SymId>
        ensures { result ≡ see.symbol_at self.now at.0 }
    {
        symbol_of(self.head(at)?)
    }

    /// A line that selects or implies. Its `next` has a smaller number.
    pub fn selector(&self, id: SelectorId) -> Option<&Selector>
        ensures { option_map (λ r. r.now) result ≡ option_and_then (slice_get self.now.selectors.items) (unstored id.0) }
    {
        self.selectors.get(id.index()?)
    }

    /// The target of a line that selects or implies.
    pub fn target(&self, line: &Selector) -> Option<Target<'_>>
        ensures { option_map target_said result ≡ see.target_in self.now line.now }
    {
        target_of(self.attribute(line.attribute)?)
    }

    /// Whether a symbol is a member of a choice.
    pub fn is_member(&self, choice: ChoiceId, symbol: SymId) -> bool
        ensures { result ≡ see.is_member self.now choice.0 symbol }
    {
        match self.symbol(symbol) {
            Some(row) => match row.choice.get() {
                Some(own) => own.0 == choice.0,
                None => false,
            },
            None => false,
        }
    }

    /// The member that a default of a choice names.
    pub fn default_member(&self, choice: ChoiceId, attribute: &Attribute) -> Option<SymId>
        ensures { result ≡ see.member_named self.now choice.0 (attribute_view attribute.now) }
    {
        match default_symbol(attribute) {
            Some(symbol) if self.is_member(choice, symbol) => Some(symbol),
            _ => None,
        }
    }
}
