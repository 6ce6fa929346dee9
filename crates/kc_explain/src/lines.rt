//! The lines of a tree: their locations, blocks and entries.

ghost use Rattle.std.specs.Prelude.{◌≡◌, ◌<◌, length, map, option_map, slice_get, ◌++◌, IfOk, OnOk};
ghost use Rattle.std.specs.List.{flat_map};
ghost use Rattle.kc_language.specs.Expansion.{enclosing, last_of};
ghost use Rattle.kc_outcome.specs.Explanations.{choice_entry, raising_lines};
ghost use Rattle.kc_language.specs.Symbols as whole;
ghost use Rattle.kc_entries.specs.Entries.{attribute_line as line_of_attribute, first_line as line_of_head};
ghost use Rattle.kc_entries.specs.PartsOfSymbols.{first_of};
ghost use Rattle.kc_tree.specs.EntryViews.{definitions_from};
ghost use Rattle.kc_tree.specs.Layouts as see;
ghost use Rattle.kc_tree.specs.Stored.{stored};
ghost use Rattle.kc_explain.specs.LineViews.{AreAt, attribute_in, line_at, line_view, lines_of, target_at, target_by, target_in, target_of_row, target_view};

use kc_entries::entries::{AttributeLine, Entry};
use kc_entries::statement::{Attribute, Head};
use kc_expr::expression::{Expr, SymId};
use kc_language::symbols::SelectOrImply;
use kc_tree::attributes::target_of;
use kc_tree::layout::Layout;
use kc_tree::rows::{AttributeId, Choice, EntryId, Selector, SelectorId};
use std::alloc::{AllocError, Global};
use std::rc::Rc;

/// The content of a line: it begins an entry, or is an attribute of the entry before it (our own).
#[derive(Clone, Copy)]
pub(crate) enum LineStatement<'a> {
    First(&'a Head),
    Attribute(&'a Attribute),
}

/// A line of a tree: its file, its line number, and its content (our own).
#[derive(Clone, Copy)]
pub(crate) struct Line<'a> {
    pub file: &'a [u8],
    pub number: u32,
    pub statement: LineStatement<'a>,
}

/// A line that selects or implies a symbol, the symbol and the entry that it belongs to, and its condition.
#[derive(Clone, Copy)]
pub(crate) struct TargetAt<'a> {
    pub by: SymId,
    pub entry: EntryId,
    pub line: Line<'a>,
    pub when: &'a Option<Rc<Expr>>,
}

/// The line that begins an entry.
pub(crate) fn head_line<'a>(first: &'a Entry) -> Line<'a>
    ensures { line_view result ≡ line_of_head first.now }
{
    Line {
        file: &first.file,
        number: first.line,
        statement: LineStatement::First(&first.head),
    }
}

/// The line of an attribute of the entry that begins with this line.
pub(crate) fn attribute_line<'a>(first: &'a Entry, own: &'a AttributeLine) -> Line<'a>
    ensures { line_view result ≡ line_of_attribute first.now.file.value.items own.now.line own.now.attribute }
{
    Line {
        file: &first.file,
        number: own.line,
        statement: LineStatement::Attribute(&own.attribute),
    }
}

/// The line that begins the entry with this number.
pub(crate) fn first_line(layout: &Layout, entry: EntryId) -> Option<Line<'_>>
    ensures { option_map line_view result ≡ line_at layout.now entry.0 }
{
    match layout.entry(entry) {
        Some(own) => Some(head_line(own.first)),
        None => None,
    }
}

// The first definition of a symbol.
fn first_definition(layout: &Layout, id: SymId) -> EntryId
    ensures { result.0 ≡ stored (first_of (definitions_from layout.now.entries id 0)) }
{
    match layout.symbol(id) {
        Some(symbol) => symbol.first,
        None => EntryId::top(),
    }
}

/// The definitions of a symbol, in order.
pub(crate) fn definitions_of(
    alloc: Global,
    layout: &Layout,
    id: SymId,
) -> Result<Vec<EntryId>, AllocError>
    ensures { IfOk result (λ all. AreAt layout.now all.items (whole.definitions_of (see.statements_in layout.now) id)) }
{
    let mut all = Vec::new(alloc);
    let mut at = first_definition(layout, id);
    'definitions: while at.is_some() {
        all.push(at)?;
        at = layout.next(at);
    }
    Ok(all)
}

/// The blocks around an entry, the outermost first.
pub(crate) fn enclosing(
    alloc: Global,
    layout: &Layout,
    entry: EntryId,
) -> Result<Vec<EntryId>, AllocError>
    ensures { IfOk result (λ all. AreAt layout.now all.items (flat_map (enclosing (see.statements_in layout.now)) (whole.listed (see.index_at layout.now entry.0)))) }
{
    let mut all = Vec::new(alloc);
    let mut at = layout.outer(entry);
    'around: while at.is_some() {
        all.push(at)?;
        at = layout.outer(at);
    }
    all.reverse();
    Ok(all)
}

// The choice with this number.
fn choice_row(choices: &[Choice], choice: usize) -> Option<&Choice>
    ensures { option_map (λ c. c.now) result ≡ slice_get choices.now choice }
{
    choices.get(choice)
}

/// The entry of the choice with this number.
pub(crate) fn choice_entry(layout: &Layout, choice: usize) -> Option<EntryId>
    ensures { AreAt layout.now (whole.listed result) (choice_entry (see.statements_in layout.now) choice) }
{
    match choice_row(layout.choices(), choice) {
        Some(row) => Some(row.entry),
        None => None,
    }
}

// The attribute with this number.
fn attribute_at(layout: &Layout, id: AttributeId) -> Option<&AttributeLine>
    ensures { option_map (λ a. a.now) result ≡ attribute_in layout.now id.0 }
{
    match id.index() {
        Some(i) => layout.entries.attributes.get(i),
        None => None,
    }
}

// The line of an attribute of an entry of a symbol, if the attribute selects or implies.
fn target_by<'a>(
    by: SymId,
    entry: EntryId,
    first: &'a Entry,
    own: &'a AttributeLine,
    layout: &Layout,
) -> Option<TargetAt<'a>>
    ensures { option_map (target_view layout.now) result ≡ target_by layout.now entry first.now own.now by }
{
    match target_of(&own.attribute) {
        Some(target) => Some(TargetAt {
            by,
            entry,
            line: attribute_line(first, own),
            when: target.when,
        }),
        None => None,
    }
}

// The line with this number in an entry.
fn target_at<'a>(
    layout: &'a Layout,
    entry: EntryId,
    first: &'a Entry,
    attribute: AttributeId,
) -> Option<TargetAt<'a>>
    ensures { option_map (target_view layout.now) result ≡ target_at layout.now entry first.now attribute.0 }
{
    match attribute_at(layout, attribute) {
        Some(own) => match layout.symbol_of(entry) {
            Some(by) => target_by(by, entry, first, own, layout),
            None => None,
        },
        None => None,
    }
}

// The line that a row of the layout stores.
fn target_of_row<'a>(layout: &'a Layout, row: &Selector) -> Option<TargetAt<'a>>
    ensures { option_map (target_view layout.now) result ≡ target_of_row layout.now row.now }
{
    match layout.entry(row.entry) {
        Some(lines) => target_at(layout, row.entry, lines.first, row.attribute),
        None => None,
    }
}

// Appends a line, if there is one.
fn add_target<'a>(
    target: Option<TargetAt<'a>>,
    all: &mut Vec<TargetAt<'a>>,
) -> Result<(), AllocError>
    ensures { OnOk result (all.new.items ≡ all.old.items ++ whole.listed target.entry) }
{
    if let Some(target) = target {
        all.push(target)?;
    }
    Ok(())
}

// The last row that selects or implies a symbol.
fn last_target(layout: &Layout, word: SelectOrImply, id: SymId) -> SelectorId
    requires { id.0 < length layout.now.symbols.items }
    ensures { result.0 ≡ stored (last_of (see.lines_up_to layout.now word id (length layout.now.selectors.items))) }
{
    match layout.symbol(id) {
        Some(symbol) => match word {
            SelectOrImply::Select => symbol.last_select,
            SelectOrImply::Imply => symbol.last_imply,
        },
        None => SelectorId::none(),
    }
}

/// Returns the lines that select or imply a symbol, if that has an effect.
pub(crate) fn targets(
    alloc: Global,
    layout: &Layout,
    word: SelectOrImply,
    id: SymId,
) -> Result<Vec<TargetAt<'_>>, AllocError>
    requires { id.0 < length layout.now.symbols.items }
    ensures { IfOk result (λ all. map (target_view layout.now) all.items ≡ map (target_in (lines_of layout.now)) (raising_lines (see.statements_in layout.now) word id)) }
{
    let mut all = Vec::new(alloc);
    let mut next = last_target(layout, word, id);
    'lines: while let Some(row) = layout.selector(next) {
        add_target(target_of_row(layout, row), &mut all)?;
        next = row.next;
    }
    all.reverse();
    Ok(all)
}
