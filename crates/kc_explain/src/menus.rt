//! The menus around an entry.

ghost use Rattle.std.specs.Prelude.{◌≡◌, ◌++◌, IfOk, OnOk, Some, map, option_map};
ghost use Rattle.std.specs.List.{flat_map};
ghost use Rattle.kc_entries.specs.StatementViews.{head_view};
ghost use Rattle.kc_language.specs.Symbols.{listed};
ghost use Rattle.kc_outcome.specs.Explanations.{menu_path, text_of_lines};
ghost use Rattle.kc_tree.specs.Layouts.{statements_in};
ghost use Rattle.kc_explain.specs.LineViews.{at_entry};
ghost use Rattle.kc_explain.specs.SymbolTexts.{more_titles, path_of, title_of, titles_around, titles_at};

use crate::lines::enclosing;
use kc_entries::statement::Head;
use kc_tree::layout::Layout;
use kc_tree::rows::EntryId;
use std::alloc::{AllocError, Global};

// The title of a menu.
fn menu_title(head: &Head) -> Option<&[u8]>
    ensures { option_map (λ t. t.now) result ≡ title_of (Some (head_view head.now)) }
{
    match head {
        Head::Menu(title) => Some(title),
        _ => None,
    }
}

// Appends a title, if there is one.
fn push_title<'a>(title: Option<&'a [u8]>, all: &mut Vec<&'a [u8]>) -> Result<(), AllocError>
    ensures { OnOk result (map (λ t. t.now) all.new.items ≡ map (λ t. t.now) all.old.items ++ listed (option_map (λ t. t.now) title.entry)) }
{
    match title {
        Some(title) => {
            all.push(title)?;
            Ok(())
        }
        None => Ok(()),
    }
}

// Appends the title of a block, if it is a menu.
fn add_title<'a>(
    layout: &'a Layout,
    block: EntryId,
    all: &mut Vec<&'a [u8]>,
) -> Result<(), AllocError>
    ensures { OnOk result (map (λ t. t.now) all.new.items ≡ map (λ t. t.now) all.old.items ++ at_entry layout.now (titles_at (statements_in layout.now)) block) }
{
    match layout.head(block) {
        Some(head) => push_title(menu_title(head), all),
        None => Ok(()),
    }
}

// The titles of the menus among these blocks.
fn menu_titles<'a>(
    alloc: Global,
    layout: &'a Layout,
    around: &[EntryId],
) -> Result<Vec<&'a [u8]>, AllocError>
    ensures { IfOk result (λ all. map (λ t. t.now) all.items ≡ flat_map (at_entry layout.now (titles_at (statements_in layout.now))) around.now) }
{
    let mut all = Vec::new(alloc);
    for block in around {
        add_title(layout, *block, &mut all)?;
    }
    Ok(all)
}

// The titles of the menus around an entry, the outermost first.
fn titles_around(alloc: Global, layout: &Layout, entry: EntryId) -> Result<Vec<&[u8]>, AllocError>
    ensures { IfOk result (λ all. map (λ t. t.now) all.items ≡ at_entry layout.now (titles_around (statements_in layout.now)) entry) }
{
    let around = enclosing(alloc, layout, entry)?;
    menu_titles(alloc, layout, &around)
}

// Appends these titles, each after ` > `.
fn add_titles(titles: &[&[u8]], text: &mut Vec<u8>) -> Result<(), AllocError>
    ensures { OnOk result (text.new.items ≡ text.old.items ++ more_titles (map (λ t. t.now) titles.now)) }
{
    for title in titles {
        text.extend_from_slice(b" > ")?;
        text.extend_from_slice(title)?;
    }
    Ok(())
}

// Appends the line of the menus with these titles after the lead, if there are any.
fn add_path(lead: &[u8], titles: &[&[u8]], text: &mut Vec<u8>) -> Result<(), AllocError>
    ensures { OnOk result (text.new.items ≡ text.old.items ++ text_of_lines lead.now (path_of (map (λ t. t.now) titles.now))) }
{
    match titles {
        [] => Ok(()),
        [first, more @ ..] => {
            text.extend_from_slice(lead)?;
            text.extend_from_slice(b"in ")?;
            text.extend_from_slice(first)?;
            add_titles(more, text)?;
            text.extend_from_slice(b"\n")
        }
    }
}

/// Appends the line of the menus around an entry after the lead, if there are any. The only error is that memory runs out.
pub(crate) fn add_menu_path(
    alloc: Global,
    layout: &Layout,
    lead: &[u8],
    entry: EntryId,
    text: &mut Vec<u8>,
) -> Result<(), AllocError>
    ensures { OnOk result (text.new.items ≡ text.old.items ++ text_of_lines lead.now (at_entry layout.now (menu_path (statements_in layout.now)) entry)) }
{
    let titles = titles_around(alloc, layout, entry)?;
    add_path(lead, &titles, text)
}
