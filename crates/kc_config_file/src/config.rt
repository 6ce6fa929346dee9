//! The writer of the `.config`.

ghost use Rattle.std.specs.Prelude.{◌≡◌, ◌++◌, ◌<◌, length, slice_get, suc, Some, is_some, true, false, OnOk, IfOk, if◌then◌else◌};
ghost use Rattle.std.specs.Option.{option_copied};
ghost use Rattle.kc_language.specs.Symbols.{SymbolShown};
ghost use Rattle.kc_language.specs.Statements.{ConfigLine};
ghost use Rattle.kc_solve.specs.Tables.{IsTableOf};
ghost use Rattle.kc_tree.specs.Layouts.{shown_of};
ghost use Rattle.kc_language.specs.Texts.{solution_view, shown_title, entry_text, config_text, is_shown};
ghost use Rattle.kc_config_file.specs.PartsOfTexts.{title_if, end_if, gap, entries_text, config_heading};
ghost use Rattle.kc_config_file.specs.EntryTexts.{ends_after, ends_behind, shown_at, text_of};

use crate::symbol_line::{add_config_file_line, symbol_value};
use crate::text::new_text;
use kc_entries::entries::Entry;
use kc_entries::statement::Head;
use kc_expr::expression::{SymId, Tri};
use kc_input::prefix::Prefix;
use kc_input::text::add_parts;
use kc_solve::solved::Solved;
use kc_tree::rows::EntryId;
use kc_values::conditions::title_condition;
use kc_values::table::Table;
use std::alloc::{AllocError, Global};

// What a `.config` is written from: a solution, the table of its values, and the prefix of each name.
#[derive(Clone, Copy)]
struct Source<'w> {
    solved: &'w Solved<'w, 'w>,
    table: &'w Table<'w>,
    prefix: &'w Prefix,
}

// Whether the value is not n.
fn is_shown(tri: Tri) -> bool
    ensures { result ≡ is_shown tri }
{
    match tri {
        Tri::N => false,
        Tri::M | Tri::Y => true,
    }
}

// Adds an empty line, the title and the `#` lines around it, if it is shown.
fn add_title_if(shown: bool, text: &[u8], file: &mut Vec<u8>) -> Result<(), AllocError>
    ensures { OnOk result (file.new.items ≡ file.old.items ++ title_if shown text.now) }
{
    if !shown {
        return Ok(());
    }
    add_parts(&[b"\n#\n# ", text, b"\n#\n"], file)
}

// Adds the end line of a menu, if its title is shown.
fn add_end_if(title: Option<&[u8]>, file: &mut Vec<u8>) -> Result<(), AllocError>
    ensures { OnOk result (file.new.items ≡ file.old.items ++ end_if (option_copied title.entry)) }
{
    match title {
        None => Ok(()),
        Some(text) => add_parts(&[b"# end of ", text, b"\n"], file),
    }
}

// Adds an empty line after an end line.
fn add_gap(after_end: bool, file: &mut Vec<u8>) -> Result<(), AllocError>
    ensures { OnOk result (file.new.items ≡ file.old.items ++ gap after_end) }
{
    if !after_end {
        return Ok(());
    }
    file.extend_from_slice(b"\n")
}

// The title of the menu of an entry, where it is shown.
fn shown_title<'w>(source: &Source<'w>, menu: EntryId) -> Option<&'w [u8]>
    requires { IsTableOf source.now.solved.now source.now.table.now }
    ensures { option_copied result ≡ shown_title (solution_view source.now.solved.now) (shown_at source.now.table.now.layout.now menu.0) }
{
    let table = source.table;
    match table.layout.head(menu) {
        Some(Head::Menu(text)) if is_shown(title_condition(table, menu)) => Some(text),
        _ => None,
    }
}

// Adds the symbol's line if it is written, with an empty line before it if the last line is an end line. Returns
// whether the last line is an end line now.
fn add_symbol_if(
    solved: &Solved<'_, '_>,
    prefix: &Prefix,
    id: SymId,
    after_end: bool,
    file: &mut Vec<u8>,
) -> Result<bool, AllocError>
    requires { id.0 < length solved.now.tree.names }
    ensures text { OnOk result (file.new.items ≡ file.old.items ++ entry_text solved.now.tree prefix.now (solution_view solved.now) after_end (SymbolShown id)) }
    ensures next { IfOk result (λ next. next ≡ ends_after solved.now.tree (solution_view solved.now) after_end (SymbolShown id)) }
{
    if !solved.written(id) {
        return Ok(after_end);
    }
    add_gap(after_end, file)?;
    add_config_file_line(
        prefix,
        solved.tree().name(id),
        symbol_value(solved, id),
        file,
    )?;
    Ok(false)
}

// Adds the title if it is shown. Returns whether the last line is an end line now.
fn add_title(
    shown: bool,
    text: &[u8],
    after_end: bool,
    file: &mut Vec<u8>,
) -> Result<bool, AllocError>
    ensures text { OnOk result (file.new.items ≡ file.old.items ++ title_if shown text.now) }
    ensures next { IfOk result (λ next. next ≡ (if shown then false else after_end)) }
{
    add_title_if(shown, text, file)?;
    Ok(!shown && after_end)
}

// Adds the end line if there is a title. Returns whether the last line is an end line now.
fn add_end(title: Option<&[u8]>, after_end: bool, file: &mut Vec<u8>) -> Result<bool, AllocError>
    ensures text { OnOk result (file.new.items ≡ file.old.items ++ end_if (option_copied title.entry)) }
    ensures next { IfOk result (λ next. next ≡ (if is_some (option_copied title.entry) then true else after_end)) }
{
    add_end_if(title, file)?;
    Ok(title.is_some() || after_end)
}

// Adds the line of a symbol at its first definition.
fn add_definition(
    source: &Source<'_>,
    at: EntryId,
    id: SymId,
    after_end: bool,
    file: &mut Vec<u8>,
) -> Result<bool, AllocError>
    requires { IsTableOf source.now.solved.now source.now.table.now }
    ensures text { OnOk result (file.new.items ≡ file.old.items
        ++ text_of source.now.solved.now.tree source.now.prefix.now (solution_view source.now.solved.now) after_end (shown_of source.now.table.now.layout.now at.0 (Some (ConfigLine id)))) }
    ensures next { IfOk result (λ next. next
        ≡ ends_behind source.now.solved.now.tree (solution_view source.now.solved.now) after_end (shown_of source.now.table.now.layout.now at.0 (Some (ConfigLine id)))) }
{
    if !source.table.layout.is_first(at, id) {
        return Ok(after_end);
    }
    add_symbol_if(source.solved, source.prefix, id, after_end, file)
}

// Adds the text of an entry. Returns whether the last line is an end line now.
fn add_entry(
    source: &Source<'_>,
    i: usize,
    entry: &Entry,
    after_end: bool,
    file: &mut Vec<u8>,
) -> Result<bool, AllocError>
    requires table { IsTableOf source.now.solved.now source.now.table.now }
    requires there { slice_get source.now.table.now.layout.now.entries.first_lines.items i ≡ Some entry.now }
    ensures text { OnOk result (file.new.items ≡ file.old.items
        ++ text_of source.now.solved.now.tree source.now.prefix.now (solution_view source.now.solved.now) after_end (shown_at source.now.table.now.layout.now (suc i))) }
    ensures next { IfOk result (λ next. next
        ≡ ends_behind source.now.solved.now.tree (solution_view source.now.solved.now) after_end (shown_at source.now.table.now.layout.now (suc i))) }
{
    let table = source.table;
    let at = EntryId::of(i);
    match &entry.head {
        Head::Config(id) => add_definition(source, at, *id, after_end, file),
        Head::Menu(text) | Head::Comment(text) => {
            add_title(is_shown(title_condition(table, at)), text, after_end, file)
        }
        Head::EndMenu => { add_end(shown_title(source, table.layout.outer(at)), after_end, file) }
        _ => Ok(after_end),
    }
}

// Adds the text of the entries.
fn add_entries(source: &Source<'_>, file: &mut Vec<u8>) -> Result<(), AllocError>
    requires { IsTableOf source.now.solved.now source.now.table.now }
    ensures { OnOk result (file.new.items ≡ file.old.items
        ++ entries_text source.now.solved.now.tree source.now.prefix.now (solution_view source.now.solved.now) source.now.solved.now.tree.entries) }
{
    let mut after_end = false;
    for (i, entry) in source.table.layout.entries.first_lines.iter().enumerate() {
        after_end = add_entry(source, i, entry, after_end, file)?;
    }
    Ok(())
}

// Adds the heading.
fn add_heading(title: &[u8], file: &mut Vec<u8>) -> Result<(), AllocError>
    ensures { OnOk result (file.new.items ≡ file.old.items ++ config_heading title.now) }
{
    add_parts(
        &[
            b"#\n# Automatically generated file; DO NOT EDIT.\n# ",
            title,
            b"\n#\n",
        ],
        file,
    )
}

/// Returns the text of the full `.config`. It has the heading; then, in the order of the entries, the line of each
/// written symbol at its first definition, the titles of the menus and comments that are shown, and the `# end of`
/// lines of these menus. An empty line separates such an end line from a symbol's line directly after it. (Our own
/// layout, similar to that of the kernel's conf and of kconfiglib.)
///
/// Fails only if there is not enough memory.
pub fn config_text(
    alloc: Global,
    solved: &Solved<'_, '_>,
    prefix: &Prefix,
) -> Result<Vec<u8>, AllocError>
    ensures { IfOk result (λ text. text.items ≡ config_text solved.now.tree prefix.now (solution_view solved.now)) }
{
    let mut file = new_text(alloc)?;
    add_heading(solved.tree().main_menu(), &mut file)?;
    let source = Source {
        solved,
        table: solved.table(),
        prefix,
    };
    add_entries(&source, &mut file)?;
    Ok(file)
}
