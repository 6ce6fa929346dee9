//! The list of new symbols, each with its definitions as they are written.

ghost use Rattle.std.specs.Prelude.{◌≡◌, ◌<◌, ◌++◌, length, IfOk, OnOk};
ghost use Rattle.kc_outcome.specs.Explanations.{new_text_with_help};
ghost use Rattle.kc_language.specs.Texts.{solution_view};
ghost use Rattle.kc_language.specs.Values.{name_count};
ghost use Rattle.kc_entries.specs.Entries.{lines_in};
ghost use Rattle.kc_read.specs.Files.{files_in};
ghost use Rattle.kc_conf.specs.PartsOfExplanations.{line_and_gap, new_with_help};

use kc_config_file::header::add_new_line;
use kc_explain::DefinitionReader;
use kc_expr::expression::SymId;
use kc_input::prefix::Prefix;
use kc_read::file_map::FileMap;
use kc_solve::solved::Solved;
use kc_tree::layout::Layout;
use std::alloc::{AllocError, Global};

// Adds the symbol's line of the list of new symbols and an empty line.
fn add_line_and_gap(
    solved: &Solved<'_, '_>,
    prefix: &Prefix,
    id: SymId,
    text: &mut Vec<u8>,
) -> Result<(), AllocError>
    requires { id.0 < length solved.now.tree.names }
    ensures { OnOk result (text.new.items ≡ text.old.items ++ line_and_gap solved.now.tree prefix.now (solution_view solved.now) id) }
{
    add_new_line(solved, prefix, id, text)?;
    text.extend_from_slice(b"\n")
}

// Adds the symbol with its definitions and an empty line, if it is new.
fn add_new_with_help<'n>(
    reader: &mut DefinitionReader<'_, 'n>,
    layout: &'n Layout,
    solved: &Solved<'_, '_>,
    prefix: &Prefix,
    id: SymId,
    text: &mut Vec<u8>,
) -> Result<(), AllocError>
    requires named { id.0 < length solved.now.tree.names }
    requires mentioned { id.0 < name_count solved.now.tree }
    ensures text { OnOk result (text.new.items ≡ text.old.items
        ++ new_with_help (files_in reader.old) (lines_in layout.now.entries) solved.now.tree prefix.now (solution_view solved.now) id) }
    ensures files { reader.new ≡ reader.old }
{
    if !solved.is_new(id) {
        return Ok(());
    }
    reader.add_definitions(layout, id, text)?;
    add_line_and_gap(solved, prefix, id, text)
}

/// Returns the list of new symbols in the order of their first definition: for each, its definitions as comments, its
/// `.config` line, and an empty line. (Our own form.) The only error is that memory runs out.
pub(crate) fn new_text_with_help(
    alloc: Global,
    files: &FileMap,
    layout: &Layout,
    solved: &Solved<'_, '_>,
    prefix: &Prefix,
) -> Result<Vec<u8>, AllocError>
    ensures { IfOk result (λ t. t.items ≡ new_text_with_help (files_in files.now) (lines_in layout.now.entries) solved.now.tree prefix.now (solution_view solved.now)) }
{
    let mut text = Vec::new(alloc);
    let mut reader = DefinitionReader::new(alloc, files);
    let tree = solved.tree();
    for i in 0..tree.symbol_count() {
        let id = tree.symbol(i);
        add_new_with_help(&mut reader, layout, solved, prefix, id, &mut text)?;
    }
    Ok(text)
}
