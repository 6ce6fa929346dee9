//! The writers of the header, of the minimal file and of the list of new symbols.
ghost use Rattle.std.specs.Prelude.{◌≡◌, ◌<◌, ◌++◌, length, OnOk, OnErr, IfOk, flat_map};
ghost use Rattle.kc_language.specs.Texts.{header_text, minimal_text, new_text, solution_view, symbol_new};
ghost use Rattle.kc_config_file.specs.PartsOfTexts.{header_heading, header_if, minimal_if, new_if};
ghost use Rattle.kc_language.specs.Values.{name_count};

use crate::symbol_line::{add_config_file_line, add_header_line, add_line_of_new, symbol_value};
use crate::text::new_text;
use kc_expr::expression::SymId;
use kc_input::prefix::Prefix;
use kc_input::text::add_parts;
use kc_solve::solved::Solved;
use std::alloc::{AllocError, Global};

// Adds the symbol's header line if it is written.
fn add_header_if(
    solved: &Solved<'_, '_>,
    prefix: &Prefix,
    id: SymId,
    file: &mut Vec<u8>,
) -> Result<(), AllocError>
    requires { id.0 < length solved.now.tree.names }
    ensures { OnOk result (file.new.items ≡ file.old.items ++ header_if solved.now.tree prefix.now (solution_view solved.now) id) }
{
    if !solved.written(id) {
        return Ok(());
    }
    add_header_line(
        prefix,
        solved.tree().name(id),
        symbol_value(solved, id),
        file,
    )
}

// Adds the symbol's line if it differs.
fn add_minimal_if(
    solved: &Solved<'_, '_>,
    prefix: &Prefix,
    id: SymId,
    file: &mut Vec<u8>,
) -> Result<(), AllocError>
    requires named { id.0 < length solved.now.tree.names }
    requires mentioned { id.0 < name_count solved.now.tree }
    ensures line { OnOk result (file.new.items ≡ file.old.items ++ minimal_if solved.now.tree prefix.now (solution_view solved.now) id) }
    ensures some { OnErr result (0 < length (minimal_if solved.now.tree prefix.now (solution_view solved.now) id)) }
{
    if !solved.differs(id) {
        return Ok(());
    }
    add_config_file_line(
        prefix,
        solved.tree().name(id),
        symbol_value(solved, id),
        file,
    )
}

/// Adds the symbol's line of the list of new symbols. Fails only if there is not enough memory.
pub fn add_new_line(
    solved: &Solved<'_, '_>,
    prefix: &Prefix,
    id: SymId,
    text: &mut Vec<u8>,
) -> Result<(), AllocError>
    requires { id.0 < length solved.now.tree.names }
    ensures { OnOk result (text.new.items ≡ text.old.items ++ symbol_new solved.now.tree prefix.now (solution_view solved.now) id) }
{
    add_line_of_new(
        prefix,
        solved.tree().name(id),
        symbol_value(solved, id),
        text,
    )
}

// Adds the symbol's line if it is new.
fn add_new_if(
    solved: &Solved<'_, '_>,
    prefix: &Prefix,
    id: SymId,
    file: &mut Vec<u8>,
) -> Result<(), AllocError>
    requires named { id.0 < length solved.now.tree.names }
    requires mentioned { id.0 < name_count solved.now.tree }
    ensures { OnOk result (file.new.items ≡ file.old.items ++ new_if solved.now.tree prefix.now (solution_view solved.now) id) }
{
    if !solved.is_new(id) {
        return Ok(());
    }
    add_new_line(solved, prefix, id, file)
}

// Adds the header lines of the written symbols.
fn add_header_lines(
    solved: &Solved<'_, '_>,
    prefix: &Prefix,
    file: &mut Vec<u8>,
) -> Result<(), AllocError>
    ensures { OnOk result (file.new.items ≡ file.old.items ++ flat_map (header_if solved.now.tree prefix.now (solution_view solved.now)) solved.now.tree.defined) }
{
    let tree = solved.tree();
    for i in 0..tree.symbol_count() {
        add_header_if(solved, prefix, tree.symbol(i), file)?;
    }
    Ok(())
}

// Adds the heading.
fn add_heading(title: &[u8], file: &mut Vec<u8>) -> Result<(), AllocError>
    ensures { OnOk result (file.new.items ≡ file.old.items ++ header_heading title.now) }
{
    add_parts(
        &[
            b"/*\n * Automatically generated file; DO NOT EDIT.\n * ",
            title,
            b"\n */\n",
        ],
        file,
    )
}

/// Returns the text of the header: the heading, and a `#define` line for each written symbol, in the order of first
/// definitions. (The kernel's conf writes such lines; the heading is our own.)
///
/// Fails only if there is not enough memory.
pub fn header_text(
    alloc: Global,
    solved: &Solved<'_, '_>,
    prefix: &Prefix,
) -> Result<Vec<u8>, AllocError>
    ensures { IfOk result (λ text. text.items ≡ header_text solved.now.tree prefix.now (solution_view solved.now)) }
{
    let mut file = new_text(alloc)?;
    add_heading(solved.tree().main_menu(), &mut file)?;
    add_header_lines(solved, prefix, &mut file)?;
    Ok(file)
}

/// Returns the text of the minimal file: the lines of the symbols that differ, in the order of first definitions. (Our
/// own form.)
///
/// Fails only if there is not enough memory, and never if the file has no line.
pub fn minimal_text(
    alloc: Global,
    solved: &Solved<'_, '_>,
    prefix: &Prefix,
) -> Result<Vec<u8>, AllocError>
    ensures text { IfOk result (λ text. text.items ≡ minimal_text solved.now.tree prefix.now (solution_view solved.now)) }
    ensures some { OnErr result (0 < length (minimal_text solved.now.tree prefix.now (solution_view solved.now))) }
{
    let mut file = Vec::new(alloc);
    let tree = solved.tree();
    for i in 0..tree.symbol_count() {
        add_minimal_if(solved, prefix, tree.symbol(i), &mut file)?;
    }
    Ok(file)
}

/// Returns the list of new symbols: their `.config` lines, in the order of first definitions. An int or hex whose value
/// is not a number has a comment. (Our own form.)
///
/// Fails only if there is not enough memory.
pub fn list_of_new(
    alloc: Global,
    solved: &Solved<'_, '_>,
    prefix: &Prefix,
) -> Result<Vec<u8>, AllocError>
    ensures { IfOk result (λ text. text.items ≡ new_text solved.now.tree prefix.now (solution_view solved.now)) }
{
    let mut file = Vec::new(alloc);
    let tree = solved.tree();
    for i in 0..tree.symbol_count() {
        add_new_if(solved, prefix, tree.symbol(i), &mut file)?;
    }
    Ok(file)
}
