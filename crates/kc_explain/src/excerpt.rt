//! The definitions of a symbol as they are written.

ghost use Rattle.kc_entries.specs.Entries.{lines_in};
ghost use Rattle.kc_read.specs.Files.{files_in};
ghost use Rattle.std.specs.Prelude.{◌≡◌, ◌++◌, IfOk, OnOk};
ghost use Rattle.std.specs.Option.{option_copied};
ghost use Rattle.kc_language.specs.Expansion.{last_of};
ghost use Rattle.kc_outcome.specs.Explanations as whole;
ghost use Rattle.kc_explain.specs.Excerpts.{definition_at, definition_of, ends_in_help, heading, is_new_at, last_number, lines_in_file, new_definitions, with_place_at};
ghost use Rattle.kc_explain.specs.LineViews.{at_entry};
ghost use Rattle.kc_explain.specs.SourceLines.{lines_of};

use crate::lines::definitions_of;
use crate::menus::add_menu_path;
use crate::places::Places;
use crate::source_lines::{LineReader, add_excerpt, push_lines};
use crate::statement_lines::statement_count;
use itoa::Buffer;
use kc_entries::entries::{AttributeLine, EntryLines};
use kc_entries::statement::Attribute;
use kc_expr::expression::SymId;
use kc_expr::hash_key::HashKey;
use kc_read::file_map::FileMap;
use kc_tree::layout::Layout;
use kc_tree::rows::EntryId;
use std::alloc::{AllocError, Global};
use std::marker::Model;

/// Reads the definitions of symbols from the files of their tree.
#[derive(Drop)]
pub struct DefinitionReader<'f, 'n> {
    alloc: Global,
    key: HashKey,
    lines: LineReader<'f, 'n>,
}

impl<'f, 'n> Model for DefinitionReader<'f, 'n> {
    ghost use Rattle.kc_read.specs.Files.{FileTable};

    ghost Value = { FileTable };

    ghost view = { λ r. r.lines };
}

// Appends the location of a definition.
fn add_heading(file: &[u8], number: u32, text: &mut Vec<u8>) -> Result<(), AllocError>
    ensures { OnOk result (text.new.items ≡ text.old.items ++ heading file.now number) }
{
    let mut buffer = Buffer::new();
    text.extend_from_slice(b"# ")?;
    text.extend_from_slice(file)?;
    text.extend_from_slice(b":")?;
    text.extend_from_slice(buffer.format(number).as_bytes())?;
    text.extend_from_slice(b"\n")
}

// ---- the lines of a definition

// The last of these attributes.
fn last_attribute(own: &[AttributeLine]) -> Option<&AttributeLine>
    ensures { option_copied result ≡ last_of own.now }
{
    own.last()
}

// The line of the last attribute of an entry; that of the entry itself if it has no attributes.
fn last_line(own: EntryLines<'_>) -> u32
    ensures { result ≡ last_number own.entry.first.now own.entry.attributes.now }
{
    match last_attribute(own.attributes) {
        Some(attribute) => attribute.line,
        None => own.first.line,
    }
}

// Whether a help text follows the last attribute of an entry.
fn ends_in_help(own: EntryLines<'_>) -> bool
    ensures { result ≡ ends_in_help own.entry.attributes.now }
{
    match last_attribute(own.attributes) {
        Some(last) => matches!(last.attribute, Attribute::Help),
        None => false,
    }
}

// Appends the lines of a definition in its file, if the file exists.
fn add_from_file<'n>(
    alloc: Global,
    reader: &mut LineReader<'_, 'n>,
    own: EntryLines<'n>,
    text: &mut Vec<u8>,
) -> Result<(), AllocError>
    ensures text { OnOk result (text.new.items ≡ text.old.items
        ++ lines_in_file (lines_of (files_in reader.old) own.entry.first.now.file.value.items) own.entry.first.now own.entry.attributes.now) }
    ensures files { reader.new ≡ reader.old }
{
    let first = own.first.line as usize;
    let last = last_line(own) as usize;
    let mut all = Vec::new(alloc);
    let rest = reader.behind(&own.first.file, first.saturating_sub(1))?;
    push_lines(rest, last.saturating_sub(first), &mut all)?;
    let rest = reader.behind(&own.first.file, last.saturating_sub(1))?;
    push_lines(rest, statement_count(rest, ends_in_help(own)), &mut all)?;
    add_excerpt(&all, text)
}

// Appends the definition that is this entry.
fn add_definition<'n>(
    alloc: Global,
    reader: &mut LineReader<'_, 'n>,
    layout: &'n Layout,
    entry: EntryId,
    own: EntryLines<'n>,
    text: &mut Vec<u8>,
) -> Result<(), AllocError>
    ensures text { OnOk result (text.new.items ≡ text.old.items
        ++ definition_of (files_in reader.old) layout.now entry own.entry.first.now own.entry.attributes.now) }
    ensures files { reader.new ≡ reader.old }
{
    add_heading(&own.first.file, own.first.line, text)?;
    add_menu_path(alloc, layout, b"# ", entry, text)?;
    add_from_file(alloc, reader, own, text)
}

// Appends the definition at an entry.
fn add_definition_at<'n>(
    alloc: Global,
    reader: &mut LineReader<'_, 'n>,
    layout: &'n Layout,
    entry: EntryId,
    text: &mut Vec<u8>,
) -> Result<(), AllocError>
    ensures text { OnOk result (text.new.items ≡ text.old.items ++ at_entry layout.now (definition_at (files_in reader.old) (lines_in layout.now.entries)) entry) }
    ensures files { reader.new ≡ reader.old }
{
    match layout.entry(entry) {
        None => Ok(()),
        Some(own) => add_definition(alloc, reader, layout, entry, own, text),
    }
}

// ---- definitions that are read twice

// Whether the place of an entry is new. Remembers the place.
fn is_new_at<'n>(
    layout: &'n Layout,
    places: &mut Places<'n>,
    entry: EntryId,
) -> Result<bool, AllocError>
    ensures told { IfOk result (λ is_new. is_new ≡ is_new_at layout.now places.old entry) }
    ensures places { IfOk result (λ is_new. places.new ≡ with_place_at layout.now places.old entry) }
{
    match layout.entry(entry) {
        None => Ok(false),
        Some(own) => places.add(&own.first.file, own.first.line),
    }
}

// Appends the definitions at these entries whose places are new, each place once.
fn add_each_definition<'n>(
    alloc: Global,
    reader: &mut LineReader<'_, 'n>,
    layout: &'n Layout,
    places: &mut Places<'n>,
    entries: &[EntryId],
    text: &mut Vec<u8>,
) -> Result<(), AllocError>
    ensures text { OnOk result (text.new.items ≡ text.old.items ++ new_definitions (files_in reader.old) layout.now places.old entries.now) }
    ensures files { reader.new ≡ reader.old }
{
    for entry in entries {
        if is_new_at(layout, places, *entry)? {
            add_definition_at(alloc, reader, layout, *entry, text)?;
        }
    }
    Ok(())
}

impl<'f, 'n> DefinitionReader<'f, 'n> {
    /// Returns a reader of these files.
    pub fn new(alloc: Global, files: &'f FileMap) -> Self
        ensures { result ≡ files.now }
    {
        DefinitionReader {
            alloc,
            key: files.key(),
            lines: LineReader::new(alloc, files),
        }
    }

    /// Appends the definitions of a symbol as comments, each with its location. (Our own form.) The only error is that memory
    /// runs out.
    pub fn add_definitions(
        &mut self,
        layout: &'n Layout,
        id: SymId,
        text: &mut Vec<u8>,
    ) -> Result<(), AllocError>
        ensures text { OnOk result (text.new.items ≡ text.old.items ++ whole.definition_comments (files_in self.old) (lines_in layout.now.entries) id) }
        ensures files { self.new ≡ self.old }
    {
        let definitions = definitions_of(self.alloc, layout, id)?;
        let mut places = Places::new(self.alloc, self.key);
        add_each_definition(
            self.alloc,
            &mut self.lines,
            layout,
            &mut places,
            &definitions,
            text,
        )
    }
}
