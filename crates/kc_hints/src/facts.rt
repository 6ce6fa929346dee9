//! The facts about the tree and the input files, and the fact at the start of a hint.
ghost use Rattle.std.specs.Prelude.{◌≡◌, [], IfOk, option_map};
ghost use Rattle.kc_language.specs.Values.{facts, type_in};
ghost use Rattle.kc_hints.specs.FormView.{form_view};
ghost use Rattle.kc_hints.specs.Facts.{fact_for, form_fact, form_text, mark_fact, name_asked, name_outside, near_asked, near_unknown, position_fact, position_text, ranges_fact, ranges_of, refused_value, text_or_none, value_fact};

use crate::form::Form;
use crate::near::{mentioned_near, typed_near};
use crate::ranges::{places_text, range_places};
use crate::value::{is_marked, line_form, part_at, value_at, value_text};
use kc_display::Code;
use kc_entries::entries::Entries;
use kc_expr::expression::{SymId, SymbolType};
use kc_expr::names::Names;
use kc_tree::tree::Tree;
use std::alloc::{AllocError, Global};

/// A file that was read: its name, as given, and its bytes.
#[derive(Drop)]
pub struct Input {
    pub name: Vec<u8>,
    pub bytes: Vec<u8>,
}

/// The lines of a tree, and the names in them.
#[derive(Clone, Copy)]
pub struct TreeLines<'a> {
    pub names: &'a Names,
    pub entries: &'a Entries,
}

/// The facts for hints: the prefix of names, the tree, its lines, and the files that were read.
#[derive(Clone, Copy)]
pub struct Facts<'a> {
    pub prefix: &'a [u8],
    pub tree: Option<&'a Tree>,
    pub lines: Option<TreeLines<'a>>,
    pub inputs: &'a [Input],
}

// The text of a hint about a file that starts with a byte order mark.
const MARKED: &[u8] =
    b"the file begins with a UTF-8 byte order mark, which is no part of the language; ";

// The name in K12.
fn name_outside(said: &[u8]) -> Option<&[u8]>
    ensures { option_map (λ name. name.now) result ≡ name_outside said.now }
{
    part_at(said.strip_prefix(b"warning K12: user value ")?, b' ', 2)
}

// The name in E24.
fn name_asked(said: &[u8]) -> Option<&[u8]>
    ensures { option_map (λ name. name.now) result ≡ name_asked said.now }
{
    part_at(
        said.strip_prefix(b"error E24: no symbol has the name ")?,
        b';',
        0,
    )
}

// No fact.
fn nothing(alloc: Global) -> Result<Vec<u8>, AllocError>
    ensures { IfOk result (λ fact. fact.items ≡ []) }
{
    Ok(Vec::new(alloc))
}

// The type of a symbol.
fn type_of(tree: &Tree, id: SymId) -> SymbolType
    ensures { result ≡ type_in (facts tree.now id) }
{
    match tree.facts(id) {
        Some(symbol) => symbol.symbol_type,
        None => SymbolType::Undefined,
    }
}

// The text about a value that the symbol of this name does not accept.
fn refused_value(
    alloc: Global,
    tree: &Tree,
    name: &[u8],
    value: &[u8],
) -> Result<Vec<u8>, AllocError>
    ensures { IfOk result (λ fact. fact.items ≡ text_or_none (refused_value tree.now name.now value.now)) }
{
    match tree.find(name) {
        Some(id) => value_text(alloc, type_of(tree, id), name, value),
        None => nothing(alloc),
    }
}

// The text about the ranges of the symbol of this name.
fn ranges_of(alloc: Global, lines: &TreeLines<'_>, name: &[u8]) -> Result<Vec<u8>, AllocError>
    ensures { IfOk result (λ fact. fact.items ≡ text_or_none (ranges_of lines.now name.now)) }
{
    match lines.names.find(name) {
        Some(id) => {
            let places = range_places(alloc, lines.entries, id)?;
            places_text(alloc, &places)
        }
        None => nothing(alloc),
    }
}

// The text about the form of a line.
fn form_text(alloc: Global, form: Form) -> Result<Vec<u8>, AllocError>
    ensures { IfOk result (λ text. text.items ≡ form_text (form_view form)) }
{
    let mut text = Vec::new(alloc);
    text.extend_from_slice(b"its form is ")?;
    text.extend_from_slice(form.form)?;
    text.extend_from_slice(b"; ")?;
    Ok(text)
}

// The text about where a line may be.
fn position_text(alloc: Global, form: Form) -> Result<Vec<u8>, AllocError>
    ensures { IfOk result (λ text. text.items ≡ position_text (form_view form)) }
{
    let mut text = Vec::new(alloc);
    text.extend_from_slice(form.form)?;
    text.extend_from_slice(b" stands ")?;
    text.extend_from_slice(form.place)?;
    text.extend_from_slice(b"; ")?;
    Ok(text)
}

impl<'a> Facts<'a> {
    /// Returns no facts.
    pub fn none() -> Facts<'a> {
        Facts {
            prefix: b"",
            tree: None,
            lines: None,
            inputs: &[],
        }
    }

    // The names that are similar to the name in K7.
    fn near_unknown(&self, alloc: Global, said: &[u8]) -> Result<Vec<u8>, AllocError>
        ensures { IfOk result (λ fact. fact.items ≡ near_unknown self.now said.now) }
    {
        let Some(tree) = self.tree else {
            return nothing(alloc);
        };
        match said.strip_prefix(b"warning K7: unknown symbol ") {
            Some(name) => typed_near(alloc, tree, self.prefix, name),
            None => nothing(alloc),
        }
    }

    // The names that are similar to the name in E24.
    fn near_asked(&self, alloc: Global, said: &[u8]) -> Result<Vec<u8>, AllocError>
        ensures { IfOk result (λ fact. fact.items ≡ near_asked self.now said.now) }
    {
        let Some(tree) = self.tree else {
            return nothing(alloc);
        };
        match name_asked(said) {
            Some(name) => mentioned_near(alloc, tree, self.prefix, name),
            None => nothing(alloc),
        }
    }

    // The value in K8, and the type of the symbol.
    fn value(&self, alloc: Global, before: &[u8], said: &[u8]) -> Result<Vec<u8>, AllocError>
        ensures { IfOk result (λ fact. fact.items ≡ value_fact self.now before.now said.now) }
    {
        let Some(tree) = self.tree else {
            return nothing(alloc);
        };
        let Some(name) = said.strip_prefix(b"warning K8: value not allowed for ") else {
            return nothing(alloc);
        };
        match value_at(self.prefix, self.inputs, before) {
            Some(value) => refused_value(alloc, tree, name, value),
            None => nothing(alloc),
        }
    }

    // The locations of the ranges of the symbol in K12.
    fn ranges(&self, alloc: Global, said: &[u8]) -> Result<Vec<u8>, AllocError>
        ensures { IfOk result (λ fact. fact.items ≡ ranges_fact self.now said.now) }
    {
        let Some(lines) = self.lines else {
            return nothing(alloc);
        };
        match name_outside(said) {
            Some(name) => ranges_of(alloc, &lines, name),
            None => nothing(alloc),
        }
    }

    // The fact that the file starts with a byte order mark, if it does.
    fn mark(&self, alloc: Global, before: &[u8]) -> Result<Vec<u8>, AllocError>
        ensures { IfOk result (λ fact. fact.items ≡ mark_fact self.now before.now) }
    {
        if is_marked(self.inputs, before) {
            return Vec::from_slice(alloc, MARKED);
        }
        nothing(alloc)
    }

    // The required form of the line in E8.
    fn form(&self, alloc: Global, before: &[u8]) -> Result<Vec<u8>, AllocError>
        ensures { IfOk result (λ fact. fact.items ≡ form_fact self.now before.now) }
    {
        match line_form(self.inputs, before) {
            Some(form) => form_text(alloc, form),
            None => nothing(alloc),
        }
    }

    // Where the line in E10 may be.
    fn position(&self, alloc: Global, before: &[u8]) -> Result<Vec<u8>, AllocError>
        ensures { IfOk result (λ fact. fact.items ≡ position_fact self.now before.now) }
    {
        match line_form(self.inputs, before) {
            Some(form) => position_text(alloc, form),
            None => nothing(alloc),
        }
    }

    /// Returns the fact for a diagnostic with this code. `before` is the text before its code, and `said` is the rest
    /// of its line. Fails only if there is not enough memory.
    pub(crate) fn of(
        &self,
        alloc: Global,
        code: Code,
        before: &[u8],
        said: &[u8],
    ) -> Result<Vec<u8>, AllocError>
        ensures { IfOk result (λ fact. fact.items ≡ fact_for self.now code before.now said.now) }
    {
        match code {
            Code::UnknownSymbol => self.near_unknown(alloc, said),
            Code::UnknownName => self.near_asked(alloc, said),
            Code::BadValue => self.value(alloc, before, said),
            Code::OutsideRange => self.ranges(alloc, said),
            Code::BadLine | Code::BadToken => self.mark(alloc, before),
            Code::Syntax => self.form(alloc, before),
            Code::Misplaced => self.position(alloc, before),
            _ => nothing(alloc),
        }
    }
}
