//! The warnings about the lines of a tree, and the refusals that only the whole list of lines shows.

ghost use Rattle.std.specs.Prelude.{◌≡◌, ◌+◌, ◌<◌, ◌^◌, ◌++◌, ◌||◌, [], None, false, is_some, length, map, option_map, IfOk, OnOk, MatchResult, Some};
ghost use Rattle.std.specs.List.{list_any};
ghost use Rattle.std.specs.Option.{option_or};
ghost use Rattle.kc_entries.specs.Entries.{attribute_line, first_line, lines_in, own_lines};
ghost use Rattle.kc_entries.specs.ListFacts.{AreBelow, AreChoicesApart};
ghost use Rattle.kc_build.specs.Nesting.{AreBlocksClosed};
ghost use Rattle.kc_entries.specs.StatementViews.{attribute_view, head_view};
ghost use Rattle.kc_read.specs.RefusalView.{refusal_view};
ghost use Rattle.kc_build.specs.Diagnosed.{IsLineDiagnosed, AreLinesDiagnosed, HasOnlyWarnings, IsDiagnosed};
ghost use Rattle.kc_build.specs.Quiet as quiet;
ghost use Rattle.kc_language.specs.Symbols as facts;
ghost use Rattle.kc_language.specs.Symbols.{listed};
ghost use Rattle.kc_tree.specs.EntryViews.{statements_in};
ghost use Rattle.kc_build.specs.Limits.{IsFew};
ghost use Rattle.kc_build.specs.ChoicesPassed.{IsSummary, first_by, open_choice, passed};
ghost use Rattle.kc_build.specs.SymbolRows.{AreKnownRows, type_by, choice_by, member_by, line_warnings_in};
ghost use Rattle.kc_build.specs.WholeListRefusals as entry_refusal;
ghost use Rattle.kc_entries.specs.PartsOfSymbols as spec_parts;

use crate::symbols::{choice_of, has_text, is_member, type_of};
use crate::warning::{LineWarning, Place, entry_name, line_of};
use kc_diagnostics::Cause;
use kc_entries::entries::{Entries, Entry, EntryLines};
use kc_entries::statement::{Attribute, Head};
use kc_expr::expression::{SymId, SymbolType};
use kc_expr::names::Names;
pub(crate) use kc_language::symbols::MenuEntry;
use kc_read::refusal::Refusal;
use kc_tree::attributes::{
    default_symbol, is_single, prompt_of, single_symbol, stated_default, stated_type, symbol_of,
    target_of,
};
use kc_tree::rows::{ChoiceId, EntryId, Symbol};
use std::alloc::{AllocError, Global};

/// What the diagnosis of a line needs to know about its entry: the symbol or choice of the entry, whether it is the first
/// definition of its symbol, and the choice that it is in.
#[derive(Clone, Copy, Debug)]
pub(crate) struct EntrySummary {
    pub entry: MenuEntry,
    pub first: bool,
    pub within_choice: Option<ChoiceId>,
}

/// The diagnostics of the lines so far: warnings as whole lines, the first refused definition of a choice's member, and the
/// first refused default.
#[derive(Debug, Drop)]
pub(crate) struct Diagnostics {
    pub warnings: Vec<Vec<u8>>,
    pub bad_member: Option<Refusal>,
    pub bad_default: Option<Refusal>,
}

// The symbol of an entry.
fn entry_symbol(entry: MenuEntry) -> Option<SymId>
    ensures { result ≡ facts.entry_symbol entry }
{
    match entry {
        MenuEntry::Symbol(s) => Some(s),
        _ => None,
    }
}

// The choice of an entry.
fn entry_choice(entry: MenuEntry) -> Option<ChoiceId>
    ensures { option_map (λ k. k.0) result ≡ facts.entry_choice entry }
{
    match entry {
        MenuEntry::Choice(k) => Some(k),
        _ => None,
    }
}

// A type line whose type is not the symbol's.
fn type_redefined(
    attribute: &Attribute,
    entry: MenuEntry,
    symbols: &[Symbol],
) -> Option<LineWarning>
    ensures { listed result ≡ spec_parts.type_redefined (type_by symbols.now) entry (attribute_view attribute.now) }
{
    match (entry_symbol(entry), stated_type(attribute)) {
        (Some(symbol), Some(symbol_type)) => {
            (symbol_type != type_of(symbols, symbol)).then_some(LineWarning::TypeRedefined(symbol))
        }
        _ => None,
    }
}

// A second prompt in one entry.
fn prompt_redefined(attribute: &Attribute, entry: MenuEntry, prompted: bool) -> Option<LineWarning>
    ensures { listed result ≡ spec_parts.prompt_redefined entry prompted (attribute_view attribute.now) }
{
    (prompt_of(attribute).is_some() && prompted).then_some(LineWarning::PromptRedefined(
        entry_symbol(entry),
    ))
}

/// Whether there is a prompt among the lines of an entry up to this one; `prompted` says so for the lines before it.
pub(crate) fn is_prompted(prompted: bool, attribute: &Attribute) -> bool
    ensures { result ≡ (prompted || is_some (facts.prompt_of (attribute_view attribute.now))) }
{
    prompted || prompt_of(attribute).is_some()
}

// Whether the symbol has a type or is a member of a choice.
fn has_type(symbol: SymId, symbols: &[Symbol]) -> bool
    ensures { result ≡ spec_parts.has_type (type_by symbols.now symbol) (choice_by symbols.now symbol) }
{
    choice_of(symbols, symbol).is_some() || type_of(symbols, symbol) != SymbolType::Undefined
}

// The first definition of a symbol without a type.
fn without_type(head: &Head, first: bool, symbols: &[Symbol]) -> Option<LineWarning>
    ensures { listed result ≡ spec_parts.without_type (type_by symbols.now) (choice_by symbols.now) first (head_view head.now) }
{
    match symbol_of(head) {
        Some(symbol) => (first && !has_type(symbol, symbols)).then_some(LineWarning::WithoutType(
            symbol,
        )),
        None => None,
    }
}

// A `select` or `imply` of a string, int or hex symbol.
fn text_target(attribute: &Attribute, symbols: &[Symbol]) -> Option<LineWarning>
    ensures { listed result ≡ spec_parts.text_target (type_by symbols.now) (attribute_view attribute.now) }
{
    match target_of(attribute) {
        Some(target) => has_text(type_of(symbols, target.symbol)).then_some(LineWarning::TextTarget(
            target.symbol,
            target.word,
        )),
        None => None,
    }
}

// A `select` or `imply` of a member of a choice.
fn member_target(attribute: &Attribute, symbols: &[Symbol]) -> Option<LineWarning>
    ensures { listed result ≡ spec_parts.member_target (choice_by symbols.now) (attribute_view attribute.now) }
{
    match target_of(attribute) {
        Some(target) => choice_of(symbols, target.symbol)
            .is_some()
            .then_some(LineWarning::MemberTarget(target.symbol, target.word)),
        None => None,
    }
}

// A default of a choice that names a symbol that is not a member.
fn default_not_member(
    attribute: &Attribute,
    entry: MenuEntry,
    symbols: &[Symbol],
) -> Option<LineWarning>
    ensures { listed result ≡ spec_parts.default_not_member (member_by symbols.now) entry (attribute_view attribute.now) }
{
    match (entry_choice(entry), default_symbol(attribute)) {
        (Some(choice), Some(symbol)) => {
            (!is_member(symbols, choice, symbol)).then_some(LineWarning::DefaultNotMember(symbol))
        }
        _ => None,
    }
}

// The warnings about an attribute: at most two.
fn warnings_of(
    attribute: &Attribute,
    summary: EntrySummary,
    prompted: bool,
    symbols: &[Symbol],
) -> (Option<LineWarning>, Option<LineWarning>)
    ensures { listed result.0 ++ listed result.1 ≡ line_warnings_in symbols.now summary prompted (attribute_view attribute.now) }
{
    let entry = summary.entry;
    match attribute {
        Attribute::Type(_, _) => (
            type_redefined(attribute, entry, symbols),
            prompt_redefined(attribute, entry, prompted),
        ),
        Attribute::Prompt(_) => (prompt_redefined(attribute, entry, prompted), None),
        Attribute::Default(_) => (default_not_member(attribute, entry, symbols), None),
        Attribute::Def(_, _) => (
            type_redefined(attribute, entry, symbols),
            default_not_member(attribute, entry, symbols),
        ),
        Attribute::Select(_, _) | Attribute::Imply(_, _) => (
            text_target(attribute, symbols),
            member_target(attribute, symbols),
        ),
        _ => (None, None),
    }
}

// A second definition of a member, or a definition in a choice whose type is not bool.
fn is_bad_member(head: &Head, summary: EntrySummary, symbols: &[Symbol]) -> bool
    ensures { result ≡ spec_parts.is_bad_member (type_by symbols.now) (choice_by symbols.now) summary.first (option_map (λ k. k.0) summary.within_choice) (head_view head.now) }
{
    match symbol_of(head) {
        Some(symbol) => {
            (choice_of(symbols, symbol).is_some() && !summary.first)
                || (summary.within_choice.is_some() && type_of(symbols, symbol) != SymbolType::Bool)
        }
        None => false,
    }
}

// Whether the entry is that of a string, int or hex symbol.
fn is_text_entry(entry: MenuEntry, symbols: &[Symbol]) -> bool
    ensures { result ≡ list_any (λ t. facts.holds_text (type_by symbols.now t)) (listed (facts.entry_symbol entry)) }
{
    match entry_symbol(entry) {
        Some(symbol) => has_text(type_of(symbols, symbol)),
        None => false,
    }
}

// A default of such a symbol that is not one operand, or a default of a choice that is not one name.
fn is_bad_default(attribute: &Attribute, entry: MenuEntry, symbols: &[Symbol]) -> bool
    ensures { result ≡ spec_parts.is_bad_default (type_by symbols.now) entry (attribute_view attribute.now) }
{
    match stated_default(attribute) {
        Some(stated) => {
            (is_text_entry(entry, symbols) && !is_single(&stated.value))
                || (entry_choice(entry).is_some() && single_symbol(&stated.value).is_none())
        }
        None => false,
    }
}

// The file and number of a line of an entry.
fn place_in(entry: &Entry, line: u32) -> Place<'_>
    ensures file { result.file.now ≡ entry.now.file.value.items }
    ensures line { result.line ≡ line }
{
    Place {
        file: &entry.file,
        line,
    }
}

// Appends the line of a warning, if there is one.
fn warn(
    alloc: Global,
    names: &Names,
    place: Place<'_>,
    warning: Option<LineWarning>,
    out: &mut Vec<Vec<u8>>,
) -> Result<(), AllocError>
    ensures { OnOk result (map (λ v. v.items) out.new.items ≡ map (λ v. v.items) out.old.items
        ++ map (spec_parts.line_of names.now place.entry.file.now place.entry.line) (listed warning)) }
{
    match warning {
        Some(warning) => {
            let text = line_of(alloc, names, place, warning)?;
            out.push(text)?;
            Ok(())
        }
        None => Ok(()),
    }
}

// Appends the warnings about an attribute.
fn warn_attribute(
    alloc: Global,
    names: &Names,
    symbols: &[Symbol],
    summary: EntrySummary,
    prompted: bool,
    place: Place<'_>,
    attribute: &Attribute,
    out: &mut Vec<Vec<u8>>,
) -> Result<(), AllocError>
    ensures { OnOk result (map (λ v. v.items) out.new.items ≡ map (λ v. v.items) out.old.items
        ++ map (spec_parts.line_of names.now place.entry.file.now place.entry.line) (line_warnings_in symbols.now summary prompted (attribute_view attribute.now))) }
{
    match warnings_of(attribute, summary, prompted, symbols) {
        (None, None) => Ok(()),
        (first, second) => {
            warn(alloc, names, place, first, out)?;
            warn(alloc, names, place, second, out)
        }
    }
}

// The type of the symbol of an entry.
fn own_type(entry: MenuEntry, symbols: &[Symbol]) -> SymbolType
    ensures { result ≡ quiet.own_type symbols.now entry }
{
    match entry_symbol(entry) {
        Some(symbol) => type_of(symbols, symbol),
        None => SymbolType::Undefined,
    }
}

// Whether a symbol of this type is a bool or tristate.
fn is_truth_type(symbol_type: SymbolType) -> bool
    ensures { result ≡ quiet.is_truth_type symbol_type }
{
    matches!(symbol_type, SymbolType::Bool | SymbolType::Tristate)
}

// Whether the type of its symbol shows that an attribute gives no diagnostic.
#[inline(always)]
fn is_quiet(own_type: SymbolType, prompted: bool, attribute: &Attribute) -> bool
    ensures { result ≡ quiet.is_quiet own_type prompted (attribute_view attribute.now) }
{
    match attribute {
        Attribute::Type(symbol_type, _) => !prompted && *symbol_type == own_type,
        Attribute::Prompt(_) => !prompted,
        Attribute::Default(_) => is_truth_type(own_type),
        Attribute::Def(symbol_type, _) => *symbol_type == own_type && is_truth_type(own_type),
        Attribute::Select(_, _) | Attribute::Imply(_, _) => false,
        _ => true,
    }
}

impl Diagnostics {
    /// Returns empty diagnostics.
    pub(crate) fn new(alloc: Global) -> Diagnostics
        ensures warnings { result.warnings.items ≡ [] }
        ensures member { result.bad_member ≡ None }
        ensures default { result.bad_default ≡ None }
    {
        Diagnostics {
            warnings: Vec::new(alloc),
            bad_member: None,
            bad_default: None,
        }
    }

    // Keeps the first refused definition of a member.
    fn look_for_member(
        &mut self,
        alloc: Global,
        names: &Names,
        symbols: &[Symbol],
        summary: EntrySummary,
        head: &Entry,
    ) -> Result<(), AllocError>
        ensures member { OnOk result (option_map refusal_view self.new.bad_member
            ≡ option_or (option_map refusal_view self.old.bad_member) (entry_refusal.bad_member_of names.now symbols.now summary (first_line head.now))) }
        ensures default { OnOk result (self.new.bad_default ≡ self.old.bad_default) }
        ensures warnings { OnOk result (self.new.warnings ≡ self.old.warnings) }
    {
        if self.bad_member.is_none() && is_bad_member(&head.head, summary, symbols) {
            let place = place_in(head, head.line);
            let cause = Cause::ChoiceMember(entry_name(names, entry_symbol(summary.entry)));
            let found = Refusal::located(alloc, cause, place.file, place.line)?;
            self.bad_member = Some(found);
        }
        Ok(())
    }

    // Keeps the first refused default.
    fn look_for_default(
        &mut self,
        alloc: Global,
        names: &Names,
        symbols: &[Symbol],
        summary: EntrySummary,
        place: Place<'_>,
        attribute: &Attribute,
    ) -> Result<(), AllocError>
        ensures default { OnOk result (option_map refusal_view self.new.bad_default
            ≡ option_or (option_map refusal_view self.old.bad_default)
            (entry_refusal.bad_default_of names.now symbols.now summary (attribute_line place.entry.file.now place.entry.line attribute.now))) }
        ensures member { OnOk result (self.new.bad_member ≡ self.old.bad_member) }
        ensures warnings { OnOk result (self.new.warnings ≡ self.old.warnings) }
    {
        if self.bad_default.is_none() && is_bad_default(attribute, summary.entry, symbols) {
            let cause = Cause::BadDefault(entry_name(names, entry_symbol(summary.entry)));
            let found = Refusal::located(alloc, cause, place.file, place.line)?;
            self.bad_default = Some(found);
        }
        Ok(())
    }

    // Diagnoses the line that begins an entry.
    fn diagnose_head(
        &mut self,
        alloc: Global,
        names: &Names,
        symbols: &[Symbol],
        summary: EntrySummary,
        head: &Entry,
    ) -> Result<(), AllocError>
        ensures { OnOk result (IsLineDiagnosed names.now symbols.now summary false (first_line head.now) self.old self.new) }
    {
        match &head.head {
            Head::Config(_) => {
                let warning = without_type(&head.head, summary.first, symbols);
                let place = place_in(head, head.line);
                warn(alloc, names, place, warning, &mut self.warnings)?;
                self.look_for_member(alloc, names, symbols, summary, head)
            }
            _ => Ok(()),
        }
    }

    // Diagnoses an attribute. `prompted` says whether there is a prompt before it in its entry. Most attributes give no diagnostic,
    // whatever the symbols are.
    fn diagnose_attribute(
        &mut self,
        alloc: Global,
        names: &Names,
        symbols: &[Symbol],
        summary: EntrySummary,
        prompted: bool,
        place: Place<'_>,
        attribute: &Attribute,
    ) -> Result<(), AllocError>
        ensures { OnOk result (IsLineDiagnosed names.now symbols.now summary prompted (attribute_line place.entry.file.now place.entry.line attribute.now) self.old self.new) }
    {
        let warnings = &mut self.warnings;
        match attribute {
            Attribute::Type(_, _)
            | Attribute::Prompt(_)
            | Attribute::Select(_, _)
            | Attribute::Imply(_, _) => warn_attribute(
                alloc, names, symbols, summary, prompted, place, attribute, warnings,
            ),
            Attribute::Default(_) | Attribute::Def(_, _) => {
                warn_attribute(
                    alloc, names, symbols, summary, prompted, place, attribute, warnings,
                )?;
                self.look_for_default(alloc, names, symbols, summary, place, attribute)
            }
            _ => Ok(()),
        }
    }

    /// Diagnoses an entry: the line that begins it, and its attributes.
    pub(crate) fn diagnose_entry(
        &mut self,
        alloc: Global,
        names: &Names,
        symbols: &[Symbol],
        summary: EntrySummary,
        lines: EntryLines<'_>,
    ) -> Result<(), AllocError>
        ensures { OnOk result (AreLinesDiagnosed names.now symbols.now summary (first_line lines.entry.first.now) (own_lines lines.entry.first.now lines.entry.attributes.now) self.old self.new) }
    {
        let first = lines.first;
        self.diagnose_head(alloc, names, symbols, summary, first)?;
        let own_type = own_type(summary.entry, symbols);
        let mut prompted = false;
        for line in lines.attributes {
            let attribute = &line.attribute;
            if !is_quiet(own_type, prompted, attribute) {
                let place = place_in(first, line.line);
                self.diagnose_attribute(
                    alloc, names, symbols, summary, prompted, place, attribute,
                )?;
            }
            prompted = is_prompted(prompted, attribute);
        }
        Ok(())
    }

    /// Returns the first refusal: of a definition of a member, otherwise of a default. Without a refusal, returns the warnings.
    pub(crate) fn into_warnings(self) -> Result<Vec<Vec<u8>>, Refusal>
        ensures { MatchResult result (λ v. HasOnlyWarnings self v.items) (λ r. option_or self.bad_member self.bad_default ≡ Some r) }
    {
        let Diagnostics {
            warnings,
            bad_member,
            bad_default,
        } = self;
        match bad_member.or(bad_default) {
            Some(refusal) => Err(refusal),
            None => Ok(warnings),
        }
    }
}

// The choices before an entry: their number, and whether the last of them is open.
#[derive(Drop)]
struct ChoicesBefore {
    count: u32,
    is_open: bool,
}

impl ChoicesBefore {
    // The choice that the entry is in.
    fn open(&self) -> Option<ChoiceId>
        ensures { option_map (λ k. k.0) result ≡ open_choice self.now }
    {
        if self.is_open && self.count > 0 {
            Some(ChoiceId(self.count - 1))
        } else {
            None
        }
    }

    // Moves on past the entry.
    fn pass(&mut self, head: &Head)
        requires { self.old.count + 1 < 2 ^ 32 }
        ensures { self.new ≡ passed (head_view head.now) self.old }
    {
        match head {
            Head::Choice => {
                self.count += 1;
                self.is_open = true;
            }
            Head::EndChoice => self.is_open = false,
            _ => {}
        }
    }
}

// Whether an entry is the first definition of a symbol.
fn is_first(symbols: &[Symbol], at: EntryId, symbol: SymId) -> bool
    ensures { result ≡ first_by symbols.now at.0 symbol }
{
    match symbols.get(symbol.0) {
        Some(row) => row.first.0 == at.0,
        None => false,
    }
}

// The summary of an entry.
fn summary_of(symbols: &[Symbol], at: EntryId, head: &Head, choices: &ChoicesBefore) -> EntrySummary
    ensures { IsSummary symbols.now at.0 (head_view head.now) choices.now result }
{
    let entry = match head {
        Head::Config(symbol) => MenuEntry::Symbol(*symbol),
        Head::Choice => MenuEntry::Choice(ChoiceId(choices.count)),
        _ => MenuEntry::Other,
    };
    let first = match head {
        Head::Config(symbol) => is_first(symbols, at, *symbol),
        _ => false,
    };
    EntrySummary {
        entry,
        first,
        within_choice: choices.open(),
    }
}

/// Diagnoses the lines of the entries. The types and choices of the symbols are known.
pub(crate) fn diagnose(
    alloc: Global,
    names: &Names,
    entries: &Entries,
    symbols: &[Symbol],
) -> Result<Diagnostics, AllocError>
    requires known { AreKnownRows entries.now symbols.now }
    requires below { AreBelow (length symbols.now) (statements_in entries.now) }
    requires apart { AreChoicesApart (statements_in entries.now) }
    requires closed { AreBlocksClosed (statements_in entries.now) }
    requires few { IsFew entries.now }
    ensures { IfOk result (IsDiagnosed names.now (lines_in entries.now) (length (lines_in entries.now))) }
{
    let mut diagnostics = Diagnostics::new(alloc);
    let mut choices = ChoicesBefore {
        count: 0,
        is_open: false,
    };
    let mut i = 0;
    'entries: while let Some(lines) = entries.entry(i) {
        let head = &lines.first.head;
        let summary = summary_of(symbols, EntryId::of(i), head, &choices);
        diagnostics.diagnose_entry(alloc, names, symbols, summary, lines)?;
        choices.pass(head);
        i += 1;
    }
    Ok(diagnostics)
}
