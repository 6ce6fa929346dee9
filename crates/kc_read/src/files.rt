//! Reading a file, and the files that it sources.

ghost use Rattle.std.specs.Prelude.{◌≡◌, ◌≢◌, ◌≤◌, ◌<◌, ◌+◌, ℕ, List, [], None, Some, Ok, length, map, IfErr, IfOk, OnOk, IsTrue};
ghost use Rattle.kc_language.specs.Text.{most_lines};
ghost use Rattle.kc_text.specs.PartsOfText.{most_files};
ghost use Rattle.kc_language.specs.Lines.{UnreadLines, unread_lines};
ghost use Rattle.std.specs.List.{list_any};
ghost use Rattle.kc_expr.specs.Names.{Extends};
ghost use Rattle.kc_language.specs.Expressions.{same_name};
ghost use Rattle.kc_language.specs.declared.diagnostics.Cause.TheVariants.{Memory};
ghost use Rattle.kc_language.specs.Expansion as spec;
ghost use Rattle.kc_language.specs.Expansion.{FileContext, ReadSoFar, NextStatement, bytes_in, sourced, sourcing_cause};
ghost use Rattle.kc_read.specs.Progress.{AreWithinLimits, IsBack, IsBounded, IsEntered, IsLineTaken, IsMarkedOpened, IsMovedFrame, IsSourcedFrame, IsNextRead, IsOpenAtEnd, IsReading, IsState, IsStatementRead, IsTaken, MayEnter, limit_view, open_names};
ghost use Rattle.kc_entries.specs.Entries.{IsLastFile};
ghost use Rattle.kc_read.specs.Files.{files_in};
ghost use Rattle.kc_entries.specs.StatementViews.{attribute_view, head_view};
ghost use Rattle.kc_read.specs.declared.frame.Frame.{Frame};
ghost use Rattle.kc_read.specs.LineReads.{IsFault, IsMade, cause_of};
ghost use Rattle.kc_language.specs.Statements.{Located, Named, SourceLine};
ghost use Rattle.kc_read.specs.RefusalView.{IsMemory, refusal_view};
ghost use Rattle.kc_entries.specs.PartsOfExpansion.{lines_of};

use crate::constants::Constants;
use crate::file_map::FileMap;
use crate::frame::Frame;
use crate::progress::Progress;
use crate::reader::Position;
use crate::refusal::Refusal;
use crate::refuse::refuse;
use crate::step::{Step, next_step};
use kc_diagnostics::Cause;
use kc_entries::statement::{Attribute, EntryKind, Head, LineFault, Statement};
use kc_expr::expression::SymId;
use kc_expr::names::Names;
use kc_text::{FileText, LogicalLines, Token};
use std::alloc::{AllocError, Global};
use std::rc::Rc;

/// The most physical lines of all files of a tree, each file counted as often as it is opened (our own limit).
pub const MOST_LINES: usize = 1_000_000;

// The most files that may be open at once.
const MOST_FILES: usize = 64;

/// What does not change while files are read: the files, and the expressions of the constants.
#[derive(Drop)]
pub(crate) struct Reader<'a> {
    pub alloc: Global,
    pub map: &'a FileMap,
    pub constants: Constants,
}

/// The text of a file, and the number of physical lines including those of the file.
pub(crate) fn open<'a, 'b>(
    map: &'a FileMap,
    name: &'b [u8],
    total_lines: usize,
) -> Result<(&'a FileText, usize), LineFault<'b>>
    requires { total_lines ≤ most_lines }
    ensures bytes { IfOk result (λ r. bytes_in map.now.entries name.now ≡ Some r.0.now) }
    ensures total_lines { IfOk result (λ r. (r.1 ≡ total_lines + lines_of r.0.now) × (r.1 ≤ most_lines)) }
    ensures allowed { OnOk result (spec.bytes_cause name.now total_lines (bytes_in map.now.entries name.now) ≡ None) }
    ensures fault { IfErr result (λ f. spec.bytes_cause name.now total_lines (bytes_in map.now.entries name.now) ≡ Some (cause_of f)) }
{
    let Some(file) = map.text(name) else {
        return Err(Cause::NoFile(name));
    };
    let lines = file.line_count();
    if lines > MOST_LINES - total_lines {
        return Err(Cause::TooManyLines);
    }
    Ok((file, total_lines + lines))
}

// Whether this open file has this name.
fn is_named(file: &Rc<Vec<u8>>, name: &[u8]) -> bool
    ensures { result ≡ same_name name.now file.now.value.items }
{
    name == file.as_slice()
}

// Whether the file of this name is open.
fn is_open(progress: &Progress, name: &[u8]) -> bool
    ensures { result ≡ list_any (same_name name.now) (open_names progress.now) }
{
    progress.open_files.iter().any(|file| is_named(file, name))
}

// The text of a sourced file, and the number of physical lines including those of the file.
fn open_source<'a, 'b>(
    map: &'a FileMap,
    name: &'b [u8],
    progress: &Progress,
) -> Result<(&'a FileText, usize), LineFault<'b>>
    requires { IsBounded progress.now }
    ensures bytes { IfOk result (λ r. sourced (files_in map.now) name.now ≡ Some r.0.now) }
    ensures total_lines { IfOk result (λ r. (r.1 ≡ progress.now.total_lines + lines_of r.0.now) × (r.1 ≤ most_lines)) }
    ensures fewer { OnOk result (length progress.now.open_files.items < most_files) }
    ensures allowed { OnOk result (sourcing_cause (files_in map.now) (open_names progress.now) progress.now.total_lines name.now ≡ None) }
    ensures fault { IfErr result (λ f. sourcing_cause (files_in map.now) (open_names progress.now) progress.now.total_lines name.now ≡ Some (cause_of f)) }
{
    if is_open(progress, name) {
        return Err(Cause::InclusionLoop(name));
    }
    if progress.open_files.len() >= MOST_FILES {
        return Err(Cause::TooDeep);
    }
    if map.is_flat() {
        return Err(Cause::NoFile(name));
    }
    open(map, name, progress.total_lines)
}

// Takes the line that begins an entry.
fn take_head(
    head: Head,
    line: u32,
    frame: &mut Frame,
    progress: &mut Progress,
) -> Result<(), LineFault<'static>>
    requires within { AreWithinLimits frame.old progress.old }
    ensures taken { OnOk result (IsTaken (head_view head) line frame.old frame.new progress.old progress.new) }
    ensures within { OnOk result (AreWithinLimits frame.new progress.new) }
    ensures file { frame.new.file ≡ frame.old.file }
    ensures allowed { OnOk result (limit_view (head_view head) frame.old progress.old ≡ None) }
    ensures fault { IfErr result (λ f. IsFault f (λ c. limit_view (head_view head) frame.old progress.old ≡ Some c)) }
{
    // Each early return drops the line by a call: `?` would expand the drop of every kind of line each time.
    if let Err(fault) = progress.remember(&head) {
        drop(head);
        return Err(fault);
    }
    if let Err(fault) = frame.take(&head, line) {
        drop(head);
        return Err(fault);
    }
    match frame.file.clone() {
        Ok(file) => Ok(progress.entries.begin(file, line, head)?),
        Err(error) => {
            drop(head);
            Err(LineFault::from(error))
        }
    }
}

// Takes an attribute of the current entry.
fn take_attribute(
    attribute: Attribute,
    line: u32,
    progress: &mut Progress,
) -> Result<(), AllocError>
    requires { IsBounded progress.old }
    ensures open { progress.new.open_files ≡ progress.old.open_files }
    ensures taken { OnOk result ((f : Frame) → IsLastFile progress.old.entries f.file.value.items → IsTaken (attribute_view attribute) line f f progress.old progress.new) }
    ensures bounded { OnOk result (IsBounded progress.new) }
{
    progress.remember_attribute(&attribute);
    progress.entries.add(line, attribute)?;
    Ok(())
}

// The state inside a file that another file sources.
fn enter(
    alloc: Global,
    name: Vec<u8>,
    total_lines: usize,
    frame: &Frame,
    progress: &mut Progress,
) -> Result<Frame, LineFault<'static>>
    requires within { AreWithinLimits frame.now progress.old }
    requires may_enter { MayEnter total_lines progress.old }
    ensures frame { IfOk result (λ f. IsSourcedFrame frame.now name.items f) }
    ensures progress { OnOk result (IsEntered name.items total_lines progress.old progress.new) }
    ensures within { IfOk result (λ f. AreWithinLimits f progress.new) }
    ensures memory { IfErr result (λ f. f ≡ Memory) }
{
    progress.opened.id(&name)?;
    let file = Rc::new(alloc, name)?;
    progress.open_files.push(file.clone()?)?;
    progress.total_lines = total_lines;
    Ok(Frame {
        file,
        depth: frame.depth + frame.blocks.len(),
        in_choice: frame.is_in_choice(),
        blocks: Vec::new(alloc),
        entry: EntryKind::Nothing,
    })
}

// Checks the end of a file: none of its own blocks may be open.
fn end(alloc: Global, frame: &Frame) -> Result<(), Refusal>
    ensures closed { OnOk result (frame.now.blocks.items ≡ []) }
    ensures open { IfErr result (λ r. r.cause ≢ Memory → IsOpenAtEnd frame.now (refusal_view r)) }
    ensures memory { IfErr result IsMemory }
{
    match frame.innermost() {
        Some(opener) => {
            let fault = Cause::Block;
            Err(refuse(alloc, fault, &opener.file, opener.line))
        }
        None => Ok(()),
    }
}

// The next lines are those of this file. As after a `source` line, there is no current entry.
fn move_to(
    alloc: Global,
    marked: Vec<u8>,
    frame: &mut Frame,
    progress: &mut Progress,
) -> Result<(), AllocError>
    requires within { AreWithinLimits frame.old progress.old }
    ensures frame { OnOk result (IsMovedFrame marked.items frame.old frame.new) }
    ensures progress { OnOk result (IsMarkedOpened marked.items progress.old progress.new) }
    ensures within { OnOk result (AreWithinLimits frame.new progress.new) }
{
    progress.opened.id(&marked)?;
    frame.file = Rc::new(alloc, marked)?;
    frame.entry = EntryKind::Nothing;
    Ok(())
}

/// Reads a file to its end. The caller passes the state inside it, and has marked it as open.
#[cycle(files)]
pub(crate) fn read_file(
    reader: &Reader,
    file: &FileText,
    frame: Frame,
    progress: &mut Progress,
    names: &mut Names,
) -> Result<(), Refusal>
    requires within { AreWithinLimits frame progress.old }
    ensures read { (first : List (List ℕ)) (a : FileContext) (log : ReadSoFar) → IsState first names.old a [] log progress.old frame
        → IsReading (files_in reader.now.map.now) first names.new a (unread_lines file.now 1) log progress.new result }
    ensures open { OnOk result (progress.new.open_files.items ≡ progress.old.open_files.items) }
    ensures bounded { OnOk result (IsBounded progress.new) }
    ensures memory { IfErr result IsMemory }
    ensures names { Extends names.old names.new }
{
    let mut frame = frame;
    let mut lines = LogicalLines::of(file);
    let mut text = Vec::new(reader.alloc);
    let mut tokens = Vec::new(reader.alloc);
    while read_next(
        reader,
        &mut lines,
        &mut text,
        &mut tokens,
        &mut frame,
        progress,
        names,
    )? {}
    Ok(())
}

// Reads one line of a file; returns false at its end. `text` and `tokens` are buffers, whose old contents are dropped.
#[cycle(files)]
fn read_next<'a>(
    reader: &Reader,
    lines: &mut LogicalLines<'a>,
    text: &mut Vec<u8>,
    tokens: &mut Vec<Token<'a>>,
    frame: &mut Frame,
    progress: &mut Progress,
    names: &mut Names,
) -> Result<bool, Refusal>
    requires ready { (lines.old.refusal ≡ None) × AreWithinLimits frame.old progress.old }
    ensures read { (first : List (List ℕ)) (a : FileContext) (own : List (Located Named)) (log : ReadSoFar)
        → IsState first names.old a own log progress.old frame.old
        → IsNextRead (files_in reader.now.map.now) first names.new a lines.old lines.new own log progress.new frame.new result }
    ensures taken { IfOk result (λ more. IsTrue more → IsLineTaken lines.old lines.new) }
    ensures back { OnOk result (IsBack progress.old frame.new progress.new) }
    ensures memory { IfErr result IsMemory }
    ensures names { Extends names.old names.new }
{
    let position = Position {
        alloc: reader.alloc,
        constants: &reader.constants,
        frame,
        progress,
        is_flat: reader.map.is_flat(),
    };
    match next_step(&position, lines, text, tokens, names)? {
        Step::End => {
            end(reader.alloc, frame)?;
            Ok(false)
        }
        Step::Blank => Ok(true),
        Step::Renumbered(number) => {
            lines.renumber(number);
            Ok(true)
        }
        Step::Moved(number, name) => {
            lines.renumber(number);
            match move_to(reader.alloc, name, frame, progress) {
                Ok(()) => Ok(true),
                Err(_) => Err(Refusal::out_of_memory()),
            }
        }
        Step::Next(line, statement) => {
            read_statement(reader, statement, line, frame, progress, names)?;
            Ok(true)
        }
    }
}

// Takes a statement, or reads the file that it sources.
#[cycle(files)]
fn read_statement(
    reader: &Reader,
    statement: Statement,
    line: u32,
    frame: &mut Frame,
    progress: &mut Progress,
    names: &mut Names,
) -> Result<(), Refusal>
    requires within { AreWithinLimits frame.old progress.old }
    ensures read { (first known : List (List ℕ)) (a : FileContext) (own : List (Located Named)) (log : ReadSoFar) (x : Named) (l m : UnreadLines)
        → IsState first known a own log progress.old frame.old → IsMade known names.old statement x
        → NextStatement reader.now.map.now.flat l m (spec.context_of a own log) (Ok x) → line ≡ l.number
        → IsStatementRead (files_in reader.now.map.now) first names.new a l m own log progress.new frame.new result }
    ensures back { OnOk result (IsBack progress.old frame.new progress.new) }
    ensures memory { IfErr result IsMemory }
    ensures names { Extends names.old names.new }
{
    match statement {
        Statement::Source(name) => source(reader, name, line, frame, progress, names),
        Statement::Head(head) => match take_head(head, line, frame, progress) {
            Ok(()) => Ok(()),
            Err(fault) => Err(refuse(reader.alloc, fault, &frame.file, line)),
        },
        Statement::Attribute(attribute) => match take_attribute(attribute, line, progress) {
            Ok(()) => Ok(()),
            Err(_) => Err(Refusal::out_of_memory()),
        },
    }
}

// Reads a sourced file.
#[cycle(files)]
fn source(
    reader: &Reader,
    name: Vec<u8>,
    line: u32,
    frame: &mut Frame,
    progress: &mut Progress,
    names: &mut Names,
) -> Result<(), Refusal>
    requires within { AreWithinLimits frame.old progress.old }
    ensures read { (first : List (List ℕ)) (a : FileContext) (own : List (Located Named)) (log : ReadSoFar) (l m : UnreadLines)
        → IsState first names.old a own log progress.old frame.old
        → NextStatement reader.now.map.now.flat l m (spec.context_of a own log) (Ok (SourceLine name.items)) → line ≡ l.number
        → IsStatementRead (files_in reader.now.map.now) first names.new a l m own log progress.new frame.new result }
    ensures back { OnOk result (IsBack progress.old frame.new progress.new) }
    ensures memory { IfErr result IsMemory }
    ensures names { Extends names.old names.new }
{
    let (file, total_lines) = match open_source(reader.map, &name, progress) {
        Ok(opened) => opened,
        Err(fault) => return Err(refuse(reader.alloc, fault, &frame.file, line)),
    };
    let inside = match enter(reader.alloc, name, total_lines, frame, progress) {
        Ok(inside) => inside,
        Err(_) => return Err(Refusal::out_of_memory()),
    };
    read_file(reader, file, inside, progress, names)?;
    progress.open_files.pop();
    frame.entry = EntryKind::Nothing;
    Ok(())
}
