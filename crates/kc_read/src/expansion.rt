//! The expanded list of a root file.

ghost use Rattle.std.specs.Prelude.{◌≡◌, ◌≢◌, ◌≤◌, Err, IfErr, IfOk, Ok};
ghost use Rattle.kc_language.specs.Text.{most_lines};
ghost use Rattle.kc_expr.specs.Names.{Extends};
ghost use Rattle.kc_language.specs.Expansion.{Expands, ReadSoFar};
ghost use Rattle.kc_read.specs.Progress.{IsBegun, IsBounded, IsShallow};
ghost use Rattle.kc_read.specs.Expanded.{IsExpansion};
ghost use Rattle.kc_read.specs.Files.{files_in};
ghost use Rattle.kc_read.specs.RefusalView.{IsMemory, refusal_view};
ghost use Rattle.kc_language.specs.declared.diagnostics.Cause.TheVariants.{Memory};

use crate::constants::Constants;
use crate::file_map::FileMap;
use crate::files::{Reader, open, read_file};
use crate::frame::Frame;
use crate::progress::Progress;
use crate::refusal::Refusal;
use crate::refuse::refuse;
use kc_entries::entries::Entries;
use kc_entries::statement::{EntryKind, LineFault};
use kc_expr::distinct_symbols::DistinctSymbols;
use kc_expr::expression::SymId;
use kc_expr::names::Names;
use std::alloc::Global;
use std::rc::Rc;

/// The expanded list of a root file: its entries, the defined symbols in order of their first definition, the symbol
/// whose entry has the first `modules` line, and the names of the opened files, each once, in the order of their first
/// opening.
#[derive(Drop)]
pub struct Expansion {
    pub entries: Entries,
    pub defined: DistinctSymbols,
    pub modules: Option<SymId>,
    pub opened: Names,
}

// The state of reading when the root file is opened.
fn begin(
    alloc: Global,
    root: &[u8],
    is_flat: bool,
    total_lines: usize,
) -> Result<(Frame, Progress), LineFault<'static>>
    requires { total_lines ≤ most_lines }
    ensures begun { IfOk result (λ r. IsBegun root.now is_flat total_lines r.0 r.1) }
    ensures shallow { IfOk result (λ r. IsShallow r.0) }
    ensures bounded { IfOk result (λ r. IsBounded r.1) }
    ensures memory { IfErr result (λ f. f ≡ Memory) }
{
    let mut opened = Names::new(alloc);
    if !is_flat {
        opened.id(root)?;
    }
    let name = Vec::from_slice(alloc, root)?;
    let file = Rc::new(alloc, name)?;
    let mut open_files = Vec::new(alloc);
    open_files.push(file.clone()?)?;
    let frame = Frame {
        file,
        depth: 0,
        in_choice: false,
        blocks: Vec::new(alloc),
        entry: EntryKind::Nothing,
    };
    let progress = Progress {
        entries: Entries::new(alloc),
        total_lines,
        defined: DistinctSymbols::new(alloc),
        config: None,
        modules: None,
        opened,
        open_files,
    };
    Ok((frame, progress))
}

/// Returns the expanded list of the root file, or the first refusal. The list has the statements of the file, each with
/// its file and line. Each `source` line is replaced by the statements of its file.
///
/// On `Ok` each new name follows the old names, in the order of its first mention.
///
/// Each of the refusals E1 to E12 and E16 is returned exactly for its cause, at the first faulty line. E1: a file is not in
/// the map. E2: a file is already open. E3: the files opened so far have more than 1,000,000 physical lines, each file counted as
/// often as it is sourced. E12: a 65th block, file or level is open at once. E16: a 65,536th symbol is defined. A refusal
/// of the root file itself has line 0. E20, which has no location: memory ran out. After a refusal some new names may
/// have been added to the old ones.
///
/// The statements are those of the kernel's kconfig-language document; the limits and the order of checks are our own.
pub fn expand(
    alloc: Global,
    map: &FileMap,
    root: &[u8],
    names: &mut Names,
) -> Result<Expansion, Refusal>
    ensures expanded { IfOk result (λ e. (log : ReadSoFar) × Expands (files_in map.now) root.now (Ok log) × IsExpansion names.old names.new log e) }
    ensures refused { IfErr result (λ r. r.cause ≢ Memory → Expands (files_in map.now) root.now (Err (refusal_view r))) }
    ensures memory { IfErr result IsMemory }
    ensures names { Extends names.old names.new }
{
    let (file, total_lines) = match open(map, root, 0) {
        Ok(opened) => opened,
        Err(fault) => return Err(refuse(alloc, fault, root, 0)),
    };
    let Ok(constants) = Constants::new(alloc) else {
        return Err(Refusal::out_of_memory());
    };
    let (frame, mut progress) = match begin(alloc, root, map.is_flat(), total_lines) {
        Ok(begun) => begun,
        Err(_) => return Err(Refusal::out_of_memory()),
    };
    let reader = Reader {
        alloc,
        map,
        constants,
    };
    read_file(&reader, file, frame, &mut progress, names)?;
    Ok(Expansion {
        entries: progress.entries,
        defined: progress.defined,
        modules: progress.modules,
        opened: progress.opened,
    })
}
