//! Loading: reads all the files that a first one reaches, name by name.

ghost use Rattle.std.specs.Prelude.{◌≡◌, ◌+◌, IfOk, IfErr, OnOk, false, true, min, nat_lt};
ghost use Rattle.kc_load.specs.Asking.{tree_of};
ghost use Rattle.kc_load.specs.Loading.{Suffices, Loads, LoadsFlat};
ghost use Rattle.kc_load.specs.Folder.{Leads, ReadsAt, files_told, IsLoadFault, failed_load};
ghost use Rattle.kc_language.specs.Files.{path_of};
ghost use Rattle.kc_read.specs.Files.{files_in};
ghost use Rattle.kc_entries.specs.PartsOfExpansion.{lines_of};
ghost use Rattle.kc_language.specs.Text.{most_lines};
ghost use Rattle.kc_text.specs.PartsOfText.{last_count};
ghost use Rattle.kc_load.specs.Steps.{FailsAt, PushesSources, AddsFile, Visits, initial_state, state_of, was_requested};

use crate::fault::LoadFault;
use crate::folder::{Folder, FolderFault};
use crate::path::path_of;
use kc_expr::hash_key::HashKey;
use kc_expr::names::Names;
use kc_read::{FileMap, MOST_LINES, sources_of};
use kc_text::FileText;
use std::alloc::{AllocError, Global};
use std::str;

/// The state of loading.
#[derive(Drop)]
pub(crate) struct Loading {
    alloc: Global,
    // The files that were read.
    pub(crate) files: FileMap,
    // The names that were read.
    requested: Names,
    // The names that wait, the next one last.
    pub(crate) waiting: Vec<Vec<u8>>,
    // The number of physical lines of the files.
    lines: usize,
}

// Reads the file of a name.
fn read_named<F: Folder>(
    alloc: Global,
    folder: &mut F,
    dir: &str,
    name: &str,
) -> Result<Option<Vec<u8>>, FolderFault>
    ensures { ReadsAt (path_of dir.now name.now) (F.state folder.old) (F.state folder.new) result }
{
    let path = path_of(alloc, dir, name)?;
    folder.read(path.as_str())
}

impl Loading {
    /// Starts with the first name waiting. The tables of names use this key.
    pub(crate) fn new(alloc: Global, first: &str, key: HashKey) -> Result<Loading, AllocError>
        ensures state { IfOk result (λ loading. state_of loading ≡ initial_state first.now) }
        ensures tree { IfOk result (λ loading. loading.files.flat ≡ false) }
    {
        let mut waiting = Vec::new(alloc);
        waiting.push(Vec::from_slice(alloc, first.as_bytes())?)?;
        Ok(Loading {
            alloc,
            files: FileMap::keyed(alloc, false, key),
            requested: Names::keyed(alloc, key),
            waiting,
            lines: 0,
        })
    }

    /// Whether there are more lines than the limit.
    pub(crate) fn is_over(&self) -> bool
        ensures { result ≡ nat_lt most_lines self.now.lines }
    {
        self.lines > MOST_LINES
    }

    // Whether this name was read before.
    fn was_requested(&self, name: &[u8]) -> bool
        ensures { result ≡ was_requested self.now.requested name.now }
    {
        self.requested.find(name).is_some()
    }

    // The number of lines after one more file, limited to the greatest number.
    fn lines_with(&self, file: &FileText) -> usize
        ensures { result ≡ min (self.now.lines + lines_of file.now) last_count }
    {
        self.lines.saturating_add(file.line_count())
    }

    // Adds the names in the file's `source` lines to those that wait, the first one last.
    fn push_sources(&mut self, file: &[u8]) -> Result<(), AllocError>
        ensures pushes { OnOk result (PushesSources file.now (state_of self.old) (state_of self.new)) }
        ensures tree { OnOk result (self.new.files ≡ self.old.files) }
    {
        let mut names = sources_of(self.alloc, file)?;
        names.reverse();
        self.waiting.append(&mut names)?;
        Ok(())
    }

    // Adds the file of the name: its bytes, its lines, and the names that it sources.
    fn take(&mut self, name: Vec<u8>, bytes: Vec<u8>) -> Result<(), AllocError>
        ensures adds { OnOk result (AddsFile name.items bytes.items (state_of self.old) (state_of self.new)) }
        ensures tree { OnOk result (self.new.files.flat ≡ self.old.files.flat) }
    {
        let text = FileText::new(self.alloc, bytes);
        let lines = self.lines_with(&text);
        self.push_sources(text.bytes())?;
        self.files.insert_text(name, text)?;
        self.lines = lines;
        Ok(())
    }

    /// Reads the file of this name, unless it was read before, and keeps the names of its `source` lines for later.
    pub(crate) fn visit<F: Folder>(
        &mut self,
        folder: &mut F,
        dir: &str,
        name: Vec<u8>,
    ) -> Result<(), LoadFault>
        ensures ok { OnOk result (Visits (files_told (F.state folder.new)) dir.now name.items (state_of self.old) (state_of self.new)) }
        ensures tree { OnOk result (self.new.files.flat ≡ self.old.files.flat) }
        ensures err { IfErr result (FailsAt (state_of self.old) name.items) }
        ensures leads { Leads (failed_load dir.now result) (F.state folder.old) (F.state folder.new) }
    {
        let Ok(text) = str::from_utf8(&name) else {
            return Ok(());
        };
        if self.was_requested(&name) {
            return Ok(());
        }
        self.requested.id(&name)?;
        match read_named(self.alloc, folder, dir, text) {
            Ok(Some(bytes)) => Ok(self.take(name, bytes)?),
            Ok(None) => Ok(()),
            Err(FolderFault::Device) => Err(LoadFault::CannotRead(name)),
            Err(FolderFault::Memory) => Err(LoadFault::Memory),
        }
    }
}

// Reads the first file and all files that it reaches.
fn load_tree<F: Folder>(
    alloc: Global,
    folder: &mut F,
    dir: &str,
    kconfig: &str,
) -> Result<FileMap, LoadFault>
    ensures tree { IfOk result (λ map. map.flat ≡ false) }
    ensures loaded { IfOk result (λ map. Loads (files_told (F.state folder.new)) dir.now kconfig.now (files_in map).bytes) }
    ensures enough { IfOk result (λ map. Suffices (files_told (F.state folder.new)) dir.now kconfig.now false (tree_of (files_in map).bytes)) }
    ensures fault { IfErr result (IsLoadFault (files_told (F.state folder.new)) dir.now kconfig.now) }
    ensures leads { Leads (failed_load dir.now result) (F.state folder.old) (F.state folder.new) }
{
    let mut loading = Loading::new(alloc, kconfig, folder.key())?;
    while let Some(name) = loading.waiting.pop() {
        loading.visit(folder, dir, name)?;
        if loading.is_over() {
            return Ok(loading.files);
        }
    }
    Ok(loading.files)
}

// Reads only the first file.
fn load_flat<F: Folder>(
    alloc: Global,
    folder: &mut F,
    dir: &str,
    kconfig: &str,
) -> Result<FileMap, LoadFault>
    ensures loaded { IfOk result (λ map. LoadsFlat (files_told (F.state folder.new)) dir.now kconfig.now (files_in map)) }
    ensures fault { IfErr result (IsLoadFault (files_told (F.state folder.new)) dir.now kconfig.now) }
    ensures leads { Leads (failed_load dir.now result) (F.state folder.old) (F.state folder.new) }
{
    let name = Vec::from_slice(alloc, kconfig.as_bytes())?;
    let mut map = FileMap::keyed(alloc, true, folder.key());
    match read_named(alloc, folder, dir, kconfig) {
        Ok(Some(bytes)) => {
            map.insert(name, bytes)?;
            Ok(map)
        }
        Ok(None) => Ok(map),
        Err(FolderFault::Device) => Err(LoadFault::CannotRead(name)),
        Err(FolderFault::Memory) => Err(LoadFault::Memory),
    }
}

/// Reads the file `kconfig` and every file that a `source` line of a file so read names (our own; the statement is of
/// the kernel's kconfig-language document).
///
/// A name is read from the path `dir/NAME`, or from the name itself if it begins with `/`. The names are read in one
/// order (`laws::one_order`), each once: depth first, a name before those of its file's `source` lines, and these in
/// the order of the lines. A name that is not UTF-8 is not read.
///
/// The map holds the files that were found. If a file takes the tree over 1,000,000 physical lines, no file is read
/// after it. Otherwise all are read. The map is always enough: with it the root file gives the same list or refusal as
/// with all the files of the folder. If it gives a list, it opens the same files.
///
/// For a flat tree only the first file is read, since it sources no other.
///
/// E18, with the name that was next, if the folder's device failed at that name's path. E20 if there was not enough
/// memory and the device did not fail. Then there is no map.
pub fn load<F: Folder>(
    alloc: Global,
    folder: &mut F,
    dir: &str,
    kconfig: &str,
    is_flat: bool,
) -> Result<FileMap, LoadFault>
    // The map holds the files that were found, read in order, with the folder's bytes.
    ensures loaded { is_flat ≡ false → IfOk result (λ map. Loads (files_told (F.state folder.new)) dir.now kconfig.now (files_in map).bytes) }
    ensures loaded_flat { is_flat ≡ true → IfOk result (λ map. LoadsFlat (files_told (F.state folder.new)) dir.now kconfig.now (files_in map)) }
    // They are enough: with them the first file gives the same as with all the folder's files.
    ensures enough { IfOk result (λ map. Suffices (files_told (F.state folder.new)) dir.now kconfig.now is_flat (files_in map)) }
    // The name of a file that could not be read is the next one in that order.
    ensures fault { IfErr result (IsLoadFault (files_told (F.state folder.new)) dir.now kconfig.now) }
    // The folder's files stay. Its device failed exactly once, just now, at the path of the name in E18.
    ensures leads { Leads (failed_load dir.now result) (F.state folder.old) (F.state folder.new) }
{
    if is_flat {
        return load_flat(alloc, folder, dir, kconfig);
    }
    load_tree(alloc, folder, dir, kconfig)
}
