//! The paths at which an included file is searched.
ghost use Rattle.std.specs.Prelude.{◌≡◌, ◌++◌, codes, map, string_bytes, IfOk};
ghost use Rattle.kc_language.specs.Files.{begins_with_slash};
ghost use Rattle.kc_include.specs.Included as spec;
ghost use Rattle.kc_include.specs.NameView.{name_of};

use crate::line::IncludedName;
use bstr::ByteSlice;
use std::alloc::{AllocError, Global};

// The folder of a file, with its `/`. It is empty if the file's name has no `/`.
fn folder_before(name: &[u8]) -> &[u8]
    ensures { result.now ≡ spec.folder_before name.now }
{
    match name.rfind_byte(b'/') {
        Some(last) => &name[..last + 1],
        None => &[],
    }
}

// Whether a name is an absolute path.
fn begins_with_slash(name: &[u8]) -> bool
    ensures { result ≡ begins_with_slash name.now }
{
    match name {
        [first, ..] => *first == b'/',
        [] => false,
    }
}

// The path of a file of this name in a folder, which is given with its `/`.
fn path_behind(alloc: Global, folder: &[u8], name: &[u8]) -> Result<String, AllocError>
    ensures { IfOk result (λ path. string_bytes path ≡ spec.path_behind folder.now name.now) }
{
    if begins_with_slash(name) {
        return String::from_utf8_lossy(alloc, name);
    }
    let mut path = Vec::from_slice(alloc, folder)?;
    path.extend_from_slice(name)?;
    String::from_utf8_lossy(alloc, &path)
}

// The path of a file of this name in the folder of all included files.
fn path_in_folder(alloc: Global, folder: &str, name: &[u8]) -> Result<String, AllocError>
    ensures { IfOk result (λ path. string_bytes path ≡ spec.path_behind (folder.now ++ codes "/") name.now) }
{
    let folder = format!(in alloc; "{folder}/")?;
    path_behind(alloc, folder.as_str().as_bytes(), name)
}

/// Returns the paths at which the file of this name is searched, in order, if another file includes it.
pub(crate) fn places_of(
    alloc: Global,
    folder: &str,
    includer: &str,
    name: IncludedName<'_>,
) -> Result<Vec<String>, AllocError>
    ensures { IfOk result (λ places. map string_bytes places.items ≡ spec.places_of folder.now includer.now (name_of name.entry)) }
{
    let mut places = Vec::new(alloc);
    match name {
        IncludedName::Angled(name) => places.push(path_in_folder(alloc, folder, name)?)?,
        IncludedName::Quoted(name) => {
            let beside = folder_before(includer.as_bytes());
            places.push(path_behind(alloc, beside, name)?)?;
            places.push(path_in_folder(alloc, folder, name)?)?;
        }
    }
    Ok(places)
}
