//! The path of a file of the tree.

ghost use Rattle.std.specs.Prelude.{◌≡◌, IfOk, string_bytes};
ghost use Rattle.kc_language.specs.Files.{begins_with_slash, path_of};

use std::alloc::{AllocError, Global};

/// Whether a file name begins with `/`, so that it is a path of its own. Does not allocate.
pub fn begins_with_slash(name: &[u8]) -> bool
    ensures { result ≡ begins_with_slash name.now }
{
    match name {
        [first, ..] => *first == b'/',
        [] => false,
    }
}

/// DIR/NAME, or the name itself if it begins with `/`.
pub(crate) fn path_of(alloc: Global, dir: &str, name: &str) -> Result<String, AllocError>
    ensures { IfOk result (λ path. string_bytes path ≡ path_of dir.now name.now) }
{
    if begins_with_slash(name.as_bytes()) {
        return String::from_str(alloc, name);
    }
    let room = dir.len().saturating_add(name.len()).saturating_add(1);
    let mut path = String::with_capacity(alloc, room)?;
    path.push_str(dir)?;
    path.push('/')?;
    path.push_str(name)?;
    Ok(path)
}
