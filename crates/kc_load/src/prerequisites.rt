//! The files by the paths at which they were read, and the input files.

ghost use Rattle.std.specs.Prelude.{◌≡◌, map, string_bytes, IfOk, OnOk};
ghost use Rattle.kc_language.specs.Expressions.{all_mentioned};
ghost use Rattle.kc_language.specs.Files.{path_of};
ghost use Rattle.kc_load.specs.PartsOfOutcome.{inputs_of, prerequisites_of};

use crate::path::begins_with_slash;
use kc_expr::expression::SymId;
use kc_expr::names::Names;
use std::alloc::{AllocError, Global};

// DIR/NAME, or the name itself if it begins with `/`.
fn path_of(alloc: Global, dir: &str, name: &[u8]) -> Result<Vec<u8>, AllocError>
    ensures { IfOk result (λ path. path.items ≡ path_of dir.now name.now) }
{
    if begins_with_slash(name) {
        return Vec::from_slice(alloc, name);
    }
    let mut path = Vec::from_slice(alloc, dir.as_bytes())?;
    path.push(b'/')?;
    path.extend_from_slice(name)?;
    Ok(path)
}

// Adds the path of each file.
fn add_paths(alloc: Global, dir: &str, opened: &Names, names: &mut Names) -> Result<(), AllocError>
    ensures { OnOk result (names.new ≡ all_mentioned names.old (map (path_of dir.now) opened.now)) }
{
    for i in 0..opened.count() {
        let path = path_of(alloc, dir, opened.name(SymId(i)))?;
        names.id(&path)?;
    }
    Ok(())
}

// Adds each fragment.
fn add_fragments(fragments: &[String], names: &mut Names) -> Result<(), AllocError>
    ensures { OnOk result (names.new ≡ all_mentioned names.old (map string_bytes fragments.now)) }
{
    for fragment in fragments {
        names.id(fragment.as_bytes())?;
    }
    Ok(())
}

// Adds the input files of `out`.
fn add_inputs(
    out: &[u8],
    config: &[u8],
    fragments: &[String],
    names: &mut Names,
) -> Result<(), AllocError>
    ensures { OnOk result (names.new ≡ all_mentioned names.old (inputs_of out.now config.now (map string_bytes fragments.now))) }
{
    if config == out {
        return add_fragments(fragments, names);
    }
    names.id(config)?;
    add_fragments(fragments, names)?;
    Ok(())
}

/// Lists the prerequisites of `out`, each once: the files that a tree opens, and the input files.
///
/// The tree's files come in the order in which they are first opened, each by the path at which it was read
/// (`DIR/NAME`, or the name itself if it begins with `/`). Then comes the `.config`, unless it is `out` itself, and
/// then the fragments, by their names (our own).
///
/// # Errors
///
/// Fails only if there is not enough memory.
pub fn prerequisites_of(
    alloc: Global,
    opened: &Names,
    dir: &str,
    out: &[u8],
    config: &[u8],
    fragments: &[String],
) -> Result<Names, AllocError>
    ensures { IfOk result (λ names. names ≡ prerequisites_of dir.now opened.now (inputs_of out.now config.now (map string_bytes fragments.now))) }
{
    let mut names = Names::new(alloc);
    add_paths(alloc, dir, opened, &mut names)?;
    add_inputs(out, config, fragments, &mut names)?;
    Ok(names)
}
