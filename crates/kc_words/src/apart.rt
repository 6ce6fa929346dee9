//! Whether the files of many configurations are separate.

ghost use Rattle.std.specs.Prelude.{◌≡◌, false, true, IfOk, IfErr, OnOk, MatchOption, map, string_bytes};
ghost use Rattle.std.specs.List.{list_any};
ghost use Rattle.kc_language.specs.Expressions.{all_mentioned};
ghost use Rattle.kc_words.specs.CommandLine.{AreApart, IsClash, is_among, writes, written_and_read_text, written_twice_text};
ghost use Rattle.kc_words.specs.Clashes.{AreNamesWritten, is_overwritten, NoneIsAmong, IsOverwrite, IsTwice};
ghost use Rattle.kc_words.specs.Refusals.{IsBadFor};

use crate::each::Each;
use crate::usage::UsageError;
use kc_expr::names::Names;
use std::alloc::{AllocError, Global};

// Two configurations write this file.
fn written_twice(alloc: Global, name: &str) -> UsageError
    ensures { IsBadFor (written_twice_text name.now) result }
{
    let text = format!(in alloc;
        "error: two configurations write the file '{name}'\n\nFor more information, try '--help'.\n"
    );
    match text {
        Ok(text) => UsageError::Bad(text),
        Err(_) => UsageError::Memory,
    }
}

// A configuration writes this file, and another one reads it.
fn written_and_read(alloc: Global, name: &str) -> UsageError
    ensures { IsBadFor (written_and_read_text name.now) result }
{
    let text = format!(in alloc;
        "error: a configuration writes the file '{name}', which another one reads\n\nFor more information, try '--help'.\n"
    );
    match text {
        Ok(text) => UsageError::Bad(text),
        Err(_) => UsageError::Memory,
    }
}

// Whether the name is in the table.
fn holds(table: &Names, name: &str) -> bool
    ensures { result ≡ is_among name.now table.now }
{
    table.find(name.as_bytes()).is_some()
}

// The first of the names that is in the table.
fn first_held<'a>(table: &Names, names: &'a [String]) -> Option<&'a str>
    ensures { MatchOption result (NoneIsAmong table.now (map string_bytes names.now)) (λ name. (is_among name.now table.now ≡ true) × (is_among name.now (map string_bytes names.now) ≡ true)) }
{
    for name in names {
        if holds(table, name.as_str()) {
            return Some(name.as_str());
        }
    }
    None
}

// Adds the names.
fn hold_all(table: &mut Names, names: &[String]) -> Result<(), AllocError>
    ensures { OnOk result (table.new ≡ all_mentioned table.old (map string_bytes names.now)) }
{
    for name in names {
        table.id(name.as_bytes())?;
    }
    Ok(())
}

// The names that the configurations write. Fails if two of them write the same file.
fn names_written(alloc: Global, each: &Each, configurations: &[String]) -> Result<Names, UsageError>
    ensures ok { IfOk result (AreNamesWritten each.now (map string_bytes configurations.now)) }
    ensures err { IfErr result (IsTwice each.now (map string_bytes configurations.now)) }
{
    let mut written = Names::new(alloc);
    for config in configurations {
        let names = each.written_by(alloc, config.as_str())?;
        match first_held(&written, &names) {
            Some(name) => return Err(written_twice(alloc, name)),
            None => hold_all(&mut written, &names)?,
        }
    }
    Ok(written)
}

// Whether the name is one of these.
fn is_one_of(names: &[String], name: &str) -> bool
    ensures { result ≡ is_among name.now (map string_bytes names.now) }
{
    for other in names {
        if name == other.as_str() {
            return true;
        }
    }
    false
}

// Whether another configuration writes this configuration's own file.
fn is_overwritten(
    alloc: Global,
    each: &Each,
    written: &Names,
    config: &str,
) -> Result<bool, AllocError>
    ensures { IfOk result (λ is. is ≡ is_overwritten each.now written.now config.now) }
{
    if !holds(written, config) {
        return Ok(false);
    }
    let names = each.written_by(alloc, config)?;
    Ok(!is_one_of(&names, config))
}

// Checks that no configuration's own file is written by another one.
fn check_configurations(
    alloc: Global,
    each: &Each,
    written: &Names,
    configurations: &[String],
) -> Result<(), UsageError>
    ensures ok { OnOk result (list_any (is_overwritten each.now written.now) (map string_bytes configurations.now) ≡ false) }
    ensures err { IfErr result (IsOverwrite each.now written.now (map string_bytes configurations.now)) }
{
    for config in configurations {
        if is_overwritten(alloc, each, written, config.as_str())? {
            return Err(written_and_read(alloc, config.as_str()));
        }
    }
    Ok(())
}

// Checks that no configuration writes a fragment, if there are two or more.
fn check_fragments(
    alloc: Global,
    each: &Each,
    written: &Names,
    configurations: &[String],
) -> Result<(), UsageError>
    requires written { AreNamesWritten each.now (map string_bytes configurations.now) written.now }
    requires own { list_any (is_overwritten each.now written.now) (map string_bytes configurations.now) ≡ false }
    ensures ok { OnOk result (AreApart each.now (map string_bytes configurations.now)) }
    ensures err { IfErr result (IsClash each.now (map string_bytes configurations.now)) }
{
    if configurations.len() < 2 {
        return Ok(());
    }
    match first_held(written, &each.options.fragments) {
        Some(name) => Err(written_and_read(alloc, name)),
        None => Ok(()),
    }
}

// Checks that no file that a configuration reads is written by another one.
fn check_reads(
    alloc: Global,
    each: &Each,
    written: &Names,
    configurations: &[String],
) -> Result<(), UsageError>
    requires { AreNamesWritten each.now (map string_bytes configurations.now) written.now }
    ensures ok { OnOk result (AreApart each.now (map string_bytes configurations.now)) }
    ensures err { IfErr result (IsClash each.now (map string_bytes configurations.now)) }
{
    match check_configurations(alloc, each, written, configurations) {
        Ok(()) => check_fragments(alloc, each, written, configurations),
        Err(usage) => Err(usage),
    }
}

// Checks that the files of the configurations are separate.
pub(crate) fn check(alloc: Global, each: &Each, configurations: &[String]) -> Result<(), UsageError>
    ensures ok { OnOk result (AreApart each.now (map string_bytes configurations.now)) }
    ensures err { IfErr result (IsClash each.now (map string_bytes configurations.now)) }
{
    match names_written(alloc, each, configurations) {
        Ok(written) => check_reads(alloc, each, &written, configurations),
        Err(usage) => Err(usage),
    }
}
