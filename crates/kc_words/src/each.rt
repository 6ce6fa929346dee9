//! Many configurations of one tree.

ghost use Rattle.std.specs.Prelude.{◌≡◌, IfOk, IfErr, OnOk, map, option_map, string_bytes};
ghost use Rattle.kc_words.specs.CommandLine.{AreApart, IsClash, writes, AreOptionsFor};
ghost use Rattle.kc_words.specs.Inputs.{filled_file, filled_view, output_view};

use crate::apart;
use crate::patterns::filled;
use crate::usage::UsageError;
use kc_input::prefix::Prefix;
use kc_options::{Options, WantedOutput};
use std::alloc::{AllocError, Global};

/// What is requested for each of many configurations of one tree (our own).
#[derive(Drop)]
pub struct Each {
    /// The options of each. The files of its outputs are patterns of names, in which `{}` stands for the configuration as given and
    /// `{/}` for its file name without the folder. Its `config` is empty.
    pub options: Options,
    /// The configurations in the arguments.
    pub configurations: Vec<String>,
    /// The file whose lines name more configurations.
    pub list: Option<String>,
}

// A copy of the prefix.
fn copy_of_prefix(alloc: Global, prefix: &Prefix) -> Result<Prefix, AllocError>
    ensures { IfOk result (λ copy. copy ≡ prefix.now) }
{
    Ok(Prefix::new(alloc, prefix.as_bytes(), prefix.is_raw())?.unwrap())
}

// Copies of the names.
fn copies_of(alloc: Global, names: &[String]) -> Result<Vec<String>, AllocError>
    ensures { IfOk result (λ copies. map string_bytes copies.items ≡ map string_bytes names.now) }
{
    let mut copies = Vec::new(alloc);
    for name in names {
        copies.push(String::from_str(alloc, name.as_str())?)?;
    }
    Ok(copies)
}

// A copy of the name, if there is one.
fn copy_if(alloc: Global, name: &Option<String>) -> Result<Option<String>, AllocError>
    ensures { IfOk result (λ copy. option_map string_bytes copy ≡ option_map string_bytes name.now) }
{
    match name {
        Some(name) => Ok(Some(String::from_str(alloc, name.as_str())?)),
        None => Ok(None),
    }
}

// The outputs, with the patterns of their names filled.
fn filled_outputs(
    alloc: Global,
    config: &str,
    outputs: &[WantedOutput],
) -> Result<Vec<WantedOutput>, AllocError>
    ensures { IfOk result (λ made. map output_view made.items ≡ map (filled_view config.now) outputs.now) }
{
    let mut made = Vec::new(alloc);
    for wanted in outputs {
        let file = filled(alloc, config, wanted.file.as_str())?;
        made.push(WantedOutput {
            kind: wanted.kind,
            file,
        })?;
    }
    Ok(made)
}

// The files of the outputs, with their patterns filled.
fn filled_files(
    alloc: Global,
    config: &str,
    outputs: &[WantedOutput],
) -> Result<Vec<String>, AllocError>
    ensures { IfOk result (λ names. map string_bytes names.items ≡ map (filled_file config.now) outputs.now) }
{
    let mut names = Vec::new(alloc);
    for wanted in outputs {
        names.push(filled(alloc, config, wanted.file.as_str())?)?;
    }
    Ok(names)
}

impl Each {
    /// Returns the options of the configuration of this name. The patterns are filled in: `{}` with the whole name,
    /// `{/}` with the part after its last `/` (as GNU parallel does). The name itself is not filled in again. Fails only if
    /// there is not enough memory.
    pub fn options_for(&self, alloc: Global, config: &str) -> Result<Options, AllocError>
        ensures { IfOk result (AreOptionsFor self.now config.now) }
    {
        let asked = &self.options;
        Ok(Options {
            root: String::from_str(alloc, asked.root.as_str())?,
            config: String::from_str(alloc, config)?,
            outputs: filled_outputs(alloc, config, &asked.outputs)?,
            kconfig: String::from_str(alloc, asked.kconfig.as_str())?,
            is_flat: asked.is_flat,
            with_help: asked.with_help,
            explain: copies_of(alloc, &asked.explain)?,
            explain_depth: asked.explain_depth,
            explain_lost: asked.explain_lost,
            fragments: copies_of(alloc, &asked.fragments)?,
            include: copy_if(alloc, &asked.include)?,
            prefix: copy_of_prefix(alloc, &asked.prefix)?,
            must_exist: asked.must_exist,
            strict: asked.strict,
            strict_tree: asked.strict_tree,
            warn_lost: asked.warn_lost,
            quiet_tree: asked.quiet_tree,
            hints: asked.hints,
            delivery: asked.delivery,
            shows_difference: asked.shows_difference,
            names_config: asked.names_config,
        })
    }

    // Returns the names of the files that a configuration writes.
    pub(crate) fn written_by(&self, alloc: Global, config: &str) -> Result<Vec<String>, AllocError>
        ensures { IfOk result (λ names. map string_bytes names.items ≡ writes self.now config.now) }
    {
        filled_files(alloc, config, &self.options.outputs)
    }

    /// Checks that the configurations of these names can be run one after another: no file that one of them writes is
    /// written or read by another one. Names are compared as texts, so `./a` and `a` are different. One configuration
    /// may use the same name for two texts, as in a single run. Takes time linear in the names.
    ///
    /// # Errors
    ///
    /// [`UsageError::Bad`] if they cannot be run, with the name of such a file, and [`UsageError::Memory`]. They change
    /// nothing.
    pub fn check_names(&self, alloc: Global, configurations: &[String]) -> Result<(), UsageError>
        ensures ok { OnOk result (AreApart self.now (map string_bytes configurations.now)) }
        ensures err { IfErr result (IsClash self.now (map string_bytes configurations.now)) }
    {
        apart::check(alloc, self, configurations)
    }
}
