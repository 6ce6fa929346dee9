//! The command line as defined for `clap`.

ghost use Rattle.std.specs.Prelude.{◌≡◌, IfOk};
ghost use Rattle.clap.specs.Words.{app_of, with_rule};
ghost use Rattle.kc_words.specs.CommandLine.{empty_app, flag_rule, fragment_rule, kconf_app, kconfig_rule, option_rule, repeated_rule, with_options};

use clap::{Arg, ArgAction, Command};
use std::alloc::{AllocError, Global};

// The name and the version of the program, as `--version` prints them. They are defined only here. (clap also gets them
// so that it knows the option; its own text of them is not printed.)
pub(crate) const VERSION: &str = "kconf 0.9.0\n";

// The text below the options.
const AFTER_HELP: &str = "\
Example: update .config from a fragment, and write the minimal .config too:
  kconf --savedefconfig defconfig Kconfig site.config

With --each, {} in the FILEs of --out, --header, --savedefconfig, --list-new, --list-gone and
--depfile stands for the configuration as given, and {/} for its file name without the folder.

Exit status:
  0  success: every output file is complete
  1  refused: an error in the input (the tree, a .config file, a file name with --depfile, a name of
     --explain or --how), no way found by --how, a warning under --strict or --strict-tree, or a file
     that is not up to date (--check); no file was created or changed
  2  wrong arguments
  3  I/O error or out of memory: output files may be truncated; with --replace they are unchanged,
     unless a rename failed

See also: man kconf; docs/formats.md explains each error and warning";

// The help for an option that takes a value: the value's name and the text.
#[derive(Clone, Copy)]
struct OptionTexts {
    value: &'static str,
    help: &'static str,
}

const ROOT: OptionTexts = OptionTexts {
    value: "DIR",
    help: "Read the Kconfig files relative to DIR [default: .]",
};

const FLAT: &str =
    "Read KCONFIG as a flat file: line markers give the locations, $ is a plain byte";

const INCLUDE: OptionTexts = OptionTexts {
    value: "DIR",
    help: "Read the files of #include lines in .config files and fragments from DIR",
};

const CONFIG: OptionTexts = OptionTexts {
    value: "FILE",
    help: "Read the .config from FILE [default: .config]",
};

const OUT: OptionTexts = OptionTexts {
    value: "FILE",
    help: "Write the full .config to FILE [default: the file of --config]",
};

const HEADER: OptionTexts = OptionTexts {
    value: "FILE",
    help: "Write a C header to FILE",
};

const MINIMAL: OptionTexts = OptionTexts {
    value: "FILE",
    help: "Write the minimal .config (defconfig) to FILE",
};

const LIST_NEW: OptionTexts = OptionTexts {
    value: "FILE",
    help: "Write the .config lines of symbols that no input answered to FILE",
};

const WITH_HELP: &str = "With --list-new, show the definitions of each symbol with prompt and help";

const LIST_GONE: OptionTexts = OptionTexts {
    value: "FILE",
    help: "Write the lines of input files that name no symbol of the tree to FILE",
};

const LIST_DEAD: OptionTexts = OptionTexts {
    value: "FILE",
    help: "Only write the names of the symbols whose prompts no .config makes visible to FILE",
};

const DEPFILE: OptionTexts = OptionTexts {
    value: "FILE",
    help: "Write a make dependency file to FILE, like gcc -MP",
};

const PREFIX: OptionTexts = OptionTexts {
    value: "TEXT",
    help: "Prefix of symbol names in .config files and the header [default: CONFIG_]",
};

const RAW_STRINGS: &str =
    "Read and write strings of .config files and the header without escapes, as U-Boot does";

const MUST_EXIST: &str = "Fail if the --config file does not exist (E18)";

const STRICT: &str = "Fail if a line of the .config or a fragment was not taken as written";

const STRICT_TREE: &str = "Fail on any warning, also about the tree";

const QUIET_TREE: &str = "Leave out the warnings about the tree (K1 to K6)";

const HINTS: &str = "Print a line after each warning and error that says what to do";

const WARN_LOST: &str = "Warn about values you set that did not take effect, and about conflicts";

const EXPLAIN_LOST: &str = "With --warn-lost, explain each value that did not take effect";

const EXPLAIN: OptionTexts = OptionTexts {
    value: "NAME",
    help: "Print why symbol NAME has its value, and write no file; may be repeated",
};

const EXPLAIN_DEPTH: OptionTexts = OptionTexts {
    value: "N",
    help: "Also explain what holds it down, in at most N steps [default: 3]",
};

const HOW: OptionTexts = OptionTexts {
    value: "NAME=VALUE",
    help: "Print what must be set so that the symbol NAME has VALUE, and write no file",
};

const HOW_STEPS: OptionTexts = OptionTexts {
    value: "N",
    help: "The most fragments to try for --how [default: 200]",
};

const REPLACE: &str = "Write files atomically, and leave unchanged files untouched";

const CHECK: &str = "Write no file, and fail for each that is not up to date (E22)";

const DIFF: &str = "With --check, print how each file that is not up to date differs";

const MORE_FRAGMENTS: OptionTexts = OptionTexts {
    value: "FILE",
    help: "Read FILE after the FRAGMENTs; may be repeated",
};

const EACH: &str = "Run each argument after KCONFIG as a configuration of its own";

const EACH_FROM: OptionTexts = OptionTexts {
    value: "FILE",
    help: "Run the configurations that FILE names, one per line; implies --each",
};

// Adds `--NAME VALUE`.
fn with_option<'a>(
    alloc: Global,
    command: Command<'a>,
    name: &'a str,
    texts: OptionTexts,
) -> Result<Command<'a>, AllocError>
    ensures { IfOk result (λ longer. app_of longer ≡ with_rule (app_of command.entry) (option_rule name.entry.now)) }
{
    command.arg(
        Arg::new(alloc, name)
            .long(name)
            .value_name(texts.value)
            .help(texts.help),
    )
}

// Adds `--NAME VALUE`, which may be repeated.
fn with_repeated<'a>(
    alloc: Global,
    command: Command<'a>,
    name: &'a str,
    texts: OptionTexts,
) -> Result<Command<'a>, AllocError>
    ensures { IfOk result (λ longer. app_of longer ≡ with_rule (app_of command.entry) (repeated_rule name.entry.now)) }
{
    command.arg(
        Arg::new(alloc, name)
            .long(name)
            .action(ArgAction::Append)
            .value_name(texts.value)
            .help(texts.help),
    )
}

// Adds `--NAME`.
fn with_flag<'a>(
    alloc: Global,
    command: Command<'a>,
    name: &'a str,
    help: &'static str,
) -> Result<Command<'a>, AllocError>
    ensures { IfOk result (λ longer. app_of longer ≡ with_rule (app_of command.entry) (flag_rule name.entry.now)) }
{
    command.arg(
        Arg::new(alloc, name)
            .long(name)
            .action(ArgAction::SetTrue)
            .help(help),
    )
}

// Adds the one required argument.
fn with_kconfig<'a>(alloc: Global, command: Command<'a>) -> Result<Command<'a>, AllocError>
    ensures { IfOk result (λ longer. app_of longer ≡ with_rule (app_of command.entry) kconfig_rule) }
{
    command.arg(
        Arg::new(alloc, "KCONFIG")
            .required(true)
            .help("The top Kconfig file"),
    )
}

// Adds the arguments after it.
fn with_fragments<'a>(alloc: Global, command: Command<'a>) -> Result<Command<'a>, AllocError>
    ensures { IfOk result (λ longer. app_of longer ≡ with_rule (app_of command.entry) fragment_rule) }
{
    command.arg(
        Arg::new(alloc, "FRAGMENT")
            .action(ArgAction::Append)
            .help("More .config files, read in this order after the first"),
    )
}

// The command without its arguments.
fn empty_command<'a>(alloc: Global) -> Command<'a>
    ensures { app_of result ≡ empty_app }
{
    Command::new(alloc, "kconf")
        .no_binary_name(true)
        .version(VERSION)
        .about("Computes a full configuration from Kconfig files and a .config")
        .after_help(AFTER_HELP)
}

// Adds the options.
#[tactic(auto, unfolding(crate::specs::CommandLine::with_options))]
fn with_options<'a>(alloc: Global, command: Command<'a>) -> Result<Command<'a>, AllocError>
    ensures { IfOk result (λ longer. app_of longer ≡ with_options (app_of command.entry)) }
{
    let command = with_option(alloc, command, "root", ROOT)?;
    let command = with_flag(alloc, command, "flat", FLAT)?;
    let command = with_option(alloc, command, "include", INCLUDE)?;
    let command = with_option(alloc, command, "config", CONFIG)?;
    let command = with_option(alloc, command, "out", OUT)?;
    let command = with_option(alloc, command, "header", HEADER)?;
    let command = with_option(alloc, command, "savedefconfig", MINIMAL)?;
    let command = with_option(alloc, command, "list-new", LIST_NEW)?;
    let command = with_flag(alloc, command, "with-help", WITH_HELP)?;
    let command = with_option(alloc, command, "list-gone", LIST_GONE)?;
    let command = with_option(alloc, command, "list-dead", LIST_DEAD)?;
    let command = with_option(alloc, command, "depfile", DEPFILE)?;
    let command = with_option(alloc, command, "prefix", PREFIX)?;
    let command = with_flag(alloc, command, "raw-strings", RAW_STRINGS)?;
    let command = with_flag(alloc, command, "must-exist", MUST_EXIST)?;
    let command = with_flag(alloc, command, "strict", STRICT)?;
    let command = with_flag(alloc, command, "strict-tree", STRICT_TREE)?;
    let command = with_flag(alloc, command, "quiet-tree", QUIET_TREE)?;
    let command = with_flag(alloc, command, "hints", HINTS)?;
    let command = with_flag(alloc, command, "warn-lost", WARN_LOST)?;
    let command = with_flag(alloc, command, "explain-lost", EXPLAIN_LOST)?;
    let command = with_repeated(alloc, command, "explain", EXPLAIN)?;
    let command = with_option(alloc, command, "explain-depth", EXPLAIN_DEPTH)?;
    let command = with_option(alloc, command, "how", HOW)?;
    let command = with_option(alloc, command, "how-steps", HOW_STEPS)?;
    let command = with_flag(alloc, command, "replace", REPLACE)?;
    let command = with_flag(alloc, command, "check", CHECK)?;
    let command = with_flag(alloc, command, "diff", DIFF)?;
    let command = with_flag(alloc, command, "each", EACH)?;
    let command = with_option(alloc, command, "each-from", EACH_FROM)?;
    with_repeated(alloc, command, "fragment", MORE_FRAGMENTS)
}

// The command line of the program.
#[tactic(auto, unfolding(crate::specs::CommandLine::kconf_app))]
pub(crate) fn command<'a>(alloc: Global) -> Result<Command<'a>, AllocError>
    ensures { IfOk result (λ command. app_of command ≡ kconf_app) }
{
    let command = with_options(alloc, empty_command(alloc))?;
    let command = with_kconfig(alloc, command)?;
    with_fragments(alloc, command)
}
