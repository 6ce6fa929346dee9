//! What the arguments of the command line request.

ghost use Rattle.std.specs.Prelude.{◌≡◌, ◌++◌, ◌<◌, [], IfOk, IfErr, OnOk, Some, codes, false, is_some, length, map, option_map, string_bytes, unwrap_or, true};
ghost use Rattle.kc_language.specs.ConfigFile.{is_prefix};
ghost use Rattle.clap.specs.Words.{takes, rows_of, found_of, kind_of, first_of, fault_of};
ghost use Rattle.kc_words.specs.CommandLine.{asked_names, asks, exclusion_of, goal_error, goal_option, has_value, how_exclusion, is_each, is_given, steps_option, values_of, AreOptionsOf, AreSharedOptions, AsksAlone, AsksFor, IsDeadOf, IsEachOf, IsHowOf, IsRequestOf, asked_outputs, delivery_of, other_outputs, output_if, number_of, prefix_option, kconf_app, arguments_of, rows_for, IsRefused, refusal_of, unless_asking, unless_explained};
ghost use Rattle.std.specs.List.{flat_map};
ghost use Rattle.kc_words.specs.Inputs.{AreValues, HasInputs, IsAsked, IsForm, IsQuestionOrRun, IsQuestionOrRuns, goal_view, output_view};
ghost use Rattle.kc_words.specs.Refusals.{IsErrorOf, IsKindOf, IsNoForm, IsNoNumber, IsNoPrefix, IsNoRequest, IsNoValue, IsNotAsked, IsBadWords, IsTold};

use crate::command::command;
use crate::each::Each;
use crate::how::{EachQuestion, Goal, HowQuestion, checked_goal};
use crate::number::number_of;
use crate::usage::{UsageError, bad};
use clap::error::ErrorKind;
use clap::{ArgMatches, Error};
use kc_input::prefix::Prefix;
use kc_options::{Delivery, Options, Output, WantedOutput};
use std::alloc::{AllocError, Global};

/// What the arguments request.
#[derive(Drop)]
pub enum Request {
    /// A run of one configuration.
    One(Options),
    /// Runs of many configurations of one tree.
    Each(Each),
    /// A list of the prompts that no input makes visible.
    Dead(DeadList),
    /// What must be set so that a symbol has a value.
    How(HowQuestion),
    /// The same for each of many configurations of one tree.
    HowEach(EachQuestion),
}

/// A list of the prompts that no input makes visible, and its file. The options have no outputs.
#[derive(Drop)]
pub struct DeadList {
    /// What else is asked for.
    pub options: Options,
    /// The file that the list is written to.
    pub file: String,
}

// The options that differ between one configuration and many.
#[derive(Drop)]
struct Inputs {
    config: String,
    outputs: Vec<WantedOutput>,
    fragments: Vec<String>,
    must_exist: bool,
    names_config: bool,
}

// The prefix and the depth, which may be refused.
#[derive(Drop)]
struct Form {
    prefix: Prefix,
    explain_depth: usize,
}

// What `--how` asks, which may be refused.
#[derive(Drop)]
struct Asked {
    goal: Option<Goal>,
    steps: usize,
}

// The values that were checked.
#[derive(Drop)]
struct Values {
    form: Form,
    explain: Vec<String>,
}

const CHECK_AND_REPLACE: &str =
    "error: the argument '--check' cannot be used with '--replace'\n\nFor more information, try '--help'.\n";

const DIFF_WITHOUT_CHECK: &str =
    "error: the argument '--diff' needs '--check'\n\nFor more information, try '--help'.\n";

const CONFIG_AND_EACH: &str =
    "error: the argument '--config <FILE>' cannot be used with '--each'\n\nFor more information, try '--help'.\n";

const EXPLAIN_AND_EACH: &str =
    "error: the argument '--explain <NAME>' cannot be used with '--each'\n\nFor more information, try '--help'.\n";

const DEAD_AND_EACH: &str =
    "error: the argument '--list-dead <FILE>' cannot be used with '--each'\n\nFor more information, try '--help'.\n";

const DEAD_AND_EXPLAIN: &str =
    "error: the argument '--list-dead <FILE>' cannot be used with '--explain'\n\nFor more information, try '--help'.\n";

const HOW_AND_EXPLAIN: &str =
    "error: the argument '--how <NAME=VALUE>' cannot be used with '--explain'\n\nFor more information, try '--help'.\n";

const HOW_AND_DEAD: &str =
    "error: the argument '--how <NAME=VALUE>' cannot be used with '--list-dead'\n\nFor more information, try '--help'.\n";

const DEPFILE_WITHOUT_OUT: &str =
    "error: the argument '--depfile <FILE>' needs '--out <FILE>' with '--each'\n\nFor more information, try '--help'.\n";

// The value of the argument, or the default.
#[tactic(auto, using(crate::proofs::RowLemmas::found_rows))]
fn text_or(
    alloc: Global,
    matches: &ArgMatches<'_>,
    id: &str,
    absent: &str,
) -> Result<String, AllocError>
    ensures { IfOk result (λ text. string_bytes text ≡ unwrap_or (first_of id.now (rows_of (found_of matches.now))) absent.now) }
{
    String::from_str(alloc, matches.get_str(id).unwrap_or(absent))
}

// The value of the argument, if it is set.
#[tactic(auto, using(crate::proofs::RowLemmas::found_rows))]
fn text_of(alloc: Global, matches: &ArgMatches<'_>, id: &str) -> Result<Option<String>, AllocError>
    ensures { IfOk result (λ text. option_map string_bytes text ≡ first_of id.now (rows_of (found_of matches.now))) }
{
    match matches.get_str(id) {
        Some(text) => Ok(Some(String::from_str(alloc, text)?)),
        None => Ok(None),
    }
}

// Whether the flag is set.
#[tactic(auto, using(crate::proofs::RowLemmas::found_rows))]
fn flag_of(matches: &ArgMatches<'_>, id: &str) -> bool
    ensures { result ≡ is_given id.now (rows_of (found_of matches.now)) }
{
    matches.get_str(id).unwrap_or("") == "true"
}

// Copies of the texts.
fn copies(alloc: Global, texts: &[&str]) -> Result<Vec<String>, AllocError>
    ensures { IfOk result (λ copies. map string_bytes copies.items ≡ map (λ t. t.now) texts.now) }
{
    let mut copies = Vec::new(alloc);
    for text in texts {
        copies.push(String::from_str(alloc, text)?)?;
    }
    Ok(copies)
}

// All values of the argument.
#[tactic(auto, using(crate::proofs::RowLemmas::found_rows))]
fn texts_of(alloc: Global, matches: &ArgMatches<'_>, id: &str) -> Result<Vec<String>, AllocError>
    ensures { IfOk result (λ texts. map string_bytes texts.items ≡ values_of id.now (rows_of (found_of matches.now))) }
{
    match matches.get_strs(id) {
        Some(texts) => copies(alloc, texts),
        None => Ok(Vec::new(alloc)),
    }
}

// All values of two arguments: first those of the first one.
fn texts_of_both(
    alloc: Global,
    matches: &ArgMatches<'_>,
    first: &str,
    second: &str,
) -> Result<Vec<String>, AllocError>
    ensures { IfOk result (λ texts. map string_bytes texts.items ≡ values_of first.now (rows_of (found_of matches.now)) ++ values_of second.now (rows_of (found_of matches.now))) }
{
    let mut texts = texts_of(alloc, matches, first)?;
    let mut more = texts_of(alloc, matches, second)?;
    texts.append(&mut more)?;
    Ok(texts)
}

// Checks a prefix, and adds whether strings are raw.
fn prefix_of(alloc: Global, text: &str, is_raw: bool) -> Result<Prefix, UsageError>
    ensures ok { IfOk result (λ prefix. prefix ≡ record { prefix = text.now; is_raw = is_raw }) }
    ensures valid { IfOk result (λ _. is_prefix text.now ≡ true) }
    ensures err { IfErr result (IsNoPrefix text.now) }
{
    match Prefix::new(alloc, text.as_bytes(), is_raw)? {
        Some(prefix) => Ok(prefix),
        None => Err(UsageError::Bad(format!(in alloc;
            "error: invalid value '{text}' for '--prefix <TEXT>': at most 64 letters, digits and _, of which the first is no digit\n\nFor more information, try '--help'.\n"
        )?)),
    }
}

// Parses the number of this option.
fn checked_number(alloc: Global, option: &str, text: &str) -> Result<usize, UsageError>
    ensures ok { IfOk result (λ number. Some number ≡ number_of text.now) }
    ensures err { IfErr result (IsNoNumber option.now text.now) }
{
    match number_of(text) {
        Some(number) => Ok(number),
        None => Err(UsageError::Bad(format!(in alloc;
            "error: invalid value '{text}' for '{option} <N>': a decimal number below 2^63\n\nFor more information, try '--help'.\n"
        )?)),
    }
}

// Whether the argument has a value.
#[tactic(auto, using(crate::proofs::RowLemmas::found_rows))]
fn has_value(matches: &ArgMatches<'_>, id: &str) -> bool
    ensures { result ≡ has_value id.now (rows_of (found_of matches.now)) }
{
    matches.get_str(id).is_some()
}

// Whether there are many configurations.
fn is_each(matches: &ArgMatches<'_>) -> bool
    ensures { result ≡ is_each (rows_of (found_of matches.now)) }
{
    flag_of(matches, "each") || has_value(matches, "each-from")
}

// Whether an answer is asked for, to standard output.
fn asks(matches: &ArgMatches<'_>) -> bool
    ensures { result ≡ asks (rows_of (found_of matches.now)) }
{
    has_value(matches, "explain") || has_value(matches, "how")
}

// The error about arguments that `--how` excludes.
fn how_exclusion(matches: &ArgMatches<'_>) -> Option<&'static str>
    ensures { option_map (λ text. text.now) result ≡ how_exclusion (rows_of (found_of matches.now)) }
{
    if !has_value(matches, "how") {
        return None;
    }
    if has_value(matches, "explain") {
        return Some(HOW_AND_EXPLAIN);
    }
    if has_value(matches, "list-dead") {
        return Some(HOW_AND_DEAD);
    }
    None
}

// The error about arguments that exclude each other.
fn exclusion_of(matches: &ArgMatches<'_>) -> Option<&'static str>
    ensures { option_map (λ text. text.now) result ≡ exclusion_of (rows_of (found_of matches.now)) }
{
    if flag_of(matches, "check") && flag_of(matches, "replace") {
        return Some(CHECK_AND_REPLACE);
    }
    if flag_of(matches, "diff") && !flag_of(matches, "check") {
        return Some(DIFF_WITHOUT_CHECK);
    }
    if is_each(matches) && has_value(matches, "config") {
        return Some(CONFIG_AND_EACH);
    }
    if is_each(matches) && has_value(matches, "explain") {
        return Some(EXPLAIN_AND_EACH);
    }
    if has_value(matches, "list-dead") && is_each(matches) {
        return Some(DEAD_AND_EACH);
    }
    if has_value(matches, "list-dead") && has_value(matches, "explain") {
        return Some(DEAD_AND_EXPLAIN);
    }
    if is_each(matches) && has_value(matches, "depfile") && !has_value(matches, "out") {
        return Some(DEPFILE_WITHOUT_OUT);
    }
    how_exclusion(matches)
}

// How the texts are delivered.
fn delivery_of(matches: &ArgMatches<'_>) -> Delivery
    ensures { result ≡ unless_asking (rows_of (found_of matches.now)) Delivery.Write (delivery_of (rows_of (found_of matches.now))) }
{
    if asks(matches) {
        return Delivery::Write;
    }
    if flag_of(matches, "check") {
        Delivery::Check
    } else if flag_of(matches, "replace") {
        Delivery::Replace
    } else {
        Delivery::Write
    }
}

// Whether the flag is set and no explanation is requested.
fn flag_unless_explained(matches: &ArgMatches<'_>, id: &str) -> bool
    ensures { result ≡ unless_explained (rows_of (found_of matches.now)) false (is_given id.now (rows_of (found_of matches.now))) }
{
    !has_value(matches, "explain") && flag_of(matches, id)
}

// Whether a difference is shown.
fn shows_difference(matches: &ArgMatches<'_>) -> bool
    ensures { result ≡ unless_asking (rows_of (found_of matches.now)) false (is_given (codes "diff") (rows_of (found_of matches.now))) }
{
    !asks(matches) && flag_of(matches, "diff")
}

// Adds an output, if there is a file for it.
fn push_output(
    kind: Output,
    file: Option<String>,
    outputs: &mut Vec<WantedOutput>,
) -> Result<(), AllocError>
    ensures { OnOk result (map output_view outputs.new.items ≡ map output_view outputs.old.items ++ output_if kind (option_map string_bytes file)) }
{
    if let Some(file) = file {
        outputs.push(WantedOutput { kind, file })?;
    }
    Ok(())
}

// Adds the output of this argument, if it is there.
fn push_asked(
    alloc: Global,
    matches: &ArgMatches<'_>,
    id: &str,
    kind: Output,
    outputs: &mut Vec<WantedOutput>,
) -> Result<(), AllocError>
    ensures { OnOk result (map output_view outputs.new.items ≡ map output_view outputs.old.items ++ output_if kind (first_of id.now (rows_of (found_of matches.now)))) }
{
    let file = text_of(alloc, matches, id)?;
    push_output(kind, file, outputs)
}

// Adds the outputs besides the full `.config`.
fn push_others(
    alloc: Global,
    matches: &ArgMatches<'_>,
    outputs: &mut Vec<WantedOutput>,
) -> Result<(), AllocError>
    ensures { OnOk result (map output_view outputs.new.items ≡ map output_view outputs.old.items
        ++ flat_map (λ other. output_if other.1 (first_of other.0 (rows_of (found_of matches.now)))) other_outputs) }
{
    push_asked(alloc, matches, "header", Output::Header, outputs)?;
    push_asked(alloc, matches, "savedefconfig", Output::Minimal, outputs)?;
    push_asked(alloc, matches, "list-new", Output::NewSymbols, outputs)?;
    push_asked(alloc, matches, "list-gone", Output::GoneLines, outputs)?;
    push_asked(alloc, matches, "depfile", Output::DependencyFile, outputs)
}

// The outputs that are asked for, where this is the file of the full `.config`.
fn asked_outputs(
    alloc: Global,
    matches: &ArgMatches<'_>,
    out: Option<String>,
) -> Result<Vec<WantedOutput>, AllocError>
    ensures { IfOk result (λ outputs. map output_view outputs.items ≡ asked_outputs (rows_of (found_of matches.now)) (option_map string_bytes out)) }
{
    let mut outputs = Vec::new(alloc);
    if asks(matches) {
        let file = String::from_str(alloc, "/dev/stdout")?;
        push_output(Output::Explanation, Some(file), &mut outputs)?;
        return Ok(outputs);
    }
    push_output(Output::Config, out, &mut outputs)?;
    push_others(alloc, matches, &mut outputs)?;
    Ok(outputs)
}

// Reads the prefix and the depth. Reports the first that is not valid.
fn read_form(alloc: Global, matches: &ArgMatches<'_>) -> Result<Form, UsageError>
    ensures ok { IfOk result (IsForm (rows_of (found_of matches.now))) }
    ensures err { IfErr result (IsNoForm (rows_of (found_of matches.now))) }
{
    let prefix = text_or(alloc, matches, "prefix", "CONFIG_")?;
    let depth = text_or(alloc, matches, "explain-depth", "3")?;
    match prefix_of(alloc, prefix.as_str(), flag_of(matches, "raw-strings")) {
        Ok(prefix) => match checked_number(alloc, "--explain-depth", depth.as_str()) {
            Ok(explain_depth) => Ok(Form {
                prefix,
                explain_depth,
            }),
            Err(usage) => Err(usage),
        },
        Err(usage) => Err(usage),
    }
}

// Reads the goal, if there is one.
fn read_goal(alloc: Global, matches: &ArgMatches<'_>) -> Result<Option<Goal>, UsageError>
    ensures ok { IfOk result (λ goal. option_map goal_view goal ≡ goal_option (rows_of (found_of matches.now))) }
    ensures is_there { IfOk result (λ goal. is_some goal ≡ has_value (codes "how") (rows_of (found_of matches.now))) }
    ensures err { IfErr result (IsErrorOf (goal_error (first_of (codes "how") (rows_of (found_of matches.now))))) }
{
    match text_of(alloc, matches, "how")? {
        Some(text) => match checked_goal(alloc, text.as_str()) {
            Ok(goal) => Ok(Some(goal)),
            Err(usage) => Err(usage),
        },
        None => Ok(None),
    }
}

// Reads what `--how` asks. Reports the first that is not valid.
#[tactic(auto, using(crate::proofs::RefusalLemmas::two_errors))]
fn read_asked(alloc: Global, matches: &ArgMatches<'_>) -> Result<Asked, UsageError>
    ensures ok { IfOk result (IsAsked (rows_of (found_of matches.now))) }
    ensures err { IfErr result (IsNotAsked (rows_of (found_of matches.now))) }
{
    match read_goal(alloc, matches) {
        Ok(goal) => {
            let steps = text_or(alloc, matches, "how-steps", "200")?;
            match checked_number(alloc, "--how-steps", steps.as_str()) {
                Ok(steps) => Ok(Asked { goal, steps }),
                Err(usage) => Err(usage),
            }
        }
        Err(usage) => Err(usage),
    }
}

// The names that are asked about.
fn asked_names(
    alloc: Global,
    matches: &ArgMatches<'_>,
    goal: &Option<Goal>,
) -> Result<Vec<String>, AllocError>
    requires { option_map goal_view goal.now ≡ goal_option (rows_of (found_of matches.now)) }
    ensures { IfOk result (λ names. map string_bytes names.items ≡ asked_names (rows_of (found_of matches.now))) }
{
    match goal {
        Some(goal) => {
            let mut names = Vec::new(alloc);
            names.push(String::from_str(alloc, goal.name.as_str())?)?;
            Ok(names)
        }
        None => texts_of(alloc, matches, "explain"),
    }
}

// Reads all options except for the inputs.
fn read_options(
    alloc: Global,
    matches: &ArgMatches<'_>,
    inputs: Inputs,
    values: Values,
) -> Result<Options, AllocError>
    requires { AreValues (rows_of (found_of matches.now)) values }
    ensures ok { IfOk result (AreSharedOptions (rows_of (found_of matches.now))) }
    ensures inputs { IfOk result (HasInputs inputs) }
{
    let root = text_or(alloc, matches, "root", ".")?;
    let kconfig = text_or(alloc, matches, "KCONFIG", "")?;
    let include = text_of(alloc, matches, "include")?;
    let Values { form, explain } = values;
    Ok(Options {
        root,
        config: inputs.config,
        outputs: inputs.outputs,
        kconfig,
        is_flat: flag_of(matches, "flat"),
        with_help: flag_of(matches, "with-help"),
        explain,
        explain_depth: form.explain_depth,
        explain_lost: flag_of(matches, "explain-lost"),
        fragments: inputs.fragments,
        include,
        prefix: form.prefix,
        must_exist: inputs.must_exist,
        strict: flag_unless_explained(matches, "strict"),
        strict_tree: flag_unless_explained(matches, "strict-tree"),
        warn_lost: flag_of(matches, "warn-lost"),
        quiet_tree: flag_of(matches, "quiet-tree"),
        hints: flag_of(matches, "hints"),
        delivery: delivery_of(matches),
        shows_difference: shows_difference(matches),
        names_config: inputs.names_config,
    })
}

// Reads the options of one configuration.
fn read_one(alloc: Global, matches: &ArgMatches<'_>, values: Values) -> Result<Options, AllocError>
    requires { AreValues (rows_of (found_of matches.now)) values }
    ensures { IfOk result (AreOptionsOf (rows_of (found_of matches.now))) }
{
    let config = text_or(alloc, matches, "config", ".config")?;
    let out = text_or(alloc, matches, "out", config.as_str())?;
    let fragments = texts_of_both(alloc, matches, "FRAGMENT", "fragment")?;
    let inputs = Inputs {
        config,
        outputs: asked_outputs(alloc, matches, Some(out))?,
        fragments,
        must_exist: flag_of(matches, "must-exist"),
        names_config: false,
    };
    read_options(alloc, matches, inputs, values)
}

// Reads what is asked for each of many configurations.
fn read_each(alloc: Global, matches: &ArgMatches<'_>, values: Values) -> Result<Each, AllocError>
    requires { AreValues (rows_of (found_of matches.now)) values }
    ensures { IfOk result (IsEachOf (rows_of (found_of matches.now))) }
{
    let out = text_of(alloc, matches, "out")?;
    let inputs = Inputs {
        config: String::new(alloc),
        outputs: asked_outputs(alloc, matches, out)?,
        fragments: texts_of(alloc, matches, "fragment")?,
        must_exist: true,
        names_config: true,
    };
    let configurations = texts_of(alloc, matches, "FRAGMENT")?;
    let list = text_of(alloc, matches, "each-from")?;
    let options = read_options(alloc, matches, inputs, values)?;
    Ok(Each {
        options,
        configurations,
        list,
    })
}

// Reads the request for a list of dead prompts in this file.
fn read_dead(
    alloc: Global,
    matches: &ArgMatches<'_>,
    file: String,
    values: Values,
) -> Result<DeadList, AllocError>
    requires { AreValues (rows_of (found_of matches.now)) values }
    ensures { IfOk result (λ dead. IsDeadOf (rows_of (found_of matches.now)) (string_bytes file) dead) }
{
    let inputs = Inputs {
        config: text_or(alloc, matches, "config", ".config")?,
        outputs: Vec::new(alloc),
        fragments: Vec::new(alloc),
        must_exist: false,
        names_config: false,
    };
    let options = read_options(alloc, matches, inputs, values)?;
    Ok(DeadList { options, file })
}

// The request for one configuration: what must be set, if there is a goal, or a run.
fn question_or_run(options: Options, asked: Asked) -> Request
    ensures { IsQuestionOrRun options asked result }
{
    let Asked { goal, steps } = asked;
    match goal {
        Some(goal) => Request::How(HowQuestion {
            options,
            value: goal.value,
            steps,
        }),
        None => Request::One(options),
    }
}

// Reads the request for one configuration, what must be set, or a list of dead prompts.
#[tactic(auto, using(crate::proofs::RequestLemmas::requests))]
fn read_alone(
    alloc: Global,
    matches: &ArgMatches<'_>,
    values: Values,
    asked: Asked,
) -> Result<Request, AllocError>
    requires values { AreValues (rows_of (found_of matches.now)) values }
    requires asked { IsAsked (rows_of (found_of matches.now)) asked }
    ensures { IfOk result (AsksAlone (rows_of (found_of matches.now))) }
{
    if let Some(file) = text_of(alloc, matches, "list-dead")? {
        return Ok(Request::Dead(read_dead(alloc, matches, file, values)?));
    }
    let options = read_one(alloc, matches, values)?;
    Ok(question_or_run(options, asked))
}

// The request for many configurations: what must be set, if there is a goal, or runs.
fn question_or_runs(each: Each, asked: Asked) -> Request
    ensures { IsQuestionOrRuns each asked result }
{
    let Asked { goal, steps } = asked;
    match goal {
        Some(goal) => Request::HowEach(EachQuestion {
            each,
            value: goal.value,
            steps,
        }),
        None => Request::Each(each),
    }
}

// Reads the request for many configurations.
#[tactic(auto, using(crate::proofs::RequestLemmas::requests))]
fn read_many(
    alloc: Global,
    matches: &ArgMatches<'_>,
    values: Values,
    asked: Asked,
) -> Result<Request, AllocError>
    requires many { is_each (rows_of (found_of matches.now)) ≡ true }
    requires values { AreValues (rows_of (found_of matches.now)) values }
    requires asked { IsAsked (rows_of (found_of matches.now)) asked }
    ensures { IfOk result (AsksFor (rows_of (found_of matches.now))) }
{
    let each = read_each(alloc, matches, values)?;
    Ok(question_or_runs(each, asked))
}

// Reads the request, for values that were checked.
fn read_checked(
    alloc: Global,
    matches: &ArgMatches<'_>,
    form: Form,
    asked: Asked,
) -> Result<Request, AllocError>
    requires form { IsForm (rows_of (found_of matches.now)) form }
    requires asked { IsAsked (rows_of (found_of matches.now)) asked }
    ensures { IfOk result (AsksFor (rows_of (found_of matches.now))) }
{
    let explain = asked_names(alloc, matches, &asked.goal)?;
    let values = Values { form, explain };
    if is_each(matches) {
        return read_many(alloc, matches, values, asked);
    }
    read_alone(alloc, matches, values, asked)
}

// Reads the request. Reports the first value that is not valid.
#[tactic(auto, using(crate::proofs::RefusalLemmas::two_errors))]
fn read_taken(alloc: Global, matches: &ArgMatches<'_>) -> Result<Request, UsageError>
    ensures ok { IfOk result (AsksFor (rows_of (found_of matches.now))) }
    ensures err { IfErr result (IsNoValue (rows_of (found_of matches.now))) }
{
    match read_form(alloc, matches) {
        Ok(form) => match read_asked(alloc, matches) {
            Ok(asked) => Ok(read_checked(alloc, matches, form, asked)?),
            Err(usage) => Err(usage),
        },
        Err(usage) => Err(usage),
    }
}

// Reads the request from arguments that do not exclude each other.
fn read_request(alloc: Global, matches: &ArgMatches<'_>) -> Result<Request, UsageError>
    ensures ok { IfOk result (IsRequestOf (rows_of (found_of matches.now))) }
    ensures err { IfErr result (IsNoRequest (rows_of (found_of matches.now))) }
{
    match exclusion_of(matches) {
        Some(text) => Err(bad(alloc, text)),
        None => match read_taken(alloc, matches) {
            Ok(request) => Ok(request),
            Err(usage) => Err(usage),
        },
    }
}

// The error about arguments that clap does not accept: its text, or our own if that is empty.
fn bad_words(alloc: Global, text: String) -> UsageError
    ensures told { IsTold result }
    ensures bad { IsBadWords result }
{
    if text.is_empty() {
        bad(alloc, "error: the arguments are not understood\n")
    } else {
        UsageError::Bad(text)
    }
}

// The usage error for an error of clap.
fn usage_of(alloc: Global, error: &Error) -> UsageError
    ensures kind { IsKindOf (kind_of error.now) result }
    ensures told { IsTold result }
{
    if error.kind() == ErrorKind::OutOfMemory {
        return UsageError::Memory;
    }
    if error.kind() == ErrorKind::DisplayVersion {
        return UsageError::Version;
    }
    match error.to_string(alloc) {
        Ok(text) if error.kind() == ErrorKind::DisplayHelp => UsageError::Help(text),
        Ok(text) => bad_words(alloc, text),
        Err(_) => UsageError::Memory,
    }
}

/// Reads the arguments after the program's name, as the command line `[--root DIR] [--flat] [--include DIR] [--config
/// FILE] [--out FILE] [--header FILE] [--savedefconfig FILE] [--list-new FILE] [--with-help] [--list-gone FILE]
/// [--list-dead FILE] [--depfile FILE] [--prefix TEXT] [--must-exist] [--strict] [--strict-tree] [--quiet-tree] [--hints]
/// [--warn-lost] [--explain-lost] [--explain NAME ..] [--explain-depth N] [--how NAME=VALUE] [--how-steps N] [--replace]
/// [--check] [--diff] [--fragment FILE ..] KCONFIG [FRAGMENT ..]`, `.. [--each] [--each-from FILE] .. KCONFIG [CONFIGURATION ..]`, `--help`, `-h`,
/// `--version` or `-V` (our own; Rust's `clap` reads the arguments, and its documentation has the rules).
///
/// Each field is what the arguments hold, or for an absent option: root `.`, config `.config`, the full `.config` to the file of
/// `--config`, prefix `CONFIG_`, include and each other output none, explain depth 3, 200 tries, each flag false; the texts are written, or
/// with `--replace` replaced, or with `--check` compared. The files of `--fragment` follow the others.
///
/// With `--explain` the explanation is the only output, to `/dev/stdout`, whatever else is given. Nothing is strict, the texts are
/// neither replaced nor compared, and no difference is shown.
///
/// With `--each` or `--each-from` each argument after KCONFIG is a configuration of its own, and only the files of
/// `--fragment` are fragments. A configuration must exist. Without `--out` no full `.config` is written.
///
/// With `--list-dead` the list is the only output, whatever else is given, and there are no fragments.
///
/// With `--how` the answer is the only output, to `/dev/stdout`, as with `--explain`; but `--strict` and `--strict-tree` stay.
/// With `--each` or `--each-from` there is an answer for each configuration.
///
/// # Errors
///
/// Those of [`UsageError`]. They change nothing. `--check` and `--replace` exclude each other; `--diff` needs
/// `--check`; `--config` and `--each` or `--each-from` exclude each other, as do `--explain` and these; `--list-dead`
/// excludes them and `--explain`; `--depfile` needs `--out` together with them; `--how` excludes `--explain` and
/// `--list-dead`. The first of these errors is reported; the prefix, the depth, the goal and the tries are checked after them.
#[inline(never)]
pub fn request_of(alloc: Global, words: &[String]) -> Result<Request, UsageError>
    // Each field has the value of its argument, or the default.
    ensures ok { IfOk result (IsRequestOf (rows_for words.now)) }
    // A request is returned only if clap accepts the arguments.
    ensures faultless { IfOk result (λ _. fault_of kconf_app (arguments_of words.now) ≡ []) }
    // Help and Version are returned only if clap finds their options, Bad only for another error of clap or of ours.
    ensures refused { IfErr result (IsRefused (fault_of kconf_app (arguments_of words.now)) (rows_for words.now)) }
    // An error about the arguments has a text.
    ensures told { IfErr result IsTold }
    // Arguments that the command accepts and that are not refused fail only if there is not enough memory.
    ensures taken { takes kconf_app (arguments_of words.now) ≡ true → refusal_of (rows_for words.now) ≡ None → IfErr result (λ usage. usage ≡ UsageError.Memory) }
{
    let command = command(alloc)?;
    match command.try_get_matches_from(words) {
        Ok(matches) => read_request(alloc, &matches),
        Err(error) => Err(usage_of(alloc, &error)),
    }
}
