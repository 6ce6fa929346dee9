//! Arguments of the command line, and what they request (kc_words).
use kc_conf::{Delivery, Options, Output, WantedOutput};
use kc_words::{DeadList, Each, EachQuestion, HowQuestion, Request, UsageError, request_of};
use std::alloc::{AllocError, Global};

// Adds the arguments between the `|` of a line.
fn words_into(alloc: Global, line: &str, words: &mut Vec<String>) -> Result<(), AllocError> {
    if line.is_empty() {
        return Ok(());
    }
    for word in line.split('|') {
        words.push(String::from_str(alloc, word)?)?;
    }
    Ok(())
}

// The expected options: names, and the flags that are set, one after another.
struct Want {
    root: &'static str,
    config: &'static str,
    outputs: &'static [(Output, &'static str)],
    kconfig: &'static str,
    include: Option<&'static str>,
    explain: &'static [&'static str],
    explain_depth: usize,
    prefix: &'static [u8],
    fragments: &'static [&'static str],
    flags: &'static str,
}

// The options of a command line with only one name, `Kconfig`.
const PLAIN: Want = Want {
    root: ".",
    config: ".config",
    outputs: &[(Output::Config, ".config")],
    kconfig: "Kconfig",
    include: None,
    explain: &[],
    explain_depth: 3,
    prefix: b"CONFIG_",
    fragments: &[],
    flags: "",
};

// The same if three symbols are to be explained.
const EXPLAINED: Want = Want {
    outputs: &[(Output::Explanation, "/dev/stdout")],
    explain: &["A", "CONFIG_B", ""],
    ..PLAIN
};

fn is_name(name: &Option<String>, want: Option<&str>) -> bool {
    match (name, want) {
        (Some(name), Some(want)) => name.as_str() == want,
        (None, None) => true,
        _ => false,
    }
}

fn are_names(names: &[String], want: &[&str]) -> bool {
    for (name, want) in names.iter().zip(want) {
        if name.as_str() != *want {
            return false;
        }
    }
    names.len() == want.len()
}

// Whether these are the outputs, in this order.
fn are_outputs(outputs: &[WantedOutput], want: &[(Output, &str)]) -> bool {
    for (output, (kind, file)) in outputs.iter().zip(want) {
        if output.kind != *kind || output.file.as_str() != *file {
            return false;
        }
    }
    outputs.len() == want.len()
}

// Adds the flags that are set.
fn flags_into(options: &Options, text: &mut String) -> Result<(), AllocError> {
    let flags = [
        (options.must_exist, "must-exist "),
        (options.strict, "strict "),
        (options.strict_tree, "strict-tree "),
        (options.is_flat, "flat "),
        (options.prefix.is_raw(), "raw-strings "),
        (options.quiet_tree, "quiet-tree "),
        (options.hints, "hints "),
        (options.warn_lost, "warn-lost "),
        (options.explain_lost, "explain-lost "),
        (options.with_help, "with-help "),
        (options.delivery == Delivery::Replace, "replace "),
        (options.delivery == Delivery::Check, "check "),
        (options.shows_difference, "diff "),
        (options.names_config, "names-config "),
    ];
    for (is_given, word) in flags {
        if is_given {
            text.push_str(word)?;
        }
    }
    Ok(())
}

fn are_flags(alloc: Global, options: &Options, want: &str) -> bool {
    let mut text = String::new(alloc);
    flags_into(options, &mut text).is_ok() && text.as_str() == want
}

fn are_options(alloc: Global, options: &Options, want: &Want) -> bool {
    options.root.as_str() == want.root
        && options.config.as_str() == want.config
        && are_outputs(&options.outputs, want.outputs)
        && options.kconfig.as_str() == want.kconfig
        && is_name(&options.include, want.include)
        && are_names(&options.explain, want.explain)
        && options.explain_depth == want.explain_depth
        && options.prefix.as_bytes() == want.prefix
        && are_names(&options.fragments, want.fragments)
        && are_flags(alloc, options, want.flags)
}

fn words_give(alloc: Global, words: &[String], want: &Want) -> bool {
    match request_of(alloc, words) {
        Ok(Request::One(options)) => are_options(alloc, &options, want),
        Ok(Request::Each(_) | Request::Dead(_) | Request::How(_) | Request::HowEach(_)) => false,
        Err(_usage) => false,
    }
}

// Whether the arguments between the `|` give these options.
fn gives(alloc: Global, line: &str, want: &Want) -> bool {
    let mut words = Vec::new(alloc);
    words_into(alloc, line, &mut words).is_ok() && words_give(alloc, &words, want)
}

// Arguments and their options.
const OPTIONS: &[(&str, Want)] = &[
    ("Kconfig", PLAIN),
    ("Kconfig|--how-steps=9", PLAIN),
    (
        "--root|d|--config|a|Kconfig",
        Want {
            root: "d",
            config: "a",
            outputs: &[(Output::Config, "a")],
            ..PLAIN
        },
    ),
    (
        "Kconfig|--out=b|--header=h|--savedefconfig|m|--list-new=n|--list-gone=o|--depfile=d",
        Want {
            outputs: &[
                (Output::Config, "b"),
                (Output::Header, "h"),
                (Output::Minimal, "m"),
                (Output::NewSymbols, "n"),
                (Output::GoneLines, "o"),
                (Output::DependencyFile, "d"),
            ],
            ..PLAIN
        },
    ),
    (
        "--config=|--prefix=|Kconfig",
        Want {
            config: "",
            outputs: &[(Output::Config, "")],
            prefix: b"",
            ..PLAIN
        },
    ),
    (
        "K|x.cfg|--prefix|BR2_|y.cfg|--must-exist",
        Want {
            kconfig: "K",
            prefix: b"BR2_",
            fragments: &["x.cfg", "y.cfg"],
            flags: "must-exist ",
            ..PLAIN
        },
    ),
    (
        "--raw-strings|--prefix=|Kconfig",
        Want {
            prefix: b"",
            flags: "raw-strings ",
            ..PLAIN
        },
    ),
    (
        "--replace|--warn-lost|Kconfig|--strict-tree|--strict",
        Want {
            flags: "strict strict-tree warn-lost replace ",
            ..PLAIN
        },
    ),
    (
        "--fragment|a|Kconfig|b|--fragment=c|--check|d",
        Want {
            fragments: &["b", "d", "a", "c"],
            flags: "check ",
            ..PLAIN
        },
    ),
    (
        "--flat|--include|d|--quiet-tree|--hints|Kconfig|--check|--diff",
        Want {
            include: Some("d"),
            flags: "flat quiet-tree hints check diff ",
            ..PLAIN
        },
    ),
    (
        "--hints|--quiet-tree|--check|--diff|--include=d|--explain|A|--explain=CONFIG_B|--explain=|Kconfig",
        Want {
            include: Some("d"),
            flags: "quiet-tree hints ",
            ..EXPLAINED
        },
    ),
    (
        "--explain-lost|Kconfig|--explain-depth|007|--with-help",
        Want {
            explain_depth: 7,
            flags: "explain-lost with-help ",
            ..PLAIN
        },
    ),
    (
        "Kconfig|--explain-depth=9223372036854775807",
        Want {
            explain_depth: 9_223_372_036_854_775_807,
            ..PLAIN
        },
    ),
    (
        "--explain|A|Kconfig|--explain=CONFIG_B|--explain=",
        EXPLAINED,
    ),
    (
        "--out=b|--header=h|--savedefconfig|m|--list-new=n|--list-gone=o|--depfile=d|--explain|A|Kconfig|--explain=CONFIG_B|--explain=",
        EXPLAINED,
    ),
    (
        "--strict|--strict-tree|--check|--explain|A|--explain=CONFIG_B|--explain=|Kconfig",
        EXPLAINED,
    ),
    (
        "--replace|--explain|A|--explain=CONFIG_B|--explain=|Kconfig|f|--must-exist|--warn-lost|--config=c|--explain-depth=0",
        Want {
            config: "c",
            fragments: &["f"],
            explain_depth: 0,
            flags: "must-exist warn-lost ",
            ..EXPLAINED
        },
    ),
    (
        "--|--strict|--replace|-x",
        Want {
            kconfig: "--strict",
            fragments: &["--replace", "-x"],
            ..PLAIN
        },
    ),
];

#[test]
fn each_option_has_its_value_or_its_default(rt: HostRuntime) {
    for (line, want) in OPTIONS {
        assert!(rt; gives(rt.alloc(), line, want), "{line}");
    }
}

// The expected configurations, their list, and the options of each.
struct WantEach {
    configurations: &'static [&'static str],
    list: Option<&'static str>,
    options: Want,
}

// The options of each configuration for a command line with only one name, `Kconfig`, and `--each`.
const EACH: Want = Want {
    config: "",
    outputs: &[],
    flags: "must-exist names-config ",
    ..PLAIN
};

fn is_each(alloc: Global, each: &Each, want: &WantEach) -> bool {
    are_names(&each.configurations, want.configurations)
        && is_name(&each.list, want.list)
        && are_options(alloc, &each.options, &want.options)
}

fn words_give_each(alloc: Global, words: &[String], want: &WantEach) -> bool {
    match request_of(alloc, words) {
        Ok(Request::Each(each)) => is_each(alloc, &each, want),
        Ok(Request::One(_) | Request::Dead(_) | Request::How(_) | Request::HowEach(_)) => false,
        Err(_usage) => false,
    }
}

// Whether the arguments between the `|` request these configurations.
fn gives_each(alloc: Global, line: &str, want: &WantEach) -> bool {
    let mut words = Vec::new(alloc);
    words_into(alloc, line, &mut words).is_ok() && words_give_each(alloc, &words, want)
}

// Arguments and the configurations that they request.
const CONFIGURATIONS: &[(&str, WantEach)] = &[
    (
        "--each|Kconfig",
        WantEach {
            configurations: &[],
            list: None,
            options: EACH,
        },
    ),
    (
        "Kconfig|a|--each|b|--fragment|c|--savedefconfig|m/{/}",
        WantEach {
            configurations: &["a", "b"],
            list: None,
            options: Want {
                outputs: &[(Output::Minimal, "m/{/}")],
                fragments: &["c"],
                ..EACH
            },
        },
    ),
    (
        "--each|Kconfig|a|--explain-lost|--list-new|{}.new|--with-help|--explain-depth=1",
        WantEach {
            configurations: &["a"],
            list: None,
            options: Want {
                outputs: &[(Output::NewSymbols, "{}.new")],
                explain_depth: 1,
                flags: "must-exist explain-lost with-help names-config ",
                ..EACH
            },
        },
    ),
    (
        "--each|Kconfig|a|--flat|--include=d/{}|--quiet-tree|--hints|--check|--diff",
        WantEach {
            configurations: &["a"],
            list: None,
            options: Want {
                include: Some("d/{}"),
                flags: "must-exist flat quiet-tree hints check diff names-config ",
                ..EACH
            },
        },
    ),
    (
        "--each-from=l|Kconfig|a|--out|{}.full|--depfile={}.d|--list-new={}.new|--list-gone={}.gone|--replace",
        WantEach {
            configurations: &["a"],
            list: Some("l"),
            options: Want {
                outputs: &[
                    (Output::Config, "{}.full"),
                    (Output::NewSymbols, "{}.new"),
                    (Output::GoneLines, "{}.gone"),
                    (Output::DependencyFile, "{}.d"),
                ],
                flags: "must-exist replace names-config ",
                ..EACH
            },
        },
    ),
];

#[test]
fn each_argument_is_a_configuration_with_each(rt: HostRuntime) {
    for (line, want) in CONFIGURATIONS {
        assert!(rt; gives_each(rt.alloc(), line, want), "{line}");
    }
}

fn is_dead_list(alloc: Global, dead: &DeadList, file: &str, want: &Want) -> bool {
    dead.file.as_str() == file && are_options(alloc, &dead.options, want)
}

fn words_give_dead(alloc: Global, words: &[String], file: &str, want: &Want) -> bool {
    match request_of(alloc, words) {
        Ok(Request::Dead(dead)) => is_dead_list(alloc, &dead, file, want),
        Ok(Request::One(_) | Request::Each(_) | Request::How(_) | Request::HowEach(_)) => false,
        Err(_usage) => false,
    }
}

// Whether the arguments between the `|` request a list of dead prompts in this file.
fn gives_dead(alloc: Global, line: &str, file: &str, want: &Want) -> bool {
    let mut words = Vec::new(alloc);
    words_into(alloc, line, &mut words).is_ok() && words_give_dead(alloc, &words, file, want)
}

// The options of a list of dead prompts for a command line with only one name, `Kconfig`.
const DEAD: Want = Want {
    outputs: &[],
    ..PLAIN
};

// Arguments, the file of the list that they request, and its options.
const DEAD_LISTS: &[(&str, &str, Want)] = &[
    ("--list-dead|f|Kconfig", "f", DEAD),
    ("Kconfig|--list-dead=", "", DEAD),
    (
        "--out=b|--header=h|--savedefconfig|m|--list-new=n|--list-gone=o|--list-dead=f|--depfile=d|Kconfig|a|--fragment|c|--must-exist",
        "f",
        DEAD,
    ),
    (
        "--root=d|--config=a|--list-dead|/dev/stdout|Kconfig|--prefix=|--raw-strings|--quiet-tree|--strict-tree|--check",
        "/dev/stdout",
        Want {
            root: "d",
            config: "a",
            prefix: b"",
            flags: "strict-tree raw-strings quiet-tree check ",
            ..DEAD
        },
    ),
];

#[test]
fn a_list_of_dead_prompts_has_no_other_output(rt: HostRuntime) {
    for (line, file, want) in DEAD_LISTS {
        assert!(rt; gives_dead(rt.alloc(), line, file, want), "{line}");
    }
}

// The expected question: the value, the most fragments to try, and the options.
struct WantHow {
    value: &'static str,
    steps: usize,
    options: Want,
}

fn is_question(alloc: Global, how: &HowQuestion, want: &WantHow) -> bool {
    how.value.as_str() == want.value
        && how.steps == want.steps
        && are_options(alloc, &how.options, &want.options)
}

fn words_give_how(alloc: Global, words: &[String], want: &WantHow) -> bool {
    match request_of(alloc, words) {
        Ok(Request::How(how)) => is_question(alloc, &how, want),
        Ok(Request::One(_) | Request::Each(_) | Request::Dead(_) | Request::HowEach(_)) => false,
        Err(_usage) => false,
    }
}

// Whether the arguments between the `|` ask what must be set so that a symbol has this value.
fn gives_how(alloc: Global, line: &str, want: &WantHow) -> bool {
    let mut words = Vec::new(alloc);
    words_into(alloc, line, &mut words).is_ok() && words_give_how(alloc, &words, want)
}

// The options of a question about A for a command line with only one name, `Kconfig`.
const HOW: Want = Want {
    outputs: &[(Output::Explanation, "/dev/stdout")],
    explain: &["A"],
    ..PLAIN
};

// Arguments and the question that they ask.
const QUESTIONS: &[(&str, WantHow)] = &[
    (
        "--how|A=y|Kconfig",
        WantHow {
            value: "y",
            steps: 200,
            options: HOW,
        },
    ),
    (
        "Kconfig|--how=A=|--how-steps=0",
        WantHow {
            value: "",
            steps: 0,
            options: HOW,
        },
    ),
    (
        "--how-steps|9223372036854775807|--how=CONFIG_B=a=\"b\"|Kconfig",
        WantHow {
            value: "a=\"b\"",
            steps: 9_223_372_036_854_775_807,
            options: Want {
                explain: &["CONFIG_B"],
                ..HOW
            },
        },
    ),
    (
        "--how|A=-1|Kconfig|--out=b|--header=h|--savedefconfig|m|--list-new=n|--list-gone=o|--depfile=d|--replace",
        WantHow {
            value: "-1",
            steps: 200,
            options: HOW,
        },
    ),
    (
        "--root=d|--config=a|--how|A=y|Kconfig|b|--fragment|c|--must-exist|--strict|--strict-tree|--flat|--include=i|--prefix=|--raw-strings|--quiet-tree|--hints|--warn-lost|--explain-depth|1|--check|--diff",
        WantHow {
            value: "y",
            steps: 200,
            options: Want {
                root: "d",
                config: "a",
                include: Some("i"),
                explain_depth: 1,
                prefix: b"",
                fragments: &["b", "c"],
                flags: "must-exist strict strict-tree flat raw-strings quiet-tree hints warn-lost ",
                ..HOW
            },
        },
    ),
];

// The value, the tries and the configurations of a question.
struct WantEachHow {
    value: &'static str,
    steps: usize,
    each: WantEach,
}

fn is_each_question(alloc: Global, how: &EachQuestion, want: &WantEachHow) -> bool {
    how.value.as_str() == want.value
        && how.steps == want.steps
        && is_each(alloc, &how.each, &want.each)
}

fn words_give_each_how(alloc: Global, words: &[String], want: &WantEachHow) -> bool {
    match request_of(alloc, words) {
        Ok(Request::HowEach(how)) => is_each_question(alloc, &how, want),
        Ok(Request::One(_) | Request::Each(_) | Request::Dead(_) | Request::How(_)) => false,
        Err(_usage) => false,
    }
}

// Whether the arguments between the `|` ask for many configurations what must be set.
fn gives_each_how(alloc: Global, line: &str, want: &WantEachHow) -> bool {
    let mut words = Vec::new(alloc);
    words_into(alloc, line, &mut words).is_ok() && words_give_each_how(alloc, &words, want)
}

// The options of a question about A for many configurations.
const HOW_EACH: Want = Want {
    outputs: &[(Output::Explanation, "/dev/stdout")],
    explain: &["A"],
    ..EACH
};

// Arguments and the question that they ask for many configurations.
const EACH_QUESTIONS: &[(&str, WantEachHow)] = &[
    (
        "--how|A=y|--each|Kconfig|a|b",
        WantEachHow {
            value: "y",
            steps: 200,
            each: WantEach {
                configurations: &["a", "b"],
                list: None,
                options: HOW_EACH,
            },
        },
    ),
    (
        "--each-from=l|--how=A=|--how-steps|7|Kconfig|--out={}.full|--list-new={}.new|--replace|--strict|--fragment|c",
        WantEachHow {
            value: "",
            steps: 7,
            each: WantEach {
                configurations: &[],
                list: Some("l"),
                options: Want {
                    fragments: &["c"],
                    flags: "must-exist strict names-config ",
                    ..HOW_EACH
                },
            },
        },
    ),
];

#[test]
fn a_question_may_be_asked_for_many_configurations(rt: HostRuntime) {
    for (line, want) in EACH_QUESTIONS {
        assert!(rt; gives_each_how(rt.alloc(), line, want), "{line}");
    }
}

#[test]
fn a_question_has_no_output_but_the_answer(rt: HostRuntime) {
    for (line, want) in QUESTIONS {
        assert!(rt; gives_how(rt.alloc(), line, want), "{line}");
    }
}

fn is_usage(usage: &UsageError, want: &str) -> bool {
    match usage {
        UsageError::Help(_help) => want == "help",
        UsageError::Version => usage.text() == want,
        UsageError::Bad(_text) => want == "bad",
        UsageError::Memory => false,
    }
}

fn words_ask_for(alloc: Global, words: &[String], want: &str) -> bool {
    match request_of(alloc, words) {
        Ok(_request) => false,
        Err(usage) => is_usage(&usage, want),
    }
}

// Whether the arguments between the `|` are wrong, or request this.
fn asks_for(alloc: Global, line: &str, want: &str) -> bool {
    let mut words = Vec::new(alloc);
    words_into(alloc, line, &mut words).is_ok() && words_ask_for(alloc, &words, want)
}

// Wrong arguments, and arguments that do not request a run.
const OTHERS: &[(&str, &str)] = &[
    ("", "bad"),
    ("--root|d", "bad"),
    ("--none|K", "bad"),
    ("K|--root", "bad"),
    ("K|--root|-x", "bad"),
    ("--root|a|--root|b|K", "bad"),
    ("--conf|a|K", "bad"),
    ("--prefix|9X|K", "bad"),
    ("--prefix|A-B|K", "bad"),
    ("--help", "help"),
    ("-h", "help"),
    ("--prefix|9X|--help", "help"),
    ("--help|--none", "help"),
    ("--none|--help", "bad"),
    ("--version", "kconf 0.9.0\n"),
    ("-V", "kconf 0.9.0\n"),
    ("K|--version", "kconf 0.9.0\n"),
    ("--version|--help", "kconf 0.9.0\n"),
    ("--version=1", "bad"),
    ("--must-exist=1|K", "bad"),
    ("--must-exist|--must-exist|K", "bad"),
    ("--strict=1|K", "bad"),
    ("--strict|--strict|K", "bad"),
    ("--warn-lost=1|K", "bad"),
    ("--warn-lost|--warn-lost|K", "bad"),
    ("--explain-lost=1|K", "bad"),
    ("--explain-lost|--explain-lost|K", "bad"),
    ("--with-help=1|K", "bad"),
    ("--explain|K", "bad"),
    ("K|--explain", "bad"),
    ("--explain-depth|1|--explain-depth|1|K", "bad"),
    ("--explain-depth=|K", "bad"),
    ("--explain-depth=-1|K", "bad"),
    ("--explain-depth=+1|K", "bad"),
    ("--explain-depth=0x1|K", "bad"),
    ("--explain-depth=9223372036854775808|K", "bad"),
    ("--explain|A|--check|--replace|K", "bad"),
    ("--explain|A|--each|K", "bad"),
    ("--list-dead|K", "bad"),
    ("--list-dead=a|--list-dead=b|K", "bad"),
    ("--list-dead|f|--each|K", "bad"),
    ("--list-dead|f|--each-from|l|K", "bad"),
    ("--list-dead|f|--explain|A|K", "bad"),
    ("--list-dead|f|--prefix|9X|K", "bad"),
    ("--how|K", "bad"),
    ("K|--how", "bad"),
    ("--how|A|K", "bad"),
    ("--how==y|K", "bad"),
    ("--how=|K", "bad"),
    ("--how|-A=y|K", "bad"),
    ("--how=A=y|--how=B=y|K", "bad"),
    ("--how-steps=1|--how-steps=1|K", "bad"),
    ("--how-steps=|K", "bad"),
    ("--how-steps=-1|K", "bad"),
    ("--how-steps=9223372036854775808|K", "bad"),
    ("--how|A|--each|K", "bad"),
    ("--how|A=y|--each|--config|a|K", "bad"),
    ("--how|A=y|--each|--how-steps=x|K", "bad"),
    ("--how|A=y|--explain|A|K", "bad"),
    ("--how|A=y|--list-dead|f|K", "bad"),
    ("--how|A=y|--check|--replace|K", "bad"),
    ("--how|A=y|--diff|K", "bad"),
    ("--how|A=y|--prefix|9X|K", "bad"),
    ("--depfile|K", "bad"),
    ("--depfile=a|--depfile=b|K", "bad"),
    ("--replace=1|K", "bad"),
    ("--replace|--replace|K", "bad"),
    ("--check=1|K", "bad"),
    ("--check|--check|K", "bad"),
    ("--check|--replace|K", "bad"),
    ("--diff|K", "bad"),
    ("--diff|--replace|K", "bad"),
    ("--diff|--explain|A|K", "bad"),
    ("--include|K", "bad"),
    ("--flat|--flat|K", "bad"),
    ("--replace|K|--check|--prefix|9X", "bad"),
    ("--fragment|K", "bad"),
    ("K|--fragment", "bad"),
    ("--each=1|K", "bad"),
    ("--each|--each|K", "bad"),
    ("--each-from|K", "bad"),
    ("--each|--config|a|K", "bad"),
    ("--each-from|l|--config|a|K", "bad"),
    ("--each|--depfile|d|K", "bad"),
    ("--each", "bad"),
];

#[test]
fn other_arguments_are_bad_or_ask_for_help_or_the_version(rt: HostRuntime) {
    for (line, want) in OTHERS {
        assert!(rt; asks_for(rt.alloc(), line, want), "{line}");
    }
}

fn are_answered_by(alloc: Global, words: &[String], part: &str) -> bool {
    match request_of(alloc, words) {
        Ok(_request) => false,
        Err(usage) => usage.text().contains(part),
    }
}

// Whether the text for these arguments contains this part.
fn answers(alloc: Global, line: &str, part: &str) -> bool {
    let mut words = Vec::new(alloc);
    words_into(alloc, line, &mut words).is_ok() && are_answered_by(alloc, &words, part)
}

const USAGES: &[(&str, &str)] = &[
    ("--help", "Usage: kconf [OPTIONS] <KCONFIG> [FRAGMENT]..."),
    ("--help", "Exit status:"),
    ("", "<KCONFIG>"),
    ("--prefix|9X|K", "invalid value '9X' for '--prefix <TEXT>'"),
    (
        "--check|--replace|K",
        "error: the argument '--check' cannot be used with '--replace'\n",
    ),
    (
        "--diff|K|--prefix|9X",
        "error: the argument '--diff' needs '--check'\n",
    ),
    (
        "--each|--config|a|K|--depfile|d",
        "error: the argument '--config <FILE>' cannot be used with '--each'\n",
    ),
    (
        "--each|K|--depfile|d|--explain=A|--explain-depth=x",
        "error: the argument '--explain <NAME>' cannot be used with '--each'\n",
    ),
    (
        "--each|--list-dead|f|K|--explain=A|--prefix|9X",
        "error: the argument '--explain <NAME>' cannot be used with '--each'\n",
    ),
    (
        "--each-from|l|K|--list-dead=f|--depfile|d|--prefix|9X",
        "error: the argument '--list-dead <FILE>' cannot be used with '--each'\n",
    ),
    (
        "--list-dead|f|K|--explain=A|--explain-depth=x",
        "error: the argument '--list-dead <FILE>' cannot be used with '--explain'\n",
    ),
    (
        "--explain-depth|x|--prefix|9X|K",
        "invalid value '9X' for '--prefix <TEXT>'",
    ),
    (
        "--explain-depth|x1|K",
        "invalid value 'x1' for '--explain-depth <N>': a decimal number below 2^63\n",
    ),
    (
        "--each-from|l|K|--depfile|d|--prefix|9X",
        "error: the argument '--depfile <FILE>' needs '--out <FILE>' with '--each'\n",
    ),
    (
        "--each|K|--depfile|d|--how=A",
        "error: the argument '--depfile <FILE>' needs '--out <FILE>' with '--each'\n",
    ),
    (
        "--each-from|l|K|--how=A",
        "error: invalid value 'A' for '--how <NAME=VALUE>': NAME=VALUE is expected\n",
    ),
    (
        "--each|K|--how=A=y|--explain|A",
        "error: the argument '--explain <NAME>' cannot be used with '--each'\n",
    ),
    (
        "--how=A=y|--explain|A|K|--how-steps=x",
        "error: the argument '--how <NAME=VALUE>' cannot be used with '--explain'\n",
    ),
    (
        "--how=A=y|--list-dead|f|K|--prefix|9X",
        "error: the argument '--how <NAME=VALUE>' cannot be used with '--list-dead'\n",
    ),
    (
        "--how|A|--explain-depth|x|K",
        "invalid value 'x' for '--explain-depth <N>': a decimal number below 2^63\n",
    ),
    (
        "--how|A|--how-steps|x|K",
        "error: invalid value 'A' for '--how <NAME=VALUE>': NAME=VALUE is expected\n",
    ),
    (
        "--how-steps|x|K",
        "error: invalid value 'x' for '--how-steps <N>': a decimal number below 2^63\n",
    ),
];

#[test]
fn each_usage_has_a_text(rt: HostRuntime) {
    for (line, part) in USAGES {
        assert!(rt; answers(rt.alloc(), line, part), "{line}");
    }
    assert!(rt; UsageError::Memory.text() == "error E20: out of memory\n");
}
