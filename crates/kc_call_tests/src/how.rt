//! What must be set (kc_how): small trees, each with a question and the answer that the rules give.

ghost use Rattle.std.specs.Prelude.{◌<◌, IfSome};
ghost use Rattle.kc_how.specs.Questions.{IsQuestion};
ghost use Rattle.kc_language.specs.ConfigFile.{ArePlacesOf};
ghost use Rattle.kc_language.specs.Values.{name_count};

use crate::trial::{Claim, is_true_of};
use kc_expr::expression::SymId;
use kc_how::answer::{Answer, answered};
use kc_how::goal::{Goal, wanted_value};
use kc_how::question::Question;
use kc_input::prefix::Prefix;
use kc_input::reader::InputReader;
use kc_input::user_input::UserInput;
use kc_possible::possible::Possible;
use kc_solve::evaluation_order::EvaluationOrder;
use kc_solve::solve::solve;
use kc_tree::tree::Tree;
use kc_values::table::name;
use std::alloc::{AllocError, Global};

// How many fragments may be tried.
const STEPS: usize = 1000;

// What is expected of an answer.
enum Expected {
    // These lines, each with its line end.
    Found(&'static [u8]),
    // No input reaches the goal, since these symbols are n, each with its line end.
    Impossible(&'static [u8]),
    // There is no fix.
    Nothing,
}

// A question about a tree.
struct Case {
    // What it shows.
    name: &'static str,
    kconfig: &'static [u8],
    // The lines of the `.config`.
    config: &'static [u8],
    // What shall hold.
    symbol: &'static [u8],
    value: &'static [u8],
    is_strict: bool,
    expected: Expected,
}

// What these lines of a `.config` give.
fn input_of<'a>(
    alloc: Global,
    tree: &'a Tree,
    prefix: &'a Prefix,
    config: &[u8],
) -> Option<UserInput<'a>>
    ensures { IfSome result (λ input. ArePlacesOf tree.now input.places) }
{
    let Ok(mut input) = UserInput::new(alloc, tree, true) else {
        return None;
    };
    let mut told = Vec::new(alloc);
    let mut reader = InputReader::new(alloc, tree, prefix, b".config");
    if reader.feed(config, &mut input, &mut told).is_err() {
        return None;
    }
    if reader.finish(&mut input, &mut told).is_err() {
        return None;
    }
    Some(input)
}

// The lines of a fix, each with its line end.
fn text_of(alloc: Global, lines: &[Vec<u8>]) -> Result<Vec<u8>, AllocError> {
    let mut text = Vec::new(alloc);
    for line in lines {
        text.extend_from_slice(line)?;
        text.push(b'\n')?;
    }
    Ok(text)
}

// The names of these symbols, each with its line end.
fn names_of(alloc: Global, tree: &Tree, ids: &[SymId]) -> Result<Vec<u8>, AllocError> {
    let mut text = Vec::new(alloc);
    for id in ids {
        text.extend_from_slice(name(tree, *id))?;
        text.push(b'\n')?;
    }
    Ok(text)
}

// Whether the text could be made, and is this one.
fn is_text(text: Result<Vec<u8>, AllocError>, expected: &[u8]) -> bool {
    match text {
        Ok(text) => text.as_slice() == expected,
        Err(_) => false,
    }
}

// Whether the answer is the expected one.
fn is_expected(alloc: Global, tree: &Tree, answer: &Answer, expected: &Expected) -> bool {
    match (answer, expected) {
        (Answer::Found(lines), Expected::Found(text)) => is_text(text_of(alloc, lines), text),
        (Answer::Impossible(ids), Expected::Impossible(text)) => {
            is_text(names_of(alloc, tree, ids), text)
        }
        (Answer::NotFound(_), Expected::Nothing) => true,
        _ => false,
    }
}

// Whether the question has the expected answer.
fn is_answered(alloc: Global, question: &Question<'_, '_, '_, '_>, expected: &Expected) -> bool
    requires { IsQuestion question.now }
{
    match answered(alloc, question) {
        Ok(answer) => is_expected(alloc, question.laid.tree, &answer, expected),
        Err(_) => false,
    }
}

impl Case {
    // What shall hold.
    fn goal(&self, alloc: Global, tree: &Tree) -> Option<Goal>
        ensures { IfSome result (λ goal. goal.symbol.0 < name_count tree.now) }
    {
        let symbol = tree.find(self.symbol)?;
        let symbol_type = tree.facts(symbol)?.symbol_type;
        if symbol.0 >= tree.name_count() {
            return None;
        }
        match wanted_value(alloc, symbol_type, self.value, false) {
            Ok(Some(value)) => Some(Goal { symbol, value }),
            _ => None,
        }
    }

    // Whether the question has the expected answer after this input.
    fn is_answered_after(
        &self,
        alloc: Global,
        tree: &Tree,
        prefix: &Prefix,
        input: &UserInput<'_>,
    ) -> bool
        requires { ArePlacesOf tree.now input.now.places }
    {
        let laid = tree.laid();
        let Ok(order) = EvaluationOrder::of(alloc, &laid) else {
            return false;
        };
        let Ok(possible) = Possible::of(alloc, &laid, order.nodes()) else {
            return false;
        };
        let Ok(before) = solve(alloc, &laid, &order, input.user()) else {
            return false;
        };
        let Some(goal) = self.goal(alloc, tree) else {
            return false;
        };
        let question = Question {
            laid: &laid,
            order: &order,
            possible: &possible,
            prefix,
            input,
            before: &before,
            goal: &goal,
            steps: STEPS,
            is_strict: self.is_strict,
        };
        is_answered(alloc, &question, &self.expected)
    }
}

impl Claim for Case {
    fn holds_of(&self, alloc: Global, tree: &Tree) -> bool {
        let Ok(Some(prefix)) = Prefix::new(alloc, b"CONFIG_", false) else {
            return false;
        };
        match input_of(alloc, tree, &prefix, self.config) {
            Some(input) => self.is_answered_after(alloc, tree, &prefix, &input),
            None => false,
        }
    }
}

const CASES: &[Case] = &[
    Case {
        name: "a symbol behind one dependency",
        kconfig: b"config D\n\tbool \"d\"\nconfig A\n\tbool \"a\"\n\tdepends on D\n",
        config: b"",
        symbol: b"A",
        value: b"y",
        is_strict: false,
        expected: Expected::Found(b"CONFIG_D=y\nCONFIG_A=y\n"),
    },
    Case {
        name: "a tristate that shall be m under a bool that is n",
        kconfig: b"config MODULES\n\tbool \"modules\"\n\tdefault y\n\tmodules\nconfig B\n\tbool \"b\"\nconfig T\n\ttristate \"t\"\n\
            \tdepends on B\n",
        config: b"",
        symbol: b"T",
        value: b"m",
        is_strict: false,
        expected: Expected::Found(b"CONFIG_B=y\nCONFIG_T=m\n"),
    },
    Case {
        name: "a member of a choice",
        kconfig: b"choice\n\tprompt \"c\"\nconfig M\n\tbool \"m\"\nconfig O\n\tbool \"o\"\nendchoice\n",
        config: b"",
        symbol: b"O",
        value: b"y",
        is_strict: false,
        expected: Expected::Found(b"CONFIG_O=y\n"),
    },
    Case {
        name: "a symbol without a prompt that another one selects",
        kconfig: b"config X\n\tbool\nconfig S\n\tbool \"s\"\n\tselect X\n",
        config: b"",
        symbol: b"X",
        value: b"y",
        is_strict: false,
        expected: Expected::Found(b"CONFIG_S=y\n"),
    },
    Case {
        name: "a string without quotes",
        kconfig: b"config D\n\tbool \"d\"\nconfig S\n\tstring \"s\"\n\tdepends on D\n",
        config: b"",
        symbol: b"S",
        value: b"two words",
        is_strict: false,
        expected: Expected::Found(b"CONFIG_D=y\nCONFIG_S=\"two words\"\n"),
    },
    Case {
        name: "a value that a symbol has already",
        kconfig: b"config A\n\tbool \"a\"\n\tdefault y\n",
        config: b"",
        symbol: b"A",
        value: b"y",
        is_strict: false,
        expected: Expected::Found(b""),
    },
    Case {
        name: "a dependency that is not defined",
        kconfig: b"config A\n\tbool \"a\"\n\tdepends on GHOST\n",
        config: b"",
        symbol: b"A",
        value: b"y",
        is_strict: false,
        expected: Expected::Impossible(b"GHOST\n"),
    },
    Case {
        name: "a dependency that depends on what is not defined",
        kconfig: b"config A\n\tbool \"a\"\n\tdepends on B\nconfig B\n\tbool\n\tdefault y\n\tdepends on GHOST\n",
        config: b"",
        symbol: b"A",
        value: b"y",
        is_strict: false,
        expected: Expected::Impossible(b"B\nGHOST\n"),
    },
    Case {
        name: "the fix makes a value of the user lost",
        kconfig: b"config A\n\tbool \"a\"\nconfig B\n\tbool \"b\"\n\tdepends on !A\n",
        config: b"CONFIG_B=y\n",
        symbol: b"A",
        value: b"y",
        is_strict: false,
        expected: Expected::Found(b"CONFIG_A=y\n"),
    },
    Case {
        name: "each fix makes a value of the user lost, and that is refused",
        kconfig: b"config A\n\tbool \"a\"\nconfig B\n\tbool \"b\"\n\tdepends on !A\n",
        config: b"CONFIG_B=y\n",
        symbol: b"A",
        value: b"y",
        is_strict: true,
        expected: Expected::Nothing,
    },
];

#[test]
fn questions_have_the_expected_answers(rt: HostRuntime) {
    for case in CASES {
        assert!(rt; is_true_of(rt.alloc(), case.kconfig, case), "{}", case.name);
    }
}
