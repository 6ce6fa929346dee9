//! Reading a `.config` in any chunks: the warnings, the results and the pending bytes (kc_input).
ghost use Rattle.std.specs.Prelude.{◌≡◌};
ghost use Rattle.kc_language.specs.ConfigFile.{ArePlacesOf};

use crate::trial::{Claim, is_true_of};
use kc_expr::expression::Tri;
use kc_input::fault::InputFault;
use kc_input::prefix::Prefix;
use kc_input::reader::InputReader;
use kc_input::user_input::UserInput;
use kc_tree::tree::Tree;
use kc_user::value::UserValue;
use std::alloc::{AllocError, Global};

const KCONFIG: &[u8] = b"config A\n\tbool \"a\"\n";

// Its second and third lines are not lines of a `.config`. Its fourth sets A again.
const LINES: &[u8] = b"CONFIG_A=y\nfoo\nbar\n# CONFIG_A is not set\n";

const WARNINGS: &[u8] = b".config:2: warning K9: malformed line\n\
    .config:3: warning K9: malformed line\n\
    .config:4: warning K10: A is set again\n";

// A reader that starts without user values, and its warnings. Its calls have no contract of their own: the tests check
// their results.
#[derive(Drop)]
struct Trial<'a> {
    alloc: Global,
    tree: &'a Tree,
    prefix: &'a Prefix,
    reader: InputReader<'a>,
    user: UserInput<'a>,
    told: Vec<u8>,
    ghost same: { reader.tree ≡ tree.now },
    ghost places: { ArePlacesOf reader.tree user.places },
}

// A call of the reader.
enum Call {
    Feed(&'static [u8]),
    // This many bytes `#`.
    FeedHashes(usize),
    Finish,
    // Ends the input file, and continues with a reader of the next one, of this name.
    NextFile(&'static [u8]),
}

impl<'a> Trial<'a> {
    fn new(alloc: Global, tree: &'a Tree, prefix: &'a Prefix) -> Result<Trial<'a>, AllocError> {
        let user = UserInput::new(alloc, tree, false)?;
        Ok(Trial {
            alloc,
            tree,
            prefix,
            reader: InputReader::new(alloc, tree, prefix, b".config"),
            user,
            told: Vec::new(alloc),
        })
    }

    fn feed(&mut self, piece: &[u8]) -> Result<(), InputFault> {
        self.reader.feed(piece, &mut self.user, &mut self.told)
    }

    fn feed_hashes(&mut self, count: usize) -> Result<(), InputFault> {
        for _ in 0..count {
            self.feed(b"#")?;
        }
        Ok(())
    }

    fn finish(&mut self) -> Result<(), InputFault> {
        self.reader.finish(&mut self.user, &mut self.told)
    }

    fn next_file(&mut self, name: &'static [u8]) -> Result<(), InputFault> {
        self.finish()?;
        self.reader = InputReader::new(self.alloc, self.tree, self.prefix, name);
        Ok(())
    }

    fn call(&mut self, call: &Call) -> Result<(), InputFault> {
        match call {
            Call::Feed(piece) => self.feed(piece),
            Call::FeedHashes(count) => self.feed_hashes(*count),
            Call::Finish => self.finish(),
            Call::NextFile(name) => self.next_file(name),
        }
    }

    // The number of calls that return the error that this line is too long.
    fn refused_calls(&mut self, calls: &[Call], line: u64) -> usize {
        let mut refused = 0_usize;
        for call in calls {
            if self.call(call) == Err(InputFault::InputLineTooLong(line)) {
                refused = refused.saturating_add(1);
            }
        }
        refused
    }

    // The user value of A.
    fn value_of_a(&self, tree: &Tree) -> Option<Tri> {
        let id = tree.find(b"A")?;
        match self.user.user().symbols().get(id.0) {
            Some(UserValue::Tri(value)) => Some(*value),
            _ => None,
        }
    }

    // Whether the result is that of the case.
    fn is_at(&self, tree: &Tree, case: &Case) -> bool {
        self.value_of_a(tree) == Some(case.a)
            && self.reader.pending() == case.waits
            && self.told.as_slice() == case.told
    }
}

// Calls: how many of them fail, A afterwards, the warnings, and how many bytes of a line are pending.
#[derive(Clone, Copy)]
struct Case {
    name: &'static str,
    calls: &'static [Call],
    refused: usize,
    a: Tri,
    told: &'static [u8],
    waits: usize,
}

const ALL: Case = Case {
    name: "each line tells its warning",
    calls: &[Call::Feed(LINES)],
    refused: 0,
    a: Tri::N,
    told: WARNINGS,
    waits: 0,
};

const LAST: Case = Case {
    name: "a line that is not at its end tells nothing",
    calls: &[Call::Feed(b"CONFIG_A=y\nfoo")],
    refused: 0,
    a: Tri::Y,
    told: b"",
    waits: 3,
};

const CASES: &[Case] = &[
    ALL,
    LAST,
    Case {
        name: "the last line is ended once",
        calls: &[Call::Feed(b"CONFIG_A=y\nfoo"), Call::Finish, Call::Finish],
        told: b".config:2: warning K9: malformed line\n",
        waits: 0,
        ..LAST
    },
    Case {
        name: "the next input file begins at line 1",
        calls: &[
            Call::Feed(b"CONFIG_A=y\nfoo"),
            Call::NextFile(b"x.cfg"),
            Call::Feed(b"bar\n"),
        ],
        a: Tri::Y,
        told: b".config:2: warning K9: malformed line\nx.cfg:1: warning K9: malformed line\n",
        ..ALL
    },
    Case {
        name: "a line may have 65535 bytes",
        calls: &[
            Call::Feed(b"CONFIG_A=y\nfoo\n"),
            Call::FeedHashes(65_535),
            Call::Feed(b"\nbar\n"),
        ],
        a: Tri::Y,
        told: b".config:2: warning K9: malformed line\n.config:4: warning K9: malformed line\n",
        ..ALL
    },
    Case {
        name: "a line of more is refused, and so is all behind it",
        calls: &[
            Call::Feed(b"CONFIG_A=y\nfoo\n"),
            Call::FeedHashes(65_536),
            Call::Feed(b"\n# CONFIG_A is not set\n"),
            Call::Finish,
            Call::NextFile(b"x.cfg"),
        ],
        refused: 4,
        a: Tri::Y,
        told: b".config:2: warning K9: malformed line\n",
        waits: 65_535,
        ..ALL
    },
];

// Whether the calls have the result of the case. Only line 3 may be too long.
fn leaves(alloc: Global, tree: &Tree, prefix: &Prefix, case: &Case) -> bool {
    match Trial::new(alloc, tree, prefix) {
        Ok(mut trial) => {
            trial.refused_calls(case.calls, 3) == case.refused && trial.is_at(tree, case)
        }
        Err(_) => false,
    }
}

impl Claim for Case {
    fn holds_of(&self, alloc: Global, tree: &Tree) -> bool {
        match Prefix::new(alloc, b"CONFIG_", false) {
            Ok(Some(prefix)) => leaves(alloc, tree, &prefix, self),
            _ => false,
        }
    }
}

// The lines, cut here into two chunks.
#[derive(Clone, Copy)]
struct Cut(usize);

impl Cut {
    // Whether the two chunks have the same result as all lines at once.
    fn leaves_all(&self, alloc: Global, tree: &Tree, prefix: &Prefix) -> bool {
        let at = self.0.min(LINES.len());
        match Trial::new(alloc, tree, prefix) {
            Ok(mut trial) => {
                trial.feed(&LINES[..at]).is_ok()
                    && trial.feed(&LINES[at..]).is_ok()
                    && trial.is_at(tree, &ALL)
            }
            Err(_) => false,
        }
    }
}

impl Claim for Cut {
    fn holds_of(&self, alloc: Global, tree: &Tree) -> bool {
        match Prefix::new(alloc, b"CONFIG_", false) {
            Ok(Some(prefix)) => self.leaves_all(alloc, tree, &prefix),
            _ => false,
        }
    }
}

#[test]
fn calls_tell_what_the_lines_that_they_end_warn_of(rt: HostRuntime) {
    for case in CASES {
        assert!(rt; is_true_of(rt.alloc(), KCONFIG, case), "{}", case.name);
    }
}

#[test]
fn the_lines_may_be_cut_at_each_byte(rt: HostRuntime) {
    for at in 0..LINES.len() {
        assert!(rt; is_true_of(rt.alloc(), KCONFIG, &Cut(at)), "{}", at);
    }
}
