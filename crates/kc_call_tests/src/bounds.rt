//! Bounds of what symbols may be (kc_possible): the prompts that no input can make visible, and the values that none can give.

ghost use Rattle.kc_possible.specs.Possible.{IsSound};

use crate::trial::{Claim, is_true_of};
use kc_expr::expression::Tri;
use kc_possible::dead::{dead_prompts, may_be};
use kc_possible::possible::Possible;
use kc_solve::evaluation_order::EvaluationOrder;
use kc_tree::tree::Tree;
use kc_values::table::name;
use std::alloc::{AllocError, Global};

// A symbol and a truth value.
struct Value {
    name: &'static [u8],
    value: Tri,
}

// What the bounds of a tree must show.
struct Expected {
    // What the tree shows.
    name: &'static str,
    kconfig: &'static [u8],
    // The symbols whose prompts no input makes visible, each name with a blank behind it.
    dead: &'static [u8],
    // Values that some input gives.
    possible: &'static [Value],
    // Values that no input gives.
    impossible: &'static [Value],
}

// The names of the symbols that are listed as dead, each with a blank behind it.
fn dead_names(alloc: Global, p: &Possible<'_>) -> Result<Vec<u8>, AllocError>
    requires { IsSound p.now }
{
    let mut names = Vec::new(alloc);
    for id in dead_prompts(alloc, p)?.iter() {
        names.extend_from_slice(name(p.laid.tree, *id))?;
        names.push(b' ')?;
    }
    Ok(names)
}

// Whether the bounds allow each of these values; or none of them.
fn all_are(p: &Possible<'_>, values: &[Value], is_possible: bool) -> bool
    requires { IsSound p.now }
{
    for one in values {
        let Some(id) = p.laid.tree.find(one.name) else {
            return false;
        };
        if may_be(p, id, one.value) != is_possible {
            return false;
        }
    }
    true
}

impl Claim for Expected {
    fn holds_of(&self, alloc: Global, tree: &Tree) -> bool {
        let laid = tree.laid();
        let Ok(order) = EvaluationOrder::of(alloc, &laid) else {
            return false;
        };
        let Ok(possible) = Possible::of(alloc, &laid, order.nodes()) else {
            return false;
        };
        match dead_names(alloc, &possible) {
            Ok(names) => {
                names.as_slice() == self.dead
                    && all_are(&possible, self.possible, true)
                    && all_are(&possible, self.impossible, false)
            }
            Err(_) => false,
        }
    }
}

const DEAD: &[Expected] = &[
    Expected {
        name: "a dependency on a name that is not defined",
        kconfig: b"config A\n\tbool \"a\"\n\tdepends on GHOST\nconfig B\n\tbool \"b\"\n\tdepends on !GHOST\n",
        dead: b"A ",
        possible: &[
            Value {
                name: b"A",
                value: Tri::N,
            },
            Value {
                name: b"B",
                value: Tri::N,
            },
            Value {
                name: b"B",
                value: Tri::Y,
            },
        ],
        impossible: &[Value {
            name: b"A",
            value: Tri::Y,
        }],
    },
    Expected {
        name: "a dependency that nothing turns on",
        kconfig: b"config X\n\tbool\nconfig A\n\tbool \"a\"\n\tdepends on X\nconfig B\n\tbool \"b\"\n\tdepends on A || X\n",
        dead: b"A B ",
        possible: &[],
        impossible: &[Value {
            name: b"X",
            value: Tri::Y,
        }],
    },
    Expected {
        name: "a dependency that a select or an imply turns on",
        kconfig: b"config X\n\tbool\nconfig Y\n\tbool\nconfig S\n\tbool \"s\"\n\tselect X\n\timply Y\nconfig A\n\tbool \"a\"\n\
            \tdepends on X && Y\n",
        dead: b"",
        possible: &[
            Value {
                name: b"X",
                value: Tri::Y,
            },
            Value {
                name: b"Y",
                value: Tri::Y,
            },
            Value {
                name: b"A",
                value: Tri::Y,
            },
        ],
        impossible: &[],
    },
    Expected {
        name: "the first of two selects turns it on",
        kconfig: b"config X\n\tbool\nconfig S\n\tbool \"s\"\n\tselect X\nconfig T\n\tbool \"t\"\n\tdepends on GHOST\n\tselect X\n\
            config A\n\tbool \"a\"\n\tdepends on X\n",
        dead: b"T ",
        possible: &[Value {
            name: b"A",
            value: Tri::Y,
        }],
        impossible: &[Value {
            name: b"T",
            value: Tri::Y,
        }],
    },
    Expected {
        name: "a constant that is y",
        kconfig: b"config X\n\tdef_bool y\nconfig A\n\tbool \"a\"\n\tdepends on !X\nconfig B\n\tbool \"b\"\n\tdepends on X = n\n\
            config C\n\tbool \"c\"\n\tdepends on X != n\n",
        dead: b"A B ",
        possible: &[Value {
            name: b"C",
            value: Tri::Y,
        }],
        impossible: &[
            Value {
                name: b"X",
                value: Tri::N,
            },
            Value {
                name: b"B",
                value: Tri::Y,
            },
        ],
    },
    Expected {
        name: "relations with a symbol that may have each value",
        kconfig: b"config S\n\tbool \"s\"\nconfig A\n\tbool \"a\"\n\tdepends on S = y\nconfig B\n\tbool \"b\"\n\tdepends on S = n\n\
            config C\n\tbool \"c\"\n\tdepends on S = \"x\"\n",
        dead: b"C ",
        possible: &[
            Value {
                name: b"A",
                value: Tri::Y,
            },
            Value {
                name: b"B",
                value: Tri::Y,
            },
        ],
        impossible: &[],
    },
    Expected {
        name: "a text may be any",
        kconfig: b"config S\n\tstring \"s\"\nconfig A\n\tbool \"a\"\n\tdepends on S = \"x\"\n",
        dead: b"",
        possible: &[Value {
            name: b"A",
            value: Tri::Y,
        }],
        impossible: &[Value {
            name: b"S",
            value: Tri::Y,
        }],
    },
    Expected {
        name: "menus and if blocks that are never shown",
        kconfig: b"menu \"m\"\n\tvisible if GHOST\nconfig A\n\tbool \"a\"\n\tdefault y\nendmenu\nif GHOST\nconfig B\n\tbool \"b\"\nendif\n\
            menu \"n\"\n\tdepends on GHOST\nif A\nconfig C\n\tbool \"c\"\nendif\nendmenu\n",
        dead: b"A B C ",
        possible: &[],
        impossible: &[
            Value {
                name: b"A",
                value: Tri::N,
            },
            Value {
                name: b"B",
                value: Tri::Y,
            },
            Value {
                name: b"C",
                value: Tri::Y,
            },
        ],
    },
    Expected {
        name: "one of two prompts can be visible",
        kconfig: b"config A\n\tbool \"a\" if GHOST\nconfig A\n\tbool \"again\"\n",
        dead: b"",
        possible: &[Value {
            name: b"A",
            value: Tri::Y,
        }],
        impossible: &[],
    },
    Expected {
        name: "members of a choice",
        kconfig: b"config U\n\tbool \"u\"\nchoice\n\tprompt \"c\"\n\tdepends on U\nconfig M\n\tbool \"m\"\nconfig O\n\tbool \"o\"\n\
            \tdepends on GHOST\nendchoice\nconfig A\n\tbool \"a\"\n\tdepends on O\n",
        dead: b"O A ",
        possible: &[
            Value {
                name: b"M",
                value: Tri::N,
            },
            Value {
                name: b"M",
                value: Tri::Y,
            },
        ],
        impossible: &[Value {
            name: b"O",
            value: Tri::Y,
        }],
    },
    Expected {
        name: "a choice that is never shown",
        kconfig: b"choice\n\tprompt \"c\" if GHOST\nconfig M\n\tbool \"m\"\nconfig O\n\tbool \"o\"\nendchoice\n",
        dead: b"M O ",
        possible: &[],
        impossible: &[Value {
            name: b"M",
            value: Tri::Y,
        }],
    },
    Expected {
        name: "m without and with a modules symbol",
        kconfig: b"config T\n\ttristate \"t\"\n\tdepends on m\n",
        dead: b"T ",
        possible: &[],
        impossible: &[Value {
            name: b"T",
            value: Tri::M,
        }],
    },
    Expected {
        name: "a tristate that is m",
        kconfig: b"config MODULES\n\tbool \"modules\"\n\tmodules\nconfig T\n\ttristate \"t\"\n\tdepends on m\n",
        dead: b"",
        possible: &[Value {
            name: b"T",
            value: Tri::M,
        }],
        impossible: &[],
    },
];

#[test]
fn prompts_that_no_input_shows_are_listed(rt: HostRuntime) {
    for expected in DEAD {
        assert!(rt;
            is_true_of(rt.alloc(), expected.kconfig, expected),
            "{}",
            expected.name
        );
    }
}
