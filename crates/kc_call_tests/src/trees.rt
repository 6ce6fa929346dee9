//! Trees and user values on which the solver and the plain slow solver must agree. Cases of whole runs show the
//! results.

use crate::trial::Setting;
use kc_expr::expression::Tri;

/// A tree and user values.
pub(crate) struct Setup {
    /// What the tree shows.
    pub name: &'static str,
    /// The Kconfig file.
    pub kconfig: &'static [u8],
    /// The user values.
    pub given: &'static [Setting],
}

/// Dependencies, defaults, prompts and definitions.
pub(crate) const TRUTHS: &[Setup] = &[
    Setup {
        name: "a dependency that holds",
        kconfig: b"config A\n\tbool \"a\"\n\tdefault y\n\nconfig B\n\tbool \"b\"\n\tdepends on A\n",
        given: &[],
    },
    Setup {
        name: "a dependency that holds, and a value given under it",
        kconfig: b"config A\n\tbool \"a\"\n\tdefault y\n\nconfig B\n\tbool \"b\"\n\tdepends on A\n",
        given: &[Setting::Truth(b"B", Tri::Y)],
    },
    Setup {
        name: "a dependency that the user makes n",
        kconfig: b"config A\n\tbool \"a\"\n\tdefault y\n\nconfig B\n\tbool \"b\"\n\tdepends on A\n",
        given: &[Setting::Truth(b"A", Tri::N)],
    },
    Setup {
        name: "the last value given counts",
        kconfig: b"config A\n\tbool \"a\"\n\tdefault y\n\nconfig B\n\tbool \"b\"\n\tdepends on A\n",
        given: &[
            Setting::Truth(b"A", Tri::N),
            Setting::Truth(b"B", Tri::Y),
            Setting::Truth(b"A", Tri::Y),
        ],
    },
    Setup {
        name: "an empty tree",
        kconfig: b"",
        given: &[],
    },
    Setup {
        name: "a default that names a later symbol that is y",
        kconfig: b"config A\n\tbool\n\tdefault B\nconfig B\n\tbool\n\tdefault y\n",
        given: &[],
    },
    Setup {
        name: "a default that names a later symbol that is n",
        kconfig: b"config A\n\tbool \"a\"\n\tdefault B\nconfig B\n\tbool \"b\"\n",
        given: &[],
    },
    Setup {
        name: "two definitions of one symbol, the second in an if",
        kconfig: b"config X\n\tbool \"x\"\nconfig Z\n\tbool \"z\"\nif X\nconfig Z\n\tbool \"z\"\nendif\n",
        given: &[],
    },
    Setup {
        name: "two definitions of one symbol, the first in a menu",
        kconfig: b"config A\n\tbool \"a\"\nmenu \"m\"\n\tdepends on A\nconfig B\n\tbool \"b\"\nendmenu\n\
            config B\n\tbool \"again\"\n\tdefault y\n",
        given: &[],
    },
    Setup {
        name: "help",
        kconfig: b"config A\n\tbool \"a\"\n\thelp\n\t  text\n\n\t  config Q\ndefault y\n",
        given: &[],
    },
    Setup {
        name: "prompts and defaults",
        kconfig: b"config A\n\tbool \"a\"\n\tdefault y\nconfig B\n\tbool \"b\"\n\tdefault n\nconfig C\n\tbool\n\tdefault y\n",
        given: &[],
    },
    Setup {
        name: "prompts and defaults, and values given",
        kconfig: b"config A\n\tbool \"a\"\n\tdefault y\nconfig B\n\tbool \"b\"\n\tdefault n\nconfig C\n\tbool\n\tdefault y\n",
        given: &[Setting::Truth(b"B", Tri::Y), Setting::Truth(b"C", Tri::N)],
    },
    Setup {
        name: "64 levels",
        kconfig: b"config A\n\tdef_bool !!!!!!!!!!!!!!!!!!!!!!!!!!!!!!!!!!!!!!!!!!!!!!!!!!!!!!!!!!!!!!!!y\n",
        given: &[],
    },
    Setup {
        name: "a plain m in the value of a default needs no modules symbol",
        kconfig: b"config MODULES\n\tbool \"m\"\n\tdefault m\n",
        given: &[],
    },
    Setup {
        name: "a member's own default is no need",
        kconfig: b"config B\n\tbool \"b\"\n\tdepends on A\nchoice\n\tprompt \"c\"\nconfig A\n\tbool \"a\"\n\tdefault B\nendchoice\n",
        given: &[],
    },
    Setup {
        name: "the default of a symbol without a type is no need",
        kconfig: b"config A\n\tdefault B\nconfig B\n\tdef_bool A\n",
        given: &[],
    },
    Setup {
        name: "a name that is not defined is no need",
        kconfig: b"config A\n\tdef_bool B\n",
        given: &[],
    },
    Setup {
        name: "the condition of a choice's default that names no member is no need",
        kconfig: b"config B\n\tbool \"b\"\n\tdepends on A\nchoice\n\tprompt \"c\"\n\tdefault B if B\nconfig A\n\tbool \"a\"\nendchoice\n",
        given: &[],
    },
];

/// Select, imply, menus, limits and modules.
pub(crate) const LIMITS: &[Setup] = &[
    Setup {
        name: "a select holds against the dependency",
        kconfig: b"config A\n\tbool \"a\"\n\tdefault y\n\tselect B\nconfig B\n\tbool \"b\"\n\tdepends on C\nconfig C\n\tbool \"c\"\n",
        given: &[],
    },
    Setup {
        name: "an imply keeps within the dependency",
        kconfig: b"config MODULES\n\tdef_bool y\nconfig FOO\n\ttristate \"foo\"\n\tdefault y\n\timply BAZ\n\
            config BAR\n\ttristate \"bar\"\n\tdefault m\nconfig BAZ\n\ttristate \"baz\"\n\tdepends on BAR\n",
        given: &[],
    },
    Setup {
        name: "an imply gives nothing where the dependency is n",
        kconfig: b"config A\n\tdef_bool y\n\timply B\nconfig B\n\tbool\n\tdepends on C\nconfig C\n\tbool \"c\"\n",
        given: &[],
    },
    Setup {
        name: "an imply gives way to a user's value",
        kconfig: b"config A\n\tdef_bool y\n\timply B\nconfig B\n\tbool \"b\"\n",
        given: &[Setting::Truth(b"B", Tri::N)],
    },
    Setup {
        name: "without modules m counts as y",
        kconfig: b"config A\n\ttristate \"a\"\n\tdefault m\nconfig B\n\ttristate \"b\"\n",
        given: &[Setting::Truth(b"B", Tri::M)],
    },
    Setup {
        name: "what hides a prompt hides no default and no select",
        kconfig: b"config A\n\tdef_bool y\n\tselect B\nmenu \"hidden\"\n\tvisible if n\nconfig B\n\tbool \"b\"\n\
            config C\n\tbool \"c\"\n\tdefault y\nendmenu\n",
        given: &[],
    },
    Setup {
        name: "menus in menus, and a menu that is empty",
        kconfig: b"mainmenu \"Demo\"\nmenu \"one\"\nmenu \"two\"\nconfig A\n\tbool \"a\"\nendmenu\nendmenu\n\
            config B\n\tbool \"b\"\nmenu \"three\"\nendmenu\n",
        given: &[],
    },
    Setup {
        name: "a user's value within a select",
        kconfig: b"config MODULES\n\tdef_bool y\nconfig T\n\ttristate\n\tdefault m\n\tselect A\n\
            config A\n\ttristate \"a\" if T\n\tdefault y\n",
        given: &[Setting::Truth(b"A", Tri::M)],
    },
    Setup {
        name: "a default above the limit of its prompt",
        kconfig: b"config MODULES\n\tdef_bool y\nconfig T\n\ttristate\n\tdefault m\nconfig A\n\ttristate \"a\" if T\n\tdefault y\n",
        given: &[],
    },
    Setup {
        name: "a default above the limit of its prompt, and the same value as the user's",
        kconfig: b"config MODULES\n\tdef_bool y\nconfig T\n\ttristate\n\tdefault m\nconfig A\n\ttristate \"a\" if T\n\tdefault y\n",
        given: &[
            Setting::Truth(b"MODULES", Tri::Y),
            Setting::Truth(b"T", Tri::M),
            Setting::Truth(b"A", Tri::Y),
        ],
    },
    Setup {
        name: "a plain m without modules",
        kconfig: b"config A\n\tbool \"a\"\n\tdepends on m\n",
        given: &[],
    },
    Setup {
        name: "the modules symbol",
        kconfig: b"config LKM\n\tbool \"l\"\n\tdefault y\n\tmodules\nconfig A\n\ttristate \"a\"\n\tdefault m\n",
        given: &[],
    },
    Setup {
        name: "the modules symbol, and n given for it",
        kconfig: b"config LKM\n\tbool \"l\"\n\tdefault y\n\tmodules\nconfig A\n\ttristate \"a\"\n\tdefault m\n\
            config MODULES\n\tdef_bool y\n",
        given: &[Setting::Truth(b"LKM", Tri::N)],
    },
];

/// Strings and numbers.
pub(crate) const TEXTS: &[Setup] = &[
    Setup {
        name: "a number outside its range is dropped, and a default is clamped",
        kconfig: b"config N\n\tint \"n\"\n\trange 5 10\n\tdefault 20\n",
        given: &[Setting::Text(b"N", b"3")],
    },
    Setup {
        name: "a number at the bound of its range counts",
        kconfig: b"config N\n\tint \"n\"\n\trange 5 10\n\tdefault 20\n",
        given: &[Setting::Text(b"N", b"10")],
    },
    Setup {
        name: "a number counts as it is spelled",
        kconfig: b"config N\n\tint \"n\"\n\trange 5 10\n\tdefault 20\n",
        given: &[Setting::Text(b"N", b"010")],
    },
    Setup {
        name: "a user's value that is hidden",
        kconfig: b"config N\n\tint \"n\" if n\n\trange 5 10\n\tdefault 20\n",
        given: &[Setting::Text(b"N", b"3")],
    },
    Setup {
        name: "hex without a range",
        kconfig: b"config X\n\thex \"x\"\n",
        given: &[Setting::Text(b"X", b"ff")],
    },
    Setup {
        name: "hex without a default takes the low bound",
        kconfig: b"config X\n\thex \"x\"\n\trange 0x10 0x1F\n",
        given: &[],
    },
    Setup {
        name: "hex counts as it is spelled",
        kconfig: b"config X\n\thex \"x\"\n\trange 0x10 0x1F\n",
        given: &[Setting::Text(b"X", b"0X1f")],
    },
    Setup {
        name: "quotes and backslashes",
        kconfig: b"config S\n\tstring \"s\"\n\tdefault \"a\"\n",
        given: &[Setting::Text(b"S", b"q\"\\z")],
    },
    Setup {
        name: "relations",
        kconfig: b"config I\n\tint\n\tdefault 10\nconfig S\n\tstring\n\tdefault \"FOO\"\nconfig A\n\tdef_bool I > 9\n\
            config B\n\tdef_bool \"10\" < \"9\"\nconfig D\n\tdef_bool S = FOO\nconfig E\n\tdef_bool !I=9\n",
        given: &[],
    },
    Setup {
        name: "relations of numbers and of names that are not defined",
        kconfig: b"config A\n\tdef_bool \"10\" < \"9\"\nconfig B\n\tdef_bool \"0x10\" = 16\nconfig D\n\tdef_bool !X=Y\n",
        given: &[],
    },
    Setup {
        name: "an int without a default and without a range is empty",
        kconfig: b"config I\n\tint \"i\"\nconfig A\n\tdef_bool I = 0\nconfig B\n\tdef_bool I < 0\n",
        given: &[],
    },
    Setup {
        name: "what is no number is clamped as 0 from above",
        kconfig: b"config I\n\tint \"i\"\n\trange -5 -2\n\tdefault FOO\n",
        given: &[],
    },
    Setup {
        name: "a number below its range is clamped",
        kconfig: b"config I\n\tint \"i\"\n\trange -5 -2\n\tdefault -9\n",
        given: &[],
    },
    Setup {
        name: "what is no number counts where 0 is inside",
        kconfig: b"config I\n\tint \"i\"\n\trange -5 5\n\tdefault FOO\n",
        given: &[],
    },
];

/// Choices.
pub(crate) const CHOICES: &[Setup] = &[
    Setup {
        name: "the member that was chosen last",
        kconfig: b"choice\n\tprompt \"c\"\n\tdefault B\nconfig A\n\tbool \"a\"\nconfig B\n\tbool \"b\"\nconfig C\n\tbool \"c\"\nendchoice\n",
        given: &[Setting::Member(b"A"), Setting::Member(b"C")],
    },
    Setup {
        name: "the default member, none being chosen",
        kconfig: b"choice\n\tprompt \"c\"\n\tdefault B\nconfig A\n\tbool \"a\"\nconfig B\n\tbool \"b\"\nconfig C\n\tbool \"c\"\nendchoice\n",
        given: &[],
    },
    Setup {
        name: "the default member, chosen",
        kconfig: b"choice\n\tprompt \"c\"\n\tdefault B\nconfig A\n\tbool \"a\"\nconfig B\n\tbool \"b\"\nconfig C\n\tbool \"c\"\nendchoice\n",
        given: &[Setting::Member(b"B")],
    },
    Setup {
        name: "a hidden member gives way to the default",
        kconfig: b"config D\n\tbool \"d\"\nchoice\n\tprompt \"c\"\n\tdefault B\nconfig A\n\tbool \"a\"\nconfig B\n\tbool \"b\"\n\
            config C\n\tbool \"c\"\n\tdepends on D\nendchoice\n",
        given: &[Setting::Member(b"C")],
    },
    Setup {
        name: "a choice whose prompt is hidden",
        kconfig: b"config D\n\tbool \"d\"\nchoice\n\tprompt \"c\" if D\nconfig A\n\tbool \"a\"\nendchoice\n",
        given: &[Setting::Member(b"A")],
    },
    Setup {
        name: "the first visible member where no default counts, and what counts for nothing",
        kconfig: b"config A\n\tbool \"a\"\n\tstring \"s\"\nconfig B\nconfig C\n\tdef_bool y\n\tselect D\n\timply D\n\tselect E\n\
            config D\n\tint \"d\"\nchoice\n\tprompt \"ch\"\n\tdefault C\nconfig E\n\tbool \"e\"\nendchoice\n",
        given: &[],
    },
    Setup {
        name: "a member's own default counts for nothing",
        kconfig: b"choice\n\tprompt \"c\"\nconfig A\n\tbool \"a\"\nconfig B\n\tbool \"b\"\n\tdefault y\nendchoice\n",
        given: &[],
    },
];
