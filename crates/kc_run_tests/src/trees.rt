//! Trees with all files that a run over them writes.

/// A tree, its `.config`, and the texts of a run with header and minimal file.
pub(crate) struct Turn {
    /// What the tree shows.
    pub name: &'static str,
    /// The root file.
    pub kconfig: &'static str,
    /// The `.config`.
    pub settings: &'static [u8],
    /// The full `.config`.
    pub config: &'static [u8],
    /// The header.
    pub header: &'static [u8],
    /// The minimal file.
    pub minimal: &'static [u8],
    /// The diagnostics.
    pub diagnostics: &'static [u8],
}

/// A tree of two symbols.
pub(crate) const TWO: &str = "config A\n\
    \tbool \"a\"\n\
    \tdefault y\n\
    \n\
    config B\n\
    \tbool \"b\"\n\
    \tdepends on A\n";

/// A tree of menus.
pub(crate) const MENUS: &str = "mainmenu \"Demo\"\n\
    menu \"one\"\n\
    menu \"two\"\n\
    config A\n\
    \tbool \"a\"\n\
    endmenu\n\
    endmenu\n\
    config B\n\
    \tbool \"b\"\n\
    menu \"three\"\n\
    endmenu\n";

/// The trees.
pub(crate) const TURNS: &[Turn] = &[
    Turn {
        name: "a number outside its range",
        kconfig: "config N\n\
            \tint \"n\"\n\
            \trange 5 10\n\
            \tdefault 20\n",
        settings: b"CONFIG_N=3\n",
        config: b"#\n\
            # Automatically generated file; DO NOT EDIT.\n\
            # Main menu\n\
            #\n\
            CONFIG_N=10\n",
        header: b"/*\n\
            \x20* Automatically generated file; DO NOT EDIT.\n\
            \x20* Main menu\n\
            \x20*/\n\
            #define CONFIG_N 10\n",
        minimal: b"",
        diagnostics: b"warning K12: user value 3 of N is outside 5 to 10\n\
            warning K13: default 20 of N is outside 5 to 10, 10 is used\n",
    },
    Turn {
        name: "menus in menus",
        kconfig: MENUS,
        settings: b"",
        config: b"#\n\
            # Automatically generated file; DO NOT EDIT.\n\
            # Demo\n\
            #\n\
            \n\
            #\n\
            # one\n\
            #\n\
            \n\
            #\n\
            # two\n\
            #\n\
            # CONFIG_A is not set\n\
            # end of two\n\
            # end of one\n\
            \n\
            # CONFIG_B is not set\n\
            \n\
            #\n\
            # three\n\
            #\n\
            # end of three\n",
        header: b"/*\n\
            \x20* Automatically generated file; DO NOT EDIT.\n\
            \x20* Demo\n\
            \x20*/\n",
        minimal: b"",
        diagnostics: b"",
    },
    Turn {
        name: "a dependency that holds",
        kconfig: TWO,
        settings: b"",
        config: b"#\n\
            # Automatically generated file; DO NOT EDIT.\n\
            # Main menu\n\
            #\n\
            CONFIG_A=y\n\
            # CONFIG_B is not set\n",
        header: b"/*\n\
            \x20* Automatically generated file; DO NOT EDIT.\n\
            \x20* Main menu\n\
            \x20*/\n\
            #define CONFIG_A 1\n",
        minimal: b"",
        diagnostics: b"",
    },
    Turn {
        name: "the warnings of a .config and a minimal file",
        kconfig: TWO,
        settings: b"CONFIG_A=y\n\
            CONFIG_Q=y\n\
            CONFIG_B=m\n\
            junk\n\
            # CONFIG_A is not set\n",
        config: b"#\n\
            # Automatically generated file; DO NOT EDIT.\n\
            # Main menu\n\
            #\n\
            # CONFIG_A is not set\n",
        header: b"/*\n\
            \x20* Automatically generated file; DO NOT EDIT.\n\
            \x20* Main menu\n\
            \x20*/\n",
        minimal: b"# CONFIG_A is not set\n",
        diagnostics: b".config:2: warning K7: unknown symbol Q\n\
            .config:3: warning K8: value not allowed for B\n\
            .config:4: warning K9: malformed line\n\
            .config:5: warning K10: A is set again\n",
    },
    Turn {
        name: "the last y of a choice, and a string with escapes",
        kconfig: "choice\n\
            \tprompt \"c\"\n\
            \tdefault B\n\
            config A\n\
            \tbool \"a\"\n\
            config B\n\
            \tbool \"b\"\n\
            config C\n\
            \tbool \"c\"\n\
            endchoice\n\
            config S\n\
            \tstring \"s\"\n\
            \tdefault \"a\"\n",
        settings: b"CONFIG_A=y\n\
            CONFIG_C=y\n\
            CONFIG_S=\"q\\\"\\\\z\" tail",
        config: b"#\n\
            # Automatically generated file; DO NOT EDIT.\n\
            # Main menu\n\
            #\n\
            # CONFIG_A is not set\n\
            # CONFIG_B is not set\n\
            CONFIG_C=y\n\
            CONFIG_S=\"q\\\"\\\\z\"\n",
        header: b"/*\n\
            \x20* Automatically generated file; DO NOT EDIT.\n\
            \x20* Main menu\n\
            \x20*/\n\
            #define CONFIG_C 1\n\
            #define CONFIG_S \"q\\\"\\\\z\"\n",
        minimal: b"CONFIG_C=y\n\
            CONFIG_S=\"q\\\"\\\\z\"\n",
        diagnostics: b"",
    },
    Turn {
        name: "a value within a select, a line that ends in a carriage return, and a symbol that is not given",
        kconfig: "config MODULES\n\
            \tdef_bool y\n\
            config T\n\
            \ttristate\n\
            \tdefault m\n\
            \tselect A\n\
            config A\n\
            \ttristate \"a\" if T\n\
            \tdefault y\n\
            config I\n\
            \tint \"i\"\n\
            \tdefault 3\n",
        settings: b"CONFIG_A=m\r\n\
            \n\
            # text\n",
        config: b"#\n\
            # Automatically generated file; DO NOT EDIT.\n\
            # Main menu\n\
            #\n\
            CONFIG_MODULES=y\n\
            CONFIG_T=m\n\
            CONFIG_A=m\n\
            CONFIG_I=3\n",
        header: b"/*\n\
            \x20* Automatically generated file; DO NOT EDIT.\n\
            \x20* Main menu\n\
            \x20*/\n\
            #define CONFIG_MODULES 1\n\
            #define CONFIG_T_MODULE 1\n\
            #define CONFIG_A_MODULE 1\n\
            #define CONFIG_I 3\n",
        minimal: b"CONFIG_A=m\n",
        diagnostics: b"",
    },
];
