//! The laws of explanations, stated as the contracts of functions that do nothing.
ghost use Rattle.kc_outcome.specs.Explanations.{FactsHold, FactsSuffice, HoldersHideIt, HoldersHold, WordsDecide};

/// A law: each fact about a symbol holds, under any tree, input and values.
pub fn facts_hold()
    ensures { FactsHold }
{}

/// A law: the facts suffice. Take the one solution of a tree for an input, and any other input and values under which the facts
/// about a symbol hold. Then the equation of the symbol gives it the same value.
pub fn facts_suffice()
    ensures { FactsSuffice }
{}

/// A law: while the symbols that hold a symbol down keep their values, no condition of its facts rises, and the default and the
/// range that count give the same.
pub fn holders_hold()
    ensures { HoldersHold }
{}

/// A law: so neither the visibility of the symbol nor its direct dependency rises, before the upgrade of m.
pub fn holders_hide_it()
    ensures { HoldersHideIt }
{}

/// A law: what is printed suffices. If the lines about a symbol read the same for two inputs of one tree, apart from the
/// locations in input files, the symbol has the same value.
pub fn words_decide()
    ensures { WordsDecide }
{}
