//! Laws of needs and of equations over them, for any type of values. Each is the contract of a function that does nothing.

ghost use Rattle.kc_order.specs.Laws.{AlikeAreAccepted, AlikeHaveTheLoop, GraphNeedsAreWithin, SymbolsStandFirst, OrderedAreAccepted, CyclesAreUnordered, NamedLoopIsClosed, NamedLoopIsWithin, OneNamedLoop, NamedAreUnordered, UnorderedHaveALoop, AcceptedOrUnordered, AcceptedHaveOneSolution, SolutionsAgree, ComputingSolves, IterationsSolve, MinimalRestores, MinimalHasNothingToSpare};

/// Needs that have an order are accepted.
pub fn ordered_are_accepted()
    ensures { OrderedAreAccepted }
{}

/// If a path along needs comes back to its first symbol, that symbol is unordered. So each symbol of a cycle is
/// unordered.
pub fn cycles_are_unordered()
    ensures { CyclesAreUnordered }
{}

/// Each symbol of the reported loop needs the next one, and the last needs the first.
pub fn named_loop_is_closed()
    ensures { NamedLoopIsClosed }
{}

/// Each symbol of the reported loop is one of the symbols.
pub fn named_loop_is_within()
    ensures { NamedLoopIsWithin }
{}

/// The reported loop is unique for given needs and a given sequence. The sequence says which of several symbols is the first.
pub fn one_named_loop()
    ensures { OneNamedLoop }
{}

/// Needs are accepted, or some symbol is unordered. If one is, a loop is reported, provided that each need is a symbol and the
/// sequence has each symbol that needs some symbol. Otherwise no loop is reported.
pub fn unordered_have_a_loop()
    ensures either { AcceptedOrUnordered }
    ensures named { UnorderedHaveALoop }
    ensures back { NamedAreUnordered }
{}

/// Acceptance, and the loop that is reported for a sequence, do not depend on the order in which a symbol needs others, nor on
/// how often it needs them.
pub fn alike_needs()
    ensures accepted { AlikeAreAccepted }
    ensures named { AlikeHaveTheLoop }
{}

/// The symbols of a graph need only symbols. In an order of its nodes each symbol comes before what needs it, also through groups.
pub fn groups_stand_for_symbols()
    ensures within { GraphNeedsAreWithin }
    ensures first { SymbolsStandFirst }
{}

/// Equations that read only what is needed have one solution, if there is any value, the needs are accepted and each need is
/// a symbol.
pub fn accepted_have_one_solution<A>()
    ensures { AcceptedHaveOneSolution A }
{}

/// Any two solutions of such equations, over such needs, are the same.
pub fn solutions_agree<A>()
    ensures { SolutionsAgree A }
{}

/// Computing values along an order, each once, solves equations that read only what is needed.
pub fn computing_solves<A>()
    ensures { ComputingSolves A }
{}

/// As many iterations as there are symbols, each of which computes every equation anew, solve the equations, if these read
/// only what is needed, the needs are accepted and each need is a symbol.
pub fn iterations_solve<A>()
    ensures { IterationsSolve A }
{}

/// The lines of what differs give back the values and no others, if the equations read only what is needed, the needs are
/// accepted and each need is a symbol.
pub fn minimal_restores<A, Place, G>()
    ensures { MinimalRestores A Place G }
{}

/// Without any of those lines the values are no solution, if the equations read only what is needed and each need is a symbol.
pub fn minimal_has_nothing_to_spare<A, Place, G>()
    ensures { MinimalHasNothingToSpare A Place G }
{}
