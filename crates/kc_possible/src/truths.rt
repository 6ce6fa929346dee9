//! What a bool or tristate symbol may be, from the bounds of what it needs.

ghost use Rattle.std.specs.Prelude.{◌≡◌, Option, Some, false, find, map, option_map, true};
ghost use Rattle.std.specs.List.{filter_map};
ghost use Rattle.kc_language.specs.declared.expressions.SymId.{SymId};
ghost use Rattle.kc_language.specs.declared.symbols.SelectOrImply.{SelectOrImply};
ghost use Rattle.kc_language.specs.Expressions.{SymbolValue, truth_of_value};
ghost use Rattle.kc_language.specs.declared.expressions.Tri.{TheVariants.{N}, Tri};
ghost use Rattle.kc_language.specs.Symbols.{listed, stated_default};
ghost use Rattle.kc_language.specs.Values.{above};
ghost use Rattle.kc_language.specs.Values as values;
ghost use Rattle.kc_tree.specs.Layouts.{condition_at, default_view, prompt_when, said_at, selector_facts, selectors_up_to};
ghost use Rattle.kc_tree.specs.LineParts.{default_said};
ghost use Rattle.kc_possible.specs.Possible.{Allows};
ghost use Rattle.kc_possible.specs.PartsOfPossible.{Covers, IsLineAt, IsNeverM, IsRowOf, facts_in, greatest_default, member_value};

use crate::bounds::Bounds;
use crate::conditions::{context, line_bounds, mode, prompt_bounds};
use crate::expression::{expression, symbol, type_of};
use crate::possible::Possible;
use kc_entries::statement::SymbolDefault;
use kc_expr::expression::{SymId, SymbolType, Tri};
use kc_tree::attributes::stated_default;
use kc_tree::rows::{ChoiceId, EntryId, EntryPlace, Selector, SelectorId, Symbol};

// What the modules symbol may be; n without one.
fn modules(p: &Possible<'_>) -> Bounds
    ensures { Covers p.now result (λ known. values.modules_value known p.now.laid.tree.now.modules) }
{
    match p.laid.tree.modules_symbol() {
        Some(id) => symbol(p, id),
        None => Bounds::exactly(Tri::N),
    }
}

// Whether the modules symbol is always n, or there is none.
fn is_without_modules(p: &Possible<'_>) -> bool
    ensures { result ≡ true → (known : SymId → SymbolValue) → Allows p.now known → values.modules_value known p.now.laid.tree.now.modules ≡ N }
{
    modules(p).high == Tri::N
}

/// Whether a symbol is never m: one that is no tristate, and a tristate if the modules symbol is always n.
pub(crate) fn is_never_m(p: &Possible<'_>, id: SymId) -> bool
    ensures { result ≡ true → IsNeverM p.now id }
{
    if type_of(p, id) == SymbolType::Tristate {
        return is_without_modules(p);
    }
    true
}

// With y for m where the type is not tristate under the values: what a value between these may then be.
fn upgraded(p: &Possible<'_>, symbol_type: SymbolType, bounds: Bounds) -> Bounds
    ensures { (worth : (SymId → SymbolValue) → Tri) → Covers p.now bounds worth → Covers p.now result (λ known. values.upgraded p.now.laid.tree.now known symbol_type (worth known)) }
{
    if symbol_type != SymbolType::Tristate {
        return bounds.upgrade();
    }
    let modules = match p.laid.tree.modules_symbol() {
        Some(id) => symbol(p, id),
        None => Bounds::exactly(Tri::N),
    };
    if modules.low != Tri::N {
        bounds
    } else if modules.high == Tri::N {
        bounds.upgrade()
    } else {
        bounds.join(bounds.upgrade())
    }
}

// What the condition of the prompt of a definition with this place may be; n without one.
fn prompt_visibility(p: &Possible<'_>, place: EntryPlace) -> Bounds
    ensures { Covers p.now result (λ known. values.conditions p.now.laid.tree.now known (listed (prompt_when p.now.laid.layout.now (condition_at p.now.laid.layout.now place.context.0) place))) }
{
    match p.laid.layout.prompt(place) {
        Some(prompt) => prompt_bounds(p, place, prompt),
        None => Bounds::exactly(Tri::N),
    }
}

/// What the greatest condition of the prompts of a symbol may be; n without a prompt.
pub(crate) fn prompts_bounds(p: &Possible<'_>, id: SymId, row: &Symbol) -> Bounds
    requires { IsRowOf p.now id row.now }
    ensures { Covers p.now result (λ known. values.conditions p.now.laid.tree.now known (facts_in p.now id row.now).prompts) }
{
    let mut greatest = Bounds::exactly(Tri::N);
    let mut at = row.first;
    'definitions: while at.is_some() {
        let place = p.laid.layout.place(at);
        greatest = greatest.greater(prompt_visibility(p, place));
        at = place.next;
    }
    greatest
}

// What the direct dependency of a symbol may be.
fn direct_bounds(p: &Possible<'_>, id: SymId, row: &Symbol) -> Bounds
    requires { IsRowOf p.now id row.now }
    ensures { Covers p.now result (λ known. values.direct p.now.laid.tree.now known (facts_in p.now id row.now)) }
{
    let mut greatest = Bounds::exactly(Tri::N);
    let mut at = row.first;
    'definitions: while at.is_some() {
        let place = p.laid.layout.place(at);
        greatest = greatest.greater(context(p, place.context));
        at = place.next;
    }
    upgraded(p, row.symbol_type, greatest)
}

// What min(value of the other symbol, condition) of a `select` or `imply` line may be.
fn selector_bounds(p: &Possible<'_>, line: &Selector) -> Bounds
    ensures { Covers p.now result (λ known. values.selector_values p.now.laid.tree.now known (listed (selector_facts p.now.laid.layout.now line.now))) }
{
    let Some(source) = p.laid.layout.symbol_of(line.entry) else {
        return Bounds::exactly(Tri::N);
    };
    match p.laid.layout.target(line) {
        Some(target) => {
            let within = p.laid.layout.place(line.entry).context;
            symbol(p, source).lesser(line_bounds(p, within, target.when))
        }
        None => Bounds::exactly(Tri::N),
    }
}

// What the greatest of them may be, from the last line on.
fn selectors_bounds(p: &Possible<'_>, last: SelectorId) -> Bounds
    requires { (w : SelectOrImply) × (s : SymId) × IsLineAt p.now w s last.0 }
    ensures { (w : SelectOrImply) (s : SymId) → IsLineAt p.now w s last.0 →
        Covers p.now result (λ known. values.selector_values p.now.laid.tree.now known (selectors_up_to p.now.laid.layout.now w s last.0)) }
{
    let mut greatest = Bounds::exactly(Tri::N);
    let mut at = last;
    'lines: while let Some(line) = p.laid.layout.selector(at) {
        greatest = greatest.greater(selector_bounds(p, line));
        at = line.next;
    }
    greatest
}

/// What a symbol may be selected to (our own).
pub fn selected_bounds(p: &Possible<'_>, id: SymId, row: &Symbol) -> Bounds
    requires { IsRowOf p.now id row.now }
    ensures { Covers p.now result (λ known. values.selected_to p.now.laid.tree.now known (facts_in p.now id row.now)) }
{
    upgraded(p, row.symbol_type, selectors_bounds(p, row.last_select))
}

/// What a symbol may be implied to (our own).
pub fn implied_to_bounds(p: &Possible<'_>, id: SymId, row: &Symbol) -> Bounds
    requires { IsRowOf p.now id row.now }
    ensures { Covers p.now result (λ known. values.implied_to p.now.laid.tree.now known (facts_in p.now id row.now)) }
{
    upgraded(p, row.symbol_type, selectors_bounds(p, row.last_imply))
}

// What min(value, condition) of a default may be.
fn default_bounds(p: &Possible<'_>, within: EntryId, default: &SymbolDefault) -> Bounds
    ensures { Covers p.now result (λ known. values.default_value p.now.laid.tree.now known (Some (default_view (condition_at p.now.laid.layout.now within.0) (default_said default.now)))) }
{
    expression(p, &default.value).lesser(line_bounds(p, within, &default.when))
}

// What the greatest of the defaults of a definition may be.
fn defaults_of(p: &Possible<'_>, at: EntryId, place: EntryPlace) -> Bounds
    ensures { Covers p.now result (λ known. greatest_default p.now.laid.tree.now known
        (map (default_view (condition_at p.now.laid.layout.now place.context.0)) (filter_map stated_default (said_at p.now.laid.layout.now at.0)))) }
{
    let mut greatest = Bounds::exactly(Tri::N);
    for line in p.laid.layout.attributes(at) {
        if let Some(default) = stated_default(&line.attribute) {
            greatest = greatest.greater(default_bounds(p, place.context, default));
        }
    }
    greatest
}

/// The first default of a symbol's first definition.
pub(crate) fn first_default<'t>(p: &Possible<'t>, row: &Symbol) -> Option<&'t SymbolDefault>
    ensures { option_map (λ d. default_said d.now) result ≡ find (λ d. true) (filter_map stated_default (said_at p.now.laid.layout.now row.now.first.0)) }
{
    for line in p.laid.layout.attributes(row.first) {
        if let Some(default) = stated_default(&line.attribute) {
            return Some(default);
        }
    }
    None
}

// The least that the default may be: that of the first line, if its condition is met in any case.
fn lowest_default(p: &Possible<'_>, id: SymId, row: &Symbol) -> Tri
    requires { IsRowOf p.now id row.now }
    ensures { (known : SymId → SymbolValue) → Allows p.now known →
        above result (values.default_value p.now.laid.tree.now known (values.first_met p.now.laid.tree.now known (facts_in p.now id row.now).defaults)) ≡ false }
{
    let Some(default) = first_default(p, row) else {
        return Tri::N;
    };
    let within = p.laid.layout.place(row.first).context;
    if line_bounds(p, within, &default.when).low == Tri::N {
        return Tri::N;
    }
    default_bounds(p, within, default).low
}

// What the default of a symbol may be: at most the greatest of all its defaults.
fn default_value_bounds(p: &Possible<'_>, id: SymId, row: &Symbol) -> Bounds
    requires { IsRowOf p.now id row.now }
    ensures { Covers p.now result (λ known. values.default_value p.now.laid.tree.now known (values.first_met p.now.laid.tree.now known (facts_in p.now id row.now).defaults)) }
{
    let mut greatest = Bounds::exactly(Tri::N);
    let mut at = row.first;
    'definitions: while at.is_some() {
        let place = p.laid.layout.place(at);
        greatest = greatest.greater(defaults_of(p, at, place));
        at = place.next;
    }
    Bounds {
        low: lowest_default(p, id, row),
        high: greatest.high,
    }
}

// What a symbol may be by its default and the lines that imply it.
fn implied_bounds(p: &Possible<'_>, id: SymId, row: &Symbol) -> Bounds
    requires { IsRowOf p.now id row.now }
    ensures { Covers p.now result (λ known. values.implied_value p.now.laid.tree.now known (facts_in p.now id row.now)) }
{
    let default = default_value_bounds(p, id, row);
    let implied = implied_to_bounds(p, id, row);
    if implied.high == Tri::N {
        return default;
    }
    default.join(default.greater(implied).lesser(direct_bounds(p, id, row)))
}

// What a symbol outside a choice may be.
fn truth_bounds(p: &Possible<'_>, id: SymId, row: &Symbol) -> Bounds
    requires { IsRowOf p.now id row.now }
    ensures { (user : Option values.GivenValue) → Covers p.now result (λ known. values.truth_equation p.now.laid.tree.now known (facts_in p.now id row.now) user) }
{
    let visible = upgraded(p, row.symbol_type, prompts_bounds(p, id, row));
    let implied = implied_bounds(p, id, row);
    let given = Bounds {
        low: Tri::N,
        high: visible.high,
    };
    let own = if visible.high == Tri::N {
        implied
    } else {
        implied.join(given)
    };
    upgraded(p, row.symbol_type, own.greater(selected_bounds(p, id, row)))
}

// What a member of a choice may be: n, and y if it can be visible and the mode of the choice can be y.
fn member_bounds(p: &Possible<'_>, id: SymId, row: &Symbol, choice: ChoiceId) -> Bounds
    requires { IsRowOf p.now id row.now }
    ensures { (user : Option values.GivenValue) → Covers p.now result (λ known. member_value p.now.laid.tree.now known id choice.0 user) }
{
    if prompts_bounds(p, id, row).high == Tri::N || mode(p, choice).high == Tri::N {
        Bounds::exactly(Tri::N)
    } else {
        Bounds::any()
    }
}

// What the symbol of this row may be.
fn row_bounds(p: &Possible<'_>, id: SymId, row: &Symbol) -> Bounds
    requires { IsRowOf p.now id row.now }
    ensures { (user : Option values.GivenValue) → Covers p.now result (λ known. truth_of_value (values.equation p.now.laid.tree.now known id (Some (facts_in p.now id row.now)) user)) }
{
    if let Some(choice) = row.choice.get() {
        return member_bounds(p, id, row, choice);
    }
    match row.symbol_type {
        SymbolType::Bool | SymbolType::Tristate => truth_bounds(p, id, row),
        _ => Bounds::exactly(Tri::N),
    }
}

/// What a symbol may be as a truth value, for any user value.
pub(crate) fn symbol_bounds(p: &Possible<'_>, id: SymId) -> Bounds
    ensures { (user : Option values.GivenValue) → Covers p.now result (λ known. truth_of_value (values.equation p.now.laid.tree.now known id (values.facts p.now.laid.tree.now id) user)) }
{
    match p.laid.layout.symbol(id) {
        Some(row) => row_bounds(p, id, row),
        None => Bounds::exactly(Tri::N),
    }
}
