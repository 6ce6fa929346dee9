//! The needs of each symbol: what its equation names, directly or through contexts and choices.

ghost use Rattle.std.specs.Prelude.{◌≡◌, ◌<◌, ◌≤◌, ◌^◌, ◌||◌, ◌&&◌, ◌++◌, ◌∷◌, [], length, IfOk, IfSome, OnOk};
ghost use Rattle.std.specs.List.{flat_map};
ghost use Rattle.kc_expr.specs.Form.{leaf_of};
ghost use Rattle.kc_language.specs.Expressions.{leaf_symbols};
ghost use Rattle.kc_order.specs.Graph.{IsGraph, needs_of};
ghost use Rattle.kc_order.specs.Needs.{AreAlike};
ghost use Rattle.kc_expr.specs.When.{when_view};
ghost use Rattle.kc_entries.specs.StatementViews.{head_view, input_prompt_view};
ghost use Rattle.kc_tree.specs.EntryViews.{statements_of};
ghost use Rattle.kc_tree.specs.Layouts.{place_of, prompt_in};
ghost use Rattle.kc_tree.specs.LineParts.{default_said, range_said};
ghost use Rattle.kc_language.specs.Needs as spec;
ghost use Rattle.kc_values.specs.PartsOfNeeds as spec_parts;
ghost use Rattle.kc_values.specs.NeedRows as rows;
ghost use Rattle.kc_values.specs.MadeRows.{Adds, AreChoicesThere, IsPlaceThere, IsRow, IsRowAt, row_of};
ghost use Rattle.kc_values.specs.NeedRows.{named, node};
ghost use Rattle.kc_values.specs.Nodes as nodes;

use crate::nodes::{choice_number, context_number, dependency_number, node_count, visible_number};
use kc_entries::entries::{AttributeLine, EntryLines};
use kc_entries::statement::{Attribute, Head, Prompt, SymbolDefault, SymbolRange};
use kc_expr::expression::{Expr, Operand, SymId, SymbolType};
use kc_expr::values::symbols_into;
use kc_language::symbols::SelectOrImply;
use kc_order::Graph;
use kc_tree::attributes::{depends_of, stated_default, visible_of};
use kc_tree::laid_tree::LaidTree;
use kc_tree::layout::Layout;
use kc_tree::rows::{
    Choice, ChoiceId, EntryId, EntryPlace, Selector, SelectorId, Symbol, VisibleId,
};
use kc_tree::tree::Tree;
use std::alloc::{AllocError, Global};
use std::rc::Rc;

// The row of one node under construction: its contexts and choices, and the names. Its memory is reused for each node.
#[derive(Drop)]
struct NeedRow {
    nodes: Vec<u32>,
    names: Vec<SymId>,
}

// Adds the names in an `if`.
fn if_names_into(
    layout: &Layout,
    when: &Option<Rc<Expr>>,
    out: &mut NeedRow,
) -> Result<(), AllocError>
    ensures { OnOk result (Adds out.old out.new (named (rows.when_names layout.now.modules (when_view when.now)))) }
{
    match when {
        Some(e) => symbols_into(e, layout.modules, &mut out.names),
        None => Ok(()),
    }
}

// Adds what an entry depends on, but for the top, which names nothing.
fn context_into(layout: &Layout, at: EntryId, out: &mut NeedRow) -> Result<(), AllocError>
    requires there { at.0 ≤ length layout.now.places.items }
    ensures { OnOk result (Adds out.old out.new (rows.context layout.now at.0)) }
{
    if at.is_some() {
        out.nodes.push(context_number(layout, at))?;
    }
    Ok(())
}

// Adds what a menu asks of what is visible, if there is such a menu.
fn visible_into(layout: &Layout, id: VisibleId, out: &mut NeedRow) -> Result<(), AllocError>
    requires there { id.0 ≤ length layout.now.visibles.items }
    ensures { OnOk result (Adds out.old out.new (rows.visible layout.now id.0)) }
{
    if id.is_some() {
        out.nodes.push(visible_number(layout, id))?;
    }
    Ok(())
}

// Adds the names in the `depends on` lines among these.
fn depends_into(
    layout: &Layout,
    attributes: &[AttributeLine],
    out: &mut NeedRow,
) -> Result<(), AllocError>
    ensures { OnOk result (Adds out.old out.new (rows.depends layout.now (statements_of attributes.now))) }
{
    for line in attributes {
        if let Some(e) = depends_of(&line.attribute) {
            symbols_into(e, layout.modules, &mut out.names)?;
        }
    }
    Ok(())
}

// Adds a prompt of an entry with this place, but for what the entry depends on.
fn prompt_into(
    layout: &Layout,
    place: EntryPlace,
    prompt: &Prompt,
    out: &mut NeedRow,
) -> Result<(), AllocError>
    requires there { IsPlaceThere layout.now place }
    ensures { OnOk result (Adds out.old out.new (rows.prompt layout.now place (input_prompt_view prompt.now))) }
{
    visible_into(layout, place.visible, out)?;
    if_names_into(layout, &prompt.when, out)
}

// Adds what the choice of an entry asks for of what stands in it: its mode. What the choice depends on has no node yet: a node needs
// only nodes before it.
#[tactic(auto, using(crate::proofs::PlacesThere::place_there))]
fn mode_row_into(
    layout: &Layout,
    at: EntryId,
    attributes: &[AttributeLine],
    out: &mut NeedRow,
) -> Result<(), AllocError>
    ensures { OnOk result (Adds out.old out.new (rows.mode_by layout.now (place_of layout.now at.0) (statements_of attributes.now) (prompt_in layout.now (place_of layout.now at.0)))) }
{
    let place = layout.place(at);
    match layout.prompt(place) {
        Some(prompt) => {
            depends_into(layout, attributes, out)?;
            prompt_into(layout, place, prompt, out)
        }
        None => Ok(()),
    }
}

// Adds what an entry asks for itself: a choice its mode.
fn asked_into(
    layout: &Layout,
    at: EntryId,
    lines: EntryLines<'_>,
    out: &mut NeedRow,
) -> Result<(), AllocError>
    ensures { OnOk result (Adds out.old out.new (rows.asked layout.now (place_of layout.now at.0) (head_view lines.entry.first.now.head) (statements_of lines.entry.attributes.now))) }
{
    match &lines.first.head {
        Head::If(e) => symbols_into(e, layout.modules, &mut out.names),
        Head::Choice => mode_row_into(layout, at, lines.attributes, out),
        _ => depends_into(layout, lines.attributes, out),
    }
}

// Adds what an entry that asks for something needs: what it asks for itself, and the nearest block around it that asks for
// something. Another entry is no context, and needs nothing.
#[tactic(auto, using(crate::proofs::PlacesThere::place_there))]
fn context_row_into(layout: &Layout, at: EntryId, out: &mut NeedRow) -> Result<(), AllocError>
    ensures { OnOk result (Adds out.old out.new (rows.context_row layout.now at.0)) }
{
    if layout.place(at).context.0 != at.0 {
        return Ok(());
    }
    match layout.entry(at) {
        Some(lines) => {
            context_into(layout, layout.outer_context(at), out)?;
            asked_into(layout, at, lines, out)
        }
        None => Ok(()),
    }
}

// Adds what a choice depends on itself needs.
#[tactic(auto, using(crate::proofs::PlacesThere::place_there))]
fn dependency_row_into(
    layout: &Layout,
    choice: &Choice,
    out: &mut NeedRow,
) -> Result<(), AllocError>
    ensures { OnOk result (Adds out.old out.new (rows.dependency_row layout.now choice.now)) }
{
    context_into(layout, layout.outer_context(choice.entry), out)?;
    depends_into(layout, layout.attributes(choice.entry), out)
}

// Adds what a menu and the menu around it ask of what is visible.
#[tactic(auto, using(crate::proofs::PlacesThere::place_there))]
fn visible_row_into(layout: &Layout, menu: EntryId, out: &mut NeedRow) -> Result<(), AllocError>
    ensures { OnOk result (Adds out.old out.new (rows.visible_row layout.now menu.0)) }
{
    visible_into(layout, layout.outer_visible(menu), out)?;
    for line in layout.attributes(menu) {
        if let Some(e) = visible_of(&line.attribute) {
            symbols_into(e, layout.modules, &mut out.names)?;
        }
    }
    Ok(())
}

// Adds the prompt of a definition with this place, with what the definition depends on.
fn own_prompt_into(layout: &Layout, place: EntryPlace, out: &mut NeedRow) -> Result<(), AllocError>
    requires there { IsPlaceThere layout.now place }
    ensures { OnOk result (Adds out.old out.new (rows.own_prompt layout.now place (prompt_in layout.now place))) }
{
    match layout.prompt(place) {
        Some(prompt) => {
            context_into(layout, place.context, out)?;
            prompt_into(layout, place, prompt, out)
        }
        None => Ok(()),
    }
}

// Adds the prompts of a symbol.
fn prompts_into(
    layout: &Layout,
    id: SymId,
    symbol: &Symbol,
    out: &mut NeedRow,
) -> Result<(), AllocError>
    requires row { IsRowAt layout.now id symbol.now }
    ensures { OnOk result (Adds out.old out.new (rows.prompts layout.now id symbol.now.first.0)) }
{
    let mut at = symbol.first;
    'definitions: while at.is_some() {
        let place = layout.place(at);
        own_prompt_into(layout, place, out)?;
        at = place.next;
    }
    Ok(())
}

// Adds the names in a default.
fn default_into(
    layout: &Layout,
    default: &SymbolDefault,
    out: &mut NeedRow,
) -> Result<(), AllocError>
    ensures { OnOk result (Adds out.old out.new (named (rows.default_names layout.now.modules (default_said default.now)))) }
{
    symbols_into(&default.value, layout.modules, &mut out.names)?;
    if_names_into(layout, &default.when, out)
}

// Adds the name in a bound of a range.
fn bound_into(bound: &Operand, out: &mut NeedRow) -> Result<(), AllocError>
    ensures { OnOk result (Adds out.old out.new (named (leaf_symbols (leaf_of bound.now)))) }
{
    match bound {
        Operand::Sym(id) => {
            out.names.push(*id)?;
            Ok(())
        }
        _ => Ok(()),
    }
}

// Adds the names in a range.
fn range_into(layout: &Layout, range: &SymbolRange, out: &mut NeedRow) -> Result<(), AllocError>
    ensures { OnOk result (Adds out.old out.new (named (rows.range_names layout.now.modules (range_said range.now)))) }
{
    bound_into(&range.low, out)?;
    bound_into(&range.high, out)?;
    if_names_into(layout, &range.when, out)
}

// The value of a symbol of this type is a number.
fn is_number(symbol_type: SymbolType) -> bool
    ensures { result ≡ rows.is_number symbol_type }
{
    matches!(symbol_type, SymbolType::Int | SymbolType::Hex)
}

// Adds the defaults of a definition, and its ranges if they count.
fn stated_into(
    layout: &Layout,
    attributes: &[AttributeLine],
    has_range: bool,
    out: &mut NeedRow,
) -> Result<(), AllocError>
    ensures { OnOk result (Adds out.old out.new (named (flat_map (rows.line_names layout.now.modules has_range) (statements_of attributes.now)))) }
{
    for line in attributes {
        match &line.attribute {
            Attribute::Default(default) => default_into(layout, default, out)?,
            Attribute::Def(_, default) => default_into(layout, default, out)?,
            Attribute::Range(range) if has_range => range_into(layout, range, out)?,
            _ => {}
        }
    }
    Ok(())
}

// The value of a symbol of this type is n, m or y.
fn is_truth(symbol_type: SymbolType) -> bool
    ensures { result ≡ rows.is_truth symbol_type }
{
    matches!(symbol_type, SymbolType::Bool | SymbolType::Tristate)
}

// The ranges of a definition with this place count for a symbol of this type.
fn has_ranges(symbol_type: SymbolType, place: EntryPlace) -> bool
    ensures { result ≡ (place.has_range && rows.is_number symbol_type) }
{
    place.has_range && is_number(symbol_type)
}

// Adds what a definition with this place depends on, if its equation reads it, and its prompt. Of a bool or tristate it reads it,
// of the others where a line counts that depends on it.
fn asking_into(
    layout: &Layout,
    symbol_type: SymbolType,
    place: EntryPlace,
    is_stated: bool,
    out: &mut NeedRow,
) -> Result<(), AllocError>
    requires there { IsPlaceThere layout.now place }
    ensures { OnOk result (Adds out.old out.new (rows.asking layout.now (rows.is_truth symbol_type || is_stated) place (prompt_in layout.now place))) }
{
    match layout.prompt(place) {
        Some(prompt) => {
            context_into(layout, place.context, out)?;
            prompt_into(layout, place, prompt, out)
        }
        None if is_stated || is_truth(symbol_type) => context_into(layout, place.context, out),
        None => Ok(()),
    }
}

// Adds a definition of a symbol of this type.
fn definition_into(
    layout: &Layout,
    symbol_type: SymbolType,
    at: EntryId,
    place: EntryPlace,
    out: &mut NeedRow,
) -> Result<(), AllocError>
    requires place { place ≡ place_of layout.now at.0 }
    ensures { OnOk result (Adds out.old out.new (rows.definition layout.now symbol_type at.0)) }
{
    let has_range = has_ranges(symbol_type, place);
    let is_stated = place.has_default || has_range;
    asking_into(layout, symbol_type, place, is_stated, out)?;
    if is_stated {
        stated_into(layout, layout.attributes(at), has_range, out)?;
    }
    Ok(())
}

// Adds the definitions of a symbol.
#[inline(always)]
fn definitions_into(
    layout: &Layout,
    id: SymId,
    symbol: &Symbol,
    out: &mut NeedRow,
) -> Result<(), AllocError>
    requires row { IsRowAt layout.now id symbol.now }
    ensures { OnOk result (Adds out.old out.new (rows.definitions layout.now symbol.now.symbol_type id symbol.now.first.0)) }
{
    let mut at = symbol.first;
    'definitions: while at.is_some() {
        let place = layout.place(at);
        definition_into(layout, symbol.symbol_type, at, place, out)?;
        at = place.next;
    }
    Ok(())
}

// Adds the symbol of a line that selects or implies, and what the line depends on.
#[tactic(auto, using(crate::proofs::PlacesThere::place_there))]
fn selector_into(layout: &Layout, line: &Selector, out: &mut NeedRow) -> Result<(), AllocError>
    ensures { OnOk result (Adds out.old out.new (rows.selector layout.now line.now)) }
{
    let Some(source) = layout.symbol_of(line.entry) else {
        return Ok(());
    };
    let Some(target) = layout.target(line) else {
        return Ok(());
    };
    out.names.push(source)?;
    context_into(layout, layout.place(line.entry).context, out)?;
    if_names_into(layout, target.when, out)
}

// The last line that selects or implies a symbol with this row.
fn last_line(word: SelectOrImply, symbol: &Symbol) -> SelectorId
    ensures { result.0 ≡ rows.last_line symbol.now word }
{
    match word {
        SelectOrImply::Select => symbol.last_select,
        SelectOrImply::Imply => symbol.last_imply,
    }
}

// Adds the symbols that select or imply a symbol, and what those lines depend on, from the last line on.
fn selectors_into(
    layout: &Layout,
    word: SelectOrImply,
    id: SymId,
    symbol: &Symbol,
    out: &mut NeedRow,
) -> Result<(), AllocError>
    requires row { IsRowAt layout.now id symbol.now }
    ensures { OnOk result (Adds out.old out.new (rows.selectors layout.now word id (rows.last_line symbol.now word))) }
{
    let mut at = last_line(word, symbol);
    'lines: while let Some(line) = layout.selector(at) {
        selector_into(layout, line, out)?;
        at = line.next;
    }
    Ok(())
}

// Adds the modules symbol, which a tristate names.
fn modules_into(tree: &Tree, symbol_type: SymbolType, out: &mut NeedRow) -> Result<(), AllocError>
    ensures { OnOk result (Adds out.old out.new (named (spec_parts.type_names tree.now symbol_type))) }
{
    if symbol_type != SymbolType::Tristate {
        return Ok(());
    }
    match tree.modules_symbol() {
        Some(id) => {
            out.names.push(id)?;
            Ok(())
        }
        None => Ok(()),
    }
}

// Adds what the equation of a bool or tristate symbol outside a choice names.
fn truth_into(
    laid: &LaidTree<'_>,
    id: SymId,
    symbol: &Symbol,
    out: &mut NeedRow,
) -> Result<(), AllocError>
    requires row { IsRowAt laid.now.layout.now id symbol.now }
    ensures { OnOk result (Adds out.old out.new (rows.truth laid.now.tree.now laid.now.layout.now id symbol.now)) }
{
    let layout = laid.layout;
    definitions_into(layout, id, symbol, out)?;
    selectors_into(layout, SelectOrImply::Select, id, symbol, out)?;
    selectors_into(layout, SelectOrImply::Imply, id, symbol, out)?;
    modules_into(laid.tree, symbol.symbol_type, out)
}

// Adds what the equation of a symbol names. For a member of a choice, adds what the choice's selection names.
fn symbol_into(
    laid: &LaidTree<'_>,
    id: SymId,
    symbol: &Symbol,
    out: &mut NeedRow,
) -> Result<(), AllocError>
    requires row { IsRowAt laid.now.layout.now id symbol.now }
    requires choice { IfSome symbol.now.choice (λ c. c.0 < length laid.now.layout.now.choices.items) }
    ensures { OnOk result (Adds out.old out.new (rows.by_choice laid.now.tree.now laid.now.layout.now id symbol.now symbol.now.choice)) }
{
    let layout = laid.layout;
    if let Some(choice) = symbol.choice.get() {
        out.nodes.push(choice_number(layout, choice))?;
        return Ok(());
    }
    match symbol.symbol_type {
        SymbolType::Undefined => Ok(()),
        SymbolType::Bool => truth_into(laid, id, symbol, out),
        SymbolType::Tristate => truth_into(laid, id, symbol, out),
        SymbolType::Str => definitions_into(layout, id, symbol, out),
        SymbolType::Int => definitions_into(layout, id, symbol, out),
        SymbolType::Hex => definitions_into(layout, id, symbol, out),
    }
}

// Adds what a choice depends on itself.
fn dependency_into(layout: &Layout, id: ChoiceId, out: &mut NeedRow) -> Result<(), AllocError>
    requires there { id.0 < length layout.now.choices.items }
    ensures { OnOk result (Adds out.old out.new (node (nodes.dependency_number layout.now id.0))) }
{
    out.nodes.push(dependency_number(layout, id))?;
    Ok(())
}

// Adds what the mode of a choice names.
#[tactic(auto, using(crate::proofs::PlacesThere::place_there))]
fn mode_into(
    layout: &Layout,
    id: ChoiceId,
    at: EntryId,
    out: &mut NeedRow,
) -> Result<(), AllocError>
    requires there { id.0 < length layout.now.choices.items }
    ensures { OnOk result (Adds out.old out.new (rows.choice_mode layout.now id.0 (place_of layout.now at.0) (prompt_in layout.now (place_of layout.now at.0)))) }
{
    let place = layout.place(at);
    match layout.prompt(place) {
        Some(prompt) => {
            dependency_into(layout, id, out)?;
            prompt_into(layout, place, prompt, out)
        }
        None => Ok(()),
    }
}

// Adds the conditions of the defaults of a choice that name a member, and what the choice depends on if there are any.
fn choice_defaults_into(
    layout: &Layout,
    id: ChoiceId,
    attributes: &[AttributeLine],
    out: &mut NeedRow,
) -> Result<(), AllocError>
    requires there { id.0 < length layout.now.choices.items }
    ensures { OnOk result (Adds out.old out.new (rows.choice_defaults layout.now id.0 (statements_of attributes.now))) }
{
    let mut is_read = false;
    for line in attributes {
        if let Some(stated) = stated_default(&line.attribute) {
            if layout.default_member(id, &line.attribute).is_some() {
                if_names_into(layout, &stated.when, out)?;
                is_read = true;
            }
        }
    }
    if is_read {
        dependency_into(layout, id, out)?;
    }
    Ok(())
}

// Adds the prompts of these members of a choice.
fn members_into(layout: &Layout, members: &[SymId], out: &mut NeedRow) -> Result<(), AllocError>
    ensures { OnOk result (Adds out.old out.new (rows.members layout.now members.now)) }
{
    for member in members {
        if let Some(symbol) = layout.symbol(*member) {
            prompts_into(layout, *member, symbol, out)?;
        }
    }
    Ok(())
}

// Adds what the selection of a choice names: the prompts of its members, its own, and its defaults.
fn choice_into(
    layout: &Layout,
    id: ChoiceId,
    choice: &Choice,
    out: &mut NeedRow,
) -> Result<(), AllocError>
    requires there { id.0 < length layout.now.choices.items }
    ensures { OnOk result (Adds out.old out.new (rows.choice layout.now id.0 choice.now)) }
{
    members_into(layout, &choice.members, out)?;
    mode_into(layout, id, choice.entry, out)?;
    choice_defaults_into(layout, id, layout.attributes(choice.entry), out)
}

// Adds the row to the graph of so many symbols (the nodes, and the symbols among the names), and empties it.
fn close_row(count: usize, row: &mut NeedRow, graph: &mut Graph) -> Result<(), AllocError>
    requires few { count < 2 ^ 32 }
    ensures graph { OnOk result (graph.new ≡ record graph.old { rows = graph.old.rows ++ row_of count row.old ∷ [] }) }
    ensures empty { OnOk result (IsRow [] [] row.new) }
{
    for name in &row.names {
        if name.0 < count {
            row.nodes.push(name.0 as u32)?;
        }
    }
    graph.add(&row.nodes)?;
    row.nodes.clear();
    row.names.clear();
    Ok(())
}

// Adds the nodes of the symbols. An undefined symbol needs nothing.
fn add_symbols(laid: &LaidTree<'_>, row: &mut NeedRow, graph: &mut Graph) -> Result<(), AllocError>
    requires choices { AreChoicesThere laid.now.layout.now }
    requires row { IsRow [] [] row.old }
    ensures graph { OnOk result (graph.new ≡ record graph.old { rows = graph.old.rows ++ rows.symbol_rows laid.now.tree.now laid.now.layout.now }) }
    ensures row { OnOk result (IsRow [] [] row.new) }
{
    let layout = laid.layout;
    let count = layout.symbols().len();
    for (i, symbol) in layout.symbols().iter().enumerate() {
        symbol_into(laid, SymId(i), symbol, row)?;
        close_row(count, row, graph)?;
    }
    Ok(())
}

// Adds the nodes of the menus with a `visible if` line, none first.
fn add_visibles(layout: &Layout, row: &mut NeedRow, graph: &mut Graph) -> Result<(), AllocError>
    requires row { IsRow [] [] row.old }
    ensures graph { OnOk result (graph.new ≡ record graph.old { rows = graph.old.rows ++ rows.visible_rows layout.now }) }
    ensures row { OnOk result (IsRow [] [] row.new) }
{
    let count = layout.symbols().len();
    close_row(count, row, graph)?;
    for menu in &layout.visibles {
        visible_row_into(layout, *menu, row)?;
        close_row(count, row, graph)?;
    }
    Ok(())
}

// Adds the nodes of the entries, the top first.
fn add_contexts(layout: &Layout, row: &mut NeedRow, graph: &mut Graph) -> Result<(), AllocError>
    requires row { IsRow [] [] row.old }
    ensures graph { OnOk result (graph.new ≡ record graph.old { rows = graph.old.rows ++ rows.context_rows layout.now }) }
    ensures row { OnOk result (IsRow [] [] row.new) }
{
    let count = layout.symbols().len();
    for i in 0..layout.place_count() {
        context_row_into(layout, EntryId(i as u32), row)?;
        close_row(count, row, graph)?;
    }
    Ok(())
}

// Adds the nodes of what the choices depend on themselves.
fn add_dependencies(layout: &Layout, row: &mut NeedRow, graph: &mut Graph) -> Result<(), AllocError>
    requires row { IsRow [] [] row.old }
    ensures graph { OnOk result (graph.new ≡ record graph.old { rows = graph.old.rows ++ rows.dependency_rows layout.now }) }
    ensures row { OnOk result (IsRow [] [] row.new) }
{
    let count = layout.symbols().len();
    for choice in layout.choices() {
        dependency_row_into(layout, choice, row)?;
        close_row(count, row, graph)?;
    }
    Ok(())
}

// Adds the nodes of the choices.
fn add_choices(layout: &Layout, row: &mut NeedRow, graph: &mut Graph) -> Result<(), AllocError>
    requires row { IsRow [] [] row.old }
    ensures graph { OnOk result (graph.new ≡ record graph.old { rows = graph.old.rows ++ rows.choice_rows layout.now }) }
    ensures row { OnOk result (IsRow [] [] row.new) }
{
    let count = layout.symbols().len();
    for (k, choice) in layout.choices().iter().enumerate() {
        choice_into(layout, ChoiceId(k as u32), choice, row)?;
        close_row(count, row, graph)?;
    }
    Ok(())
}

/// Returns the graph of what each symbol of a tree needs: the symbols that its equation names (the kernel's
/// kconfig-language document forbids recursive dependencies and does not say which count). What contexts and choices
/// name is stored once, in nodes of their own. So the graph does not grow with the square of the symbols in a block or
/// of a choice's members (our own). Fails only if there is not enough memory.
pub fn tree_needs(alloc: Global, laid: &LaidTree<'_>) -> Result<Graph, AllocError>
    ensures graph { IfOk result IsGraph }
    ensures few { IfOk result (λ g. length g.rows < 2 ^ 32) }
    ensures alike { IfOk result (λ g. AreAlike (needs_of g) (spec.needs laid.now.tree.now)) }
    ensures nodes { IfOk result (rows.AreNodeRows laid.now.tree.now laid.now.layout.now) }
{
    // The choices that the symbols name exist: this follows from `name_count`.
    let _ = laid.tree.name_count();
    let layout = laid.layout;
    let mut graph = Graph::with_room(alloc, layout.symbols().len(), node_count(layout))?;
    let mut row = NeedRow {
        nodes: Vec::new(alloc),
        names: Vec::new(alloc),
    };
    add_symbols(laid, &mut row, &mut graph)?;
    add_visibles(layout, &mut row, &mut graph)?;
    add_contexts(layout, &mut row, &mut graph)?;
    add_dependencies(layout, &mut row, &mut graph)?;
    add_choices(layout, &mut row, &mut graph)?;
    Ok(graph)
}
