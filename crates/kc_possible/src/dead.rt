//! The prompts that no input can make visible, and the values that no input can give.

ghost use Rattle.std.specs.Prelude.{◌≡◌, All, IfOk, false, true};
ghost use Rattle.kc_language.specs.Texts.{has_prompt};
ghost use Rattle.kc_possible.specs.PartsOfPossible.{IsRowOf, facts_in};
ghost use Rattle.kc_possible.specs.Possible.{AreSomeOf, IsDead, IsImpossible, IsSound, IsTextImpossible};

use crate::possible::Possible;
use crate::ranges::is_out_of_range;
use crate::texts::only_text;
use crate::truths::{is_never_m, prompts_bounds};
use kc_expr::expression::{SymId, Tri};
use kc_tree::rows::Symbol;
use std::alloc::{AllocError, Global};

/// Whether one of the definitions of a symbol has a prompt.
pub(crate) fn has_prompt(p: &Possible<'_>, id: SymId, row: &Symbol) -> bool
    requires { IsRowOf p.now id row.now }
    ensures { result ≡ has_prompt (facts_in p.now id row.now).prompts }
{
    let mut at = row.first;
    'definitions: while at.is_some() {
        let place = p.laid.layout.place(at);
        if p.laid.layout.prompt(place).is_some() {
            return true;
        }
        at = place.next;
    }
    false
}

// Whether the bounds show that the prompts of a symbol are never visible, and it has one.
fn is_dead(p: &Possible<'_>, id: SymId) -> bool
    requires { IsSound p.now }
    ensures { result ≡ true → IsDead p.now.laid.tree.now id }
{
    match p.laid.layout.symbol(id) {
        Some(row) => has_prompt(p, id, row) && prompts_bounds(p, id, row).high == Tri::N,
        None => false,
    }
}

/// Lists the symbols whose prompts no input can make visible, as far as the bounds show it, in the order of their first
/// definitions (our own). The only error is that memory runs out.
pub fn dead_prompts(alloc: Global, p: &Possible<'_>) -> Result<Vec<SymId>, AllocError>
    requires { IsSound p.now }
    ensures dead { IfOk result (λ dead. All (IsDead p.now.laid.tree.now) dead.items) }
    ensures in_order { IfOk result (λ dead. AreSomeOf dead.items p.now.laid.tree.now.defined) }
{
    let mut dead = Vec::new(alloc);
    for id in p.laid.layout.defined() {
        if is_dead(p, *id) {
            dead.push(*id)?;
        }
    }
    Ok(dead)
}

// Whether the value is between the bounds of a symbol.
fn is_within_bounds(p: &Possible<'_>, id: SymId, value: Tri) -> bool
    requires { IsSound p.now }
    ensures { result ≡ false → IsImpossible p.now.laid.tree.now id value }
{
    match p.symbols.get(id.0) {
        Some(bounds) => bounds.has(value),
        None => p.laid.layout.symbol(id).is_some(),
    }
}

/// Whether the bounds allow that some input gives the symbol this truth value (our own). If they do not, none does. No input
/// gives a bool m, and none gives a tristate m if the modules symbol is always n.
pub fn may_be(p: &Possible<'_>, id: SymId, value: Tri) -> bool
    requires { IsSound p.now }
    ensures { result ≡ false → IsImpossible p.now.laid.tree.now id value }
{
    if value == Tri::M && is_never_m(p, id) {
        return false;
    }
    is_within_bounds(p, id, value)
}

/// Whether the bounds allow that some input gives the symbol this text (our own). If they do not, none does.
pub fn may_have_text(p: &Possible<'_>, id: SymId, text: &[u8]) -> bool
    requires { IsSound p.now }
    ensures { result ≡ false → IsTextImpossible p.now.laid.tree.now id text.now }
{
    let Some(row) = p.laid.layout.symbol(id) else {
        return true;
    };
    match only_text(p, id, row) {
        Some(only) => text == only,
        None => !is_out_of_range(p, id, row, text),
    }
}
