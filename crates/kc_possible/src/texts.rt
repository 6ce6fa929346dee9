//! The texts of symbols that no input changes.

ghost use Rattle.std.specs.Prelude.{◌≡◌, IfSome};
ghost use Rattle.kc_expr.specs.Form.{form_of, leaf_of};
ghost use Rattle.kc_expr.specs.PartsOfExpressions.{text_of_value};
ghost use Rattle.kc_language.specs.declared.expressions.SymId.{SymId};
ghost use Rattle.kc_language.specs.Expressions.{SymbolValue};
ghost use Rattle.kc_language.specs.Expressions as spec;
ghost use Rattle.kc_language.specs.Values as values;
ghost use Rattle.kc_possible.specs.Possible.{Allows};
ghost use Rattle.kc_possible.specs.PartsOfPossible.{IsOnlyText, IsRowOf, facts_in};

use crate::conditions::line_bounds;
use crate::expression::type_of;
use crate::possible::Possible;
use crate::truths::{first_default, prompts_bounds};
use kc_expr::expression::{Expr, Operand, SymId, SymbolType, Tri};
use kc_tree::rows::Symbol;
use kc_values::table::name;

// The text of a symbol without a type: its name.
fn name_of<'e>(p: &'e Possible<'_>, id: SymId) -> Option<&'e [u8]>
    ensures { IfSome result (λ text. (known : SymId → SymbolValue) → Allows p.now known → text_of_value (known id) ≡ text.now) }
{
    if type_of(p, id) == SymbolType::Undefined {
        Some(name(p.laid.tree, id))
    } else {
        None
    }
}

/// The text of an operand that is a constant, or a name without a type.
pub fn fixed_operand<'e>(p: &'e Possible<'_>, o: &'e Operand) -> Option<&'e [u8]>
    ensures { IfSome result (λ fixed. (known : SymId → SymbolValue) → Allows p.now known → spec.text known (leaf_of o.now) ≡ fixed.now) }
{
    match o {
        Operand::Const(text) => Some(text),
        Operand::Sym(id) => name_of(p, *id),
        Operand::TristateConstant(_) => None,
    }
}

/// The text of an expression that is a constant, or a name without a type (our own).
pub fn fixed_text<'e>(p: &'e Possible<'_>, e: &'e Expr) -> Option<&'e [u8]>
    ensures { IfSome result (λ text. (known : SymId → SymbolValue) → Allows p.now known → values.single_text known (form_of e.now) ≡ text.now) }
{
    match e {
        Expr::One(operand) => fixed_operand(p, operand),
        _ => None,
    }
}

// The text that the default of a symbol gives, if its first line is met in any case.
fn fixed_default<'e>(p: &'e Possible<'_>, id: SymId, row: &Symbol) -> Option<&'e [u8]>
    requires { IsRowOf p.now id row.now }
    ensures { IfSome result (λ text. (known : SymId → SymbolValue) → Allows p.now known →
        values.default_text known (values.first_met p.now.laid.tree.now known (facts_in p.now id row.now).defaults) ≡ text.now) }
{
    let Some(default) = first_default(p, row) else {
        return None;
    };
    let within = p.laid.layout.place(row.first).context;
    if line_bounds(p, within, &default.when).low == Tri::N {
        return None;
    }
    fixed_text(p, &default.value)
}

/// The only text that a symbol may have: of a string whose prompts are never visible, that of its first default, if that is met
/// in any case and is a constant or a name without a type.
pub(crate) fn only_text<'e>(p: &'e Possible<'_>, id: SymId, row: &Symbol) -> Option<&'e [u8]>
    requires { IsRowOf p.now id row.now }
    ensures { IfSome result (λ text. IsOnlyText p.now id row.now text.now) }
{
    if row.choice.get().is_some() {
        return None;
    }
    if row.symbol_type == SymbolType::Str && prompts_bounds(p, id, row).high == Tri::N {
        fixed_default(p, id, row)
    } else {
        None
    }
}
