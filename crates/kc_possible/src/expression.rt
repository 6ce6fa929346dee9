//! What an expression may be.

ghost use Rattle.std.specs.Prelude.{◌≡◌, false, true};
ghost use Rattle.kc_expr.specs.Form.{form_of, leaf_of};
ghost use Rattle.kc_expr.specs.PartsOfExpressions as named;
ghost use Rattle.kc_language.specs.Expressions.{SymbolValue, Truth, truth_of_value};
ghost use Rattle.kc_language.specs.Expressions as spec;
ghost use Rattle.kc_language.specs.declared.expressions.SymId.{SymId};
ghost use Rattle.kc_language.specs.Values.{facts, type_in};
ghost use Rattle.kc_possible.specs.PartsOfPossible.{Covers};
ghost use Rattle.kc_possible.specs.Sides.{CoversWhere, DependsOnlyOn, IsRelation, IsSettled, IsSide, lowest};

use crate::bounds::Bounds;
use crate::possible::Possible;
use kc_expr::expression::{Expr, Operand, Operands, SymId, SymbolType, Tri};
use kc_expr::values::{Values, eval, tristate_constant};
use kc_values::table::name;

/// The type of a symbol.
pub(crate) fn type_of(p: &Possible<'_>, id: SymId) -> SymbolType
    ensures { result ≡ type_in (facts p.now.laid.tree.now id) }
{
    match p.laid.layout.symbol(id) {
        Some(symbol) => symbol.symbol_type,
        None => SymbolType::Undefined,
    }
}

/// What a symbol may be as a truth value (our own).
pub fn symbol(p: &Possible<'_>, id: SymId) -> Bounds
    ensures low { result.low ≡ lowest p.now id }
    ensures covers { Covers p.now result (λ known. truth_of_value (known id)) }
{
    match p.symbols.get(id.0) {
        Some(bounds) => *bounds,
        None => Bounds::any(),
    }
}

// What an operand may be that is no side of a relation.
fn operand(p: &Possible<'_>, o: &Operand) -> Bounds
    ensures { Covers p.now result (λ known. named.truth known (leaf_of o.now)) }
{
    match o {
        Operand::Const(text) => Bounds::exactly(tristate_constant(text).unwrap_or(Tri::N)),
        Operand::TristateConstant(t) => Bounds::exactly(*t),
        Operand::Sym(id) => symbol(p, *id),
    }
}

// What a lone m of a condition may be.
fn module(p: &Possible<'_>) -> Bounds
    ensures { Covers p.now result (λ known. named.lone_m known p.now.laid.tree.now.modules) }
{
    match p.laid.tree.modules_symbol() {
        Some(id) => Bounds::exactly(Tri::M).lesser(symbol(p, id)),
        None => Bounds::exactly(Tri::N),
    }
}

/// What an expression may be (our own).
pub fn expression(p: &Possible<'_>, e: &Expr) -> Bounds
    ensures { Covers p.now result (λ known. spec.value known p.now.laid.tree.now.modules (form_of e.now)) }
{
    match e {
        Expr::One(o) => operand(p, o),
        Expr::Rel(_, operands) => relation(p, e, operands),
        Expr::NotOne(o) => operand(p, o).opposite(),
        Expr::Not(e) => expression(p, e).opposite(),
        Expr::Module => module(p),
        Expr::All(parts) => {
            let mut all = expression(p, &parts.first).lesser(expression(p, &parts.second));
            for part in parts.rest.iter() {
                all = all.lesser(expression(p, part));
            }
            all
        }
        Expr::Any(parts) => {
            let mut any = expression(p, &parts.first).greater(expression(p, &parts.second));
            for part in parts.rest.iter() {
                any = any.greater(expression(p, part));
            }
            any
        }
    }
}

// ---- relations

// What is known of a side of a relation.
#[derive(Clone, Copy)]
enum Side {
    // Its value is known.
    Fixed,
    // It is this bool or tristate symbol, which may have several values.
    Open(SymId),
    // Nothing.
    Unknown,
}

// The values of symbols, where one of them is assumed to have this value: the lowest of a bool or tristate, the name of any
// other one.
#[derive(Drop)]
struct Assumed<'p, 't> {
    possible: &'p Possible<'t>,
    assumed: Option<(SymId, Tri)>,
}

impl<'p, 't> Values for Assumed<'p, 't> {
    ghost use Rattle.kc_language.specs.Values.{name};
    ghost use Rattle.kc_possible.specs.Sides.{assumed_tri};

    ghost tri_of = { λ a s. assumed_tri a.possible.now a.assumed s };

    ghost text_of = { λ a s. name a.possible.now.laid.tree.now s };

    ghost type_of = { λ a s. type_in (facts a.possible.now.laid.tree.now s) };

    ghost modules_of = { λ a. a.possible.now.laid.tree.now.modules };

    fn tri(&self, id: SymId) -> Tri {
        let lowest = symbol(self.possible, id).low;
        let Some((open, value)) = self.assumed else {
            return lowest;
        };
        if open.0 == id.0 { value } else { lowest }
    }

    fn text(&self, id: SymId) -> &[u8] {
        let possible = self.possible;
        name(possible.laid.tree, id)
    }

    fn symbol_type(&self, id: SymId) -> SymbolType {
        type_of(self.possible, id)
    }

    fn modules(&self) -> Option<SymId> {
        let possible = self.possible;
        possible.laid.tree.modules_symbol()
    }
}

// What is known of a side.
fn side_of(p: &Possible<'_>, o: &Operand) -> Side
    ensures { IsSide p.now (leaf_of o.now) result }
{
    let Operand::Sym(id) = o else {
        return Side::Fixed;
    };
    match type_of(p, *id) {
        SymbolType::Undefined => Side::Fixed,
        SymbolType::Bool | SymbolType::Tristate => {
            let bounds = symbol(p, *id);
            if bounds.low == bounds.high {
                Side::Fixed
            } else {
                Side::Open(*id)
            }
        }
        SymbolType::Str | SymbolType::Int | SymbolType::Hex => Side::Unknown,
    }
}

// What a relation is if one symbol has this value; nothing if it can't have it.
fn with_value(p: &Possible<'_>, e: &Expr, id: SymId, value: Tri) -> Bounds
    requires { DependsOnlyOn p.now id (form_of e.now) }
    ensures { CoversWhere p.now result id value (λ known. spec.value known p.now.laid.tree.now.modules (form_of e.now)) }
{
    if !symbol(p, id).has(value) {
        return Bounds::none();
    }
    let assumed = Assumed {
        possible: p,
        assumed: Some((id, value)),
    };
    Bounds::exactly(eval(e, &assumed))
}

// What a relation may be in which this symbol is the only one that may have several values.
fn by_symbol(p: &Possible<'_>, e: &Expr, id: SymId) -> Bounds
    requires { DependsOnlyOn p.now id (form_of e.now) }
    ensures { Covers p.now result (λ known. spec.value known p.now.laid.tree.now.modules (form_of e.now)) }
{
    let off = with_value(p, e, id, Tri::N);
    let module = with_value(p, e, id, Tri::M);
    let on = with_value(p, e, id, Tri::Y);
    off.join(module).join(on)
}

// What a relation may be whose sides are known.
fn settled(p: &Possible<'_>, e: &Expr) -> Bounds
    requires { IsSettled p.now (form_of e.now) }
    ensures { Covers p.now result (λ known. spec.value known p.now.laid.tree.now.modules (form_of e.now)) }
{
    let lowest = Assumed {
        possible: p,
        assumed: None,
    };
    Bounds::exactly(eval(e, &lowest))
}

// What a relation may be.
fn relation(p: &Possible<'_>, e: &Expr, operands: &Operands) -> Bounds
    requires { IsRelation (form_of e.now) (leaf_of operands.now.left) (leaf_of operands.now.right) }
    ensures { Covers p.now result (λ known. spec.value known p.now.laid.tree.now.modules (form_of e.now)) }
{
    match (side_of(p, &operands.left), side_of(p, &operands.right)) {
        (Side::Fixed, Side::Fixed) => settled(p, e),
        (Side::Open(id), Side::Fixed) | (Side::Fixed, Side::Open(id)) => by_symbol(p, e, id),
        (Side::Open(id), Side::Open(other)) if id.0 == other.0 => by_symbol(p, e, id),
        _ => Bounds::any(),
    }
}
