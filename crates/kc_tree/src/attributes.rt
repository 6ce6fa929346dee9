//! The content of one line of an entry.

ghost use Rattle.std.specs.Prelude.{◌≡◌, option_map};
ghost use Rattle.kc_expr.specs.Form.{form_of};
ghost use Rattle.kc_expr.specs.When.{when_view};
ghost use Rattle.kc_entries.specs.StatementViews.{attribute_view, head_view, input_prompt_view};
ghost use Rattle.std.specs.List.{filter_map};
ghost use Rattle.kc_language.specs.Expansion.{defined_name};
ghost use Rattle.kc_language.specs.Symbols as rules;
ghost use Rattle.kc_entries.specs.PartsOfSymbols as parts;
ghost use Rattle.kc_tree.specs.EntryViews.{statements_of};
ghost use Rattle.kc_tree.specs.LineParts.{default_said, default_symbol as symbol_alone, range_said, target_said};

use kc_entries::entries::AttributeLine;
use kc_entries::statement::{Attribute, Head, Prompt, SymbolDefault, SymbolRange};
use kc_expr::expression::{Expr, Operand, SymId, SymbolType};
use kc_language::symbols::SelectOrImply;
use std::rc::Rc;

/// A `select` or `imply` line: its keyword, the symbol that it names, and its condition.
#[derive(Clone, Copy)]
pub struct Target<'a> {
    pub word: SelectOrImply,
    pub symbol: SymId,
    pub when: &'a Option<Rc<Expr>>,
}

/// Returns the symbol that a `config` line defines.
pub fn symbol_of(head: &Head) -> Option<SymId>
    ensures { result ≡ defined_name (head_view head.now) }
{
    match head {
        Head::Config(symbol) => Some(*symbol),
        _ => None,
    }
}

/// Returns the type that a line gives.
pub fn stated_type(attribute: &Attribute) -> Option<SymbolType>
    ensures { result ≡ rules.stated_type (attribute_view attribute.now) }
{
    match attribute {
        Attribute::Type(symbol_type, _) => Some(*symbol_type),
        Attribute::Def(symbol_type, _) => Some(*symbol_type),
        _ => None,
    }
}

/// Returns the first type that these lines give.
pub fn first_type(attributes: &[AttributeLine]) -> Option<SymbolType>
    ensures { result ≡ parts.first_of (filter_map rules.stated_type (statements_of attributes.now)) }
{
    for line in attributes {
        if let Some(symbol_type) = stated_type(&line.attribute) {
            return Some(symbol_type);
        }
    }
    None
}

/// Returns the prompt of a line.
pub fn prompt_of(attribute: &Attribute) -> Option<&Prompt>
    ensures { option_map (λ p. input_prompt_view p.now) result ≡ rules.prompt_of (attribute_view attribute.now) }
{
    match attribute {
        Attribute::Type(_, Some(prompt)) => Some(prompt),
        Attribute::Prompt(prompt) => Some(prompt),
        _ => None,
    }
}

/// Returns the default of a line.
pub fn stated_default(attribute: &Attribute) -> Option<&SymbolDefault>
    ensures { option_map (λ d. default_said d.now) result ≡ rules.stated_default (attribute_view attribute.now) }
{
    match attribute {
        Attribute::Default(stated) => Some(stated),
        Attribute::Def(_, stated) => Some(stated),
        _ => None,
    }
}

/// Returns the range of a line.
pub fn range_of(attribute: &Attribute) -> Option<&SymbolRange>
    ensures { option_map (λ r. range_said r.now) result ≡ rules.range_in (attribute_view attribute.now) }
{
    match attribute {
        Attribute::Range(range) => Some(range),
        _ => None,
    }
}

/// Returns the expression of a `depends on` line.
pub fn depends_of(attribute: &Attribute) -> Option<&Expr>
    ensures { option_map (λ e. form_of e.now) result ≡ rules.dependency_in (attribute_view attribute.now) }
{
    match attribute {
        Attribute::Depends(e) => Some(e),
        _ => None,
    }
}

/// Returns the expression of a `visible if` line.
pub fn visible_of(attribute: &Attribute) -> Option<&Expr>
    ensures { option_map (λ e. form_of e.now) result ≡ rules.visible_in (attribute_view attribute.now) }
{
    match attribute {
        Attribute::Visible(e) => Some(e),
        _ => None,
    }
}

/// Returns the target of a line that selects or implies.
pub fn target_of(attribute: &Attribute) -> Option<Target<'_>>
    ensures { option_map target_said result ≡ rules.target_of (attribute_view attribute.now) }
{
    match attribute {
        Attribute::Select(symbol, when) => Some(Target {
            word: SelectOrImply::Select,
            symbol: *symbol,
            when,
        }),
        Attribute::Imply(symbol, when) => Some(Target {
            word: SelectOrImply::Imply,
            symbol: *symbol,
            when,
        }),
        _ => None,
    }
}

/// Returns the expression of a condition, if there is one.
pub fn condition(when: &Option<Rc<Expr>>) -> Option<&Expr>
    ensures { option_map (λ e. form_of e.now) result ≡ when_view when.now }
{
    match when {
        Some(e) => Some(e),
        None => None,
    }
}

/// Whether an expression is one operand.
pub fn is_single(value: &Expr) -> bool
    ensures { result ≡ parts.is_single (form_of value.now) }
{
    match value {
        Expr::One(_) => true,
        Expr::Rel(..)
        | Expr::NotOne(_)
        | Expr::Not(_)
        | Expr::Module
        | Expr::All(_)
        | Expr::Any(_) => false,
    }
}

/// Returns the symbol of an expression that is one symbol.
pub fn single_symbol(value: &Expr) -> Option<SymId>
    ensures { result ≡ rules.single_symbol (form_of value.now) }
{
    match value {
        Expr::One(Operand::Sym(symbol)) => Some(*symbol),
        Expr::One(_)
        | Expr::Rel(..)
        | Expr::NotOne(_)
        | Expr::Not(_)
        | Expr::Module
        | Expr::All(_)
        | Expr::Any(_) => None,
    }
}

/// Returns the symbol of a default whose value is one symbol.
pub fn default_symbol(attribute: &Attribute) -> Option<SymId>
    ensures { result ≡ symbol_alone (attribute_view attribute.now) }
{
    match stated_default(attribute) {
        Some(stated) => single_symbol(&stated.value),
        None => None,
    }
}
