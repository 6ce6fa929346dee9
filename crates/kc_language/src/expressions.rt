//! Truth values, symbols by their number, and the types of symbols.

/// A value of a condition: no, module or yes, in this order (the kernel's kconfig-language, "Menu dependencies").
#[derive(Clone, Copy, PartialEq, Eq, PartialOrd, Ord, Debug)]
pub enum Tri {
    /// No, written `n`.
    N,
    /// Module, written `m`.
    M,
    /// Yes, written `y`.
    Y,
}

/// The number of a name. Names are numbered from 0 in the order of their first mention.
#[derive(Clone, Copy, PartialEq, Eq, PartialOrd, Ord, Hash, Debug)]
pub struct SymId(pub usize);

/// The type of a symbol.
#[derive(Clone, Copy, PartialEq, Eq, Debug)]
pub enum SymbolType {
    /// No type: a name that no line defines, or one that is defined without a type.
    Undefined,
    /// `bool`: n or y.
    Bool,
    /// `tristate`: n, m or y.
    Tristate,
    /// `string`: any text.
    Str,
    /// `int`: a decimal number.
    Int,
    /// `hex`: a hexadecimal number.
    Hex,
}

/// The connective between the parts of a chain (the kernel's kconfig-language document, "Menu dependencies").
#[derive(Clone, Copy)]
pub enum Connective {
    /// `&&`
    And,
    /// `||`
    Or,
}
