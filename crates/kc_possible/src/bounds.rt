//! The truth values between two.

ghost use Rattle.std.specs.Prelude.{◌≡◌, false, not, true};
ghost use Rattle.kc_language.specs.Expressions.{greater, lesser, opposite};
ghost use Rattle.kc_language.specs.Values.{above, upgrade};
ghost use Rattle.kc_language.specs.declared.expressions.Tri.{Tri};
ghost use Rattle.kc_possible.specs.Bounds.{IsWithin, is_between};

use kc_expr::expression::Tri;
use kc_expr::values;
use kc_values::conditions;

/// The truth values from a lowest to a highest one (our own). There is none if `low` is above `high`.
#[derive(Clone, Copy, Debug, PartialEq, Eq)]
pub struct Bounds {
    /// The lowest value.
    pub low: Tri,
    /// The highest value.
    pub high: Tri,
}

// Whether a value is not above another one.
fn at_most(a: Tri, b: Tri) -> bool
    ensures { result ≡ not (above a b) }
{
    match (a, b) {
        (Tri::N, _) | (_, Tri::Y) | (Tri::M, Tri::M) => true,
        _ => false,
    }
}

impl Bounds {
    /// Every truth value.
    pub fn any() -> Bounds
        ensures { (t : Tri) → IsWithin result t }
    {
        Bounds {
            low: Tri::N,
            high: Tri::Y,
        }
    }

    /// No truth value.
    pub(crate) fn none() -> Bounds
        ensures { (t : Tri) → is_between result t ≡ false }
    {
        Bounds {
            low: Tri::Y,
            high: Tri::N,
        }
    }

    /// This value alone.
    pub fn exactly(value: Tri) -> Bounds
        ensures only { (t : Tri) → IsWithin result t → t ≡ value }
        ensures within { IsWithin result value }
    {
        Bounds {
            low: value,
            high: value,
        }
    }

    /// Whether the value is between these.
    pub fn has(self, value: Tri) -> bool
        ensures { result ≡ is_between self value }
    {
        at_most(self.low, value) && at_most(value, self.high)
    }

    /// Between these and those: what is between either.
    pub(crate) fn join(self, other: Bounds) -> Bounds
        ensures left { (t : Tri) → IsWithin self t → IsWithin result t }
        ensures right { (t : Tri) → IsWithin other t → IsWithin result t }
    {
        Bounds {
            low: values::lesser(self.low, other.low),
            high: values::greater(self.high, other.high),
        }
    }

    /// What the lesser of two values may be.
    pub(crate) fn lesser(self, other: Bounds) -> Bounds
        ensures { (t u : Tri) → IsWithin self t → IsWithin other u → IsWithin result (lesser t u) }
    {
        Bounds {
            low: values::lesser(self.low, other.low),
            high: values::lesser(self.high, other.high),
        }
    }

    /// What the greater of two values may be.
    pub(crate) fn greater(self, other: Bounds) -> Bounds
        ensures { (t u : Tri) → IsWithin self t → IsWithin other u → IsWithin result (greater t u) }
    {
        Bounds {
            low: values::greater(self.low, other.low),
            high: values::greater(self.high, other.high),
        }
    }

    /// What `!` of a value may be.
    pub(crate) fn opposite(self) -> Bounds
        ensures { (t : Tri) → IsWithin self t → IsWithin result (opposite t) }
    {
        Bounds {
            low: values::opposite(self.high),
            high: values::opposite(self.low),
        }
    }

    /// What a value may be with y in place of m.
    pub(crate) fn upgrade(self) -> Bounds
        ensures { (t : Tri) → IsWithin self t → IsWithin result (upgrade t) }
    {
        Bounds {
            low: conditions::upgrade(self.low),
            high: conditions::upgrade(self.high),
        }
    }
}
