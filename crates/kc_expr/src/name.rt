//! The bytes of one name.

ghost use Rattle.std.specs.Prelude.{◌≡◌, ◌∷◌, [], IfOk};
ghost use Rattle.std.proofs.Common.{ap, rules};
ghost use Rattle.std.specs.Cmp.Lexicographic.{bytes_decides};
ghost use Rattle.std.specs.Cmp.Rules.{comparing};
ghost use Rattle.kc_language.specs.Expressions.{same_name};

use indexmap::Equivalent;
use smallvec::SmallVec;
use std::alloc::{AllocError, Global};
use std::hash::{Hash, Hasher};

/// The bytes of a name. Up to 24 bytes are stored in the value itself, which is enough for nearly every name: comparing
/// them follows no pointer, and they need no allocation.
#[derive(PartialEq, Eq, Drop)]
pub(crate) struct Name {
    pub(crate) bytes: SmallVec<u8, 24>,
}

impl Name {
    /// Returns the name with these bytes. The only error is that memory runs out.
    pub(crate) fn of(alloc: Global, bytes: &[u8]) -> Result<Name, AllocError>
        ensures { IfOk result (λ n. n.bytes.items ≡ bytes.now) }
    {
        Ok(Name {
            bytes: SmallVec::from_slice(alloc, bytes)?,
        })
    }

    /// The bytes.
    pub(crate) fn as_slice(&self) -> &[u8]
        ensures { result.now ≡ self.now.bytes.items }
    {
        self.bytes.as_slice()
    }
}

// A name is hashed as one piece: for one byte at a time a hasher does as much work as for eight.
impl Hash for Name {
    ghost hash_input = { λ n. n.bytes.items ∷ [] };

    ghost respects_eq = { λ x y h. ap (λ b. b ∷ []) ((bytes_decides x.bytes.items y.bytes.items).0 h) };

    fn hash<H: Hasher>(&self, state: &mut H) {
        state.write(self.bytes.as_slice());
    }
}

/// The bytes of a name that is looked up.
#[derive(Clone, Copy, PartialEq, Eq)]
pub(crate) struct Spelled<'a> {
    pub(crate) bytes: &'a [u8],
}

impl<'a> Hash for Spelled<'a> {
    ghost hash_input = { λ q. q.bytes.now ∷ [] };

    ghost respects_eq = { λ x y h. ap (λ b. b ∷ []) ((bytes_decides x.bytes.now y.bytes.now).0 h) };

    fn hash<H: Hasher>(&self, state: &mut H) {
        state.write(self.bytes);
    }
}

// Bytes are equivalent to the name that has them.
impl<'a> Equivalent<Name> for Spelled<'a> {
    ghost equivalent = { λ q k. same_name q.bytes.now k.bytes.items };

    ghost respects_hash = { λ q k h. ap (λ b. b ∷ []) ((bytes_decides q.bytes.now k.bytes.items).0 h) };

    ghost respects_eq = { λ q x y. Prim.search (comparing, rules) };

    fn equivalent(&self, key: &Name) -> bool {
        self.bytes == key.as_slice()
    }
}
