//! The text of a file in memory.
ghost use Rattle.std.specs.Prelude.{◌≡◌, [], IfOk};

use std::alloc::{AllocError, Global};

/// The initial capacity of a text. It doubles when the text needs more.
const ROOM: usize = 65_536;

/// An empty text.
pub(crate) fn new_text(alloc: Global) -> Result<Vec<u8>, AllocError>
    ensures { IfOk result (λ text. text.items ≡ []) }
{
    Vec::with_capacity(alloc, ROOM)
}
