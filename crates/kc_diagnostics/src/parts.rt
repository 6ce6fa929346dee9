//! Appends parts to a text, all of them or none.

ghost use Rattle.std.specs.Prelude.{◌≡◌, ◌++◌, OnOk, OnErr, flat_map};

use std::alloc::AllocError;

/// Appends the parts to the text, in order. The only error is that memory runs out. Then the text is unchanged.
pub(crate) fn add_parts(parts: &[&[u8]], text: &mut Vec<u8>) -> Result<(), AllocError>
    ensures whole { OnOk result (text.new.items ≡ text.old.items ++ flat_map (λ part. part.now) parts.now) }
    ensures nothing { OnErr result (text.new.items ≡ text.old.items) }
{
    let before = text.len();
    for part in parts {
        match text.extend_from_slice(part) {
            Ok(()) => {}
            Err(fault) => {
                text.truncate(before);
                return Err(fault);
            }
        }
    }
    Ok(())
}
