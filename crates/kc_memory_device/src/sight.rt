//! The rest of expected bytes, while writes are replayed.
ghost use Rattle.std.specs.Prelude.{◌≡◌};
ghost use Rattle.kc_memory_device.specs.Sights.{bytes_of, seen};
ghost use Rattle.kc_memory_device.specs.Stripped.{acted_seen, stripped_of};

use kc_io::{Action, Site};

/// The bytes that remain after the content of a file, and after the temporary file beside it, if that content is their
/// prefix.
#[derive(Clone, Copy)]
pub(crate) struct Sight<'b> {
    pub(crate) held: Option<&'b [u8]>,
    pub(crate) beside: Option<&'b [u8]>,
}

/// Returns the bytes after what was written.
pub(crate) fn rest_of<'b>(rest: Option<&'b [u8]>, written: &[u8]) -> Option<&'b [u8]>
    ensures { bytes_of result ≡ stripped_of (bytes_of rest.entry) written.now }
{
    match rest {
        Some(rest) => rest.strip_prefix(written),
        None => None,
    }
}

/// Returns the remaining bytes after one more action.
pub(crate) fn seen_after<'b>(
    bytes: &'b [u8],
    sight: Sight<'b>,
    action: Action,
    written: &[u8],
) -> Sight<'b>
    ensures { seen result ≡ acted_seen bytes.now action written.now (seen sight.entry) }
{
    let Sight { held, beside } = sight;
    match action {
        Action::Create(Site::Place) => Sight {
            held: Some(bytes),
            beside,
        },
        Action::Create(Site::Beside) => Sight {
            held,
            beside: Some(bytes),
        },
        Action::Write(Site::Place) => Sight {
            held: rest_of(held, written),
            beside,
        },
        Action::Write(Site::Beside) => Sight {
            held,
            beside: rest_of(beside, written),
        },
        Action::Move => Sight {
            held: beside,
            beside,
        },
        Action::Open
        | Action::Miss
        | Action::Read
        | Action::Close(_)
        | Action::Clear
        | Action::Report => Sight { held, beside },
    }
}
