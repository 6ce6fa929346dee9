//! The result of a call.

use std::alloc::AllocError;

/// The result of a call in which an allocation may have failed.
#[derive(Clone, Copy)]
pub(crate) enum CallEnd {
    /// It did its work.
    Done,
    /// It failed with out of memory, and its contract holds.
    Refused,
    /// Neither.
    Wrong,
}

/// The result of a call that did its work, if this check of the work holds.
pub(crate) fn done(holds: bool) -> CallEnd {
    if holds { CallEnd::Done } else { CallEnd::Wrong }
}

/// The result of a call that failed with out of memory, if this check of its effects holds.
pub(crate) fn refused(holds: bool) -> CallEnd {
    if holds {
        CallEnd::Refused
    } else {
        CallEnd::Wrong
    }
}

/// The result of a call, in words. An error means out of memory while its input was prepared.
pub(crate) fn said(end: Result<CallEnd, AllocError>) -> &'static str {
    match end {
        Ok(CallEnd::Done) => "done",
        Ok(CallEnd::Refused) => "refused",
        Ok(CallEnd::Wrong) => "wrong",
        Err(_) => "no memory before it",
    }
}
