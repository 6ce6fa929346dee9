//! Refusals of lines.

ghost use Rattle.std.specs.Prelude.{◌≡◌, ◌≢◌};
ghost use Rattle.kc_language.specs.declared.diagnostics.Cause.TheVariants.{Memory};
ghost use Rattle.kc_language.specs.Expansion.{refusal_at};
ghost use Rattle.kc_read.specs.LineReads.{cause_of};
ghost use Rattle.kc_read.specs.RefusalView.{IsMemory, refusal_view};

use crate::refusal::Refusal;
use kc_diagnostics::Cause;
use kc_entries::statement::LineFault;
use std::alloc::Global;

/// The refusal for a fault at a line, or out of memory. It is inlined, and so is all that it calls: then the compiler keeps
/// the parts of a result that may be a refusal in registers.
#[inline(always)]
pub(crate) fn refuse(alloc: Global, fault: LineFault, file: &[u8], line: u32) -> Refusal
    ensures refused { result.cause ≢ Memory → refusal_view result ≡ refusal_at (cause_of fault.entry) file.now line }
    ensures memory { IsMemory result }
{
    match fault {
        Cause::Memory => return Refusal::out_of_memory(),
        _ => {}
    }
    match Refusal::located(alloc, fault, file, line) {
        Ok(refusal) => refusal,
        Err(_) => Refusal::out_of_memory(),
    }
}
