//! The texts of the errors of a run over an accepted tree.

ghost use Rattle.std.specs.Prelude.{◌≡◌, flat_map};
ghost use Rattle.kc_language.specs.Statements.{run_error_text};
ghost use Rattle.kc_language.specs.Statements.{out_of_memory_line};
ghost use Rattle.kc_diagnostics.specs.RunErrors.{shown_run_error};

use kc_language::diagnostics::RunError;

/// Returns the error's number and text as consecutive parts.
pub fn run_error_parts<'a>(error: RunError<&'a [u8]>) -> [&'a [u8]; 3]
    ensures { flat_map (λ part. part.now) result ≡ run_error_text (shown_run_error error.entry) }
{
    match error {
        RunError::LineTooLong => [b"E17: line longer than 65535 bytes", b"", b""],
        RunError::CannotRead(name) => [b"E18: cannot read ", name, b""],
        RunError::CannotWrite(name) => [b"E19: cannot write ", name, b""],
        RunError::Memory => [b"E20: out of memory", b"", b""],
        RunError::WarningsRefused => [b"E21: warnings are refused", b"", b""],
        RunError::NotUpToDate(name) => [b"E22: ", name, b" is not up to date"],
        RunError::UnreadableName(name) => [b"E23: make cannot read the name ", name, b""],
        RunError::UnknownName(name, near) => [b"E24: no symbol has the name ", name, near],
    }
}

/// Returns the whole line of E20.
pub fn out_of_memory() -> &'static str
    ensures { result.now ≡ out_of_memory_line }
{
    "error E20: out of memory\n"
}
