//! The report of a usage error.
ghost use Rattle.std.specs.Prelude.{◌≡◌};
ghost use Rattle.kc_language.specs.Lines.{is_whole_lines};
ghost use Rattle.kc_disk.specs.Program.{EndsUsage, SaysText, SaysUsage};
ghost use Rattle.kc_disk.specs.PartsOfProgram.{line_end};

use kc_conf::Status;
use kc_io::Device;
use kc_words::UsageError;

// Whether the bytes are whole lines.
fn is_whole_lines(bytes: &[u8]) -> bool
    ensures { result ≡ is_whole_lines bytes.now }
{
    match bytes {
        [] => true,
        [.., last] => *last == b'\n',
    }
}

// The end of the last line, if it is missing.
fn end_of<'a>(bytes: &'a [u8]) -> &'a [u8]
    ensures { result.now ≡ line_end bytes.now }
{
    if is_whole_lines(bytes) { b"" } else { b"\n" }
}

// Reports the error, in whole lines. A fault of the diagnostics does not change the status.
fn say_text<D: Device>(device: &mut D, text: &str)
    ensures { SaysText text.now (D.log device.old) (D.log device.new) }
{
    let _ = device.report(&[text.as_bytes(), end_of(text.as_bytes())]);
}

// Reports why arguments give no run, and returns the status. Help and the version are not reported.
pub(crate) fn say_usage<D: Device>(device: &mut D, usage: &UsageError) -> Status
    ensures status { EndsUsage usage.now result }
    ensures says { SaysUsage usage.now (D.log device.old) (D.log device.new) }
{
    match usage {
        UsageError::Help(_) | UsageError::Version => Status::Faulted,
        UsageError::Bad(text) => {
            say_text(device, text.as_str());
            Status::Usage
        }
        UsageError::Memory => {
            say_text(device, usage.text());
            Status::Faulted
        }
    }
}
