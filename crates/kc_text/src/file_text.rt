//! The text of a file, with its number of lines and its long lines.
ghost use Rattle.std.specs.Prelude.{◌≡◌, length};
ghost use Rattle.kc_language.specs.Lines.{physical_lines};
ghost use Rattle.kc_text.specs.LongLines.{AreLong};

use crate::long_lines::{LongLine, long_lines};
use crate::physical::line_count;
use std::alloc::Global;
use std::marker::Model;

/// The text of a file that may be read many times: its bytes, the number of its physical lines, and its long lines.
/// Clauses see the bytes.
#[derive(Drop)]
pub struct FileText {
    bytes: Vec<u8>,
    line_count: usize,
    long_lines: Vec<LongLine>,
}

impl Model for FileText {
    ghost use Rattle.std.specs.Prelude.{◌≡◌, ℕ, List, length};
    ghost use Rattle.kc_language.specs.Lines.{physical_lines};
    ghost use Rattle.kc_text.specs.LongLines.{AreLong};

    ghost Value = { List ℕ };

    ghost view = { λ t. t.bytes.items };

    ghost invariant = { λ t. (t.line_count ≡ length (physical_lines t.bytes.items)) × AreLong t.bytes.items t.long_lines.items };
}

impl FileText {
    /// Returns the text of these bytes. If memory runs out, fewer of its long lines are known, and reading it is slower.
    pub fn new(alloc: Global, bytes: Vec<u8>) -> FileText
        ensures { result ≡ bytes.items }
    {
        let line_count = line_count(&bytes);
        let long_lines = long_lines(alloc, &bytes);
        FileText {
            bytes,
            line_count,
            long_lines,
        }
    }

    /// The bytes.
    pub fn bytes(&self) -> &[u8]
        ensures { result.now ≡ self.now }
    {
        &self.bytes
    }

    /// The number of physical lines. `new` counted it.
    pub fn line_count(&self) -> usize
        ensures { result ≡ length (physical_lines self.now) }
    {
        self.line_count
    }

    /// The known long lines.
    pub(crate) fn long_lines(&self) -> &[LongLine]
        ensures { AreLong self.now result.now }
    {
        &self.long_lines
    }
}
