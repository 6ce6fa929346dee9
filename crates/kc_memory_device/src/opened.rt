//! A file that was opened for reading.
ghost use Rattle.std.specs.Prelude.{◌≡◌, ◌≤◌, length};

use std::alloc::Global;

/// Its content, and how much of it was read.
#[derive(Drop)]
pub(crate) struct Opened {
    pub(crate) bytes: Vec<u8>,
    pub(crate) at: usize,
    /// Whether the device was recording when it was opened.
    pub(crate) is_told: bool,
    ghost within: { at ≤ length bytes.items },
}

impl Opened {
    ghost use Rattle.kc_io.specs.Log.{ReadsOn};
    ghost use Rattle.kc_memory_device.specs.Opened.{open_file};

    /// No file is open.
    pub(crate) fn nothing(alloc: Global) -> Opened {
        Opened {
            bytes: Vec::new(alloc),
            at: 0,
            is_told: false,
        }
    }

    /// Puts the next bytes at the start of the buffer, at most `most` and at least one, and returns their number.
    pub(crate) fn read(&mut self, buffer: &mut [u8], most: usize) -> usize
        ensures within { result ≤ length buffer.old }
        ensures length { length buffer.new ≡ length buffer.old }
        ensures given { ReadsOn result buffer.new (open_file self.old) (open_file self.new) }
    {
        let rest = &self.bytes[self.at..];
        let count = rest.len().min(buffer.len()).min(most.max(1));
        buffer[..count].copy_from_slice(&rest[..count]);
        self.at += count;
        count
    }
}
