//! The calls of a device.
ghost use Rattle.std.specs.Prelude.{◌≡◌, ◌<◌, ◌≤◌, [], true, length, take, IfOk, OnErr, IsTrue, if◌then◌else◌};
ghost use Rattle.std.specs.List.{flat_map};
ghost use Rattle.kc_io.specs.Log.{Leads, Log, Tells, did, is_held, reported, said, tried, wrote, IsFound, IsOpened, OpenFile, ReadsOn, opening, reading};
ghost use Rattle.kc_language.specs.Lines.{is_whole_lines};

/// Why a call of a device failed.
#[derive(Clone, Copy, Debug, PartialEq, Eq)]
pub enum Fault {
    /// The device refused it, or the file does not exist.
    Refused,
    /// Memory ran out.
    Memory,
}

/// Which file is written: the one at the path itself, or a temporary file beside it, to be renamed.
#[derive(Clone, Copy, Debug, PartialEq, Eq)]
pub enum Site {
    Place,
    Beside,
}

/// A call of a device.
#[derive(Clone, Copy, Debug, PartialEq, Eq)]
pub enum Action {
    /// Open a file for reading.
    Open,
    /// Find that a file does not exist.
    Miss,
    /// Read a byte, or the end of the file.
    Read,
    /// Create an empty file.
    Create(Site),
    /// Write a byte.
    Write(Site),
    /// Close a complete file.
    Close(Site),
    /// Rename the temporary file to its path.
    Move,
    /// Remove the temporary files.
    Clear,
    /// Write diagnostics.
    Report,
}

/// Files, by name, and diagnostics (our own).
///
/// The log of a device in memory has the initial contents of its files, and then each call with its result. A disk records
/// nothing. One file is open for reading at a time: it is closed at its end, and when another one is opened.
pub trait Device {
    /// What was done and what failed, in order; or nothing, if the device does not record.
    ghost log: { Self → Log };

    /// The file that was opened last for reading.
    ghost file: { Self → OpenFile };

    /// Opens the file of this name, and returns whether it exists. If it does not exist and must, this is a `Fault`.
    fn open(&mut self, name: &str, may_be_missing: bool) -> Result<bool, Fault>
        ensures log { Leads (opening result name.now) [] (log self.old) (log self.new) }
        ensures found { IfOk result (IsFound (log self.old) name.now may_be_missing) }
        ensures file { IfOk result (λ there. IsTrue there → IsOpened (log self.old) name.now (file self.new)) };

    /// Puts the next bytes of the open file, which has this name, at the start of the buffer, and returns how many. No bytes, if the buffer has room,
    /// mean the end of the file. Then the file is closed.
    fn read(&mut self, name: &str, buffer: &mut [u8]) -> Result<usize, Fault>
        ensures within { IfOk result (λ count. count ≤ length buffer.old) }
        ensures log { Leads (reading result name.now buffer.new) [] (log self.old) (log self.new) }
        ensures given { IfOk result (λ count. ReadsOn count buffer.new (file self.old) (file self.new)) };

    /// Writes whole lines to the diagnostics: all parts as one text, of any length (at most 65,536 bytes in one system call).
    ///
    /// The caller must pass whole lines. After a `Fault` a prefix of them may have been written. The file open for reading is not affected.
    fn report(&mut self, parts: &[&[u8]]) -> Result<(), Fault>
        requires { is_whole_lines (flat_map (λ part. part.now) parts.now) ≡ true }
        ensures log { Leads (reported result) (said result (flat_map (λ part. part.now) parts.now)) (log self.old) (log self.new) }
        ensures stays { file self.new ≡ file self.old };

    /// Whether the file of this name exists and holds exactly these bytes.
    fn holds(&self, name: &str, bytes: &[u8]) -> bool
        ensures { Tells (log self.now) (λ journal. result ≡ is_held journal name.now bytes.now) };

    /// Creates an empty file.
    fn create(&mut self, site: Site, name: &str) -> Result<(), Fault>
        ensures { Leads (tried result (Action.Create site) name.now) [] (log self.old) (log self.new) };

    /// Writes a prefix of the bytes, at least one byte, to the file that was created last, and returns how many it wrote.
    ///
    /// The caller must pass at least one byte.
    fn write(&mut self, site: Site, name: &str, bytes: &[u8]) -> Result<usize, Fault>
        requires { 0 < length bytes.now }
        ensures some { IfOk result (λ count. 0 < count) }
        ensures within { IfOk result (λ count. count ≤ length bytes.now) }
        ensures log { Leads (wrote result site name.now bytes.now) [] (log self.old) (log self.new) };

    /// Closes the file that was created last, which is complete. A temporary file is then on the disk.
    fn close(&mut self, site: Site, name: &str) -> Result<(), Fault>
        ensures { Leads (tried result (Action.Close site) name.now) [] (log self.old) (log self.new) };

    /// Renames the temporary file of this path to the path, atomically.
    fn move_there(&mut self, name: &str) -> Result<(), Fault>
        ensures { Leads (tried result Action.Move name.now) [] (log self.old) (log self.new) };

    /// Removes the temporary files. It cannot fail; if a removal fails on a disk, that file stays.
    fn clear(&mut self)
        ensures { Leads (did Action.Clear []) [] (log self.old) (log self.new) };
}
