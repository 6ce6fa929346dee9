//! A folder: files by their paths.

ghost use Rattle.std.specs.Prelude.{◌≡◌, Option};
ghost use Rattle.kc_load.specs.Folder.{FolderState, ReadsAt};
ghost use Rattle.kc_load.specs.declared.folder.FolderFault.TheVariants.{Memory};

use kc_expr::hash_key::HashKey;
use std::alloc::AllocError;

/// Why a file could not be read.
#[derive(Clone, Copy, Debug, PartialEq, Eq)]
pub enum FolderFault {
    /// The device failed at this path.
    Device,
    /// There was not enough memory.
    Memory,
}

impl From<AllocError> for FolderFault {
    ghost from_gives = { λ _ e. e ≡ Memory };

    fn from(_e: AllocError) -> FolderFault {
        FolderFault::Memory
    }
}

/// Files by their paths. A read changes no file, and no method writes one.
pub trait Folder {
    /// What each path holds, and the paths at which a read failed; or None if nothing is recorded, as for a folder on a
    /// disk.
    ghost state: { Self → Option FolderState };

    /// Reads the file at this path. Returns its bytes, or None if there is no such file. The record then stays the
    /// same. A folder may stop recording, and cannot start again.
    ///
    /// # Errors
    ///
    /// `Device` if the device failed: then this path is recorded as the last one at which a read failed. `Memory` if
    /// there was not enough memory: then the record stays the same.
    fn read(&mut self, path: &str) -> Result<Option<Vec<u8>>, FolderFault>
        ensures { ReadsAt path.now (state self.old) (state self.new) result };

    /// The key of the hash tables of names. A folder whose files come from strangers returns a secret key.
    fn key(&self) -> HashKey {
        HashKey::known()
    }
}
