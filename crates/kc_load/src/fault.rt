//! Why files could not be loaded.

ghost use Rattle.std.specs.Prelude.{◌≡◌};
ghost use Rattle.kc_load.specs.declared.fault.LoadFault.TheVariants.{Memory};

use std::alloc::{AllocError, AllocFailed};

/// Why the files could not be loaded.
#[derive(Debug, Drop)]
pub enum LoadFault {
    /// E18: the folder's device failed at the file of this name. It is a name of the map.
    CannotRead(Vec<u8>),
    /// E20: there was not enough memory.
    Memory,
}

impl From<AllocError> for LoadFault {
    ghost from_gives = { λ _ e. e ≡ Memory };

    fn from(_e: AllocError) -> LoadFault {
        LoadFault::Memory
    }
}

impl<T: Drop> From<AllocFailed<T>> for LoadFault {
    ghost from_gives = { λ _ e. e ≡ Memory };

    fn from(_e: AllocFailed<T>) -> LoadFault {
        LoadFault::Memory
    }
}
