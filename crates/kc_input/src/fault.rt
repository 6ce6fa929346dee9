//! Why reading stopped.
ghost use Rattle.std.specs.Prelude.{◌≡◌};
ghost use Rattle.kc_input.specs.declared.fault.InputFault.TheVariants.{Memory};

use std::alloc::{AllocError, AllocFailed};

/// Why reading a `.config` stopped.
#[derive(Clone, Copy, Debug, PartialEq, Eq)]
pub enum InputFault {
    /// The line of this number has more than 65,535 bytes (E17).
    InputLineTooLong(u64),
    /// There was not enough memory (E20).
    Memory,
}

impl From<AllocError> for InputFault {
    ghost from_gives = { λ _ e. e ≡ Memory };

    fn from(_e: AllocError) -> InputFault {
        InputFault::Memory
    }
}

impl<T: Drop> From<AllocFailed<T>> for InputFault {
    ghost from_gives = { λ _ e. e ≡ Memory };

    fn from(_e: AllocFailed<T>) -> InputFault {
        InputFault::Memory
    }
}
