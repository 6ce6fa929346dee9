//! Why a run stopped early.
ghost use Rattle.std.specs.Prelude.{◌≡◌};
ghost use Rattle.kc_conf.specs.declared.stop.Stop.TheVariants.{OutOfMemory};

use kc_io::Failure;
use std::alloc::AllocError;

/// Why a run stopped early.
#[derive(Clone, Copy, Debug)]
pub enum Stop<'a> {
    /// There was not enough memory.
    OutOfMemory,
    /// The device failed.
    Failed(Failure<'a>),
}

impl<'a> From<AllocError> for Stop<'a> {
    ghost from_gives = { λ _ stop. stop ≡ OutOfMemory };

    fn from(_error: AllocError) -> Stop<'a> {
        Stop::OutOfMemory
    }
}
