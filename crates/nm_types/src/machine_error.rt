//! Why a call changed nothing.

ghost use Rattle.std.specs.Prelude.{◌≡◌};
ghost use Rattle.nm_types.specs.declared.machine_error.MachineError.TheVariants.{Refused, HostMemory};

use crate::errno::Errno;
use std::alloc::{AllocError, AllocFailed};
use thiserror::Error;

/// Why a call changed nothing.
#[derive(Clone, Copy, Debug, PartialEq, Eq, Error)]
pub enum MachineError {
    /// The call is refused by a rule of the machine.
    #[error("{0}")]
    Refused(Errno),
    /// The host is out of memory. Nothing has changed.
    #[error("host memory refused")]
    HostMemory,
}

impl From<Errno> for MachineError {
    ghost from_gives = { λ errno e. e ≡ Refused errno };

    fn from(errno: Errno) -> MachineError {
        MachineError::Refused(errno)
    }
}

impl From<AllocError> for MachineError {
    ghost from_gives = { λ _ e. e ≡ HostMemory };

    fn from(_e: AllocError) -> MachineError {
        MachineError::HostMemory
    }
}

impl<T: Drop> From<AllocFailed<T>> for MachineError {
    ghost from_gives = { λ _ e. e ≡ HostMemory };

    fn from(_e: AllocFailed<T>) -> MachineError {
        MachineError::HostMemory
    }
}
