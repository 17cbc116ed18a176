//! Why a call failed.

ghost use Rattle.std.specs.Prelude.{◌≡◌};
ghost use Rattle.nm_passes.specs.declared.call_error.CallError.TheVariants.{Refused};
ghost use Rattle.nm_passes.specs.views.Errors.{out_of_memory, of_machine};

use nm_engine::MachineError;
use nm_types::Errno;
use std::alloc::{AllocError, AllocFailed};
use thiserror::Error;

/// Why a call failed.
#[derive(Clone, Copy, Debug, PartialEq, Eq, Error)]
pub enum CallError {
    /// A rule of the machine refuses the call, which has changed nothing. Two calls are refused after their moves,
    /// which remain: `mbind` with EIO if it moves pages, and `offline` with EBUSY if a page stays.
    #[error("{0}")]
    Refused(Errno),
    /// The host is out of memory. The machine is as the first runs of the call left it, with the policy set or not.
    #[error("host memory refused after {runs} runs")]
    HostMemory {
        /// How many runs of the call were made: fewer than it has, and 0 if it has none.
        runs: usize,
        /// Whether the call had set the policy of areas, which `mbind` does before its first run.
        policy_set: bool,
    },
}

impl From<AllocError> for CallError {
    ghost from_gives = { λ _ e. e ≡ out_of_memory 0 };

    fn from(_e: AllocError) -> CallError {
        CallError::HostMemory {
            runs: 0,
            policy_set: false,
        }
    }
}

impl<T: Drop> From<AllocFailed<T>> for CallError {
    ghost from_gives = { λ _ e. e ≡ out_of_memory 0 };

    fn from(_e: AllocFailed<T>) -> CallError {
        CallError::HostMemory {
            runs: 0,
            policy_set: false,
        }
    }
}

impl From<Errno> for CallError {
    ghost from_gives = { λ errno e. e ≡ Refused errno };

    fn from(errno: Errno) -> CallError {
        CallError::Refused(errno)
    }
}

impl From<MachineError> for CallError {
    ghost from_gives = { λ error e. e ≡ of_machine error };

    fn from(error: MachineError) -> CallError {
        match error {
            MachineError::Refused(errno) => CallError::Refused(errno),
            MachineError::HostMemory => CallError::HostMemory {
                runs: 0,
                policy_set: false,
            },
        }
    }
}
