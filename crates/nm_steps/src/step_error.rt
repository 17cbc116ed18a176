//! Why a value is not a step.

ghost use Rattle.std.specs.Prelude.{◌≡◌};
ghost use Rattle.nm_steps.specs.declared.step_error.StepError.TheVariants.{Bad, Memory};

use json::Invalid;
use std::alloc::{AllocError, AllocFailed};

/// Why there is no step.
#[derive(Clone, Copy)]
pub enum StepError {
    /// The value does not have the form of a step.
    Bad,
    /// The host is out of memory.
    Memory,
}

impl From<AllocError> for StepError {
    ghost from_gives = { λ _ e. e ≡ Memory };

    fn from(_e: AllocError) -> StepError {
        StepError::Memory
    }
}

impl<T: Drop> From<AllocFailed<T>> for StepError {
    ghost from_gives = { λ _ e. e ≡ Memory };

    fn from(_e: AllocFailed<T>) -> StepError {
        StepError::Memory
    }
}

impl From<Invalid> for StepError {
    ghost from_gives = { λ _ e. e ≡ Bad };

    fn from(_e: Invalid) -> StepError {
        StepError::Bad
    }
}
