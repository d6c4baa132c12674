// Why a body was not taken.
ghost use Rattle.std.specs.Prelude.{◌≡◌};
ghost use Rattle.machine.specs.declared.error.BodyError.TheVariants.{Refused, OutOfMemory};

use forms::Rejected;
use std::alloc::AllocError;
use thiserror::Error;

/// Why a body was not taken: a refusal with its place, or out of memory, which is no refusal and has no number.
#[derive(Clone, Copy, PartialEq, Eq, Debug, Error)]
pub enum BodyError {
    #[error("{0}")]
    Refused(Rejected),
    #[error("out of memory")]
    OutOfMemory,
}

// By hand, here and below: a derive gives no clause, and `OutOfMemory` has no field.
impl From<Rejected> for BodyError {
    ghost from_gives = { λ why error. error ≡ Refused why };

    fn from(why: Rejected) -> BodyError {
        BodyError::Refused(why)
    }
}

impl From<AllocError> for BodyError {
    ghost from_gives = { λ _ error. error ≡ OutOfMemory };

    fn from(_: AllocError) -> BodyError {
        BodyError::OutOfMemory
    }
}
