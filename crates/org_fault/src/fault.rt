//! What a call can end with in the place of its result.
//!
//! Memory is no part of the model: a definition answers a refusal, and what carries it out may have
//! no memory for it as well.
ghost use Rattle.std.specs.Prelude.{◌≡◌};
ghost use Rattle.org_fault.specs.declared.fault.Fault.TheVariants.{OutOfMemory, Refused};

use crate::refusal::Refusal;
use std::alloc::{AllocError, AllocFailed};
use std::fmt::Display;
use thiserror::Error;

/// Why a call did nothing: there was no memory for it, or it was refused, as its definition says.
#[derive(Clone, Copy, Debug, PartialEq, Eq, Drop, Error)]
#[error_bound(E: Display)]
pub enum Fault<E> {
    /// There was no memory for it.
    #[error("out of memory")]
    OutOfMemory,
    /// It was refused.
    #[error("{0}")]
    Refused(E),
}

impl<E> From<AllocError> for Fault<E> {
    ghost from_gives = { λ _ fault. fault ≡ OutOfMemory };

    fn from(_: AllocError) -> Self {
        Fault::OutOfMemory
    }
}

impl<E, T: Drop> From<AllocFailed<T>> for Fault<E> {
    ghost from_gives = { λ _ fault. fault ≡ OutOfMemory };

    fn from(_: AllocFailed<T>) -> Self {
        Fault::OutOfMemory
    }
}

impl From<Refusal> for Fault<Refusal> {
    ghost from_gives = { λ refusal fault. fault ≡ Refused refusal };

    fn from(refusal: Refusal) -> Self {
        Fault::Refused(refusal)
    }
}
