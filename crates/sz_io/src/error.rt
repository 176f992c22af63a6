//! The answers of a device, and of a whole transfer, other than the good one.
ghost use Rattle.std.specs.Prelude.{◌≡◌};

use std::alloc::{AllocError, AllocFailed};

/// Why a call of the outside gave no answer.
#[derive(Clone, Copy, Debug, PartialEq, Eq)]
pub enum OutsideError {
    /// The device failed, and its count of faults rose.
    Failed,
    /// Memory ran out.
    NoMemory,
}

/// A read failed, and the count of faults rose.
#[derive(Clone, Copy, Debug, PartialEq, Eq)]
pub struct Failed;

/// Memory ran out.
#[derive(Clone, Copy, Debug, PartialEq, Eq)]
pub struct NoMemory;

/// Why a file was not read whole.
#[derive(Clone, Copy, Debug, PartialEq, Eq)]
pub enum ReadError {
    /// The file could not be opened or read, and the count of faults rose.
    Failed,
    /// The file has more bytes than the limit.
    TooLong,
    /// Memory ran out.
    NoMemory,
}

/// Why a text was not written whole. Each variant has the number of bytes that the sink took first.
#[derive(Clone, Copy, Debug, PartialEq, Eq)]
pub enum WriteError {
    /// The sink failed, and its count of faults rose.
    Failed(usize),
    /// The sink ran out of memory, and its count of memory refusals rose.
    NoMemory(usize),
}

impl From<Failed> for OutsideError {
    ghost use Rattle.sz_io.specs.declared.error.OutsideError.TheVariants as outside;

    ghost from_gives = { λ _ e. e ≡ outside.Failed };

    fn from(_: Failed) -> Self {
        OutsideError::Failed
    }
}

impl From<AllocError> for OutsideError {
    ghost use Rattle.sz_io.specs.declared.error.OutsideError.TheVariants.{NoMemory};

    ghost from_gives = { λ _ e. e ≡ NoMemory };

    fn from(_: AllocError) -> Self {
        OutsideError::NoMemory
    }
}

impl<T: Drop> From<AllocFailed<T>> for OutsideError {
    ghost use Rattle.sz_io.specs.declared.error.OutsideError.TheVariants.{NoMemory};

    ghost from_gives = { λ _ e. e ≡ NoMemory };

    fn from(_: AllocFailed<T>) -> Self {
        OutsideError::NoMemory
    }
}

impl<T: Drop> From<AllocFailed<T>> for NoMemory {
    fn from(_: AllocFailed<T>) -> Self {
        NoMemory
    }
}

impl From<AllocError> for NoMemory {
    ghost from_gives = { λ _ e. e ≡ record {} };

    fn from(_: AllocError) -> Self {
        NoMemory
    }
}

impl From<AllocError> for ReadError {
    ghost use Rattle.sz_io.specs.declared.error.ReadError.TheVariants.{NoMemory};

    ghost from_gives = { λ _ e. e ≡ NoMemory };

    fn from(_: AllocError) -> Self {
        ReadError::NoMemory
    }
}
