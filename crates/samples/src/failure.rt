//! Why a trial ends early.
use map_io::WriteFault;
use query_laws::NoMemory;
use std::alloc::{AllocError, AllocFailed};
use std::io;
use thiserror::Error;

/// What a trial gives, or why it ends early.
pub type Outcome<T = ()> = Result<T, Failure>;

/// Why a trial ends early.
#[derive(Debug, Drop, Error)]
pub enum Failure {
    #[error("{0}")]
    NoMemory(#[from] NoMemory),
    #[error("{0}")]
    System(#[from] io::Error),
    /// An answer isn't the one that is wanted: says which.
    #[error("{0}")]
    Differs(String),
    #[error("the answers could not be written")]
    NoAnswers(#[from] WriteFault),
    /// A script has 2^40 lines or bytes, or items are too many or in no order.
    #[error("the script is too long, or the items are too many or in no order")]
    Unfit,
}

impl From<AllocError> for Failure {
    fn from(_refused: AllocError) -> Failure {
        Failure::NoMemory(NoMemory)
    }
}

impl<T: Drop> From<AllocFailed<T>> for Failure {
    fn from(_refused: AllocFailed<T>) -> Failure {
        Failure::NoMemory(NoMemory)
    }
}
