//! Why a call of a layer of one kind is refused.
use query_laws::NoMemory;
use thiserror::Error;

/// No index was made late, since the layer has it. The layer hasn't changed then.
#[derive(Clone, Copy, Debug, Error, PartialEq, Eq)]
#[error("the layer has the index")]
pub struct Standing;

/// Why an update was refused. No shape and no answer has changed then.
#[derive(Clone, Copy, Debug, Error, PartialEq, Eq)]
pub enum UpdateFault {
    /// The identifier is live in the layer.
    #[error("identifier {0} is live in the layer")]
    Duplicate(u64),
    /// The identifier isn't live in the layer.
    #[error("identifier {0} isn't live in the layer")]
    Unknown(u64),
    /// The layer has as many live items as it may have.
    #[error("the layer is full")]
    Full,
    /// No memory was found.
    #[error("no memory was found")]
    NoMemory,
}

impl From<NoMemory> for UpdateFault {
    ghost use Rattle.std.specs.Prelude.{◌≡◌};
    ghost use Rattle.layer_kinds.specs.declared.faults.UpdateFault.TheVariants as faults;

    ghost from_gives = { λ _ e. e ≡ faults.NoMemory };

    fn from(_: NoMemory) -> UpdateFault {
        UpdateFault::NoMemory
    }
}

/// Why a question was refused.
#[derive(Clone, Copy, Debug, Error, PartialEq, Eq)]
pub enum AskFault {
    /// The layer lacks the index that answers the question.
    #[error("the layer lacks the index for this question")]
    NoIndex,
    /// The index was made late, and waits for so many items.
    #[error("the index waits for {0} items")]
    Building(u64),
    /// No memory was found for the answer.
    #[error("no memory was found")]
    NoMemory,
}

impl From<NoMemory> for AskFault {
    ghost use Rattle.std.specs.Prelude.{◌≡◌};
    ghost use Rattle.layer_kinds.specs.declared.faults.AskFault.TheVariants as faults;

    ghost from_gives = { λ _ e. e ≡ faults.NoMemory };

    fn from(_: NoMemory) -> AskFault {
        AskFault::NoMemory
    }
}
