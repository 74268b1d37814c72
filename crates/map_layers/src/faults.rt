//! Why a call of the layers of a map is refused.
use thiserror::Error;

/// Why no layer was made. The map hasn't changed then.
#[derive(Clone, Copy, Debug, Error, PartialEq, Eq)]
pub enum CreateFault {
    /// A layer has the name.
    #[error("a layer has this name")]
    Taken,
    /// There are eight layers.
    #[error("there are eight layers")]
    NoRoom,
}

/// Why no index was made. The map hasn't changed then.
#[derive(Clone, Copy, Debug, Error, PartialEq, Eq)]
pub enum IndexFault {
    /// No layer has the name.
    #[error("no layer has this name")]
    NoLayer,
    /// The layer is one of segments.
    #[error("the layer is of the other kind")]
    WrongKind,
    /// The layer has the index, ready or not.
    #[error("the layer has this index")]
    Standing,
}

impl From<layer_kinds::Standing> for IndexFault {
    ghost use Rattle.std.specs.Prelude.{◌≡◌};
    ghost use Rattle.map_layers.specs.declared.faults.IndexFault.TheVariants as faults;

    ghost from_gives = { λ _ e. e ≡ faults.Standing };

    fn from(_: layer_kinds::Standing) -> IndexFault {
        IndexFault::Standing
    }
}

/// No version was chosen, since a layer stands. The map hasn't changed then.
#[derive(Clone, Copy, Debug, Error, PartialEq, Eq)]
#[error("a layer stands, so that the version stays")]
pub struct HasLayers;

/// Why an update was refused. No shape and no answer has changed then.
#[derive(Clone, Copy, Debug, Error, PartialEq, Eq)]
pub enum UpdateFault {
    /// No layer has the name.
    #[error("no layer has this name")]
    NoLayer,
    /// A point goes to a layer of segments, or is moved there, or a segment goes to a layer of points.
    #[error("the layer is of the other kind")]
    WrongKind,
    /// The identifier is live in the layer.
    #[error("identifier {0} is live in the layer")]
    Duplicate(u64),
    /// The identifier isn't live in the layer.
    #[error("identifier {0} isn't live in the layer")]
    Unknown(u64),
    /// The layer has as many live items as one of the map may have.
    #[error("the layer is full")]
    Full,
    /// No memory was found.
    #[error("no memory was found")]
    NoMemory,
}

impl From<layer_kinds::UpdateFault> for UpdateFault {
    ghost use Rattle.std.specs.Prelude.{◌≡◌};
    ghost use Rattle.map_layers.specs.Faults.{update_fault_of};

    ghost from_gives = { λ fault e. e ≡ update_fault_of fault };

    fn from(fault: layer_kinds::UpdateFault) -> UpdateFault {
        match fault {
            layer_kinds::UpdateFault::Duplicate(id) => UpdateFault::Duplicate(id),
            layer_kinds::UpdateFault::Unknown(id) => UpdateFault::Unknown(id),
            layer_kinds::UpdateFault::Full => UpdateFault::Full,
            layer_kinds::UpdateFault::NoMemory => UpdateFault::NoMemory,
        }
    }
}

/// Why a question was refused.
#[derive(Clone, Copy, Debug, Error, PartialEq, Eq)]
pub enum AskFault {
    /// No layer has the name.
    #[error("no layer has this name")]
    NoLayer,
    /// The question is about the other kind.
    #[error("the layer is of the other kind")]
    WrongKind,
    /// The layer lacks the index that answers the question.
    #[error("the layer lacks the index for this question")]
    NoIndex,
    /// The index that answers the question waits for so many items.
    #[error("the index for this question waits for {0} items")]
    Building(u64),
    /// The identifier isn't live in the layer.
    #[error("identifier {0} isn't live in the layer")]
    Unknown(u64),
    /// No memory was found for the answer.
    #[error("no memory was found")]
    NoMemory,
}

impl From<layer_kinds::AskFault> for AskFault {
    ghost use Rattle.std.specs.Prelude.{◌≡◌};
    ghost use Rattle.map_layers.specs.Faults.{ask_fault_of};

    ghost from_gives = { λ fault e. e ≡ ask_fault_of fault };

    fn from(fault: layer_kinds::AskFault) -> AskFault {
        match fault {
            layer_kinds::AskFault::NoIndex => AskFault::NoIndex,
            layer_kinds::AskFault::Building(items) => AskFault::Building(items),
            layer_kinds::AskFault::NoMemory => AskFault::NoMemory,
        }
    }
}
