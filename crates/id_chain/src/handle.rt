//! Where an item is linked.
ghost use Rattle.std.specs.Prelude.{◌≡◌};

use std::marker::Model;

/// The place of an item in its [`Chain`](crate::Chain).
///
/// It is linked while its item is in the chain. After that the place is used again: a later append may give out the same
/// handle for another item.
#[derive(Clone, Copy, Debug, PartialEq, Eq)]
pub struct Handle {
    pub(crate) place: usize,
}

impl Handle {
    pub(crate) fn at(place: usize) -> Handle
        ensures { result ≡ place }
    {
        Handle { place }
    }
}

impl Model for Handle {
    ghost use Rattle.std.specs.Prelude.{ℕ};

    ghost Value = { ℕ };

    ghost view = { λ h. h.place };

    ghost inverse = { λ n. record { place = n } };
}
