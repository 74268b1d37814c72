//! The new place of an item, as the tables of a merge note it.
ghost use Rattle.std.specs.Prelude.{◌≡◌, ◌+◌, ◌<◌, ◌^◌, None, Some};

use std::marker::Model;

/// The place of an item in the new part, or none where it was skipped: four bytes.
#[derive(Clone, Copy)]
pub struct NewPlace {
    place: u32,
}

impl Model for NewPlace {
    ghost use Rattle.std.specs.Prelude.{ℕ, Option};
    ghost use Rattle.std.proofs.Common.{ap};
    ghost use Rattle.ordered_merge.specs.NewPlaces.{noted, note, note-noted};

    ghost Value = { Option ℕ };

    ghost view = { λ p. noted p.place };

    ghost inverse = { λ o. record { place = note o } };

    ghost inverse_ok = { λ p h. ap (λ n. record { place = n }) (note-noted p.place) };
}

impl NewPlace {
    /// That of an item that was taken.
    pub fn taken(place: usize) -> NewPlace
        requires { place + 1 < 2 ^ 32 }
        ensures { result ≡ Some place }
    {
        NewPlace {
            place: place as u32,
        }
    }

    /// None, of an item that was skipped.
    pub fn skipped() -> NewPlace
        ensures { result ≡ None }
    {
        NewPlace { place: u32::MAX }
    }

    /// The place, if there is one.
    pub fn get(self) -> Option<usize>
        ensures { result ≡ self }
    {
        if self.place == u32::MAX {
            None
        } else {
            Some(self.place as usize)
        }
    }
}
