//! A vector that counts each read and write of an entry.
ghost use Rattle.std.specs.Prelude.{◌≡◌, ◌<◌, ◌≤◌, ◌↔◌, [], ◌∷◌, ◌++◌, IsTrue, length, Some, IfOk, slice_get, slice_index_or, slice_set};
ghost use Rattle.query_laws.specs.StepLedger.{one_touch};

use super::{NoMemory, Steps};
use std::alloc::Global;
use std::marker::Model;
use std::sync::ledger::Ledger;

/// A vector whose entries are read and written only by calls that count a touch each.
///
/// Contracts see it as the list of its entries and how many it takes. It never grows beyond that, so no call but `room`
/// takes memory.
#[derive(Drop)]
pub struct Row<T: Copy> {
    entries: Vec<T>,
}

impl<T: Copy> Model for Row<T> {
    ghost use Rattle.std.specs.Prelude.{◌≤◌, vec_len, vec_capacity};
    ghost use Rattle.query_laws.specs.StepLedger.{Entries};

    ghost Value = { Entries T };

    ghost view = { λ r. record { items = r.entries.items; capacity = vec_capacity r.entries } };

    ghost invariant = { λ r. vec_len r.entries ≤ vec_capacity r.entries };
}

impl<T: Copy> Row<T> {
    ghost use Rattle.std.specs.Borrow.{Lends, sem};
    ghost use Rattle.query_laws.specs.contracts.step_ledger.rows.Row.{the_row};

    /// An empty row that takes `cap` entries.
    pub fn room(alloc: Global, cap: usize) -> Result<Row<T>, NoMemory>
        ensures { IfOk result (λ row. row ≡ record { items = []; capacity = cap }) }
    {
        let entries = Vec::with_capacity(alloc, cap)?;
        Ok(Row { entries })
    }

    /// Appends an entry, where there is room: one touch.
    #[inline]
    pub fn push<L: Ledger>(&mut self, entry: T, steps: &mut Steps<L>)
        requires { length self.old.items < self.old.capacity }
        ensures appended { self.new ≡ record self.old { items = self.old.items ++ entry ∷ [] } }
        ensures touched { steps.new ≡ one_touch steps.old }
    {
        self.entries.push_reserved(entry);
        steps.touch();
    }

    /// The entry at an index: one touch.
    #[inline]
    pub fn at<L: Ledger>(&self, index: usize, steps: &mut Steps<L>) -> T
        requires { index < length self.now.items }
        ensures read { slice_get self.now.items index ≡ Some result }

        // The same, in the form of the library's lemmas on lists.
        ensures read_or { result ≡ slice_index_or self.now.items index result }
        ensures touched { steps.new ≡ one_touch steps.old }
    {
        let entry = self.entries[index];
        steps.touch();
        entry
    }

    /// Writes the entry at an index, and no other: one touch.
    #[inline]
    pub fn set<L: Ledger>(&mut self, index: usize, entry: T, steps: &mut Steps<L>)
        requires { index < length self.old.items }
        ensures written { self.new ≡ record self.old { items = slice_set self.old.items index entry } }
        ensures touched { steps.new ≡ one_touch steps.old }
    {
        self.entries[index] = entry;
        steps.touch();
    }

    /// The entry at an index, to be changed in place: two touches, of one read and one write, also where neither follows.
    #[inline]
    pub fn entry_mut<L: Ledger>(&mut self, index: usize, steps: &mut Steps<L>) -> &mut T
        requires { index < length self.old.items }
        ensures* writes_back { sem 𝓛 (Lends (the_row T.row) T.row self.entry result (λ entry. record self.old { items = slice_set self.old.items index entry })) }
        ensures read { slice_get self.old.items index ≡ Some result.now }

        // The same, in the form of the library's lemmas on lists.
        ensures read_or { result.now ≡ slice_index_or self.old.items index result.now }
        ensures touched { steps.new ≡ one_touch (one_touch steps.old) }
    {
        steps.touch();
        steps.touch();
        &mut self.entries[index]
    }

    /// Takes all entries out, in one step, and keeps the memory. It counts nothing.
    #[inline]
    pub fn clear(&mut self)
        ensures { self.new ≡ record { items = []; capacity = self.old.capacity } }
    {
        self.entries.clear();
    }

    /// How many entries there are. It counts nothing.
    #[inline]
    pub fn len(&self) -> usize
        ensures value { result ≡ length self.now.items }
        ensures within { result ≤ self.now.capacity }
    {
        self.entries.len()
    }

    /// Whether there is no entry. It counts nothing.
    #[inline]
    pub fn is_empty(&self) -> bool
        ensures { IsTrue result ↔ (self.now.items ≡ []) }
    {
        self.entries.is_empty()
    }

    /// How many entries the row takes. It counts nothing.
    #[inline]
    pub fn cap(&self) -> usize
        ensures { result ≡ self.now.capacity }
    {
        self.entries.capacity()
    }
}
