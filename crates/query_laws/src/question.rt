//! Questions whose answers over parts are joined.
ghost use Rattle.std.specs.Prelude.{◌≡◌, List, [], ◌∷◌, ◌++◌, Bool, IsTrue, IfOk, IsErr, map, fold};
ghost use Rattle.std.specs.List.{flat_map};
ghost use Rattle.std.specs.List.Sorted.{IsPermutation};
ghost use Rattle.query_laws.specs.Decomposable.{IsDecomposable};

use crate::item::Item;
use crate::step_ledger::NoMemory;
use std::alloc::Global;

/// An answer in the making: it takes in one item after another, over one part after another.
pub trait Tally: Drop {
    type Answer: Drop;

    /// The answer over all that was taken in.
    ghost so_far: { Self → Self.Answer };

    ghost can_refuse: { Self → Bool };

    /// Whether a call of this tally may answer that memory wasn't given.
    fn can_refuse(&self) -> bool
        ensures { result ≡ can_refuse self.now };

    /// The answer over all that was taken in.
    ///
    /// `NoMemory` where the answer itself wants memory that isn't given, which only a tally that can refuse says.
    fn finish(self) -> Result<Self::Answer, NoMemory>
        ensures answer { IfOk result (λ answer. answer ≡ so_far self) }
        ensures refused { IsErr result → IsTrue (can_refuse self) };
}

/// A decomposable searching problem (Bentley and Saxe 1980): the answer over a list is joined from the answers over its
/// parts.
///
/// That the answer doesn't depend on the order of the items follows from the laws, for every question at once
/// ([`derived_laws`]), so an impl doesn't prove it. For a number that is summed up, `specs/Sums.antt` has the laws.
pub trait Question: Copy {
    type Item: Item;

    type Answer: Drop;

    type Tally: Tally<Answer = Self::Answer>;

    /// The answer over a list of items.
    ghost value: { Self → List Self.Item → Self.Answer };

    /// Two answers made one.
    ghost join: { Self → Self.Answer → Self.Answer → Self.Answer };

    /// The answer over nothing.
    ghost unit: { Self → Self.Answer };

    /// The answers that the laws of `join` speak of. Each value is one.
    ghost lawful: { Self → Self.Answer → Type 0 };

    /// The tally is one of this question, as a list of the `k` nearest is of a question for `k`.
    ghost owns: { Self → Self.Tally → Type 0 };

    /// Whether tallies of this type of question can refuse.
    ghost refusable: { Bool };

    /// A tally over nothing. It takes no memory yet; later calls of the tally take theirs from `alloc`.
    fn tally(&self, alloc: Global) -> Self::Tally
        ensures owned { owns self.now result }
        ensures empty { Self.Tally.so_far result ≡ unit self.now }
        ensures refusable { Self.Tally.can_refuse result ≡ refusable };

    ghost decomposable: { (q : Self) → IsDecomposable (value q) (join q) (unit q) (lawful q) };

    /// What a tally of this question has so far is lawful, at every moment.
    ghost owned_lawful: { (q : Self) (t : Self.Tally) → owns q t → lawful q (Self.Tally.so_far t) };
}

/// What follows from the laws of a question, for every question. A call costs nothing, and tells its caller these facts.
#[inline]
pub fn derived_laws<Q: Question>()
    // Lists with the same items, each as often, have the same value.
    ensures any_order { (q : Q) (xs ys : List Q.Item) → IsPermutation xs ys → Q.value q xs ≡ Q.value q ys }

    // The value of several lists together is the fold of their values, and the lists may come in any order.
    ensures of_several { (q : Q) (parts : List (List Q.Item))
        → Q.value q (flat_map (λ xs. xs) parts) ≡ fold (Q.join q) (Q.unit q) (map (Q.value q) parts) }
    ensures several_in_any_order { (q : Q) (parts others : List (List Q.Item)) → IsPermutation parts others
        → Q.value q (flat_map (λ xs. xs) parts) ≡ Q.value q (flat_map (λ xs. xs) others) }

    // One item taken out, and the rest.
    ensures one_taken_out { (q : Q) (xs : List Q.Item) (x : Q.Item) (ys : List Q.Item)
        → Q.value q (xs ++ x ∷ ys) ≡ Q.join q (Q.value q (x ∷ [])) (Q.value q (xs ++ ys)) }
{}
