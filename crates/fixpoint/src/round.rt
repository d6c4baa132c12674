// What a search repeats.
ghost use Rattle.std.specs.Prelude.{◌≡◌, ℕ, ◌<◌, ◌≤◌};
ghost use Rattle.ctl.specs.Rounds.{Subset, IsMonotone};

use crate::index_set::IndexSet;
use crate::pairs::SetPair;

/// A monotone round: it takes a set of the indices below `size` to another.
/// What else it needs it may read where the current set is kept, from what stays while the set changes.
pub trait Round<C: IndexSet> {
    ghost size: { Self → ℕ };

    ghost step: { Self → C → Subset → Subset };

    /// How many indices there are; they are the numbers below it.
    fn count(&self) -> usize
        ensures { result ≡ size self.now };

    /// Whether index i is in the round of the current set, for which the memory has room.
    fn holds(&self, i: usize, current: &C) -> bool
        requires in_range { i < size self.now }
        requires room { size self.now ≤ C.room (C.rest current.now) }
        ensures { result ≡ step self.now current.now (C.members current.now) i };

    // Law: a larger set never gives a smaller round.
    ghost monotone: { (r : Self) (c : C) → IsMonotone (size r) (step r c) };

    // Law: the set kept there can change, and the round stays the same.
    ghost steady: { (r : Self) (c c' : C) → C.rest c ≡ C.rest c' → step r c ≡ step r c' };
}

/// A monotone round of any memory for two sets: it takes a set of the indices below `size` to another, in the light of
/// the sets that are given there.
pub trait PairRound {
    ghost size: { Self → ℕ };

    ghost step: { Self → (ℕ → Subset) → Subset → Subset };

    // a larger set never gives a smaller round
    ghost monotone: { (r : Self) (given : ℕ → Subset) → IsMonotone (size r) (step r given) };

    /// How many indices there are; they are the numbers below it.
    fn count(&self) -> usize
        ensures { result ≡ size self.now };

    /// Whether index i is in the round of the current set, for which the memory has room.
    fn holds<S: SetPair>(&self, i: usize, sets: &S) -> bool
        requires in_round { i < size self.now }
        requires roomy { size self.now ≤ S.room sets.now }
        ensures { result ≡ step self.now (S.given (S.rest sets.now)) (S.current sets.now) i };
}
