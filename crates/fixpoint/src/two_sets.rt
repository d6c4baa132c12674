// What the search asks of the memory for its two sets.
ghost use Rattle.std.specs.Prelude.{◌≡◌, ℕ, ◌<◌};
ghost use Rattle.ctl.specs.Rounds.{Subset};
ghost use Rattle.fixpoint.specs.Sets.{put_at};

use crate::index_set::IndexSet;

// The memory of the current set, as an `IndexSet`, which has the next set too: in the same value, or in another.
pub(crate) trait TwoSets: IndexSet {
    // No part of `rest`: a round may depend on that, and has to stay the same while the next set is written.
    ghost next: { Self → Subset };

    fn in_next(&self, i: usize) -> bool
        requires { i < Self.room (Self.rest self.now) }
        ensures { result ≡ next self.now i };

    // `put` with a clause on the next set, of which its own cannot speak.
    fn set_current(&mut self, i: usize, b: bool)
        requires { i < Self.room (Self.rest self.old) }
        ensures current { Self.members self.new ≡ put_at (Self.members self.old) i b }
        ensures next { next self.new ≡ next self.old }
        ensures rest { Self.rest self.new ≡ Self.rest self.old };

    fn set_next(&mut self, i: usize, b: bool)
        requires { i < Self.room (Self.rest self.old) }
        ensures next { next self.new ≡ put_at (next self.old) i b }
        ensures current { Self.members self.new ≡ Self.members self.old }
        ensures rest { Self.rest self.new ≡ Self.rest self.old };
}
