// Where a search keeps a set.
ghost use Rattle.std.specs.Prelude.{◌≡◌, ℕ, ◌<◌};
ghost use Rattle.ctl.specs.Rounds.{Subset};
ghost use Rattle.fixpoint.specs.Sets.{put_at};

/// Memory for a set of indices, which count from 0, however it is packed.
/// It has room for those below `room`, and writing never changes how many these are.
pub trait IndexSet {
    ghost members: { Self → Subset };

    // all else that the memory holds, and whose it is; nothing here changes it, and each function that writes says so in a clause
    ghost Rest: { Type 0 };

    ghost rest: { Self → Rest };

    // the indices below this can be read and written
    ghost room: { Rest → ℕ };

    /// Whether index i, which there is room for, is in the set.
    fn contains(&self, i: usize) -> bool
        requires { i < room (rest self.now) }
        ensures { result ≡ members self.now i };

    // b is the value that is written, and no flag.
    /// Puts index i, which there is room for, into the set (true) or out of it (false).
    /// Each other index, and all else that the memory holds, stays.
    fn put(&mut self, i: usize, b: bool)
        requires { i < room (rest self.old) }
        ensures members { members self.new ≡ put_at (members self.old) i b }
        ensures rest { rest self.new ≡ rest self.old };
}
