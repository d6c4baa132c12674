// Where a search keeps both its sets in one value.
ghost use Rattle.std.specs.Prelude.{◌≡◌, ℕ, ◌<◌};
ghost use Rattle.ctl.specs.Rounds.{Subset};
ghost use Rattle.fixpoint.specs.Sets.{put_at};

/// Memory for two sets of indices, which count from 0, however it is packed: the set before a round, and the set that the
/// round makes. It may keep others, by number, that a round may read. It has room for the indices below `room`.
pub trait SetPair {
    // the indices below this can be read and written
    ghost room: { Self → ℕ };

    ghost current: { Self → Subset };

    ghost next: { Self → Subset };

    // all else that the memory holds, and whose it is; nothing here changes it
    ghost Rest: { Type 0 };

    ghost rest: { Self → Rest };

    // the sets, by number, that a round may read there besides the current one
    ghost given: { Rest → ℕ → Subset };

    /// Whether index i, which there is room for, is in the current set.
    fn in_current(&self, i: usize) -> bool
        requires { i < room self.now }
        ensures { result ≡ current self.now i };

    /// Whether index i, which there is room for, is in the next set.
    fn in_next(&self, i: usize) -> bool
        requires { i < room self.now }
        ensures { result ≡ next self.now i };

    /// Whether index i, which there is room for, is in the given set f.
    fn in_given(&self, f: u8, i: usize) -> bool
        requires { i < room self.now }
        ensures { result ≡ given (rest self.now) f i };

    // b is the value that is written, and no flag, in both.
    /// Puts index i, which there is room for, into the current set (true) or out of it (false).
    /// Each other index, the next set, and all else that the memory holds, stays.
    fn set_current(&mut self, i: usize, b: bool)
        requires { i < room self.old }
        ensures current { current self.new ≡ put_at (current self.old) i b }
        ensures next { next self.new ≡ next self.old }
        ensures room { room self.new ≡ room self.old }
        ensures rest { rest self.new ≡ rest self.old };

    /// Puts index i, which there is room for, into the next set (true) or out of it (false).
    /// Each other index, the current set, and all else that the memory holds, stays.
    fn set_next(&mut self, i: usize, b: bool)
        requires { i < room self.old }
        ensures next { next self.new ≡ put_at (next self.old) i b }
        ensures current { current self.new ≡ current self.old }
        ensures room { room self.new ≡ room self.old }
        ensures rest { rest self.new ≡ rest self.old };
}
