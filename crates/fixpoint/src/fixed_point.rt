// Which fixed point a search looks for.
ghost use Rattle.std.specs.Prelude.{◌≡◌};
ghost use Rattle.fixpoint.specs.Sets.{starts_full};

/// Of the sets that a monotone round leaves unchanged, the least, reached from no index, or the greatest, from all.
#[derive(Clone, Copy, PartialEq, Eq, Debug)]
pub enum FixedPoint {
    Least,
    Greatest,
}

impl FixedPoint {
    /// Whether the rounds begin with every index, and not with none.
    pub fn starts_full(self) -> bool
        ensures { result ≡ starts_full self }
    {
        self == FixedPoint::Greatest
    }
}
