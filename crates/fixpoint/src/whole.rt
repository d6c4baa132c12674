// One value that keeps both sets, for the search.
ghost use Rattle.std.proofs.Common.{ap};
ghost use Rattle.fixpoint.specs.Rests.{PairRest};

use crate::index_set::IndexSet;
use crate::pairs::SetPair;
use crate::round::{PairRound, Round};
use crate::two_sets::TwoSets;

// The pair that is lent.
#[derive(Drop)]
pub(crate) struct Whole<'a, S>(pub(crate) &'a mut S);

impl<'a, S: SetPair> IndexSet for Whole<'a, S> {
    ghost members = { λ s. S.current s.0.now };

    ghost Rest = { PairRest S.Rest };

    ghost rest = { λ s.
        record {
          room = S.room s.0.now;
          rest = S.rest s.0.now;
          name = s.0.ghost_name;
        } };

    ghost room = { λ q. q.room };

    fn contains(&self, i: usize) -> bool {
        self.0.in_current(i)
    }

    fn put(&mut self, i: usize, b: bool) {
        self.0.set_current(i, b);
    }
}

impl<'a, S: SetPair> TwoSets for Whole<'a, S> {
    ghost next = { λ s. S.next s.0.now };

    fn in_next(&self, i: usize) -> bool {
        self.0.in_next(i)
    }

    fn set_current(&mut self, i: usize, b: bool) {
        self.0.set_current(i, b);
    }

    fn set_next(&mut self, i: usize, b: bool) {
        self.0.set_next(i, b);
    }
}

// A round of any pair, as one of this pair.
#[derive(Drop)]
pub(crate) struct OfPair<'a, R>(pub(crate) &'a R);

impl<'a, 'b, S: SetPair, R: PairRound> Round<Whole<'b, S>> for OfPair<'a, R> {
    ghost size = { λ r. R.size r.0.now };

    ghost step = { λ r s. R.step r.0.now (S.given (S.rest s.0.now)) };

    fn count(&self) -> usize {
        self.0.count()
    }

    fn holds(&self, i: usize, sets: &Whole<'b, S>) -> bool {
        self.0.holds(i, &*sets.0)
    }

    ghost monotone = { λ r s. R.monotone r.0.now (S.given (S.rest s.0.now)) };

    ghost steady = { λ r s s' same. ap (λ q. R.step r.0.now (S.given q.rest)) same };
}
