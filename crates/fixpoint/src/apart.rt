// Two memories that are lent apart, for the search.
ghost use Rattle.std.specs.Prelude.{min};
ghost use Rattle.std.proofs.Common.{ap};
ghost use Rattle.fixpoint.specs.Rests.{ApartRest};

use crate::index_set::IndexSet;
use crate::round::Round;
use crate::two_sets::TwoSets;

// The current set in one memory, the next one in another.
#[derive(Drop)]
pub(crate) struct Apart<'a, C, N> {
    pub(crate) current: &'a mut C,
    pub(crate) next: &'a mut N,
}

impl<'a, C: IndexSet, N: IndexSet> IndexSet for Apart<'a, C, N> {
    ghost members = { λ s. C.members s.current.now };

    ghost Rest = { ApartRest C.Rest N.Rest };

    ghost rest = { λ s.
        record {
          current = C.rest s.current.now;
          next = N.rest s.next.now;
          current_name = s.current.ghost_name;
          next_name = s.next.ghost_name;
        } };

    ghost room = { λ q. min (C.room q.current) (N.room q.next) };

    fn contains(&self, i: usize) -> bool {
        self.current.contains(i)
    }

    fn put(&mut self, i: usize, b: bool) {
        self.current.put(i, b);
    }
}

impl<'a, C: IndexSet, N: IndexSet> TwoSets for Apart<'a, C, N> {
    ghost next = { λ s. N.members s.next.now };

    fn in_next(&self, i: usize) -> bool {
        self.next.contains(i)
    }

    fn set_current(&mut self, i: usize, b: bool) {
        self.current.put(i, b);
    }

    fn set_next(&mut self, i: usize, b: bool) {
        self.next.put(i, b);
    }
}

// A round of the current memory, which reads no other.
#[derive(Drop)]
pub(crate) struct OfCurrent<'a, R>(pub(crate) &'a R);

impl<'a, 'b, C: IndexSet, N: IndexSet, R: Round<C>> Round<Apart<'b, C, N>> for OfCurrent<'a, R> {
    ghost size = { λ r. R.size r.0.now };

    ghost step = { λ r s. R.step r.0.now s.current.now };

    fn count(&self) -> usize {
        self.0.count()
    }

    fn holds(&self, i: usize, sets: &Apart<'b, C, N>) -> bool {
        self.0.holds(i, sets.current)
    }

    ghost monotone = { λ r s. R.monotone r.0.now s.current.now };

    ghost steady = { λ r s s' same. R.steady r.0.now s.current.now s'.current.now (ap (λ q. q.current) same) };
}
