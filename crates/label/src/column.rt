// One form's column of the marks, as a set of states.
ghost use Rattle.std.specs.Prelude.{◌≡◌, ◌<◌, length};
ghost use Rattle.label.specs.Bits.{put_bit};

use fixpoint::index_set::IndexSet;
use forms::set::{contains, with, without};

// w with bit k as b says: b is the bit that is written, and no flag.
#[tactic(auto, using(crate::proofs::Bitwise::set_put, crate::proofs::Bitwise::clear_put))]
fn put_bit(w: u64, k: u8, b: bool) -> u64
    requires { k < 64 }
    ensures { result ≡ put_bit w k b }
{
    if b { with(w, k) } else { without(w, k) }
}

// One form's column of the marks: the states that are marked with it.
#[derive(Drop)]
pub(crate) struct Column<'a> {
    pub(crate) marks: &'a mut [u64],
    pub(crate) form: u8,
    ghost fits: { form < 64 },
}

impl<'a> Column<'a> {
    ghost use Rattle.label.specs.Columns.{rest_in, earlier};

    // Whether state i is marked with form f; not so for a form that does not come before the column's own.
    pub(crate) fn has_earlier(&self, f: u8, i: usize) -> bool
        requires { i < length self.now.marks.now }
        ensures { result ≡ earlier (rest_in self.now) f i }
    {
        f < self.form && contains(self.marks[i], f)
    }
}

impl<'a> IndexSet for Column<'a> {
    ghost use Rattle.label.specs.Columns.{Rest, marked_in, rest_in};

    ghost members = { marked_in };

    ghost Rest = { Rest };

    ghost rest = { rest_in };

    ghost room = { λ q. q.count };

    fn contains(&self, i: usize) -> bool {
        contains(self.marks[i], self.form)
    }

    fn put(&mut self, i: usize, b: bool) {
        self.marks[i] = put_bit(self.marks[i], self.form, b);
    }
}
