// Scratch for a set of states.
ghost use Rattle.std.specs.Prelude.{ℕ, ◌==◌, length, slice_index};

use fixpoint::index_set::IndexSet;

// A byte for each state: 1 where it is in the set.
#[derive(Drop)]
pub(crate) struct Bytes<'a> {
    pub(crate) bytes: &'a mut [u8],
}

impl<'a> IndexSet for Bytes<'a> {
    ghost members = { λ s i. slice_index s.bytes.now i == 1 };

    ghost Rest = { ℕ };

    ghost rest = { λ s. length s.bytes.now };

    ghost room = { λ n. n };

    fn contains(&self, i: usize) -> bool {
        self.bytes[i] == 1
    }

    fn put(&mut self, i: usize, b: bool) {
        self.bytes[i] = u8::from(b);
    }
}
