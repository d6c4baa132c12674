// A guard on the count of a table.
ghost use Rattle.std.specs.Prelude.{◌≡◌};

use crate::table::Count;

// Restores the count of before when it is dropped; `commit` lets the count stand. That a guard does so is a rule of this project.
pub(crate) struct Restore<'a> {
    pub(crate) count: &'a mut Count,
    pub(crate) before: usize,
}

impl Drop for Restore<'_> {
    fn drop(self)
        ensures { self.exit.0.now.len ≡ self.entry.before }
    {
        self.count.len = self.before;
        let Restore {
            count: _,
            before: _,
        } = self;
    }
}

impl Restore<'_> {
    // Answers the count, which stands.
    pub(crate) fn commit(self) -> usize
        ensures kept { self.exit.0.now.len ≡ self.entry.count.now.len }
        ensures value { result ≡ self.entry.count.now.len }
    {
        let Restore { count, before: _ } = self;
        count.len
    }
}
