// The four rounds over a machine: of until and of release, by some successor and by all. It is a rule of
// this project that four rounds each prove the law that they are monotone, so each is a type and an impl of its own.
ghost use Rattle.std.specs.Prelude.{◌≡◌};
ghost use Rattle.std.proofs.Common.{ap};
ghost use Rattle.forms.specs.declared.form.Form.TheVariants.{Until, Release};
ghost use Rattle.forms.specs.declared.form.Quantifier.TheVariants.{Exists, Every};
ghost use Rattle.label.specs.Columns.{earlier, rest_in, round_in};
ghost use Rattle.label.specs.Growth.{IsMonotone-form_round};

use crate::column::Column;
use crate::successors::{all_successors, some_successor};
use fixpoint::index_set::IndexSet;
use fixpoint::round::Round;
use machine::interface::Machine;

// Until on some path: b holds, or a does and some successor is in the set.
#[derive(Drop)]
pub(crate) struct UntilSome<'a, M> {
    pub(crate) machine: &'a M,
    pub(crate) a: u8,
    pub(crate) b: u8,
}

impl<'a, M: Machine> Round<Column<'a>> for UntilSome<'a, M> {
    ghost size = { λ r. (M.model r.machine.now).count };

    ghost step = { λ r c. round_in (M.model r.machine.now) (Until Exists r.a r.b) (rest_in c) };

    fn count(&self) -> usize {
        self.machine.count()
    }

    fn holds(&self, s: usize, marked: &Column<'a>) -> bool {
        marked.has_earlier(self.b, s)
            || (marked.has_earlier(self.a, s)
                && some_successor(self.machine, s, |t| marked.contains(t)))
    }

    ghost monotone = { λ r c.
        IsMonotone-form_round (M.model r.machine.now) (earlier (rest_in c))
        (Until Exists r.a r.b) };

    ghost steady = { λ r c c' same.
        ap (round_in (M.model r.machine.now) (Until Exists r.a r.b)) same };
}

// Until on all paths: b holds, or a does and all successors are in the set.
#[derive(Drop)]
pub(crate) struct UntilAll<'a, M> {
    pub(crate) machine: &'a M,
    pub(crate) a: u8,
    pub(crate) b: u8,
}

impl<'a, M: Machine> Round<Column<'a>> for UntilAll<'a, M> {
    ghost size = { λ r. (M.model r.machine.now).count };

    ghost step = { λ r c. round_in (M.model r.machine.now) (Until Every r.a r.b) (rest_in c) };

    fn count(&self) -> usize {
        self.machine.count()
    }

    fn holds(&self, s: usize, marked: &Column<'a>) -> bool {
        marked.has_earlier(self.b, s)
            || (marked.has_earlier(self.a, s)
                && all_successors(self.machine, s, |t| marked.contains(t)))
    }

    ghost monotone = { λ r c.
        IsMonotone-form_round (M.model r.machine.now) (earlier (rest_in c))
        (Until Every r.a r.b) };

    ghost steady = { λ r c c' same.
        ap (round_in (M.model r.machine.now) (Until Every r.a r.b)) same };
}

// Release on some path: b holds, and a does or some successor is in the set.
#[derive(Drop)]
pub(crate) struct ReleaseSome<'a, M> {
    pub(crate) machine: &'a M,
    pub(crate) a: u8,
    pub(crate) b: u8,
}

impl<'a, M: Machine> Round<Column<'a>> for ReleaseSome<'a, M> {
    ghost size = { λ r. (M.model r.machine.now).count };

    ghost step = { λ r c. round_in (M.model r.machine.now) (Release Exists r.a r.b) (rest_in c) };

    fn count(&self) -> usize {
        self.machine.count()
    }

    fn holds(&self, s: usize, marked: &Column<'a>) -> bool {
        marked.has_earlier(self.b, s)
            && (marked.has_earlier(self.a, s)
                || some_successor(self.machine, s, |t| marked.contains(t)))
    }

    ghost monotone = { λ r c.
        IsMonotone-form_round (M.model r.machine.now) (earlier (rest_in c))
        (Release Exists r.a r.b) };

    ghost steady = { λ r c c' same.
        ap (round_in (M.model r.machine.now) (Release Exists r.a r.b)) same };
}

// Release on all paths: b holds, and a does or all successors are in the set.
#[derive(Drop)]
pub(crate) struct ReleaseAll<'a, M> {
    pub(crate) machine: &'a M,
    pub(crate) a: u8,
    pub(crate) b: u8,
}

impl<'a, M: Machine> Round<Column<'a>> for ReleaseAll<'a, M> {
    ghost size = { λ r. (M.model r.machine.now).count };

    ghost step = { λ r c. round_in (M.model r.machine.now) (Release Every r.a r.b) (rest_in c) };

    fn count(&self) -> usize {
        self.machine.count()
    }

    fn holds(&self, s: usize, marked: &Column<'a>) -> bool {
        marked.has_earlier(self.b, s)
            && (marked.has_earlier(self.a, s)
                || all_successors(self.machine, s, |t| marked.contains(t)))
    }

    ghost monotone = { λ r c.
        IsMonotone-form_round (M.model r.machine.now) (earlier (rest_in c))
        (Release Every r.a r.b) };

    ghost steady = { λ r c c' same.
        ap (round_in (M.model r.machine.now) (Release Every r.a r.b)) same };
}
