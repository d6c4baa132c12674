// The states of one form, from the marks of its operands.
ghost use Rattle.std.specs.Prelude.{◌≡◌, ◌<◌, ◌≤◌, false, None, length};
ghost use Rattle.ctl.specs.Rounds.{start};
ghost use Rattle.label.specs.Columns.{earlier, marked_in, rest_in};
ghost use Rattle.label.specs.Rounds.{IsMarked, direction, form_round};

use crate::column::Column;
use crate::rounds::{ReleaseAll, ReleaseSome, UntilAll, UntilSome};
use crate::successors::{all_successors, some_successor};
use fixpoint::fixed_point::FixedPoint::{Greatest, Least};
use fixpoint::index_set::IndexSet;
use fixpoint::search::{fill, search, take_over};
use forms::form::{Form, Quantifier};
use forms::set::contains;
use machine::interface::Machine;

// Whether the form holds at s, for each shape but until and release: those are searched for.
fn holds_at<M: Machine>(machine: &M, form: Form, column: &Column, s: usize) -> bool
    requires at_once { direction form ≡ None }
    requires room { (M.model machine.now).count ≤ length column.now.marks.now }
    requires in_range { s < (M.model machine.now).count }
    ensures { result
        ≡ form_round (M.model machine.now) (earlier (rest_in column.now)) form (start false) s }
{
    match form {
        Form::Truth => true,
        Form::Falsity => false,
        Form::Atom(p) => contains(u64::from(machine.atoms(s)), p),
        Form::Absent(p) => !contains(u64::from(machine.atoms(s)), p),
        Form::And(a, b) => column.has_earlier(a, s) && column.has_earlier(b, s),
        Form::Or(a, b) => column.has_earlier(a, s) || column.has_earlier(b, s),
        Form::Next(Quantifier::Exists, a) => {
            some_successor(machine, s, |t| column.has_earlier(a, t))
        }
        Form::Next(Quantifier::Every, a) => {
            all_successors(machine, s, |t| column.has_earlier(a, t))
        }
        Form::Until(..) | Form::Release(..) => unreachable!(),
    }
}

// Marks the states of the form in its column, from the marks of its operands, and says how many rounds that took.
pub(crate) fn find_states<'a, M: Machine, N: IndexSet>(
    machine: &'a M,
    form: Form,
    column: &mut Column<'a>,
    next: &mut N,
) -> usize
    requires room { (M.model machine.now).count ≤ length column.old.marks.now }
    requires next_room { (M.model machine.now).count ≤ N.room (N.rest next.old) }
    ensures marked { IsMarked (M.model machine.now) (earlier (rest_in column.old)) form
        (marked_in column.new) result }
    ensures rest { rest_in column.new ≡ rest_in column.old }
{
    match form {
        Form::Until(Quantifier::Exists, a, b) => {
            search(&UntilSome { machine, a, b }, column, next, Least)
        }
        Form::Until(Quantifier::Every, a, b) => {
            search(&UntilAll { machine, a, b }, column, next, Least)
        }
        Form::Release(Quantifier::Exists, a, b) => {
            search(&ReleaseSome { machine, a, b }, column, next, Greatest)
        }
        Form::Release(Quantifier::Every, a, b) => {
            search(&ReleaseAll { machine, a, b }, column, next, Greatest)
        }
        _ => {
            let n = machine.count();
            fill(next, n, |s| holds_at(machine, form, column, s));
            take_over(column, next, n);
            0
        }
    }
}
