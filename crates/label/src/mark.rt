// The marks of a table's forms, one form after the other.
// Machine, form, marks and scratch stay parameters, and that the buffers have an entry for each state is asked of each function: they
// are lent by the caller as they are, and a struct of borrows would be taken apart at once.
ghost use Rattle.std.specs.Prelude.{◌≡◌, ◌<◌, ◌≤◌, length, replicate};
ghost use Rattle.forms.specs.Forms.{IsWellFormed};
ghost use Rattle.label.specs.Columns.{column, earlier_marks, other_bits};
ghost use Rattle.label.specs.Show.{mark, rounds_of, values};
ghost use Rattle.label.specs.Rounds.{IsMarked};

use crate::column::Column;
use crate::find::find_states;
use crate::scratch::Bytes;
use forms::form::Form;
use machine::interface::Machine;

// Marks form number f at its states, and says how many rounds that took.
fn mark_form<M: Machine>(
    machine: &M,
    form: Form,
    marks: &mut [u64],
    scratch: &mut [u8],
    f: u8,
) -> usize
    requires fits { f < 64 }
    requires a_mark_each { (M.model machine.now).count ≤ length marks.old }
    requires a_byte_each { (M.model machine.now).count ≤ length scratch.old }
    ensures marked { IsMarked (M.model machine.now) (earlier_marks (other_bits marks.old f) f) form
        (column marks.new f) result }
    ensures others { other_bits marks.new f ≡ other_bits marks.old f }
{
    let mut column = Column { marks, form: f };
    let mut next = Bytes { bytes: scratch };
    find_states(machine, form, &mut column, &mut next)
}

// Marks every state with the forms of the table that hold there, and says how many rounds the untils and the releases took.
// The marks and the scratch have an entry for each state, and no more.
pub(crate) fn mark_table<M: Machine>(
    table: &[Form],
    machine: &M,
    marks: &mut [u64],
    scratch: &mut [u8],
) -> usize
    requires well_formed { IsWellFormed table.now }
    requires short { length table.now ≤ 64 }
    requires a_mark_each { length marks.old ≡ (M.model machine.now).count }
    requires a_byte_each { length scratch.old ≡ (M.model machine.now).count }
    ensures marks { marks.new
        ≡ values (mark table.now (M.model machine.now)) (M.model machine.now).count }
    ensures scratch { scratch.new ≡ replicate (M.model machine.now).count 0 }
    ensures counted { result ≡ rounds_of table.now (M.model machine.now) }
{
    marks.fill(0);
    // No `map(..).sum()`: each turn writes the marks that the next one reads.
    let mut rounds = 0;
    for (f, form) in table.iter().enumerate() {
        // A table has at most 64 forms, so that a number fits into a byte.
        rounds += mark_form(machine, *form, marks, scratch, f as u8);
    }
    scratch.fill(0);
    rounds
}
