// The labelling of a machine's states with the forms of a table that hold there.
ghost use Rattle.label.specs.Show.{IsLabelResult};

use crate::mark::mark_table;
use forms::{Refusal, Table};
use machine::interface::Machine;

/// Marks every state with the table's forms that hold there; answers how many rounds the untils and releases took in all.
/// `marks` has 64 bits a state, bit f for form f, 0 past the table; `scratch` a byte a state, which ends as 0. Both are
/// lent, and what lies past the machine's states stays. Refused with `BuffersTooShort` (13) where either has fewer entries
/// than there are states; then both are as before. It cannot run out of memory.
pub fn label<M: Machine>(
    table: &Table,
    machine: &M,
    marks: &mut [u64],
    scratch: &mut [u8],
) -> Result<usize, Refusal>
    ensures { IsLabelResult table.now (M.model machine.now) result marks.old marks.new
        scratch.old scratch.new }
{
    let n = machine.count();
    if marks.len() < n || scratch.len() < n {
        return Err(Refusal::BuffersTooShort);
    }
    Ok(mark_table(
        table.as_slice(),
        machine,
        &mut marks[..n],
        &mut scratch[..n],
    ))
}
