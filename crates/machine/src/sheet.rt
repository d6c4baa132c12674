// The sheet: a machine decoded from a modes body.
ghost use Rattle.std.specs.Prelude.{◌≡◌, ◌≤◌, length, map, Some, IfOk, MatchResult};
ghost use Rattle.std.specs.Result.{result_err};
ghost use Rattle.machine.specs.Sheet.{SuccessorsAreOffsets};
ghost use Rattle.machine.specs.Rows.{row_of, rows_model, Decodes};
ghost use Rattle.machine.specs.Faults.{rows_fault, sheet_fault, IsCut, IsSheet, IsReadResult};
ghost use Rattle.machine.specs.RowsSound.{IsSoundMachine-rows_model};

use crate::error::BodyError;
use crate::interface::{MOST_STATES, Machine};
use crate::row::{ROW_BYTES, Row};
use forms::{Refusal, Rejected};
use std::alloc::{AllocError, Global};

/// The rows of a modes body with which nothing is wrong, 1 to 1,024.
/// Row s is state s, and its successors are s plus each of its 1 to 8 offsets.
#[derive(Drop)]
pub struct Sheet {
    rows: Vec<Row>,
    ghost in_order: { IsSheet rows.items },
}

impl Sheet {
    /// The sheet in a body: a two-byte count of rows, low byte first, then 21 bytes a row.
    /// Refused, in this order, at 0 with `BodyLength` (17) under two bytes, `RowCount` (10) or, for that count,
    /// `BodyLength` (17); then at the first bad row, counted from 0, with `RowDegree` (11) or `RowOffset` (12).
    /// Where nothing is wrong it asks `heap` for memory, and can run out of it.
    #[tactic(auto, using(crate::proofs::Successors::sheet_successors))]
    pub fn read(heap: Global, bytes: &[u8]) -> Result<Sheet, BodyError>
        ensures ends { IsReadResult (sheet_fault bytes.now) result
            (λ x. Decodes bytes.now x.rows.items) }
        ensures successors { SuccessorsAreOffsets }
    {
        let records = records(bytes)?;
        check_rows(records)?;
        let rows = read_rows(heap, records)?;
        Ok(Sheet { rows })
    }
}

impl Machine for Sheet {
    ghost model = { λ x. rows_model x.rows.items };

    ghost sound = { λ x. IsSoundMachine-rows_model x.rows.items x.in_order };

    fn count(&self) -> usize {
        self.rows.len()
    }

    fn atoms(&self, s: usize) -> u32 {
        self.rows.get(s).map_or(0, |row| row.atoms)
    }

    #[tactic(auto, using(crate::specs::RowsSound::past_leads, crate::specs::RowsSound::leads_nowhere))]
    fn leads(&self, s: usize, t: usize) -> bool {
        t < self.rows.len() && self.rows.get(s).is_some_and(|row| row.leads(s, t))
    }
}

// The bytes of each row of a body.
fn records(bytes: &[u8]) -> Result<&[[u8; ROW_BYTES]], Rejected>
    ensures { MatchResult result
        (λ records. IsCut bytes.now records.now) (λ why. sheet_fault bytes.now ≡ Some why) }
{
    let too_short = Refusal::BodyLength.at(0);
    let (count, rows) = bytes.split_first_chunk::<2>().ok_or(too_short)?;
    let n = usize::from(u16::from_le_bytes(*count));
    if !(1..=MOST_STATES).contains(&n) {
        return Err(Refusal::RowCount.at(0));
    }
    if rows.len() != ROW_BYTES * n {
        return Err(Refusal::BodyLength.at(0));
    }
    let (records, _) = rows.as_chunks::<ROW_BYTES>();
    Ok(records)
}

// Refuses the first of the rows that is not in order.
fn check_rows(records: &[[u8; ROW_BYTES]]) -> Result<(), Rejected>
    ensures { result_err result ≡ rows_fault (length records.now) 0 (map row_of records.now) }
{
    for (s, record) in records.iter().enumerate() {
        // Not by `map_err` and `?`: two goals of the loop stayed open, and its counter is lent to the closure.
        if let Err(refusal) = Row::from(record).check(s, records.len()) {
            return Err(refusal.at(s));
        }
    }
    Ok(())
}

fn read_rows(heap: Global, records: &[[u8; ROW_BYTES]]) -> Result<Vec<Row>, AllocError>
    ensures { IfOk result (λ rows. rows.items ≡ map row_of records.now) }
{
    records.iter().map(Row::from).collect(heap)
}
