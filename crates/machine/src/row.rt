// A row of a sheet, read from the bytes of a body.
ghost use Rattle.std.specs.Prelude.{◌≡◌, ◌^◌, ◌<◌, ◌≤◌, take, pos, ◌+ℤ◌};
ghost use Rattle.std.specs.Result.{result_err};
ghost use Rattle.ctl.specs.Search.{every};
ghost use Rattle.machine.specs.Sheet.{is_row};
ghost use Rattle.machine.specs.Rows.{row_of, target, row_leads};
ghost use Rattle.machine.specs.Faults.{is_inside, row_fault};

use forms::Refusal;
use std::array;

// How many bytes of a body a row takes.
pub(crate) const ROW_BYTES: usize = 21;

// The offsets stand as in the body, since a row is read before it is checked, and one that tells of more than eight has
// no list of them.
/// Atoms, bit a for atom a, and where the row leads: from row s to s plus each of the first `degree` offsets.
/// A row by itself may have any numbers; those of a sheet are checked.
#[derive(Clone, Copy, PartialEq, Eq, Debug)]
pub struct Row {
    pub(crate) atoms: u32,
    pub(crate) degree: u8,
    pub(crate) offsets: [i16; 8],
}

impl From<&[u8; ROW_BYTES]> for Row {
    ghost from_gives = { λ bytes row. row ≡ row_of bytes.now };

    fn from(bytes: &[u8; ROW_BYTES]) -> Row {
        let [a, b, c, d, degree, ..] = *bytes;
        let (offsets, _) = bytes[5..].as_chunks::<2>();
        Row {
            atoms: u32::from_le_bytes([a, b, c, d]),
            degree,
            offsets: array::from_fn(|k| i16::from_le_bytes(offsets[k])),
        }
    }
}

impl Row {
    // Refuses this row where, as row s of n, it is not in order.
    pub(crate) fn check(&self, s: usize, n: usize) -> Result<(), Refusal>
        requires { (s < 2 ^ 62) × (n < 2 ^ 62) }
        ensures { result_err result ≡ row_fault n s self.now }
    {
        if !(1..=8).contains(&self.degree) {
            return Err(Refusal::RowDegree);
        }
        if !self.stays_inside(s, n) {
            return Err(Refusal::RowOffset);
        }
        Ok(())
    }

    // Whether this row as row s leads to row t.
    pub(crate) fn leads(&self, s: usize, t: usize) -> bool
        requires { (self.now.degree ≤ 8) × ((s < 2 ^ 62) × (t < 2 ^ 62)) }
        ensures { result ≡ row_leads self.now s t }
    {
        self.counted().iter().any(|&offset| reaches(s, offset, t))
    }

    // Whether each offset that counts leads from row s to one of n rows.
    fn stays_inside(&self, s: usize, n: usize) -> bool
        requires { (self.now.degree ≤ 8) × ((s < 2 ^ 62) × (n < 2 ^ 62)) }
        ensures { result ≡ every self.now.degree (λ k. is_inside n (target self.now s k)) }
    {
        self.counted().iter().all(|&offset| is_inside(s, offset, n))
    }

    // The offsets that count. That they are at most eight is asked, and no invariant, since a row is made before it is checked.
    fn counted(&self) -> &[i16]
        requires { self.now.degree ≤ 8 }
        ensures { result.now ≡ take self.now.degree self.now.offsets }
    {
        &self.offsets[..self.degree.into()]
    }
}

// Whether an offset leads from row s to one of n rows.
fn is_inside(s: usize, offset: i16, n: usize) -> bool
    requires { (s < 2 ^ 62) × (n < 2 ^ 62) }
    ensures { result ≡ is_inside n (pos s +ℤ offset) }
{
    (0..n as isize).contains(&target(s, offset))
}

// Whether an offset leads from row s to row t.
fn reaches(s: usize, offset: i16, t: usize) -> bool
    requires { (s < 2 ^ 62) × (t < 2 ^ 62) }
    ensures { result ≡ is_row t (pos s +ℤ offset) }
{
    target(s, offset) == t as isize
}

// Where an offset leads from row s, perhaps below row 0. A sum of signed numbers: reading a sheet of many rows and asking it come
// down to this, and took twice the time and more by `checked_add_signed`.
fn target(s: usize, offset: i16) -> isize
    requires { s < 2 ^ 62 }
    ensures { result ≡ pos s +ℤ offset }
{
    s as isize + isize::from(offset)
}
