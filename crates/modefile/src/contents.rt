// What the contents of a file say of its parts.
ghost use Rattle.std.specs.Prelude.{◌≡◌, ◌+◌, ◌*◌, ◌<◌, ◌≤◌, true, false, length, None, MatchOption};
ghost use Rattle.std.specs.Result.{result_err};
ghost use Rattle.modefile.specs.Contents.{count, lines_of, length_of, place_at, is_shaped, unknown_from, fault};
ghost use Rattle.modefile.specs.Parts.{has_part, IsEntry};

use crate::part::Kind;
use forms::{Refusal, Rejected};

// That the contents lines are all there is asked of three functions: a struct of such bytes would be taken apart at once.

// How many bytes a contents line has.
pub(crate) const LINE_BYTES: usize = 5;

// Refuses a file whose contents are not in order.
pub(crate) fn check(bytes: &[u8]) -> Result<(), Rejected>
    ensures { result_err result ≡ fault bytes.now }
{
    if !is_shaped(bytes) {
        return Err(Refusal::FileShape.at(0));
    }
    if let Some(line) = unknown_kind(bytes) {
        return Err(Refusal::PartKind.at(line));
    }
    if end(bytes) != bytes.len() {
        return Err(Refusal::PartLengths.at(0));
    }
    Ok(())
}

// The contents lines, one for each part.
pub(crate) fn lines(bytes: &[u8]) -> &[[u8; LINE_BYTES]]
    requires { 1 + 5 * count bytes.now ≤ length bytes.now }
    ensures value { result.now ≡ lines_of bytes.now }
    ensures len { length result.now ≡ count bytes.now }
{
    let (lines, _) = bytes[1..].as_chunks::<LINE_BYTES>();
    &lines[..usize::from(bytes[0])]
}

// The length of a body in its contents line, low byte first.
pub(crate) fn length_of(line: &[u8; LINE_BYTES]) -> usize
    ensures value { result ≡ length_of line.now }
    ensures bound { result < 4294967296 }
{
    let [_, a, b, c, d] = *line;
    // a cast, since there is no `From` between these two
    u32::from_le_bytes([a, b, c, d]) as usize
}

// The kind of part i and the length of its body, if a file in order has such a part.
pub(crate) fn entry(bytes: &[u8], i: usize) -> Option<(Kind, usize)>
    requires { fault bytes.now ≡ None }
    ensures { MatchOption result
        (has_part bytes.now i ≡ false) (λ entry. IsEntry bytes.now i entry.0 entry.1) }
{
    let line = lines(bytes).get(i)?;
    Some((Kind::try_from(line[0]).unwrap(), length_of(line)))
}

// The first of the contents lines whose kind is unknown.
fn unknown_kind(bytes: &[u8]) -> Option<usize>
    requires { 1 + 5 * count bytes.now ≤ length bytes.now }
    ensures { result ≡ unknown_from bytes.now 0 (count bytes.now) }
{
    lines(bytes)
        .iter()
        .position(|line| Kind::try_from(line[0]).is_err())
}

// Where the last body ends. A loop, since the proof that the sum of a chain fits did not close.
fn end(bytes: &[u8]) -> usize
    requires whole { 1 + 5 * count bytes.now ≤ length bytes.now }
    requires few { count bytes.now ≤ 16 }
    ensures { result ≡ place_at bytes.now (count bytes.now) }
{
    let lines = lines(bytes);
    let mut place = 1 + LINE_BYTES * lines.len();
    for line in lines {
        place += length_of(line);
    }
    place
}

// Whether the file's size and count are in bounds, and its contents are not cut short.
fn is_shaped(bytes: &[u8]) -> bool
    ensures value { result ≡ is_shaped bytes.now }
    ensures few { result ≡ true → count bytes.now ≤ 16 }
    ensures whole { result ≡ true → 1 + 5 * count bytes.now ≤ length bytes.now }
{
    (1..=65536).contains(&bytes.len())
        && (1..=16).contains(&bytes[0])
        && 1 + LINE_BYTES * usize::from(bytes[0]) <= bytes.len()
}
