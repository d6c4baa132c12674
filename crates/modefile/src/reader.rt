// The readers of a file. Each call that ends a state takes the reader and gives the one of the next state.
ghost use Rattle.std.specs.Prelude.{◌≡◌, length, None, IfOk};
ghost use Rattle.std.specs.Result.{result_err};
ghost use Rattle.modefile.specs.Contents.{count, place_at, fault};
ghost use Rattle.modefile.specs.Parts.{told_result, part_at, following_part};

use crate::contents::{LINE_BYTES, check, entry};
use crate::part::Part;
use forms::{Refusal, Rejected};

/// A file whose contents were not looked at. It may be any bytes.
#[derive(Drop)]
pub struct Fresh<'a> {
    bytes: &'a [u8],
}

/// A file whose contents are in order, the number of the part that is next, and where its body begins, both from 0.
#[derive(Drop)]
pub struct Listed<'a> {
    bytes: &'a [u8],
    next: usize,
    place: usize,
    ghost in_order: { fault bytes.now ≡ None },
    ghost placed: { place ≡ place_at bytes.now next },
}

/// A file that is done with, and hands out no part.
#[derive(Drop)]
pub struct Closed<'a> {
    bytes: &'a [u8],
}

impl<'a> Fresh<'a> {
    /// The file of these bytes, none of which is looked at yet.
    pub fn begin(bytes: &'a [u8]) -> Fresh<'a>
        ensures { result.bytes.now ≡ bytes.now }
    {
        Fresh { bytes }
    }

    /// Looks at the contents, after which the bodies just fill the file.
    /// Refused, in this order, with `FileShape` (14) at 0, `PartKind` (15) at the first contents line of an unknown kind,
    /// counted from 0, or `PartLengths` (16) at 0.
    pub fn list(self) -> Result<Listed<'a>, Rejected>
        ensures verdict { result_err result ≡ fault self.entry.bytes.now }
        ensures file { IfOk result (λ l. l.bytes.now ≡ self.entry.bytes.now) }
        ensures first { IfOk result (λ l. l.next ≡ 0) }
        ensures filled { IfOk result
            (λ l. place_at l.bytes.now (count l.bytes.now) ≡ length l.bytes.now) }
    {
        let bytes = self.bytes;
        check(bytes)?;
        Ok(Listed {
            bytes,
            next: 0,
            place: 1 + LINE_BYTES * usize::from(bytes[0]),
        })
    }
}

impl<'a> Listed<'a> {
    /// Hands out the next part, in the order of the contents.
    /// Refused with `NoPartLeft` (30) after the last one, however often it is called; then the reader is as before.
    pub fn next_part(&mut self) -> Result<Part<'a>, Refusal>
        ensures part { told_result result ≡ part_at self.old.bytes.now self.old.next }
        ensures moved { self.new.next ≡ following_part self.old.bytes.now self.old.next }
        ensures file { self.new.bytes.now ≡ self.old.bytes.now }
    {
        let bytes = self.bytes;
        let (kind, length) = entry(bytes, self.next).ok_or(Refusal::NoPartLeft)?;
        let place = self.place;
        self.next += 1;
        self.place += length;
        Ok(kind.part(&bytes[place..self.place], place))
    }

    /// The same file, done with, whether parts are left or not.
    pub fn close(self) -> Closed<'a>
        ensures { result.bytes.now ≡ self.entry.bytes.now }
    {
        Closed { bytes: self.bytes }
    }
}

impl<'a> Closed<'a> {
    /// A fresh reader of the same file.
    pub fn reopen(self) -> Fresh<'a>
        ensures { result.bytes.now ≡ self.entry.bytes.now }
    {
        Fresh { bytes: self.bytes }
    }
}
