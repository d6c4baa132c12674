// Reading a file: its parts are taken in order, up to a refusal. Places are cast to the 64 bits of a reply, since there is no `From`.
ghost use Rattle.std.specs.Prelude.{◌≡◌, None};
ghost use Rattle.machine.specs.Faults.{sheet_fault};
ghost use Rattle.modefile.specs.Contents.{count};
ghost use Rattle.modefile.specs.Parts.{told_of as part_told};
ghost use Rattle.protocol.specs.Calls.{load as load_call, outcome};
ghost use Rattle.register.specs.Loads.{body_of};
ghost use Rattle.service.specs.Files.{load_result, sheet_result, take_part, take_from, reading, HasSheet};
ghost use Rattle.service.specs.Meaning.{Performed};
ghost use Rattle.service.specs.Taking.{Took, IsSheetPart, part_reply};
ghost use Rattle.service.specs.View.{kept_of};

use crate::service::Service;
use lines::Reply;
use machine::{BodyError, Masked, Sheet};
use modefile::{Fresh, Listed, Part};
use register::Body;
use std::alloc::AllocError;

impl Service {
    // Takes the parts of a file in order, and forgets the sheet of an earlier one.
    pub(crate) fn read(&mut self, file: &[u8]) -> Result<Reply, AllocError>
        ensures { Performed (reading (kept_of self.old) file.now) (HasSheet file.now) result
            (kept_of self.new) }
    {
        self.sheet = None;
        match Fresh::begin(file).list() {
            Ok(listed) => self.take_parts(listed),
            Err(rejected) => Ok(Reply::RefusedAt {
                refusal: rejected.refusal,
                part: rejected.at as u64,
                record: 0,
            }),
        }
    }

    // Takes the parts that are left, and answers how many the file has. They are counted here, since a listed file is no iterator: it
    // refuses where no part is left.
    fn take_parts(&mut self, mut listed: Listed<'_>) -> Result<Reply, AllocError>
        requires { listed.next ≡ 0 }
        ensures { Performed
            (take_from (kept_of self.old) listed.entry.bytes.now 0 (count listed.entry.bytes.now))
            (HasSheet listed.entry.bytes.now) result (kept_of self.new) }
    {
        let mut taken = 0u64;
        while let Ok(part) = listed.next_part() {
            if let Err(why) = self.take_part(part) {
                return stopped(why, taken);
            }
            taken += 1;
        }
        Ok(Reply::Number(taken))
    }

    // Takes a part, by its kind.
    fn take_part(&mut self, part: Part<'_>) -> Result<(), BodyError>
        ensures { Took
            (take_part (kept_of self.old) (part_told part.entry).0 (part_told part.entry).1)
            (IsSheetPart (part_told part.entry).0 (part_told part.entry).1)
            result (kept_of self.old) (kept_of self.new) }
    {
        match part {
            Part::Forms { body, place: _ } => self.load(Body::Forms(body)),
            Part::Modes { body, place: _ } => self.keep_sheet(body),
            Part::Tree { body, place: _ } => self.load(Body::Tree(body)),
        }
    }

    // Loads a forms or tree body into the register.
    fn load(&mut self, body: Body<'_>) -> Result<(), BodyError>
        ensures { Took
            (load_result (kept_of self.old)
            (outcome (kept_of self.old).register (load_call (body_of body.entry))))
            ⊥ result (kept_of self.old) (kept_of self.new) }
    {
        self.register.load(body)?;
        Ok(())
    }

    // Keeps the sheet of a modes body, under a mask that lets every atom show.
    fn keep_sheet(&mut self, body: &[u8]) -> Result<(), BodyError>
        ensures { Took (sheet_result (kept_of self.old) body.now (sheet_fault body.now))
            (sheet_fault body.now ≡ None) result (kept_of self.old) (kept_of self.new) }
    {
        let below = Sheet::read(self.heap, body)?;
        self.sheet = Some(Masked {
            below,
            mask: u32::MAX,
        });
        Ok(())
    }
}

// The reply where a part was not taken.
fn stopped(why: BodyError, part: u64) -> Result<Reply, AllocError>
    ensures { result ≡ part_reply why part }
{
    match why {
        BodyError::Refused(rejected) => Ok(Reply::RefusedAt {
            refusal: rejected.refusal,
            part,
            record: rejected.at as u64,
        }),
        BodyError::OutOfMemory => Err(AllocError),
    }
}
