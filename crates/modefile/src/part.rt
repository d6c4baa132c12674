// A part of a file.
ghost use Rattle.std.specs.Prelude.{◌≡◌};
ghost use Rattle.modefile.specs.Contents.{kind_of, kind_number};
ghost use Rattle.modefile.specs.Parts.{told_of};

use forms::Refusal;

/// What a part has in its body, with the number that its contents line has for it.
#[derive(Clone, Copy, PartialEq, Eq, Debug)]
pub enum Kind {
    Forms = 1,
    Modes = 2,
    Tree = 3,
}

impl TryFrom<u8> for Kind {
    type Error = Refusal;

    ghost try_from_gives = { λ number result. result ≡ kind_of number };

    fn try_from(number: u8) -> Result<Kind, Refusal> {
        match number {
            1 => Ok(Kind::Forms),
            2 => Ok(Kind::Modes),
            3 => Ok(Kind::Tree),
            _ => Err(Refusal::PartKind),
        }
    }
}

impl Kind {
    // The part of this kind.
    pub(crate) fn part<'a>(self, body: &'a [u8], place: usize) -> Part<'a>
        ensures { told_of result ≡ (kind_number self, body.now, place) }
    {
        match self {
            Kind::Forms => Part::Forms { body, place },
            Kind::Modes => Part::Modes { body, place },
            Kind::Tree => Part::Tree { body, place },
        }
    }
}

/// The bytes of a body, by its kind, which are the file's own and may be any.
/// `place` is where in the file they begin, in bytes from 0.
#[derive(Clone, Copy, PartialEq, Eq, Debug)]
pub enum Part<'a> {
    Forms { body: &'a [u8], place: usize },
    Modes { body: &'a [u8], place: usize },
    Tree { body: &'a [u8], place: usize },
}
