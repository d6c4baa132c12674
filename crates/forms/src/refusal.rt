// Why a call is refused.
ghost use Rattle.std.specs.Prelude.{◌≡◌};
ghost use Rattle.forms.specs.Refusals.{number_of, rejected_at};

use thiserror::Error;

/// Why a call is refused. Each case has the number under which a reply tells it, 1 to 31; no two have the same.
#[derive(Clone, Copy, PartialEq, Eq, Debug, Error)]
pub enum Refusal {
    #[error("the kind of a form is above 11")]
    KindAbove11 = 1,
    #[error("an atom is above 31")]
    AtomAbove31 = 2,
    #[error("an operand is not the number of an earlier form")]
    OperandNotEarlier = 3,
    #[error("a set has a form that is not in the table")]
    SetBeyondTable = 4,
    #[error("a state is not below the machine's count")]
    StateBeyondMachine = 5,
    #[error("the number of a step is not 1 to 8")]
    NoSuchStep = 6,
    #[error("a form that a step names is not in the goal")]
    NotInGoal = 7,
    #[error("a form that a step names does not fit the step")]
    DoesNotFit = 8,
    #[error("the goal that a repeat names does not close this one")]
    DoesNotClose = 9,
    #[error("a sheet has not 1 to 1,024 rows")]
    RowCount = 10,
    #[error("a row has not 1 to 8 offsets")]
    RowDegree = 11,
    #[error("an offset leads outside the sheet")]
    RowOffset = 12,
    #[error("marks or scratch have fewer entries than the machine has states")]
    BuffersTooShort = 13,
    #[error("a file has 0 or over 65,536 bytes, a count outside 1 to 16, or contents that are cut short")]
    FileShape = 14,
    #[error("the kind of a part is not 1 to 3")]
    PartKind = 15,
    #[error("the lengths of the parts do not add up to the file")]
    PartLengths = 16,
    #[error("a body has not the length that its kind asks for")]
    BodyLength = 17,
    #[error("a product would have over 1,024 states")]
    ProductSize = 18,
    #[error("a timer has not 1 to 1,024 states, or its atom is above 31")]
    TimerShape = 19,
    #[error("a line is over 100 bytes, or is not written as lines are")]
    BadLine = 20,
    #[error("the table has 64 forms")]
    TableFull = 21,
    #[error("the book has 64 lines")]
    BookFull = 22,
    #[error("no walk is present")]
    NoWalk = 23,
    #[error("a walk is present")]
    WalkPresent = 24,
    #[error("goals of the walk still wait")]
    GoalsWait = 25,
    #[error("the walk is closed")]
    WalkClosed = 26,
    #[error("a child would be on a path of over 256 goals")]
    PathTooLong = 27,
    #[error("the set stands in the book")]
    SetStands = 28,
    #[error("the book has no such line")]
    NoSuchLine = 29,
    #[error("a file has no part left")]
    NoPartLeft = 30,
    #[error("no sheet has been read")]
    NoSheet = 31,
}

/// A refusal inside a body or a file, and where: `at` is the record of the body (a form, a row, a step) or the contents
/// line of the file that met it, counted from 0, and 0 where it is of none.
/// In a tree body open is record 0, as the first step is, and enter the one after the last step.
#[derive(Clone, Copy, PartialEq, Eq, Debug, Error)]
#[error("{refusal}, at {at}")]
pub struct Rejected {
    pub refusal: Refusal,
    pub at: usize,
}

impl Refusal {
    /// The number under which a reply tells it, 1 to 31.
    pub fn number(self) -> u8
        ensures { result ≡ number_of self }
    {
        self as u8
    }

    /// The refusal with its place, a record or a contents line counted from 0.
    pub fn at(self, at: usize) -> Rejected
        ensures { result ≡ rejected_at self at }
    {
        Rejected { refusal: self, at }
    }
}
