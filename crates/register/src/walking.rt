// The calls of the register: the walk.
ghost use Rattle.std.specs.Prelude.{◌≡◌};
ghost use Rattle.protocol.specs.Calls.{open_at, node as node_call, enter as enter_call, abandon as abandon_call, answer as answer_to, state_after};
ghost use Rattle.register.specs.Answers.{number_answer};
ghost use Rattle.register.specs.Walking.{call_of};

use crate::register::Register;
use forms::Refusal;
use protocol::{Line, Standing};
use walk::Phase;

// A call of the walk, with what it brings, so that one match meets it together with what the walk is. The bytes of a
// step stay three: a call and a body bring them so, and the walk reads them at once.
#[derive(Clone, Copy, PartialEq, Eq, Debug)]
pub(crate) enum WalkCall {
    Open(u64),
    Node(u8, u8, u8),
    Enter,
    Abandon,
}

impl Register {
    /// Starts a walk at a set of table forms, with no focus, and answers how many goals wait, which is 1.
    /// Refused, in this order, with `SetBeyondTable` (4) or `WalkPresent` (24).
    pub fn open(&mut self, set: u64) -> Result<usize, Refusal>
        ensures answer { number_answer result ≡ answer_to self.old (open_at set) }
        ensures after { self.new ≡ state_after self.old (open_at set) }
    {
        self.call_walk(WalkCall::Open(set))
    }

    /// Takes the step of a number, 1 to 8, and two operands at the present goal, and answers how many goals then wait,
    /// the present one counted; at 0 the walk is closed.
    /// Refused, in this order, with `NoWalk` (23), `WalkClosed` (26), `NoSuchStep` (6), `NotInGoal` (7), `DoesNotFit` (8),
    /// `DoesNotClose` (9) or `PathTooLong` (27).
    pub fn node(&mut self, number: u8, a: u8, b: u8) -> Result<usize, Refusal>
        ensures answer { number_answer result ≡ answer_to self.old (node_call number a b) }
        ensures after { self.new ≡ state_after self.old (node_call number a b) }
    {
        self.call_walk(WalkCall::Node(number, a, b))
    }

    /// Enters the root set of a closed walk as impossible, ends the walk, and answers the line.
    /// Refused, in this order, with `NoWalk` (23), `GoalsWait` (25), `SetStands` (28) or `BookFull` (22).
    pub fn enter(&mut self) -> Result<usize, Refusal>
        ensures answer { number_answer result ≡ answer_to self.old enter_call }
        ensures after { self.new ≡ state_after self.old enter_call }
    {
        self.call_walk(WalkCall::Enter)
    }

    /// Ends the walk, closed or not, and answers 0. Refused with `NoWalk` (23).
    pub fn abandon(&mut self) -> Result<usize, Refusal>
        ensures answer { number_answer result ≡ answer_to self.old abandon_call }
        ensures after { self.new ≡ state_after self.old abandon_call }
    {
        self.call_walk(WalkCall::Abandon)
    }

    // Each call, by what the walk is: absent, under way or closed.
    fn call_walk(&mut self, call: WalkCall) -> Result<usize, Refusal>
        ensures answer { number_answer result ≡ answer_to self.old (call_of call) }
        ensures after { self.new ≡ state_after self.old (call_of call) }
    {
        match (self.walk.phase(), call) {
            (_, WalkCall::Open(set)) if !self.table.has_all(set) => Err(Refusal::SetBeyondTable),
            (Phase::Absent, WalkCall::Open(set)) => {
                self.walk.start(set);
                Ok(1)
            }
            (Phase::UnderWay { .. } | Phase::Closed { .. }, WalkCall::Open(_)) => {
                Err(Refusal::WalkPresent)
            }
            (_, WalkCall::Node(number, a, b)) => self.walk.node(&self.table, number, a, b),
            (Phase::Absent, WalkCall::Enter | WalkCall::Abandon) => Err(Refusal::NoWalk),
            (Phase::UnderWay { .. }, WalkCall::Enter) => Err(Refusal::GoalsWait),
            (Phase::Closed { root }, WalkCall::Enter) => {
                if self.book.standing(root).is_some() {
                    return Err(Refusal::SetStands);
                }
                let standing = Standing::Impossible;
                let line = self.book.add(Line {
                    set: root,
                    standing,
                })?;
                self.walk.end();
                Ok(line)
            }
            (Phase::UnderWay { .. } | Phase::Closed { .. }, WalkCall::Abandon) => {
                self.walk.end();
                Ok(0)
            }
        }
    }
}
