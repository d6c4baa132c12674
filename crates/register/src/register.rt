// The register: its parts, what is true of them at all times, and its plain calls.
ghost use Rattle.std.specs.Prelude.{◌≡◌};
ghost use Rattle.protocol.specs.Bodies.{forms_body};
ghost use Rattle.protocol.specs.State.{made_state, standing as standing_in};
ghost use Rattle.protocol.specs.Calls.{form as form_call, strike as strike_call, clear as clear_call, load as load_call, answer as answer_to, state_after};
ghost use Rattle.protocol.specs.Promises.{Promises};
ghost use Rattle.register.specs.Answers.{number_answer, StandsTruly};
ghost use Rattle.register.specs.Loads.{loaded_answer, body_of};

use crate::body::Body;
use crate::book::Book;
use forms::{Refusal, Rejected, Table};
use protocol::Standing;
use std::marker::Model;
use walk::Walk;

/// A table of forms, a book of what is known of their sets, and a walk.
/// Its calls may come in any order with any numbers: one that is refused changes nothing, and none runs out of memory.
/// A set has 64 bits, bit f for form f; forms and lines count from 0.
#[derive(Drop)]
pub struct Register {
    pub(crate) table: Table,
    pub(crate) book: Book,
    pub(crate) walk: Walk,
}

// Clauses see the abstract state. Each line of the book tells the truth about every machine, no set
// has two lines, and the walk came from its root set by accepted steps over the present table.
impl Model for Register {
    ghost use Rattle.protocol.specs.State.{State};
    ghost use Rattle.protocol.specs.Invariant.{IsSound};

    ghost Value = { State };

    ghost view = { λ r. record { table = r.table; book = r.book; walk = r.walk } };

    ghost invariant = { λ r. IsSound (record { table = r.table; book = r.book; walk = r.walk }) };
}

// Kind, a and b, and the bytes of a step, stay three numbers in the calls: people and bodies bring them so.
impl Register {
    /// An empty register, with memory for all that it can ever hold.
    pub fn new() -> Register
        ensures { result ≡ made_state }
    {
        Register {
            table: Table::new(),
            book: Book::new(),
            walk: Walk::new(),
        }
    }

    /// Adds the form of a kind, 0 to 11, and answers its number. Refused, in this order, with `KindAbove11` (1),
    /// `AtomAbove31` (2), `OperandNotEarlier` (3) or `TableFull` (21).
    pub fn form(&mut self, kind: u8, a: u8, b: u8) -> Result<usize, Refusal>
        ensures answer { number_answer result ≡ answer_to self.old (form_call kind a b) }
        ensures after { self.new ≡ state_after self.old (form_call kind a b) }
    {
        self.table.add(kind, a, b)
    }

    /// Removes a line of the book, and answers its place; later lines move up. Refused with `NoSuchLine` (29).
    pub fn strike(&mut self, line: usize) -> Result<usize, Refusal>
        ensures answer { number_answer result ≡ answer_to self.old (strike_call line) }
        ensures after { self.new ≡ state_after self.old (strike_call line) }
    {
        self.book.strike(line)
    }

    /// Makes the register as new: no form, no line, no walk. Never refused.
    pub fn clear(&mut self)
        ensures { self.new ≡ state_after self.old clear_call }
    {
        self.table = Table::new();
        self.book.clear();
        self.walk.end();
    }

    /// How a set, which may be any, stands, by its line in the book; none where it has no line.
    /// What is promised of every run of calls is promised here.
    pub fn stands(&self, set: u64) -> Option<Standing>
        ensures value { result ≡ standing_in self.now.book set }
        ensures truth { StandsTruly self.now.table set result }
        ensures promises { Promises }
    {
        self.book.standing(set)
    }

    /// Takes a whole forms body, and answers how many forms the table has then, or a whole tree body, as open, node for
    /// each of its steps and enter, and answers its line; or nothing.
    /// Refused with `BodyLength` (17) at 0, else as these calls, at the record, counted from 0: of a tree body open is
    /// record 0, as the first step is, and enter the one after the last step.
    pub fn load(&mut self, body: Body<'_>) -> Result<usize, Rejected>
        ensures answer { loaded_answer result ≡ answer_to self.old
            (load_call (body_of body.entry)) }
        ensures after { self.new ≡ state_after self.old (load_call (body_of body.entry)) }
    {
        match body {
            Body::Forms(bytes) => self.load_forms(bytes),
            Body::Tree(bytes) => self.load_tree(bytes),
        }
    }

    fn load_forms(&mut self, bytes: &[u8]) -> Result<usize, Rejected>
        ensures answer { loaded_answer result ≡ answer_to self.old
            (load_call (forms_body bytes.now)) }
        ensures after { self.new ≡ state_after self.old (load_call (forms_body bytes.now)) }
    {
        self.table.load(bytes)
    }
}
