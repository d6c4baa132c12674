// The book: up to 64 lines, each a set of forms and how it stands.
ghost use Rattle.std.specs.Prelude.{◌≡◌, []};
ghost use Rattle.protocol.specs.State.{standing as standing_in};
ghost use Rattle.register.specs.Books.{add_result, lines_after_add, strike_result, lines_after_strike, room_for, lines_after_note};

use arrayvec::ArrayVec;
use forms::Refusal;
use protocol::{Line, Standing};
use std::marker::Model;

/// Up to 64 lines, counted from 0 as they came. All its memory is in it, so no call of it runs out of memory.
#[derive(Drop)]
pub struct Book {
    lines: ArrayVec<Line, 64>,
}

// Clauses see the lines, in the order in which they came.
impl Model for Book {
    ghost use Rattle.std.specs.Prelude.{List};
    ghost use Rattle.protocol.specs.declared.line.Line.{Line};

    ghost Value = { List Line };

    ghost view = { λ b. b.lines.items };
}

impl Book {
    pub(crate) fn new() -> Book
        ensures { result ≡ [] }
    {
        Book {
            lines: ArrayVec::new(),
        }
    }

    // How a set stands, by the first line that is its own.
    pub(crate) fn standing(&self, set: u64) -> Option<Standing>
        ensures { result ≡ standing_in self.now set }
    {
        self.lines
            .as_slice()
            .iter()
            .find(|line| line.set == set)
            .map(|line| line.standing)
    }

    // Adds a line at the end, and answers its place.
    pub(crate) fn add(&mut self, line: Line) -> Result<usize, Refusal>
        ensures place { result ≡ add_result self.old }
        ensures after { self.new ≡ lines_after_add self.old line }
    {
        let at = self.lines.len();
        if self.lines.is_full() {
            return Err(Refusal::BookFull);
        }
        self.lines.push(line);
        Ok(at)
    }

    // Whether a line of the set is there, or can be added.
    pub(crate) fn has_room_for(&self, set: u64) -> bool
        ensures { result ≡ room_for self.now set }
    {
        self.standing(set).is_some() || !self.lines.is_full()
    }

    // Adds the set as possible, if all of it is held and it does not stand; a full book stays.
    pub(crate) fn note(&mut self, set: u64, held: u64)
        ensures { self.new ≡ lines_after_note self.old set held }
    {
        if held == set && self.standing(set).is_none() {
            let standing = Standing::Possible;
            let _ = self.add(Line { set, standing });
        }
    }

    // Removes a line; later lines move up.
    pub(crate) fn strike(&mut self, at: usize) -> Result<usize, Refusal>
        ensures place { result ≡ strike_result self.old at }
        ensures after { self.new ≡ lines_after_strike self.old at }
    {
        self.lines.pop_at(at).map(|_| at).ok_or(Refusal::NoSuchLine)
    }

    // Removes every line.
    pub(crate) fn clear(&mut self)
        ensures { self.new ≡ [] }
    {
        self.lines.clear();
    }
}
