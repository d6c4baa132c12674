// The call of the register that shows a machine.
ghost use Rattle.std.specs.Prelude.{◌≡◌, length};
ghost use Rattle.protocol.specs.Calls.{show as show_call, answer as answer_to, state_after};
ghost use Rattle.protocol.specs.Promises.{HeldTells};
ghost use Rattle.register.specs.Shows.{shown_answer, showable_in, Buffers};

use crate::register::Register;
use forms::Refusal;
use label::label;
use machine::Machine;

/// What a show found: the part of the set that holds at the state, bit f for form f, and how many rounds it took.
#[derive(Clone, Copy, PartialEq, Eq, Debug)]
pub struct Shown {
    pub held: u64,
    pub rounds: usize,
}

// Machine, marks and scratch are three parameters, as small display computers own them and lend them.
impl Register {
    /// Labels the machine's states as `label` does; `marks` has 64 bits a state, `scratch` a byte a state.
    /// Where all of the set holds at the state, counted from 0, and the set does not stand, it is entered as possible.
    /// Refused, in this order, with `SetBeyondTable` (4), `StateBeyondMachine` (5), `BuffersTooShort` (13) or, where the
    /// set does not stand, `BookFull` (22); then nothing changes, marks and scratch neither.
    pub fn show<M: Machine>(
        &mut self,
        set: u64,
        state: usize,
        machine: &M,
        marks: &mut [u64],
        scratch: &mut [u8],
    ) -> Result<Shown, Refusal>
        ensures answer { shown_answer result ≡ answer_to self.old (show_call set state
            (M.Machine.model machine.now) (length marks.old) (length scratch.old)) }
        ensures after { self.new ≡ state_after self.old (show_call set state
            (M.Machine.model machine.now) (length marks.old) (length scratch.old)) }
        ensures buffers { Buffers self.old.table (M.Machine.model machine.now) result
            marks.old marks.new scratch.old scratch.new }
        ensures held_tells { HeldTells }
    {
        self.showable(set, state, machine.count(), marks.len(), scratch.len())?;
        let rounds = label(&self.table, machine, marks, scratch)?;
        let held = set & marks[state];
        self.book.note(set, held);
        Ok(Shown { held, rounds })
    }

    // Whether a show of the set at the state of a machine of n states is taken. Five numbers, since a
    // struct of them would be made and taken apart for this one call.
    fn showable(
        &self,
        set: u64,
        state: usize,
        n: usize,
        marks: usize,
        scratch: usize,
    ) -> Result<(), Refusal>
        ensures { result ≡ showable_in self.now set state n marks scratch }
    {
        if !self.table.has_all(set) {
            return Err(Refusal::SetBeyondTable);
        }
        if state >= n {
            return Err(Refusal::StateBeyondMachine);
        }
        if marks < n || scratch < n {
            return Err(Refusal::BuffersTooShort);
        }
        if !self.book.has_room_for(set) {
            return Err(Refusal::BookFull);
        }
        Ok(())
    }
}
