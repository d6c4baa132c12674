// A walk through a tree of goals.
ghost use Rattle.std.specs.Prelude.{◌≡◌, reverse};
ghost use Rattle.tableau.specs.Walk.{under_way, start, node as node_at};
ghost use Rattle.walk.specs.Path.{node_of, KeptIfRefused};
ghost use Rattle.walk.specs.Progress.{absent, present, phase_of, step_result, reply, next};

use crate::path::{Path, count_seconds, resume};
use crate::rules::take_step;
use forms::{Refusal, Table};
use std::marker::Model;
use tableau::{Ancestor, Focus, Frame, Goal, Step};

/// A walk is absent, under way at its present goal, or closed, where no goal waits.
/// `root` is the set that it started at, 64 bits with bit f for form f.
#[derive(Clone, Copy, PartialEq, Eq, Debug)]
pub enum Phase {
    Absent,
    UnderWay { root: u64, present: Goal },
    Closed { root: u64 },
}

/// The phase, and the path above the present goal with the root first.
/// All its memory is in it, so no call of it runs out of memory.
#[derive(Drop)]
pub struct Walk {
    phase: Phase,
    path: Path,
}

// Clauses see no walk, or one from its root set, which is under way or closed. The phase is a field, and the walk no enum
// of phases with the path in one: an enum has no model.
impl Model for Walk {
    ghost use Rattle.walk.specs.Progress.{Progress, progress_of};

    ghost Value = { Progress };

    ghost view = { λ w. progress_of w.phase w.path.items };
}

impl Walk {
    /// No walk, with room for the longest path, of 256 goals from the root to the present one, both counted.
    pub fn new() -> Walk
        ensures { result ≡ absent }
    {
        Walk {
            phase: Phase::Absent,
            path: Path::new(),
        }
    }

    /// What the walk is, without its path.
    pub fn phase(&self) -> Phase
        ensures { result ≡ phase_of self.now }
    {
        self.phase
    }

    /// Starts a walk at the set with no focus, in the place of this one, whatever it was. The set may be any.
    pub fn start(&mut self, set: u64)
        ensures { self.new ≡ present set (start set) }
    {
        self.path.clear();
        self.phase = Phase::UnderWay {
            root: set,
            present: Goal {
                set,
                focus: Focus::Nowhere,
            },
        };
    }

    /// Takes the step of a number, 1 to 8, and two operands at the present goal, and answers how many goals then wait,
    /// the present one counted; at 0 the walk is closed. Refused, in this order, with `NoWalk` (23), `WalkClosed` (26),
    /// `NoSuchStep` (6), `NotInGoal` (7), `DoesNotFit` (8), `DoesNotClose` (9) or `PathTooLong` (27);
    /// then the walk is as before.
    pub fn node(&mut self, table: &Table, number: u8, a: u8, b: u8) -> Result<usize, Refusal>
        ensures reply { result ≡ reply (step_result table.now self.old number a b) }
        ensures after { self.new ≡ next self.old (step_result table.now self.old number a b) }
    {
        match (self.phase, Step::from_numbers(number, a, b)) {
            (Phase::Absent, _) => Err(Refusal::NoWalk),
            (Phase::Closed { .. }, _) => Err(Refusal::WalkClosed),
            (Phase::UnderWay { .. }, None) => Err(Refusal::NoSuchStep),
            (Phase::UnderWay { root, present }, Some(step)) => {
                match treat(&mut self.path, table, present, step)? {
                    Some(goal) => {
                        self.phase = Phase::UnderWay {
                            root,
                            present: goal,
                        };
                        Ok(1 + count_seconds(self.path.as_slice()))
                    }
                    None => {
                        self.phase = Phase::Closed { root };
                        Ok(0)
                    }
                }
            }
        }
    }

    /// Ends the walk, if there is one.
    pub fn end(&mut self)
        ensures { self.new ≡ absent }
    {
        self.phase = Phase::Absent;
    }
}

// The goal that is next, or none where the walk is closed.
fn treat(path: &mut Path, table: &Table, present: Goal, step: Step) -> Result<Option<Goal>, Refusal>
    ensures node { node_at table.now (under_way present (reverse path.old.items)) step
        ≡ node_of result path.new.items }
    ensures kept { KeptIfRefused result path.old.items path.new.items }
{
    match take_step(table, path.as_slice(), present, step)? {
        None => Ok(resume(path)),
        Some((first, second)) => {
            if path.is_full() {
                return Err(Refusal::PathTooLong);
            }
            path.push(Frame {
                ancestor: Ancestor {
                    goal: present,
                    step,
                },
                second,
            });
            Ok(Some(first))
        }
    }
}
