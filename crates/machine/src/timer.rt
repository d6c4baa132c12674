// The timer: a line of states with one atom at its end.
ghost use Rattle.std.specs.Prelude.{◌≡◌, None, IfOk};
ghost use Rattle.std.specs.Result.{result_err};
ghost use Rattle.machine.specs.Timer.{timer, timer_refusal};
ghost use Rattle.machine.specs.TimerSound.{IsSoundMachine-shaped_timer};

use crate::interface::{MOST_STATES, Machine};
use forms::Refusal;

/// `states` states, 1 to 1,024: state k leads to k + 1 alone, the last to itself alone.
/// Atom `atom`, 0 to 31, holds at the last alone, and no other atom anywhere.
#[derive(Clone, Copy, PartialEq, Eq, Debug)]
pub struct Timer {
    states: usize,
    atom: u32,
    ghost shape: { timer_refusal states atom ≡ None },
}

impl Timer {
    /// The timer of 1 to 1,024 states and an atom 0 to 31; refused with `TimerShape` (19) otherwise.
    pub fn new(states: usize, atom: u32) -> Result<Timer, Refusal>
        ensures refuses { result_err result ≡ timer_refusal states atom }
        ensures long { IfOk result (λ x. x.states ≡ states) }
        ensures marked { IfOk result (λ x. x.atom ≡ atom) }
    {
        if !(1..=MOST_STATES).contains(&states) || atom > 31 {
            return Err(Refusal::TimerShape);
        }
        Ok(Timer { states, atom })
    }
}

impl Machine for Timer {
    ghost model = { λ x. timer x.states x.atom };

    ghost sound = { λ x. IsSoundMachine-shaped_timer x.states x.atom x.shape };

    fn count(&self) -> usize {
        self.states
    }

    fn atoms(&self, s: usize) -> u32 {
        if s == self.states - 1 {
            1 << self.atom
        } else {
            0
        }
    }

    fn leads(&self, s: usize, t: usize) -> bool {
        let last = self.states - 1;
        if s < last {
            t == s + 1
        } else {
            s == last && t == last
        }
    }
}
