// The interface of a machine.
ghost use Rattle.std.specs.Prelude.{◌≡◌};
ghost use Rattle.ctl.specs.Model.{Model};
ghost use Rattle.machine.specs.Interface.{IsSoundMachine};

/// The most states that a machine has.
pub const MOST_STATES: usize = 1024;

/// A machine means its model: 1 to 1,024 states, numbered from 0, each of which has a successor, and atoms 0 to 31.
/// The questions are never refused, change nothing and cannot run out of memory; they may name any number as a state.
pub trait Machine {
    ghost model: { Self → Model };

    /// The number of states, 1 to 1,024; the states are the numbers below it.
    fn count(&self) -> usize
        ensures { result ≡ (model self.now).count };

    /// The atoms of state s, 32 bits, bit a for atom a; 0 where s is no state.
    fn atoms(&self, s: usize) -> u32
        ensures { result ≡ (model self.now).atoms s };

    /// Whether state t is a successor of state s; not so where either is no state.
    fn leads(&self, s: usize, t: usize) -> bool
        ensures { result ≡ (model self.now).leads s t };

    ghost sound: { (x : Self) → IsSoundMachine (model x) };
}
