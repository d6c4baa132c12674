// Questions about the successors of a state. Two functions, since `any` and `all` stop at other answers.
ghost use Rattle.std.specs.Prelude.{◌≡◌, ℕ, ◌<◌};
ghost use Rattle.ctl.specs.Rounds.{Subset};
ghost use Rattle.ctl.specs.Truth.{some_successor, all_successors};
ghost use Rattle.label.specs.Columns.{TellsMembership};

use machine::interface::Machine;

// Whether some successor of s is inside.
pub(crate) fn some_successor<M: Machine, X: Fn(usize) -> bool>(
    machine: &M,
    s: usize,
    inside: X,
) -> bool
    requires { (t : ℕ) → t < (M.model machine.now).count → X.pre inside t }
    ensures { (set : Subset) → TellsMembership (X.post inside) (M.model machine.now).count set
        → result ≡ some_successor (M.model machine.now) set s }
{
    (0..machine.count()).any(
        |t|
            requires { X.pre inside t }
        { inside(t) && machine.leads(s, t) },
    )
}

// Whether all successors of s are inside.
pub(crate) fn all_successors<M: Machine, X: Fn(usize) -> bool>(
    machine: &M,
    s: usize,
    inside: X,
) -> bool
    requires { (t : ℕ) → t < (M.model machine.now).count → X.pre inside t }
    ensures { (set : Subset) → TellsMembership (X.post inside) (M.model machine.now).count set
        → result ≡ all_successors (M.model machine.now) set s }
{
    (0..machine.count()).all(
        |t|
            requires { X.pre inside t }
        { inside(t) || !machine.leads(s, t) },
    )
}
