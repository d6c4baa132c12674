// The focus tableau: goals, the eight step rules, and the walk through a tree of goals.
#![tactic(auto)]

pub mod goals;

ghost use Rattle.tableau.specs.Statements.{SetLaws, EveryOperandsAreExact, OutcomeIsExact, RefusalIsExact, WalkKeeps, ClosedRefutes, TreeIsTaken, TreeIsInBytes, ClosedIsTree, RunGrows};
ghost use Rattle.tableau.specs.Worked.{SetIsRefuted, NeedsFocus};

pub use goals::{Ancestor, Focus, Frame, Goal, Step};

/// What is proved of the step rules and every walk by them, such as that a closed walk refutes its set. It does nothing.
pub fn rules_are_sound()
    ensures sets { SetLaws }
    ensures operands { EveryOperandsAreExact }
    ensures outcome { OutcomeIsExact }
    ensures refusal { RefusalIsExact }
    ensures keeps { WalkKeeps }
    ensures refutes { ClosedRefutes }
    ensures grows { RunGrows }
    ensures taken { TreeIsTaken }
    ensures in_bytes { TreeIsInBytes }
    ensures is_tree { ClosedIsTree }
    ensures refuted { SetIsRefuted }
    ensures needs_focus { NeedsFocus }
{}
