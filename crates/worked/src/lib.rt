// Examples worked by hand, as theorems about the definitions that the calls' contracts cite (mathematics).
#![tactic(auto)]

ghost use Rattle.worked.specs.Examples.{TableIsFilled, Operand5InForm5, TwoRowsAnswer, TimerOfThree, Set48IsRefuted, BeforeRow0, Row1023Reaches0, Set0IsEntered};

/// What the definitions come to on examples, worked by hand. It does nothing.
pub fn worked_examples()
    ensures table { TableIsFilled }
    ensures operand { Operand5InForm5 }
    ensures two_rows { TwoRowsAnswer }
    ensures timer { TimerOfThree }
    ensures refutation { Set48IsRefuted }
    ensures before { BeforeRow0 }
    ensures far_back { Row1023Reaches0 }
    ensures nothing { Set0IsEntered }
{}
