// What CTL formulas mean on a finite transition system, and that iterated rounds compute it.
#![tactic(auto)]

ghost use Rattle.ctl.specs.Truth.{RoundsSettle, FourAreMonotone, RoundsAreBounded, TruthIsMeaning, MeaningIsDecidable};

/// The theorems that labelling states by rounds rests on. It does nothing.
/// The rounds of a monotone operator settle at its least or greatest fixed point, and on a finite serial Kripke structure
/// they compute the path semantics of a formula.
pub fn rounds_tell_meaning()
    ensures settle { RoundsSettle }
    ensures monotone { FourAreMonotone }
    ensures bounded { RoundsAreBounded }
    ensures meaning { TruthIsMeaning }
    ensures decidable { MeaningIsDecidable }
{}
