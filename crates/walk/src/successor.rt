// Step 7: on to a successor.
ghost use Rattle.std.specs.Prelude.{◌≡◌, ◌||◌};
ghost use Rattle.forms.specs.Forms.{form as form_at};
ghost use Rattle.tableau.specs.Focus.{is_named};
ghost use Rattle.tableau.specs.Nexts.{is_every, every_operands};
ghost use Rattle.tableau.specs.Rules.{on_advance};
ghost use Rattle.walk.specs.Answers.{answer};

use crate::goal_forms::GoalForms;
use crate::rules::Children;
use forms::set::{contains, with};
use forms::{Form, Quantifier, Refusal};
use tableau::{Focus, Goal};

impl GoalForms<'_> {
    // Whether a focus at x goes on to the successor: from a form of all successors, and from the
    // form that the step names.
    pub(crate) fn leads_on(&self, named: Option<u8>, x: u8) -> bool
        ensures { result ≡ (is_named named x || is_every (form_at self.now.table.now x)) }
    {
        named == Some(x) || matches!(self.table.form(x), Form::Next(Quantifier::Every, _))
    }

    // To a successor that the form a asks for, or to any, with the focus there. Inlined by a hint, as `unroll` is.
    #[inline(always)]
    pub(crate) fn advance(&self, a: Option<u8>, focus: Focus) -> Result<Children, Refusal>
        ensures { result ≡ answer (on_advance self.now.table.now self.now.set a focus) }
    {
        // The operands are gathered once the form is found to fit: that goes over the whole table.
        let set = match a {
            None => self.every_operands(),
            Some(a) => match self.named(a)? {
                Form::Next(Quantifier::Exists, i) => with(self.every_operands(), i),
                _ => return Err(Refusal::DoesNotFit),
            },
        };
        Ok(Some((Goal { set, focus }, None)))
    }

    // The operands of the forms of all successors that are in the set.
    #[tactic(auto, using(crate::proofs::Operands::past_the_last_form, crate::proofs::Operands::every_operands_from))]
    fn every_operands(&self) -> u64
        ensures { result ≡ every_operands self.now.table.now 0 self.now.set }
    {
        let mut operands = 0;
        // A loop: as a fold the proof did not close, since std has no list of a reversed range. A cast, since a table has at most
        // 64 forms and numbers of forms are bytes.
        for f in (0..self.table.as_slice().len() as u8).rev() {
            operands = match self.table.form(f) {
                Form::Next(Quantifier::Every, i) if contains(self.set, f) => with(operands, i),
                _ => operands,
            };
        }
        operands
    }
}
