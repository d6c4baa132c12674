// The forms of a goal, as the step rules look them up, and the goals that they yield.
ghost use Rattle.std.specs.Prelude.{◌≡◌, ◌<◌, true, IfOk, if◌then◌else◌, Ok, Err};
ghost use Rattle.forms.specs.declared.refusal.Refusal.TheVariants.{NotInGoal};
ghost use Rattle.forms.specs.Forms.{form as form_at, Earlier};
ghost use Rattle.forms.specs.Sets.{member as is_member};
ghost use Rattle.tableau.specs.Nexts.{is_next_of};
ghost use Rattle.tableau.specs.Rules.{yield₁, yield₂};

use forms::set::{contains, with, without};
use forms::{Form, Quantifier, Refusal, Table};
use tableau::{Focus, Goal};

// A goal's set, and the table in which its forms stand. What a step does with the forms that it
// names are methods: here what all steps look up and yield, in `rules` and `successor` the rest.
#[derive(Drop)]
pub(crate) struct GoalForms<'a> {
    pub(crate) table: &'a Table,
    pub(crate) set: u64,
}

impl GoalForms<'_> {
    // The form that a step names, which has to be in the goal.
    pub(crate) fn named(&self, a: u8) -> Result<Form, Refusal>
        ensures value { result ≡ (if is_member self.now.set a
            then Ok (form_at self.now.table.now a) else Err NotInGoal) }
        ensures small { IfOk result (λ x. Earlier 64 x × (a < 64)) }
    {
        if !contains(self.set, a) {
            return Err(Refusal::NotInGoal);
        }
        Ok(self.table.form(a))
    }

    // Whether form b of the table is the next form of a, over some successors or over all.
    pub(crate) fn is_next_of(&self, q: Quantifier, a: u8, b: u8) -> bool
        ensures value { result ≡ is_next_of q a (form_at self.now.table.now b) }
        ensures small { result ≡ true → b < 64 }
    {
        self.table.form(b) == Form::Next(q, a)
    }

    // The goal in which a gives way to the form i. One form and two have a function each, as they have a definition each: over an
    // array of forms each clause would be a fold.
    pub(crate) fn yield_one(&self, a: u8, i: u8, focus: Focus) -> Goal
        requires { (a < 64) × (i < 64) }
        ensures { result ≡ yield₁ self.now.set a i focus }
    {
        Goal {
            set: with(without(self.set, a), i),
            focus,
        }
    }

    // The goal in which a gives way to the forms i and j.
    pub(crate) fn yield_two(&self, a: u8, i: u8, j: u8, focus: Focus) -> Goal
        requires { (a < 64) × ((i < 64) × (j < 64)) }
        ensures { result ≡ yield₂ self.now.set a i j focus }
    {
        Goal {
            set: with(with(without(self.set, a), i), j),
            focus,
        }
    }
}
