// The step rules: what a step yields at a goal below its path.
ghost use Rattle.std.specs.Prelude.{◌≡◌, ◌&&◌};
ghost use Rattle.forms.specs.declared.refusal.Refusal.TheVariants.{NotInGoal};
ghost use Rattle.forms.specs.Forms.{form as form_at};
ghost use Rattle.forms.specs.Sets.{member as is_member};
ghost use Rattle.tableau.specs.Rules.{outcome as rule, outcome_given, on_clash, on_absurdity, on_split, on_choose, on_unroll, on_refocus};
ghost use Rattle.walk.specs.Answers.{answer, answer_on};
ghost use Rattle.walk.specs.Path.{trail_above};

use crate::goal_forms::GoalForms;
use crate::path::repeats;
use forms::{Form, Refusal, Table};
use tableau::{Focus, Frame, Goal, Step};

/// What a step yields: nothing where the goal closes, or the first child and perhaps a second.
pub type Children = Option<(Goal, Option<Goal>)>;

// What the step yields at the goal. The step and the focus of the goal decide the focus of each
// child. A match, since the cases are the rules: a closure for each would hide them.
pub(crate) fn take_step(
    table: &Table,
    path: &[Frame],
    goal: Goal,
    step: Step,
) -> Result<Children, Refusal>
    ensures { result ≡ answer (rule table.now (trail_above path.now) goal step) }
{
    let forms = GoalForms {
        table,
        set: goal.set,
    };
    match (step, goal.focus) {
        (Step::Clash(a, b), _) => forms.clash(a, b),
        (Step::Absurdity(a), _) => forms.absurdity(a),
        (Step::Split(a), focus) => forms.split(a, focus),
        (Step::Choose(a), focus) => forms.choose(a, focus),
        (Step::Unroll(a, b), Focus::At(u)) if u == a => {
            forms.unroll(a, b, (Focus::Nowhere, Focus::Ahead { x: b, u }))
        }
        (Step::Unroll(a, b), focus) => forms.unroll(a, b, (focus, focus)),
        (Step::Refocus(a), _) => forms.refocus(a, Focus::At(a)),
        (Step::Advance(a), Focus::Ahead { x, u }) if forms.leads_on(a, x) => {
            forms.advance(a, Focus::At(u))
        }
        (Step::Advance(a), _) => forms.advance(a, Focus::Nowhere),
        (Step::Repeat(levels), Focus::At(u)) if repeats(path, levels, u, goal.set) => Ok(None),
        (Step::Repeat(_), _) => Err(Refusal::DoesNotClose),
    }
}

impl GoalForms<'_> {
    // Step 1.
    fn clash(&self, a: u8, b: u8) -> Result<Children, Refusal>
        ensures { result ≡ answer (outcome_given
            (is_member self.now.set a && is_member self.now.set b) NotInGoal
            (on_clash (form_at self.now.table.now a) (form_at self.now.table.now b))) }
    {
        match (self.named(a)?, self.named(b)?) {
            (Form::Atom(p), Form::Absent(r)) if p == r => Ok(None),
            _ => Err(Refusal::DoesNotFit),
        }
    }

    // Step 2.
    fn absurdity(&self, a: u8) -> Result<Children, Refusal>
        ensures { result ≡ answer_on self.now a on_absurdity }
    {
        match self.named(a)? {
            Form::Falsity => Ok(None),
            _ => Err(Refusal::DoesNotFit),
        }
    }

    // Step 3.
    fn split(&self, a: u8, focus: Focus) -> Result<Children, Refusal>
        ensures { result ≡ answer_on self.now a (on_split self.now.set a focus) }
    {
        match self.named(a)? {
            Form::And(i, j) => Ok(Some((self.yield_two(a, i, j, focus), None))),
            _ => Err(Refusal::DoesNotFit),
        }
    }

    // Step 4.
    fn choose(&self, a: u8, focus: Focus) -> Result<Children, Refusal>
        ensures { result ≡ answer_on self.now a (on_choose self.now.set a focus) }
    {
        match self.named(a)? {
            Form::Or(i, j) => {
                let first = self.yield_one(a, i, focus);
                let second = self.yield_one(a, j, focus);
                Ok(Some((first, Some(second))))
            }
            _ => Err(Refusal::DoesNotFit),
        }
    }

    // Step 5, with the focus of the first child and of the second. Inlined by a hint, as `advance` is, since two arms call each; the
    // other rules have a caller each and need none.
    #[inline(always)]
    fn unroll(&self, a: u8, b: u8, focus: (Focus, Focus)) -> Result<Children, Refusal>
        ensures { result ≡ answer_on self.now a
            (λ x. on_unroll self.now.set a b focus.0 focus.1 x (form_at self.now.table.now b)) }
    {
        let (on_first, on_second) = focus;
        match self.named(a)? {
            Form::Until(q, i, j) if self.is_next_of(q, a, b) => {
                let first = self.yield_one(a, j, on_first);
                let second = self.yield_two(a, i, b, on_second);
                Ok(Some((first, Some(second))))
            }
            Form::Release(q, i, j) if self.is_next_of(q, a, b) => {
                let first = self.yield_two(a, i, j, on_first);
                let second = self.yield_two(a, j, b, on_second);
                Ok(Some((first, Some(second))))
            }
            _ => Err(Refusal::DoesNotFit),
        }
    }

    // Step 6.
    fn refocus(&self, a: u8, focus: Focus) -> Result<Children, Refusal>
        ensures { result ≡ answer_on self.now a (on_refocus self.now.set focus) }
    {
        match self.named(a)? {
            Form::Until(..) => {
                let child = Goal {
                    set: self.set,
                    focus,
                };
                Ok(Some((child, None)))
            }
            _ => Err(Refusal::DoesNotFit),
        }
    }
}
