// The frames of a path, which is kept with the root first.
ghost use Rattle.std.specs.Prelude.{◌≡◌, ◌≤◌, ◌&&◌, reverse, length};
ghost use Rattle.forms.specs.Sets.{is_subset as is_contained};
ghost use Rattle.tableau.specs.Ancestors.{took_refocus, unrolled_focus, repeats as is_repeat};
ghost use Rattle.tableau.specs.Walk.{resume as resumed, seconds};
ghost use Rattle.walk.specs.Path.{trail_above, walk_at};

use arrayvec::ArrayVec;
use forms::set::is_subset;
use tableau::{Ancestor, Focus, Frame, Goal, Step};

// With the present goal, a path has 256.
pub(crate) type Path = ArrayVec<Frame, 255>;

// How many second children wait.
pub(crate) fn count_seconds(path: &[Frame]) -> usize
    ensures count { result ≡ length (seconds (reverse path.now)) }
    ensures few { result ≤ length path.now }
{
    // a sum, which goes over the path without a branch, as `filter` does not
    path.iter()
        .map(|frame| usize::from(frame.second.is_some()))
        .sum()
}

// Goes back to the nearest second child that waits.
pub(crate) fn resume(path: &mut Path) -> Option<Goal>
    ensures { resumed (reverse path.old.items) ≡ walk_at result path.new.items }
{
    while let Some(frame) = path.as_mut_slice().last_mut() {
        if let Some(goal) = frame.second.take() {
            return Some(goal);
        }
        path.pop();
    }
    None
}

// Whether the goal so many levels up the path unrolled u in focus, with no step 6 between, and its
// set is contained in this one.
#[tactic(auto, using(crate::proofs::Above::above_root, crate::proofs::Above::no_level, crate::proofs::Above::parent_level, crate::proofs::Above::across_refocus, crate::proofs::Above::next_level))]
pub(crate) fn repeats(path: &[Frame], levels: u8, u: u8, set: u64) -> bool
    ensures { result ≡ is_repeat u set levels (trail_above path.now) }
{
    let [above @ .., nearest] = path else {
        return false;
    };
    // levels are counted: these are no numbers of kinds
    match levels {
        0 => false,
        1 => repeated(u, set, nearest.ancestor),
        _ if took_refocus(nearest.ancestor) => false,
        _ => repeats(above, levels - 1, u, set),
    }
}

// Whether the ancestor unrolled u in focus, and its set is contained in this one.
fn repeated(u: u8, set: u64, above: Ancestor) -> bool
    ensures { result ≡ (unrolled_focus u above && is_contained above.goal.set set) }
{
    match (above.step, above.goal.focus) {
        (Step::Unroll(a, _), Focus::At(v)) => { a == u && v == u && is_subset(above.goal.set, set) }
        _ => false,
    }
}

fn took_refocus(above: Ancestor) -> bool
    ensures { result ≡ took_refocus above }
{
    matches!(above.step, Step::Refocus(_))
}
