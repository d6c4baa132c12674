// Searches by example: both sets, and one that rounds read, in one array; and rounds that are written for any such memory.
ghost use Rattle.std.specs.Prelude.{◌≡◌, ℕ, ◌+◌, ◌*◌, ◌/◌, ◌<◌, ◌≤◌, ◌==◌, length, slice_index};
ghost use Rattle.ctl.specs.Rounds.{Subset};
ghost use Rattle.examples.specs.Goals.{after, alone, IsMonotone-after};

use fixpoint::fixed_point::FixedPoint;
use fixpoint::pairs::SetPair;
use fixpoint::round::PairRound;
use fixpoint::search::{fill_pair, search_pair};
use std::test::Fail;

// Three cells for each index: 1 at 3i where i is in the current set, at 3i + 1 where it is in the next one, and at 3i + 2
// where it is in each given set.
#[derive(Drop)]
struct Triples<'a> {
    cells: &'a mut [u8],
}

impl<'a> SetPair for Triples<'a> {
    ghost room = { λ s. length s.cells.now / 3 };

    ghost current = { λ s i. slice_index s.cells.now (3 * i) == 1 };

    ghost next = { λ s i. slice_index s.cells.now (3 * i + 1) == 1 };

    ghost Rest = { Subset };

    ghost rest = { λ s i. slice_index s.cells.now (3 * i + 2) == 1 };

    ghost given = { λ goals f. goals };

    fn in_current(&self, i: usize) -> bool {
        self.cells[3 * i] == 1
    }

    fn in_next(&self, i: usize) -> bool {
        self.cells[3 * i + 1] == 1
    }

    fn in_given(&self, _f: u8, i: usize) -> bool {
        self.cells[3 * i + 2] == 1
    }

    fn set_current(&mut self, i: usize, b: bool) {
        self.cells[3 * i] = u8::from(b);
    }

    fn set_next(&mut self, i: usize, b: bool) {
        self.cells[3 * i + 1] = u8::from(b);
    }
}

// Of five indices the goals, and each whose predecessor is in the set; that of 0 is 0.
#[derive(Drop)]
struct After;

impl PairRound for After {
    ghost size = { λ r. 5 };

    ghost step = { λ r. after };

    fn count(&self) -> usize {
        5
    }

    fn holds<S: SetPair>(&self, i: usize, sets: &S) -> bool {
        sets.in_given(0, i) || sets.in_current(i.saturating_sub(1))
    }

    ghost monotone = { λ r. IsMonotone-after 5 };
}

// Of five indices the goals, whatever the set.
#[derive(Drop)]
struct Alone;

impl PairRound for Alone {
    ghost size = { λ r. 5 };

    ghost step = { λ r. alone };

    fn count(&self) -> usize {
        5
    }

    fn holds<S: SetPair>(&self, i: usize, sets: &S) -> bool {
        sets.in_given(0, i)
    }

    ghost monotone = { λ r given x y inside i h e. e };
}

// Six indices: the goals are 1 and, past the five, 5. What the sets are before a search makes no difference.
const CELLS: [u8; 18] = [0, 1, 0, 0, 0, 1, 0, 0, 0, 1, 1, 0, 0, 0, 0, 1, 0, 1];

// Any round of at most six indices: how many rounds it takes, and whether 0, 1, 4 and 5 are then in the set.
fn searched<R: PairRound>(round: &R, wanted: FixedPoint) -> (usize, [bool; 4])
    requires { R.size round.now ≤ 6 }
{
    let mut cells = CELLS;
    let mut sets = Triples { cells: &mut cells };
    let rounds = search_pair(round, &mut sets, wanted);
    let inside = [
        sets.in_current(0),
        sets.in_current(1),
        sets.in_current(4),
        sets.in_current(5),
    ];
    (rounds, inside)
}

#[test]
fn two_sets_in_one_array_are_searched(rt: HostRuntime) {
    // Index 1, then one more in each round, then a round that changes nothing.
    assert_eq!(rt;
        searched(&After, FixedPoint::Least),
        (5, [false, true, true, true])
    );
    // All stay, since 0 keeps itself.
    assert_eq!(rt;
        searched(&After, FixedPoint::Greatest),
        (1, [true, true, true, true])
    );
    // The goals, and a round that changes nothing.
    assert_eq!(rt;
        searched(&Alone, FixedPoint::Greatest),
        (2, [false, true, false, true])
    );
}

#[test]
fn a_set_is_filled_beside_what_is_read(rt: HostRuntime) {
    let mut cells = CELLS;
    fill_pair(&Alone, &mut Triples { cells: &mut cells });
    // Index 1 comes in and index 3 goes out; the next set and the goals stay, and so does the sixth index.
    assert_eq!(rt;
        cells,
        [0, 1, 0, 1, 0, 1, 0, 0, 0, 0, 1, 0, 0, 0, 0, 1, 0, 1]
    );
}
